//! The whole header of a map.

ghost use Rattle.std.specs.Prelude.{◌≡◌, ◌+◌, ◌*◌, ◌≤◌, ◌<◌, ◌^◌, ◌++◌, length, map, sum_by, IsTrue};
ghost use Rattle.mf_base.specs.Buffer.{HasRoom, AppendsTo};
ghost use Rattle.mf_base.specs.Spelling.{big_endian};
ghost use Rattle.map_model.specs.Header.{magic_word, box_bytes, middle_bytes, header_size, file_size, header_bytes};
ghost use Rattle.map_model.specs.Intervals.{are_intervals};
ghost use Rattle.map_header.specs.Shown.{settings_of, sub_file_of, middle_size};

use crate::head_settings::HeadSettings;
use crate::intervals::put_intervals;
use crate::options::{flags, put_options, put_signed, size_of_options};
use crate::sub_file::SubFile;
use crate::tag_source::TagSource;
use crate::tags::{put_tags, tags_size};
use mf_base::fixed::put_be;
use mf_base::kind::List;
use mf_base::out_buf::OutBuf;
use mf_base::place::Rect;

// The bytes up to the end of the bounding box.
const FRONT_SIZE: u64 = 60;

// Those up to the end of the header size, which counts only what follows it.
const UNCOUNTED: u64 = 24;

// Those of tile size, projection, flags and number of intervals.
const FIXED_SIZE: u64 = 13;

// Those of an interval.
const INTERVAL_SIZE: u64 = 19;

const VERSION: u64 = 5;

// In pixels.
const TILE_SIZE: u64 = 256;

/// How many bytes the header has, magic bytes and size field counted in.
pub fn header_size<T: TagSource>(set: &HeadSettings, tags: &T) -> u64
    ensures size { result ≡ header_size (settings_of set.now) (T.names tags.now) }
    ensures most { result ≤ 4210000 }
{
    FRONT_SIZE + size_of_middle(set, tags) + INTERVAL_SIZE * set.intervals.len() as u64
}

/// Puts the header of a map with this bounding box and one sub-file for each interval. The first sub-file starts behind
/// the header, each other behind the one before, without a gap.
pub fn put_header<T: TagSource>(
    out: &mut OutBuf,
    set: &HeadSettings,
    bounds: &Rect,
    tags: &T,
    subs: &[SubFile],
)
    requires intervals { IsTrue (are_intervals set.now.intervals.items) }
    requires same { length subs.now ≡ length set.now.intervals.items }
    requires ends { file_size (settings_of set.now) (T.names tags.now) (map sub_file_of subs.now) < 2 ^ 63 }
    requires room { HasRoom out.old (header_size (settings_of set.now) (T.names tags.now)) }
    ensures { AppendsTo out.old out.new
        (header_bytes (settings_of set.now) bounds.now (T.names tags.now) (map sub_file_of subs.now)) }
{
    let size = header_size(set, tags);
    put_front(out, size - UNCOUNTED, size + sizes_of(subs), set.date);
    put_box(out, bounds);
    put_middle(out, set, tags);
    put_intervals(out, &set.intervals, subs);
}

// How many bytes all sub-files have.
fn sizes_of(subs: &[SubFile]) -> u64
    requires { sum_by (λ s. s.size) (map sub_file_of subs.now) < 2 ^ 63 }
    ensures { result ≡ sum_by (λ s. s.size) (map sub_file_of subs.now) }
{
    subs.iter().map(|sub| sub.size).sum()
}

// How many bytes stand between the box and the intervals.
fn size_of_middle<T: TagSource>(set: &HeadSettings, tags: &T) -> u64
    ensures size { result ≡ middle_size (settings_of set.now) (T.names tags.now) }
    ensures most { result ≤ 4204000 }
{
    FIXED_SIZE + size_of_options(set) + tags_size(tags, List::Poi) + tags_size(tags, List::Way)
}

// Puts the fields before the box: the magic bytes, the header size, the version, the file size and the date.
fn put_front(out: &mut OutBuf, after: u64, file_size: u64, date: u64)
    requires after { after < 2 ^ 32 }
    requires room { HasRoom out.old 44 }
    ensures appends { AppendsTo out.old out.new
        (magic_word ++ big_endian 4 after ++ big_endian 4 5 ++ big_endian 8 file_size ++ big_endian 8 date) }
    ensures most { length out.new.bytes ≤ length out.old.bytes + 44 }
{
    out.put(b"mapsforge binary OSM");
    put_be(out, after, 4);
    put_be(out, VERSION, 4);
    put_be(out, file_size, 8);
    put_be(out, date, 8);
}

// Puts the bounding box: the least latitude and longitude, then the greatest.
fn put_box(out: &mut OutBuf, bounds: &Rect)
    requires room { HasRoom out.old 16 }
    ensures appends { AppendsTo out.old out.new (box_bytes bounds.now) }
    ensures most { length out.new.bytes ≤ length out.old.bytes + 16 }
{
    put_signed(out, bounds.min_lat);
    put_signed(out, bounds.min_lon);
    put_signed(out, bounds.max_lat);
    put_signed(out, bounds.max_lon);
}

// Puts the fields from the tile size to the number of intervals.
fn put_middle<T: TagSource>(out: &mut OutBuf, set: &HeadSettings, tags: &T)
    requires room { HasRoom out.old (middle_size (settings_of set.now) (T.names tags.now) + 10) }
    ensures appends { AppendsTo out.old out.new (middle_bytes 256 0 (settings_of set.now) (T.names tags.now)) }
    ensures most { length out.new.bytes ≤ length out.old.bytes + middle_size (settings_of set.now) (T.names tags.now) }
{
    put_be(out, TILE_SIZE, 2);
    out.put(b"\x08Mercator");
    out.put(&[flags(set)]);
    put_options(out, set);
    put_tags(out, tags, List::Poi);
    put_tags(out, tags, List::Way);
    put_be(out, set.intervals.len() as u64, 1);
}
