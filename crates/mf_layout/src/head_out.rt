//! The header of the map.

ghost use Rattle.std.specs.Prelude.{◌≡◌, ◌≤◌, map, take, length, IsTrue};
ghost use Rattle.std.specs.List.{AllByRecursion};
ghost use Rattle.mf_base.specs.Buffer.{HasRoom, AppendsTo};
ghost use Rattle.map_model.specs.Intervals.{are_intervals};
ghost use Rattle.map_model.specs.Header.{header_size, header_bytes, sub_files};
ghost use Rattle.map_header.specs.Shown.{settings_of, sub_file_of};
ghost use Rattle.mf_layout.specs.SubFiles.{IsSubFile};
ghost use Rattle.mf_layout.specs.declared.sub_files.SubFileSize.{SubFileSize as Size};

use crate::sub_files::SubFileSize;
use map_header::head_settings::HeadSettings;
use map_header::header::{header_size, put_header};
use map_header::sub_file::SubFile;
use map_header::tag_source::TagSource;
use mf_base::out_buf::OutBuf;
use mf_base::place::Rect;

// Puts the header of a map whose sub-files have these sizes into a buffer.
pub(crate) fn put_head<T: TagSource>(
    out: &mut OutBuf,
    set: &HeadSettings,
    bounds: &Rect,
    tags: &T,
    sizes: &[SubFileSize],
)
    requires intervals { IsTrue (are_intervals set.now.intervals.items) }
    requires many { length sizes.now ≡ length set.now.intervals.items }
    requires each { AllByRecursion IsSubFile sizes.now }
    requires room { HasRoom out.old (header_size (settings_of set.now) (T.names tags.now)) }
    ensures { AppendsTo out.old out.new (header_bytes (settings_of set.now) bounds.now (T.names tags.now)
        (sub_files (header_size (settings_of set.now) (T.names tags.now)) (map (λ (s : Size). s.bytes) sizes.now))) }
{
    let subs = placed(header_size(set, tags), sizes);
    put_header(out, set, bounds, tags, &subs[..sizes.len()]);
}

// Where sub-files of these sizes stand, the first behind so many bytes.
fn placed(head: u64, sizes: &[SubFileSize]) -> [SubFile; 8]
    requires few { length sizes.now ≤ 8 }
    requires each { AllByRecursion IsSubFile sizes.now }
    requires head { head ≤ 4210000 }
    ensures { map sub_file_of (take (length sizes.now) result)
        ≡ sub_files head (map (λ (s : Size). s.bytes) sizes.now) }
{
    let mut subs = [SubFile { start: 0, size: 0 }; 8];
    let mut start = head;
    for (i, size) in sizes.iter().enumerate() {
        subs[i] = SubFile {
            start,
            size: size.bytes,
        };
        start += size.bytes;
    }
    subs
}
