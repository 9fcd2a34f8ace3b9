//! The intervals of a header, each with its sub-file.

ghost use Rattle.std.specs.Prelude.{◌≡◌, ◌+◌, ◌*◌, ◌≤◌, length, zip, map, flat_map};
ghost use Rattle.mf_base.specs.Buffer.{HasRoom, AppendsTo};
ghost use Rattle.map_model.specs.Header.{interval_bytes};
ghost use Rattle.map_header.specs.Shown.{sub_file_of};

use crate::sub_file::SubFile;
use mf_base::fixed::put_be;
use mf_base::out_buf::OutBuf;
use mf_base::tile::Interval;

/// Puts all intervals, each with its sub-file: 19 bytes each.
pub fn put_intervals(out: &mut OutBuf, intervals: &[Interval], subs: &[SubFile])
    requires same { length subs.now ≡ length intervals.now }
    requires room { HasRoom out.old (19 * length intervals.now) }
    ensures { AppendsTo out.old out.new (flat_map interval_bytes (zip intervals.now (map sub_file_of subs.now))) }
{
    for (i, interval) in intervals.iter().enumerate() {
        put_interval(out, *interval, subs[i]);
    }
}

// Puts an interval: its zooms, then where its sub-file starts and how many bytes it has.
fn put_interval(out: &mut OutBuf, interval: Interval, sub: SubFile)
    requires room { HasRoom out.old 19 }
    ensures appends { AppendsTo out.old out.new (interval_bytes (interval, sub_file_of sub)) }
    ensures most { length out.new.bytes ≤ length out.old.bytes + 19 }
{
    put_be(out, u64::from(interval.base), 1);
    put_be(out, u64::from(interval.min), 1);
    put_be(out, u64::from(interval.max), 1);
    put_be(out, sub.start, 8);
    put_be(out, sub.size, 8);
}
