//! The zoom table of a tile.

ghost use Rattle.std.specs.Prelude.{◌≡◌, ℕ, ◌+◌, ◌≤◌, ◌<◌, ◌^◌, length, get_or, slice_set, map, not};
ghost use Rattle.std.specs.List.{AllByRecursion};
ghost use Rattle.mf_base.specs.Buffer.{HasRoom, AppendsTo};
ghost use Rattle.map_model.specs.Members.{is_node_kind, is_poi, is_way};
ghost use Rattle.map_model.specs.Intervals.{raised_zoom};
ghost use Rattle.tile_body.specs.Tiles.{features_told, count_at, table_bytes};
ghost use Rattle.tile_body.specs.Tables.{AreLow, AreCounts, AreFew, counted_if, levels_bytes};

use crate::class::is_poi;
use mf_base::out_buf::OutBuf;
use mf_base::tile::Interval;
use mf_base::vbe::put_vbe_u;
use mf_rows::head::Head;
use mf_rows::records::Records;

/// Puts the zoom table of these members: for each zoom level the number of POIs and the number of ways with that
/// effective zoom.
pub(crate) fn put_table(out: &mut OutBuf, records: &Records, interval: &Interval)
    requires zooms { (interval.now.min ≤ interval.now.max) × (interval.now.max ≤ 21) }
    requires low { AreLow interval.now records.now.records }
    requires few { length records.now.records < 2 ^ 28 }
    requires room { HasRoom out.old (length (table_bytes interval.now (features_told records.now.records)) + 10) }
    ensures appends { AppendsTo out.old out.new (table_bytes interval.now (features_told records.now.records)) }
{
    let mut pois = [0; 22];
    let mut ways = [0; 22];
    count_members(records, interval, &mut pois, &mut ways);
    put_counts(out, &pois, &ways, interval);
}

// Puts the numbers of POIs and ways of each zoom level.
fn put_counts(out: &mut OutBuf, pois: &[u32; 22], ways: &[u32; 22], interval: &Interval)
    requires zooms { (interval.now.min ≤ interval.now.max) × (interval.now.max ≤ 21) }
    requires room { HasRoom out.old (length (levels_bytes pois.now ways.now interval.now) + 10) }
    ensures appends { AppendsTo out.old out.new (levels_bytes pois.now ways.now interval.now) }
{
    let mut zoom = interval.min;
    while zoom <= interval.max {
        let level = usize::from(zoom);
        put_vbe_u(out, u64::from(pois[level]));
        put_vbe_u(out, u64::from(ways[level]));
        zoom += 1;
    }
}

// Counts the members by class and effective zoom.
fn count_members(records: &Records, interval: &Interval, pois: &mut [u32; 22], ways: &mut [u32; 22])
    requires zooms { (interval.now.min ≤ interval.now.max) × (interval.now.max ≤ 21) }
    requires low { AreLow interval.now records.now.records }
    requires few { length records.now.records < 2 ^ 28 }
    requires no_pois { (z : ℕ) → get_or pois.old z 0 ≡ 0 }
    requires no_ways { (z : ℕ) → get_or ways.old z 0 ≡ 0 }
    ensures pois { AreCounts is_poi interval.now (features_told records.now.records) pois.new }
    ensures ways { AreCounts is_way interval.now (features_told records.now.records) ways.new }
{
    let mut i = 0;
    while i < records.len() {
        count_one(records.head(i), interval, pois, ways);
        i += 1;
    }
}

// Counts one member by its head.
fn count_one(head: &Head, interval: &Interval, pois: &mut [u32; 22], ways: &mut [u32; 22])
    requires zooms { (interval.now.min ≤ interval.now.max) × (interval.now.max ≤ 21) }
    requires low { head.now.zoom ≤ interval.now.max }
    requires few { AreFew pois.old × AreFew ways.old }
    ensures pois { pois.new ≡ counted_if (is_node_kind head.now.kind) pois.old (raised_zoom interval.now head.now.zoom) }
    ensures ways { ways.new
        ≡ counted_if (not (is_node_kind head.now.kind)) ways.old (raised_zoom interval.now head.now.zoom) }
{
    let zoom = usize::from(head.zoom.max(interval.min));
    if is_poi(head) {
        pois[zoom] += 1;
    } else {
        ways[zoom] += 1;
    }
}
