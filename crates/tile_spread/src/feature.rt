//! One feature, put in all intervals of a map.

ghost use Rattle.std.specs.Prelude.{◌≡◌, ◌+◌, ◌*◌, ◌≤◌, ◌<◌, ◌^◌, ◌++◌, ◌&&◌, true, length, slice_get, Some, IsTrue};
ghost use Rattle.std.specs.Prelude.{OnOk, OnErr};
ghost use Rattle.std.specs.List.{AllByRecursion};
ghost use Rattle.mf_base.specs.Ranges.{is_latitude, is_longitude, is_rect};
ghost use Rattle.mf_edge.specs.Device.{CountsOne};
ghost use Rattle.mf_edge.specs.Spill.{TouchesOnly, part_limit};
ghost use Rattle.map_model.specs.Intervals.{are_intervals};
ghost use Rattle.mf_rows.specs.Fields.{IsRow};
ghost use Rattle.mf_rows.specs.Kinds.{tile_kind};
ghost use Rattle.mf_rows.specs.Records.{Record};
ghost use Rattle.mf_rows.specs.RecordUnits.{unit_count};
ghost use Rattle.mf_rows.specs.Shapes.{IsFeature};
ghost use Rattle.mf_base.specs.Spelling.{IsBytes};
ghost use Rattle.spill_parts.specs.Parts.{IsHeld};
ghost use Rattle.spill_parts.specs.Shaped.{Spelled};
ghost use Rattle.tile_spread.specs.Pass.{IsOnEarth, IsOneMore, heads_from, spread_of};

use crate::interval::put_interval;
use mercator_rows::rows::Rows;
use mf_base::place::Rect;
use mf_base::tile::Interval;
use mf_edge::{Failed, Spill};
use mf_rows::features::is_feature;
use mf_rows::head::Head;
use mf_rows::kinds::TileRow;
use mf_rows::records::Records;
use spill_parts::Writer;
use tile_assign::rect::rect_of;

/// The intervals and the box of a map, and the table that tells rows of tiles.
#[derive(Drop)]
pub(crate) struct Grid<'a> {
    pub(crate) intervals: &'a [Interval],
    pub(crate) bounds: &'a Rect,
    pub(crate) rows: &'a Rows,
    ghost intervals_are: { IsTrue (are_intervals intervals.now) },
    ghost bounds_are: { IsTrue (is_rect bounds.now) },
}

/// Puts the feature that the first record of a desk is, in all intervals. Another record is a fault of the store. After
/// `Failed` the writer is not used again.
pub(crate) fn put_feature<P: Spill>(
    grid: &Grid<'_>,
    records: &Records,
    out: &mut Writer<TileRow>,
    spill: &mut P,
) -> Result<(), Failed>
    requires started { (P.state spill.old).is_started ≡ true }
    requires held { IsHeld tile_kind out.old (P.state spill.old) }
    requires some { 0 < length records.now.records }
    requires feature { (P.state spill.old).tells ≡ true → (r : Record) → slice_get records.now.records 0 ≡ Some r
        → IsFeature r × IsOnEarth r }
    ensures put { OnOk result ((r : Record) → slice_get records.now.records 0 ≡ Some r
        → IsOneMore grid.now.intervals.now grid.now.bounds.now r out.old.rows out.new.rows) }
    ensures held { OnOk result (IsHeld tile_kind out.new (P.state spill.new)) }
    ensures same_faults { OnOk result ((P.state spill.new).faults ≡ (P.state spill.old).faults) }
    ensures failed { OnErr result (CountsOne (P.state spill.old).faults (P.state spill.new).faults) }

    // Any units that spell the record make as many rows.
    ensures within { (s : Spelled) → slice_get records.now.records 0 ≡ Some s.told
        → length s.units ≡ unit_count s.told
        → 39 * (length out.old.rows + length (spread_of grid.now.intervals.now grid.now.bounds.now s)) ≤ part_limit
        → (P.state spill.new).is_overrun ≡ (P.state spill.old).is_overrun }
    ensures same_part { out.new.part ≡ out.old.part }
    ensures only { TouchesOnly out.old.part (P.state spill.old) (P.state spill.new) }
{
    prove!(records.spare() <= 16_777_216);
    let view = records.view(0);
    if !is_feature(&view) {
        return Err(spill.damaged());
    }
    let rect = rect_of(&view);
    if !is_rect(&rect) {
        return Err(spill.damaged());
    }
    let units = records.units(0);
    are_rows(units);
    put_intervals(grid, &rect, view.head(), units, out, spill)
}

// Whether a rectangle is one on the earth.
fn is_rect(rect: &Rect) -> bool
    ensures { result ≡ is_rect rect.now }
{
    are_on_earth(rect) && rect.min_lat <= rect.max_lat && rect.min_lon <= rect.max_lon
}

// Whether the corners of a rectangle are on the earth.
fn are_on_earth(rect: &Rect) -> bool
    ensures { result ≡ is_latitude rect.now.min_lat && is_latitude rect.now.max_lat
        && is_longitude rect.now.min_lon && is_longitude rect.now.max_lon }
{
    is_latitude(rect.min_lat)
        && is_latitude(rect.max_lat)
        && is_longitude(rect.min_lon)
        && is_longitude(rect.max_lon)
}

// Whether a number of microdegrees is a latitude.
fn is_latitude(z: i32) -> bool
    ensures { result ≡ is_latitude z }
{
    -90_000_000 <= z && z <= 90_000_000
}

// Whether a number of microdegrees is a longitude.
fn is_longitude(z: i32) -> bool
    ensures { result ≡ is_longitude z }
{
    -180_000_000 <= z && z <= 180_000_000
}

// Each unit has sixteen bytes.
fn are_rows(units: &[[u8; 16]])
    ensures { AllByRecursion (IsRow 16) units.now }
{
    are_bytes(units.as_flattened());
}

// Bytes are such.
fn are_bytes(bytes: &[u8])
    ensures { IsBytes bytes.now }
{}

// Puts a feature of this head and rectangle in all intervals.
fn put_intervals<P: Spill>(
    grid: &Grid<'_>,
    rect: &Rect,
    head: &Head,
    units: &[[u8; 16]],
    out: &mut Writer<TileRow>,
    spill: &mut P,
) -> Result<(), Failed>
    requires started { (P.state spill.old).is_started ≡ true }
    requires held { IsHeld tile_kind out.old (P.state spill.old) }
    requires few { length units.now < 2 ^ 32 }
    requires rect { IsTrue (is_rect rect.now) }
    ensures put { OnOk result (out.new.rows
        ≡ out.old.rows ++ heads_from grid.now.bounds.now rect.now head.now units.now 0 grid.now.intervals.now) }
    ensures held { OnOk result (IsHeld tile_kind out.new (P.state spill.new)) }
    ensures same_faults { OnOk result ((P.state spill.new).faults ≡ (P.state spill.old).faults) }
    ensures failed { OnErr result (CountsOne (P.state spill.old).faults (P.state spill.new).faults) }
    ensures within { 39 * (length out.old.rows
        + length (heads_from grid.now.bounds.now rect.now head.now units.now 0 grid.now.intervals.now)) ≤ part_limit
        → (P.state spill.new).is_overrun ≡ (P.state spill.old).is_overrun }
    ensures same_part { out.new.part ≡ out.old.part }
    ensures only { TouchesOnly out.old.part (P.state spill.old) (P.state spill.new) }
{
    for (i, interval) in grid.intervals.iter().enumerate() {
        put_interval(
            i as u8,
            interval,
            grid.bounds,
            rect,
            grid.rows,
            head,
            units,
            out,
            spill,
        )?;
    }
    Ok(())
}
