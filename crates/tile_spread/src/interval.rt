//! The units of a feature, put for the tiles of an interval that the feature shares with the box of the map.

ghost use Rattle.std.specs.Prelude.{◌≡◌, ◌+◌, ◌*◌, ◌≤◌, ◌<◌, ◌^◌, ◌++◌, true, length, if◌then◌else◌};
ghost use Rattle.std.specs.Prelude.{IsTrue, IfSome, OnOk, OnErr};
ghost use Rattle.mf_base.specs.Ranges.{is_rect};
ghost use Rattle.mf_edge.specs.Device.{CountsOne};
ghost use Rattle.mf_edge.specs.Spill.{TouchesOnly, part_limit};
ghost use Rattle.map_model.specs.Members.{is_node_kind};
ghost use Rattle.map_model.specs.Intervals.{raised_zoom};
ghost use Rattle.mf_rows.specs.Kinds.{tile_kind};
ghost use Rattle.spill_parts.specs.Parts.{IsHeld};
ghost use Rattle.tile_spread.specs.Spread.{head_row, some_rows, both_tiles, head_rows, IsSmall};

use crate::tiles::put_tiles;
use mercator_rows::rows::Rows;
use mf_base::kind::EntityKind;
use mf_base::place::Rect;
use mf_base::tile::{Interval, TileRect};
use mf_edge::{Failed, Spill};
use mf_rows::head::Head;
use mf_rows::kinds::TileRow;
use spill_parts::Writer;
use tile_assign::tile_rect::{common, tiles};

/// Puts the units of a feature of this head and rectangle for each tile of an interval that the rectangle and the box
/// have in common, where the feature's zoom is at most the maximum. After `Failed` the writer is not used again.
pub(crate) fn put_interval<P: Spill>(
    index: u8,
    interval: &Interval,
    bounds: &Rect,
    rect: &Rect,
    rows: &Rows,
    head: &Head,
    units: &[[u8; 16]],
    out: &mut Writer<TileRow>,
    spill: &mut P,
) -> Result<(), Failed>
    requires started { (P.state spill.old).is_started ≡ true }
    requires held { IsHeld tile_kind out.old (P.state spill.old) }
    requires few { length units.now < 2 ^ 32 }
    requires base { interval.now.base ≤ 16 }
    requires bounds { IsTrue (is_rect bounds.now) }
    requires rect { IsTrue (is_rect rect.now) }
    ensures put { OnOk result (out.new.rows
        ≡ out.old.rows ++ head_rows bounds.now rect.now index interval.now head.now units.now) }
    ensures held { OnOk result (IsHeld tile_kind out.new (P.state spill.new)) }
    ensures same_faults { OnOk result ((P.state spill.new).faults ≡ (P.state spill.old).faults) }
    ensures failed { OnErr result (CountsOne (P.state spill.old).faults (P.state spill.new).faults) }
    ensures within { 39 * (length out.old.rows
        + length (head_rows bounds.now rect.now index interval.now head.now units.now)) ≤ part_limit
        → (P.state spill.new).is_overrun ≡ (P.state spill.old).is_overrun }
    ensures same_part { out.new.part ≡ out.old.part }
    ensures only { TouchesOnly out.old.part (P.state spill.old) (P.state spill.new) }
{
    if head.zoom > interval.max {
        return Ok(());
    }
    let like = row_of(index, interval, head);
    let shared = shared_tiles(bounds, rect, interval.base, rows);
    put_shared(&like, &shared, units, out, spill)
}

// Puts units for each tile of a rectangle of tiles, where there is one.
fn put_shared<P: Spill>(
    like: &TileRow,
    shared: &Option<TileRect>,
    units: &[[u8; 16]],
    out: &mut Writer<TileRow>,
    spill: &mut P,
) -> Result<(), Failed>
    requires started { (P.state spill.old).is_started ≡ true }
    requires held { IsHeld tile_kind out.old (P.state spill.old) }
    requires few { length units.now < 2 ^ 32 }
    requires small { IfSome shared.now IsSmall }
    ensures put { OnOk result (out.new.rows ≡ out.old.rows ++ some_rows like.now units.now shared.now) }
    ensures held { OnOk result (IsHeld tile_kind out.new (P.state spill.new)) }
    ensures same_faults { OnOk result ((P.state spill.new).faults ≡ (P.state spill.old).faults) }
    ensures failed { OnErr result (CountsOne (P.state spill.old).faults (P.state spill.new).faults) }
    ensures within { 39 * (length out.old.rows + length (some_rows like.now units.now shared.now)) ≤ part_limit
        → (P.state spill.new).is_overrun ≡ (P.state spill.old).is_overrun }
    ensures same_part { out.new.part ≡ out.old.part }
    ensures only { TouchesOnly out.old.part (P.state spill.old) (P.state spill.new) }
{
    match shared {
        Some(t) => put_tiles(like, t, units, out, spill),
        None => Ok(()),
    }
}

// The tiles at zoom `z` that a box and a rectangle have in common.
fn shared_tiles(bounds: &Rect, rect: &Rect, z: u8, rows: &Rows) -> Option<TileRect>
    requires zoom { z ≤ 16 }
    requires bounds { IsTrue (is_rect bounds.now) }
    requires rect { IsTrue (is_rect rect.now) }
    ensures tiles { result ≡ both_tiles bounds.now rect.now z }
    ensures small { IfSome result IsSmall }
{
    let of_box = tiles(bounds, z, rows);
    let of_rect = tiles(rect, z, rows);
    common(&of_box, &of_rect)
}

// The row of a feature's head in an interval, with no unit yet.
fn row_of(index: u8, interval: &Interval, head: &Head) -> TileRow
    ensures { result ≡ head_row index interval.now head.now result.unit }
{
    TileRow {
        interval: index,
        y: 0,
        x: 0,
        class: class_of(head.kind),
        zoom: head.zoom.max(interval.min),
        number: head.number,
        place: 0,
        unit: [0; 16],
    }
}

// The number of a class: 0 of a POI, and 1 of a way of the map.
fn class_of(kind: EntityKind) -> u8
    ensures { result ≡ if is_node_kind kind then 0 else 1 }
{
    match kind {
        EntityKind::Node => 0,
        EntityKind::Way | EntityKind::Relation => 1,
    }
}
