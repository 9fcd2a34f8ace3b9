//! The units of a feature, put for each tile of a rectangle of tiles.

ghost use Rattle.std.specs.Prelude.{◌≡◌, ◌+◌, ◌*◌, ◌≤◌, ◌<◌, ◌^◌, ◌++◌, true, length, OnOk, OnErr};
ghost use Rattle.mf_edge.specs.Device.{CountsOne};
ghost use Rattle.mf_edge.specs.Spill.{TouchesOnly, part_limit};
ghost use Rattle.mf_rows.specs.Kinds.{tile_kind};
ghost use Rattle.spill_parts.specs.Parts.{IsHeld};
ghost use Rattle.tile_spread.specs.Spread.{at_tile, rows_like, column_rows, rect_rows};

use mf_base::tile::TileRect;
use mf_edge::{Failed, Spill};
use mf_rows::kinds::TileRow;
use spill_parts::Writer;
use unit_rows::give::put_units;

/// Puts units for each tile of a rectangle of tiles, row by row from the north and west to east. All rows but their
/// columns, rows and units are like this one. After `Failed` the writer is not used again.
pub(crate) fn put_tiles<P: Spill>(
    like: &TileRow,
    tiles: &TileRect,
    units: &[[u8; 16]],
    out: &mut Writer<TileRow>,
    spill: &mut P,
) -> Result<(), Failed>
    requires started { (P.state spill.old).is_started ≡ true }
    requires held { IsHeld tile_kind out.old (P.state spill.old) }
    requires few { length units.now < 2 ^ 32 }
    requires east { tiles.now.last_x < 2 ^ 31 }
    requires south { tiles.now.last_y < 2 ^ 31 }
    ensures put { OnOk result (out.new.rows
        ≡ out.old.rows ++ rect_rows like.now units.now tiles.now.first_x tiles.now.last_x
        tiles.now.first_y tiles.now.last_y) }
    ensures held { OnOk result (IsHeld tile_kind out.new (P.state spill.new)) }
    ensures same_faults { OnOk result ((P.state spill.new).faults ≡ (P.state spill.old).faults) }
    ensures failed { OnErr result (CountsOne (P.state spill.old).faults (P.state spill.new).faults) }
    ensures within { 39 * (length out.old.rows + length (rect_rows like.now units.now tiles.now.first_x tiles.now.last_x
        tiles.now.first_y tiles.now.last_y)) ≤ part_limit
        → (P.state spill.new).is_overrun ≡ (P.state spill.old).is_overrun }
    ensures same_part { out.new.part ≡ out.old.part }
    ensures only { TouchesOnly out.old.part (P.state spill.old) (P.state spill.new) }
{
    let mut y = tiles.first_y;
    while y <= tiles.last_y {
        put_columns(like, tiles, y, units, out, spill)?;
        y += 1;
    }
    Ok(())
}

// Puts units for each tile of one row of a rectangle of tiles.
fn put_columns<P: Spill>(
    like: &TileRow,
    tiles: &TileRect,
    y: u32,
    units: &[[u8; 16]],
    out: &mut Writer<TileRow>,
    spill: &mut P,
) -> Result<(), Failed>
    requires started { (P.state spill.old).is_started ≡ true }
    requires held { IsHeld tile_kind out.old (P.state spill.old) }
    requires few { length units.now < 2 ^ 32 }
    requires east { tiles.now.last_x < 2 ^ 31 }
    ensures put { OnOk result (out.new.rows
        ≡ out.old.rows ++ column_rows like.now units.now y tiles.now.first_x tiles.now.last_x) }
    ensures held { OnOk result (IsHeld tile_kind out.new (P.state spill.new)) }
    ensures same_faults { OnOk result ((P.state spill.new).faults ≡ (P.state spill.old).faults) }
    ensures failed { OnErr result (CountsOne (P.state spill.old).faults (P.state spill.new).faults) }
    ensures within { 39 * (length out.old.rows
        + length (column_rows like.now units.now y tiles.now.first_x tiles.now.last_x)) ≤ part_limit
        → (P.state spill.new).is_overrun ≡ (P.state spill.old).is_overrun }
    ensures same_part { out.new.part ≡ out.old.part }
    ensures only { TouchesOnly out.old.part (P.state spill.old) (P.state spill.new) }
{
    let mut x = tiles.first_x;
    while x <= tiles.last_x {
        put_tile(like, x, y, units, out, spill)?;
        x += 1;
    }
    Ok(())
}

// Puts units for one tile.
fn put_tile<P: Spill>(
    like: &TileRow,
    x: u32,
    y: u32,
    units: &[[u8; 16]],
    out: &mut Writer<TileRow>,
    spill: &mut P,
) -> Result<(), Failed>
    requires started { (P.state spill.old).is_started ≡ true }
    requires held { IsHeld tile_kind out.old (P.state spill.old) }
    requires few { length units.now < 2 ^ 32 }
    ensures put { OnOk result (out.new.rows ≡ out.old.rows ++ rows_like (at_tile like.now (x, y)) units.now) }
    ensures held { OnOk result (IsHeld tile_kind out.new (P.state spill.new)) }
    ensures same_faults { OnOk result ((P.state spill.new).faults ≡ (P.state spill.old).faults) }
    ensures failed { OnErr result (CountsOne (P.state spill.old).faults (P.state spill.new).faults) }
    ensures within { 39 * (length out.old.rows + length (rows_like (at_tile like.now (x, y)) units.now)) ≤ part_limit
        → (P.state spill.new).is_overrun ≡ (P.state spill.old).is_overrun }
    ensures same_part { out.new.part ≡ out.old.part }
    ensures only { TouchesOnly out.old.part (P.state spill.old) (P.state spill.new) }
{
    let row = row_at(like, x, y);
    put_units(&row, units, out, spill)
}

// The row in this column and row.
fn row_at(like: &TileRow, x: u32, y: u32) -> TileRow
    ensures { result ≡ at_tile like.now (x, y) }
{
    TileRow {
        interval: like.interval,
        y,
        x,
        class: like.class,
        zoom: like.zoom,
        number: like.number,
        place: like.place,
        unit: like.unit,
    }
}
