//! The tiles of an interval are laid out.

ghost use Rattle.std.specs.Prelude.{◌≡◌, ◌≢◌, ℕ, ◌+◌, ◌*◌, ◌^◌, ◌<◌, ◌≤◌, ◌++◌, true, List, [], ◌∷◌, map, length};
ghost use Rattle.std.specs.Prelude.{Some, Err, IfOk, OnOk, OnErr, IsTrue};
ghost use Rattle.mf_base.specs.Ranges.{is_rect};
ghost use Rattle.mf_base.specs.declared.tile.TilePlace.{TilePlace as Place};
ghost use Rattle.mf_edge.specs.Device.{CountsOne};
ghost use Rattle.feature_model.specs.declared.fault.LimitFault.{LimitFault as Fault};
ghost use Rattle.map_model.specs.Intervals.{is_zoom_range, interval_tiles};
ghost use Rattle.mf_rows.specs.Kinds.{tile_kind};
ghost use Rattle.spill_parts.specs.Join.{rest_of};
ghost use Rattle.spill_parts.specs.Parts.{IsReading};
ghost use Rattle.spill_parts.specs.Shaped.{Spelled};
ghost use Rattle.tile_body.specs.Members.{IsTile, HoldsMembers};
ghost use Rattle.tile_body.specs.Tiles.{features_told};
ghost use Rattle.tile_rows.specs.TileRows.{shown};
ghost use Rattle.mf_layout.specs.Laid.{AreLaid, AreThere, HasRoom, TouchesTwo};
ghost use Rattle.mf_layout.specs.Laying.{AreToLay, LaysOut, tiles_fault};

use crate::fault::LayoutFault;
use crate::laid::{Laid, put_tile};
use crate::sub_files::SubFileSize;
use crate::tile_walk::TileWalk;
use mercator_rows::rows::Rows;
use mf_base::place::Rect;
use mf_base::tile::{Interval, TilePlace};
use mf_edge::{Failed, Spill, Steps};
use mf_rows::LimitFault;
use mf_rows::desk::Desk;
use mf_rows::kinds::TileRow;
use spill_parts::{Page, Reader};
use std::sync::ledger::Ledger;
use tile_assign::tile_rect::tiles;
use tile_body::holding::holds_members;
use tile_load::load::load_tile;

/// Lays out the tiles of an interval that the box meets, row by row from the north and west to east. Their rows begin
/// with the row that is held, and go on with those of a reader. Answers the size of the sub-file, and the first row of
/// a later interval. The row limit is the room of the desk's records.
pub(crate) fn lay_interval<P: Spill, L: Ledger>(
    index: u8,
    interval: &Interval,
    bounds: &Rect,
    held: Option<TileRow>,
    reader: &mut Reader<TileRow>,
    desk: &mut Desk,
    rows: &Rows,
    laid: &mut Laid,
    page: &mut Page,
    spill: &mut P,
    steps: &mut Steps<L>,
) -> Result<(SubFileSize, Option<TileRow>), LayoutFault>
    requires range { IsTrue (is_zoom_range interval.now) }
    requires bounds { IsTrue (is_rect bounds.now) }
    requires started { (P.state spill.old).is_started ≡ true }
    requires reading { IsReading tile_kind reader.old page.old (P.state spill.old) }
    requires few { length (rest_of held reader.old.left) < 2 ^ 63 }
    requires there { AreThere laid.old.index laid.old.tiles (P.state spill.old) }
    requires apart_index { reader.old.source.part ≢ laid.old.index.part }
    requires apart_tiles { reader.old.source.part ≢ laid.old.tiles.part }
    requires room { HasRoom (2 ^ 39) laid.old }
    requires found { (P.state spill.old).tells ≡ true → (list : List Spelled) × (later : List Place)
        × AreToLay desk.old.records.capacity list (interval_tiles bounds.now index interval.now ++ later)
        (rest_of held reader.old.left) }

    ensures laid { IfOk result (λ r. LaysOut desk.old.records.capacity (interval_tiles bounds.now index interval.now)
        (rest_of held reader.old.left) (rest_of r.1 reader.new.left) (record { tiles = 0; bytes = 0 }) r.0
        laid.old laid.new (P.state spill.old) (P.state spill.new)) }
    ensures limit { (f : Fault) → result ≡ Err (LayoutFault.Limit f) → (P.state spill.old).tells ≡ true
        → (list : List Spelled) (later : List Place)
        → AreToLay desk.old.records.capacity list (interval_tiles bounds.now index interval.now ++ later)
        (rest_of held reader.old.left)
        → tiles_fault desk.old.records.capacity (map shown list) (interval_tiles bounds.now index interval.now)
        ≡ Some f }

    ensures there { OnOk result (AreThere laid.new.index laid.new.tiles (P.state spill.new)) }
    ensures reading { OnOk result (IsReading tile_kind reader.new page.new (P.state spill.new)) }
    ensures fewer { IfOk result (λ r. length (rest_of r.1 reader.new.left) ≤ length (rest_of held reader.old.left)) }
    ensures same_source { reader.new.source ≡ reader.old.source }
    ensures same_index { laid.new.index.part ≡ laid.old.index.part }
    ensures same_tiles { laid.new.tiles.part ≡ laid.old.tiles.part }
    ensures only { TouchesTwo laid.old.index.part laid.old.tiles.part (P.state spill.old) (P.state spill.new) }
    ensures spill { result ≡ Err LayoutFault.Spill → CountsOne (P.state spill.old).faults (P.state spill.new).faults }
    ensures same_faults { result ≢ Err LayoutFault.Spill
        → (P.state spill.new).faults ≡ (P.state spill.old).faults }
    ensures steps { OnOk result (steps.new + 39 * reader.old.loaded ≡ steps.old + 39 * reader.new.loaded) }
    ensures steps_most { steps.new + 39 * reader.old.loaded ≤ steps.old + 39 * length reader.old.source.rows }
    ensures capacity { desk.new.records.capacity ≡ desk.old.records.capacity }
    ensures same_room { page.new.room ≡ page.old.room }
{
    let mut walk = TileWalk::of(&tiles(bounds, interval.base, rows));
    let mut size = SubFileSize { tiles: 0, bytes: 0 };
    let mut next = held;
    while let Some((x, y)) = walk.next() {
        let tile = TilePlace {
            index,
            interval: *interval,
            x,
            y,
        };
        next = lay_tile(
            &tile, next, reader, desk, rows, &mut size, laid, page, spill, steps,
        )?;
    }
    Ok((size, next))
}

// Lays out the next tile, and answers the first row of a later one.
fn lay_tile<P: Spill, L: Ledger>(
    tile: &TilePlace,
    held: Option<TileRow>,
    reader: &mut Reader<TileRow>,
    desk: &mut Desk,
    rows: &Rows,
    size: &mut SubFileSize,
    laid: &mut Laid,
    page: &mut Page,
    spill: &mut P,
    steps: &mut Steps<L>,
) -> Result<Option<TileRow>, LayoutFault>
    requires tile { IsTile tile.now }
    requires started { (P.state spill.old).is_started ≡ true }
    requires reading { IsReading tile_kind reader.old page.old (P.state spill.old) }
    requires few { length (rest_of held reader.old.left) < 2 ^ 63 }
    requires there { AreThere laid.old.index laid.old.tiles (P.state spill.old) }
    requires apart_index { reader.old.source.part ≢ laid.old.index.part }
    requires apart_tiles { reader.old.source.part ≢ laid.old.tiles.part }
    requires room { HasRoom 0 laid.old }
    requires tiles { size.old.tiles < 2 ^ 32 }
    requires small { size.old.bytes ≤ 2 ^ 29 * size.old.tiles }
    requires found { (P.state spill.old).tells ≡ true → (list : List Spelled) × (later : List Place)
        × AreToLay desk.old.records.capacity list (tile.now ∷ later) (rest_of held reader.old.left) }

    ensures laid { IfOk result (λ next. LaysOut desk.old.records.capacity (tile.now ∷ [])
        (rest_of held reader.old.left) (rest_of next reader.new.left) size.old size.new
        laid.old laid.new (P.state spill.old) (P.state spill.new)) }
    ensures limit { (f : Fault) → result ≡ Err (LayoutFault.Limit f) → (P.state spill.old).tells ≡ true
        → (list : List Spelled) (later : List Place)
        → AreToLay desk.old.records.capacity list (tile.now ∷ later) (rest_of held reader.old.left)
        → tiles_fault desk.old.records.capacity (map shown list) (tile.now ∷ []) ≡ Some f }

    ensures there { OnOk result (AreThere laid.new.index laid.new.tiles (P.state spill.new)) }
    ensures reading { OnOk result (IsReading tile_kind reader.new page.new (P.state spill.new)) }
    ensures fewer { IfOk result
        (λ next. length (rest_of next reader.new.left) ≤ length (rest_of held reader.old.left)) }
    ensures small { OnOk result (size.new.bytes ≤ 2 ^ 29 * size.new.tiles) }
    ensures same_source { reader.new.source ≡ reader.old.source }
    ensures same_index { laid.new.index.part ≡ laid.old.index.part }
    ensures same_tiles { laid.new.tiles.part ≡ laid.old.tiles.part }
    ensures only { TouchesTwo laid.old.index.part laid.old.tiles.part (P.state spill.old) (P.state spill.new) }
    ensures spill { result ≡ Err LayoutFault.Spill → CountsOne (P.state spill.old).faults (P.state spill.new).faults }
    ensures same_faults { result ≢ Err LayoutFault.Spill
        → (P.state spill.new).faults ≡ (P.state spill.old).faults }
    ensures steps { OnOk result (steps.new + 39 * reader.old.loaded ≡ steps.old + 39 * reader.new.loaded) }
    ensures steps_most { steps.new + 39 * reader.old.loaded ≤ steps.old + 39 * length reader.old.source.rows }
    ensures capacity { desk.new.records.capacity ≡ desk.old.records.capacity }
    ensures same_room { page.new.room ≡ page.old.room }
{
    desk.records.clear();
    let limit = desk.records.spare();
    let loaded = load_tile(tile, held, reader, &mut desk.records, page, spill, steps)?;
    if loaded.weight > u64::from(limit) {
        return Err(LayoutFault::Limit(over(tile, loaded.weight)));
    }
    put_members(tile, loaded.weight, desk, rows, size, laid, spill)?;
    Ok(loaded.next)
}

// Lays out the tile whose members were loaded. Records that are no members are a fault of the store.
fn put_members<P: Spill>(
    tile: &TilePlace,
    weight: u64,
    desk: &mut Desk,
    rows: &Rows,
    size: &mut SubFileSize,
    laid: &mut Laid,
    spill: &mut P,
) -> Result<(), Failed>
    requires tile { IsTile tile.now }
    requires started { (P.state spill.old).is_started ≡ true }
    requires found { (P.state spill.old).tells ≡ true → HoldsMembers tile.now desk.old.records }
    requires there { AreThere laid.old.index laid.old.tiles (P.state spill.old) }
    requires room { HasRoom 0 laid.old }
    requires few { size.old.tiles < 2 ^ 32 }
    requires small { size.old.bytes ≤ 2 ^ 29 * size.old.tiles }
    ensures laid { OnOk result (AreLaid (record {
      place = tile.now;
      weight = weight;
      members = features_told desk.old.records.records;
    } ∷ []) size.old size.new laid.old laid.new
        (P.state spill.old) (P.state spill.new)) }
    ensures there { OnOk result (AreThere laid.new.index laid.new.tiles (P.state spill.new)) }
    ensures same_faults { OnOk result ((P.state spill.new).faults ≡ (P.state spill.old).faults) }
    ensures failed { OnErr result (CountsOne (P.state spill.old).faults (P.state spill.new).faults) }
    ensures small { size.new.bytes ≤ 2 ^ 29 * size.new.tiles }
    ensures same_index { laid.new.index.part ≡ laid.old.index.part }
    ensures same_tiles { laid.new.tiles.part ≡ laid.old.tiles.part }
    ensures only { TouchesTwo laid.old.index.part laid.old.tiles.part (P.state spill.old) (P.state spill.new) }
    ensures same_records { desk.new.records ≡ desk.old.records }
{
    if !holds_members(&desk.records, tile) {
        return Err(spill.damaged());
    }
    put_tile(tile, weight, desk, rows, size, laid, spill)
}

// The fault of a tile of this weight.
fn over(tile: &TilePlace, weight: u64) -> LimitFault
    ensures { result ≡ Fault.Tile tile.now.index tile.now.x tile.now.y weight }
{
    LimitFault::Tile {
        index: tile.index,
        x: tile.x,
        y: tile.y,
        weight,
    }
}
