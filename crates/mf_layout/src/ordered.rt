//! The ordered rows of members become sub-files.

ghost use Rattle.std.specs.Prelude.{◌≡◌, ◌≢◌, ◌↔◌, ◌+◌, ◌*◌, ◌≤◌, ◌^◌, true, false, List, [], ◌∷◌, ◌++◌, map, length, None, Some};
ghost use Rattle.std.specs.Prelude.{Err, IfOk, OnOk, OnErr, IsTrue};
ghost use Rattle.mf_base.specs.Ranges.{is_rect};
ghost use Rattle.mf_edge.specs.Device.{CountsOne};
ghost use Rattle.mf_edge.specs.Spill.{SameStore, SameParts};
ghost use Rattle.feature_model.specs.declared.fault.LimitFault.{LimitFault as Fault};
ghost use Rattle.map_model.specs.Intervals.{are_intervals};
ghost use Rattle.map_model.specs.MapFile.{all_tiles, layout_fault, sub_file_limit_fault};
ghost use Rattle.map_header.specs.Shown.{settings_of};
ghost use Rattle.mf_rows.specs.Kinds.{index_kind, tile_kind};
ghost use Rattle.spill_parts.specs.Parts.{Piece, HasJust, IsHeld, piece_of};
ghost use Rattle.spill_parts.specs.Shaped.{Spelled};
ghost use Rattle.tile_rows.specs.TileRows.{shown};
ghost use Rattle.mf_layout.specs.AllLaid.{LayAll, IsBegun};
ghost use Rattle.mf_layout.specs.Laid.{AreThere, TouchesTwo, HasRoom};
ghost use Rattle.mf_layout.specs.Laying.{AreToLay, tiles_fault};
ghost use Rattle.mf_layout.specs.Layouts.{IsLayoutOf, piece_in, sub_pieces};
ghost use Rattle.mf_layout.specs.SubFiles.{AreSubFiles};
ghost use Rattle.mf_layout.specs.declared.sub_files.SubFileSize.{SubFileSize as Size};

use crate::fault::LayoutFault;
use crate::full::first_too_long;
use crate::intervals::lay_intervals;
use crate::laid::Laid;
use crate::sub_files::{SubFileSize, SubFiles};
use arrayvec::ArrayVec;
use map_header::head_settings::HeadSettings;
use mercator_rows::rows::Rows;
use mf_base::place::Rect;
use mf_edge::{Failed, Spill, Steps};
use mf_rows::desk::Desk;
use mf_rows::kinds::TileRow;
use spill_parts::{BytePart, Page, Part, Reader, Writer, forget_part};
use std::sync::ledger::Ledger;

/// Lays out all tiles of a map of the rows of their members, which stand in the order of the tiles, and forgets the part
/// of these. `largest` is the greatest weight so far. The row limit is the room of the desk. After a fault the parts are
/// not to be used again.
pub(crate) fn lay_ordered<P: Spill, L: Ledger>(
    set: &HeadSettings,
    bounds: &Rect,
    rows: &Rows,
    ordered: Part<TileRow>,
    largest: u64,
    desk: &mut Desk,
    page: &mut Page,
    spill: &mut P,
    steps: &mut Steps<L>,
) -> Result<SubFiles, LayoutFault>
    requires intervals { IsTrue (are_intervals set.now.intervals.items) }
    requires bounds { IsTrue (is_rect bounds.now) }
    requires just { HasJust (piece_of tile_kind ordered ∷ []) (P.state spill.old) }
    requires found { (P.state spill.old).tells ≡ true → (list : List Spelled)
        × AreToLay desk.old.records.capacity list (all_tiles (settings_of set.now) bounds.now) ordered.rows }
    ensures laid { IfOk result (λ subs. (P.state spill.old).tells ≡ true → (list : List Spelled)
        → AreToLay desk.old.records.capacity list (all_tiles (settings_of set.now) bounds.now) ordered.rows
        → IsLayoutOf desk.old.records.capacity (settings_of set.now) bounds.now (map shown list) largest subs
        (P.state spill.new)) }
    ensures limit { (f : Fault) (list : List Spelled) → result ≡ Err (LayoutFault.Limit f)
        → (P.state spill.old).tells ≡ true
        → AreToLay desk.old.records.capacity list (all_tiles (settings_of set.now) bounds.now) ordered.rows
        → layout_fault desk.old.records.capacity (settings_of set.now) bounds.now (map shown list) ≡ Some f }
    ensures sub_files { IfOk result (AreSubFiles (length set.now.intervals.items)) }
    ensures just { IfOk result (λ subs. HasJust (sub_pieces (P.state spill.new) subs) (P.state spill.new)) }
    ensures spill { result ≡ Err LayoutFault.Spill → CountsOne (P.state spill.old).faults (P.state spill.new).faults }
    ensures same_faults { result ≢ Err LayoutFault.Spill → (P.state spill.new).faults ≡ (P.state spill.old).faults }
    ensures same { SameStore (P.state spill.old) (P.state spill.new) }
    ensures same_overrun { (P.state spill.new).is_overrun ≡ (P.state spill.old).is_overrun }
    ensures steps { steps.new ≤ steps.old + 39 * length ordered.rows }
    ensures capacity { desk.new.records.capacity ≡ desk.old.records.capacity }
    ensures same_room { page.new.room ≡ page.old.room }
{
    let mut laid = begin(largest, spill)?;
    let mut sizes = ArrayVec::new();
    lay_rows(
        set, bounds, rows, &ordered, desk, &mut sizes, &mut laid, page, spill, steps,
    )?;
    forget_part(spill, ordered);
    sub_files_of(sizes, laid)
}

// Makes the two parts that tiles are put to.
fn begin<P: Spill>(largest: u64, spill: &mut P) -> Result<Laid, Failed>
    requires just { (pieces : List Piece) × HasJust pieces (P.state spill.old) × (length pieces ≤ 8) }
    ensures begun { IfOk result (IsBegun largest) }
    ensures there { IfOk result (λ laid. AreThere laid.index laid.tiles (P.state spill.new)) }
    ensures empty { IfOk result (λ laid. (P.state spill.new).tells ≡ true
        → (P.state spill.new).bytes laid.tiles.part ≡ []) }
    ensures just { IfOk result (λ laid. (pieces : List Piece) → HasJust pieces (P.state spill.old)
        → HasJust (pieces ++ piece_of index_kind laid.index ∷ piece_in (P.state spill.new) laid.tiles ∷ [])
        (P.state spill.new)) }
    ensures same_faults { OnOk result ((P.state spill.new).faults ≡ (P.state spill.old).faults) }
    ensures failed { OnErr result (CountsOne (P.state spill.old).faults (P.state spill.new).faults) }
    ensures same { SameStore (P.state spill.old) (P.state spill.new) }
    ensures same_overrun { (P.state spill.new).is_overrun ≡ (P.state spill.old).is_overrun }
{
    let index = Writer::make(spill)?;
    let tiles = BytePart::make(spill)?;
    Ok(Laid {
        index,
        tiles,
        shown: 0,
        water: 0,
        largest,
    })
}

// Lays out all tiles of the rows of a part, and puts the sizes of the sub-files.
fn lay_rows<P: Spill, L: Ledger>(
    set: &HeadSettings,
    bounds: &Rect,
    rows: &Rows,
    ordered: &Part<TileRow>,
    desk: &mut Desk,
    sizes: &mut ArrayVec<SubFileSize, 8>,
    laid: &mut Laid,
    page: &mut Page,
    spill: &mut P,
    steps: &mut Steps<L>,
) -> Result<(), LayoutFault>
    requires intervals { IsTrue (are_intervals set.now.intervals.items) }
    requires bounds { IsTrue (is_rect bounds.now) }
    requires started { (P.state spill.old).is_started ≡ true }
    requires ordered { IsHeld tile_kind ordered.now (P.state spill.old) }
    requires none { sizes.old.items ≡ [] }
    requires there { AreThere laid.old.index laid.old.tiles (P.state spill.old) }
    requires apart_index { ordered.now.part ≢ laid.old.index.part }
    requires apart_tiles { ordered.now.part ≢ laid.old.tiles.part }
    requires room { HasRoom (2 ^ 42) laid.old }
    requires found { (P.state spill.old).tells ≡ true → (list : List Spelled)
        × AreToLay desk.old.records.capacity list (all_tiles (settings_of set.now) bounds.now) ordered.now.rows }
    ensures laid { OnOk result (LayAll desk.old.records.capacity bounds.now 0 set.now.intervals.items ordered.now.rows []
        [] sizes.new.items laid.old laid.new (P.state spill.old) (P.state spill.new)) }
    ensures limit { (f : Fault) (list : List Spelled) → result ≡ Err (LayoutFault.Limit f)
        → (P.state spill.old).tells ≡ true
        → AreToLay desk.old.records.capacity list (all_tiles (settings_of set.now) bounds.now) ordered.now.rows
        → tiles_fault desk.old.records.capacity (map shown list) (all_tiles (settings_of set.now) bounds.now) ≡ Some f }
    ensures there { OnOk result (AreThere laid.new.index laid.new.tiles (P.state spill.new)) }
    ensures same_index { laid.new.index.part ≡ laid.old.index.part }
    ensures same_tiles { laid.new.tiles.part ≡ laid.old.tiles.part }
    ensures only { TouchesTwo laid.old.index.part laid.old.tiles.part (P.state spill.old) (P.state spill.new) }
    ensures spill { result ≡ Err LayoutFault.Spill → CountsOne (P.state spill.old).faults (P.state spill.new).faults }
    ensures same_faults { result ≢ Err LayoutFault.Spill → (P.state spill.new).faults ≡ (P.state spill.old).faults }
    ensures steps { steps.new ≤ steps.old + 39 * length ordered.now.rows }
    ensures capacity { desk.new.records.capacity ≡ desk.old.records.capacity }
    ensures same_room { page.new.room ≡ page.old.room }
{
    let mut reader = Reader::start(ordered);
    let held = reader.next(spill, page, steps)?;
    let next = lay_intervals(
        0,
        &set.intervals,
        bounds,
        held,
        &mut reader,
        desk,
        rows,
        sizes,
        laid,
        page,
        spill,
        steps,
    )?;
    refuse_row(&next, spill)?;
    Ok(())
}

// Refuses a row that no tile has.
fn refuse_row<P: Spill>(held: &Option<TileRow>, spill: &mut P) -> Result<(), Failed>
    requires started { (P.state spill.old).is_started ≡ true }
    requires none { (P.state spill.old).tells ≡ true → held.now ≡ None }
    ensures none { OnOk result (held.now ≡ None) }
    ensures unchanged { OnOk result (P.state spill.new ≡ P.state spill.old) }
    ensures failed { OnErr result (CountsOne (P.state spill.old).faults (P.state spill.new).faults) }
    ensures same { SameParts (P.state spill.old) (P.state spill.new) }
{
    match held {
        Some(_) => Err(spill.damaged()),
        None => Ok(()),
    }
}

// The sub-files that were laid out, or the first that is too long.
fn sub_files_of(sizes: ArrayVec<SubFileSize, 8>, laid: Laid) -> Result<SubFiles, LayoutFault>
    ensures limit { (f : Fault) → (result ≡ Err (LayoutFault.Limit f))
        ↔ (sub_file_limit_fault (map (λ (s : Size). s.bytes) sizes.items) ≡ Some f) }
    ensures other { result ≢ Err LayoutFault.Spill }
    ensures none { OnOk result (sub_file_limit_fault (map (λ (s : Size). s.bytes) sizes.items) ≡ None) }
    ensures sub_files { IfOk result (λ subs. subs ≡ record {
      sizes = sizes;
      index = laid.index;
      tiles = laid.tiles;
      shown = laid.shown;
      water = laid.water;
      largest = laid.largest;
    }) }
{
    if let Some(fault) = first_too_long(&sizes) {
        return Err(LayoutFault::Limit(fault));
    }
    Ok(SubFiles {
        sizes,
        index: laid.index.finish(),
        tiles: laid.tiles,
        shown: laid.shown,
        water: laid.water,
        largest: laid.largest,
    })
}
