//! The intervals of a map are laid out one after another.

ghost use Rattle.std.specs.Prelude.{◌≡◌, ◌≢◌, ◌+◌, ◌*◌, ◌<◌, ◌≤◌, ◌^◌, true, List, ◌++◌, map, length, Some, Err, IfOk, OnOk, IsTrue};
ghost use Rattle.std.specs.List.{AllByRecursion};
ghost use Rattle.mf_base.specs.Ranges.{is_rect};
ghost use Rattle.mf_base.specs.declared.tile.TilePlace.{TilePlace};
ghost use Rattle.mf_edge.specs.Device.{CountsOne};
ghost use Rattle.feature_model.specs.declared.fault.LimitFault.{LimitFault as Fault};
ghost use Rattle.map_model.specs.Intervals.{is_zoom_range};
ghost use Rattle.mf_rows.specs.Kinds.{tile_kind};
ghost use Rattle.spill_parts.specs.Parts.{IsReading};
ghost use Rattle.spill_parts.specs.Join.{rest_of};
ghost use Rattle.spill_parts.specs.Shaped.{Spelled};
ghost use Rattle.tile_rows.specs.TileRows.{shown};
ghost use Rattle.mf_layout.specs.Laid.{AreThere, TouchesTwo, HasRoom};
ghost use Rattle.mf_layout.specs.Laying.{AreToLay, tiles_fault};
ghost use Rattle.mf_layout.specs.AllLaid.{LayAll, tiles_from};

use crate::fault::LayoutFault;
use crate::interval::lay_interval;
use crate::laid::Laid;
use crate::sub_files::SubFileSize;
use arrayvec::ArrayVec;
use mercator_rows::rows::Rows;
use mf_base::place::Rect;
use mf_base::tile::Interval;
use mf_edge::{Spill, Steps};
use mf_rows::desk::Desk;
use mf_rows::kinds::TileRow;
use spill_parts::{Page, Reader};
use std::sync::ledger::Ledger;

/// Lays out the tiles of intervals, the first of which has this index, and puts the size of each sub-file to the others.
/// Answers the first row behind them, where one is left. After a fault the parts are not used again.
pub(crate) fn lay_intervals<P: Spill, L: Ledger>(
    index: u8,
    intervals: &[Interval],
    bounds: &Rect,
    held: Option<TileRow>,
    reader: &mut Reader<TileRow>,
    desk: &mut Desk,
    rows: &Rows,
    sizes: &mut ArrayVec<SubFileSize, 8>,
    laid: &mut Laid,
    page: &mut Page,
    spill: &mut P,
    steps: &mut Steps<L>,
) -> Result<Option<TileRow>, LayoutFault>
    requires ranges { AllByRecursion (λ (i : Interval). IsTrue (is_zoom_range i)) intervals.now }
    requires few { index + length intervals.now ≤ 8 }
    requires fits { length sizes.old.items + length intervals.now ≤ 8 }
    requires bounds { IsTrue (is_rect bounds.now) }
    requires started { (P.state spill.old).is_started ≡ true }
    requires reading { IsReading tile_kind reader.old page.old (P.state spill.old) }
    requires rows { length (rest_of held reader.old.left) < 2 ^ 63 }
    requires there { AreThere laid.old.index laid.old.tiles (P.state spill.old) }
    requires apart_index { reader.old.source.part ≢ laid.old.index.part }
    requires apart_tiles { reader.old.source.part ≢ laid.old.tiles.part }
    requires room { HasRoom (2 ^ 39 * length intervals.now) laid.old }
    requires found { (P.state spill.old).tells ≡ true → (list : List Spelled) × (later : List TilePlace)
        × AreToLay desk.old.records.capacity list (tiles_from bounds.now index intervals.now ++ later)
        (rest_of held reader.old.left) }
    ensures laid { IfOk result (λ next. LayAll desk.old.records.capacity bounds.now index intervals.now
        (rest_of held reader.old.left) (rest_of next reader.new.left) sizes.old.items sizes.new.items laid.old laid.new
        (P.state spill.old) (P.state spill.new)) }
    ensures limit { (f : Fault) → result ≡ Err (LayoutFault.Limit f) → (P.state spill.old).tells ≡ true
        → (list : List Spelled) (later : List TilePlace)
        → AreToLay desk.old.records.capacity list (tiles_from bounds.now index intervals.now ++ later)
        (rest_of held reader.old.left)
        → tiles_fault desk.old.records.capacity (map shown list) (tiles_from bounds.now index intervals.now) ≡ Some f }
    ensures there { OnOk result (AreThere laid.new.index laid.new.tiles (P.state spill.new)) }
    ensures reading { OnOk result (IsReading tile_kind reader.new page.new (P.state spill.new)) }
    ensures same_source { reader.new.source ≡ reader.old.source }
    ensures same_index { laid.new.index.part ≡ laid.old.index.part }
    ensures same_tiles { laid.new.tiles.part ≡ laid.old.tiles.part }
    ensures only { TouchesTwo laid.old.index.part laid.old.tiles.part (P.state spill.old) (P.state spill.new) }
    ensures spill { result ≡ Err LayoutFault.Spill → CountsOne (P.state spill.old).faults (P.state spill.new).faults }
    ensures same_faults { result ≢ Err LayoutFault.Spill → (P.state spill.new).faults ≡ (P.state spill.old).faults }
    ensures steps { OnOk result (steps.new + 39 * reader.old.loaded ≡ steps.old + 39 * reader.new.loaded) }
    ensures steps_most { steps.new + 39 * reader.old.loaded ≤ steps.old + 39 * length reader.old.source.rows }
    ensures capacity { desk.new.records.capacity ≡ desk.old.records.capacity }
    ensures same_room { page.new.room ≡ page.old.room }
{
    let Some((first, others)) = intervals.split_first() else {
        return Ok(held);
    };
    let (size, next) = lay_interval(
        index, first, bounds, held, reader, desk, rows, laid, page, spill, steps,
    )?;
    sizes.push(size);
    lay_intervals(
        index + 1,
        others,
        bounds,
        next,
        reader,
        desk,
        rows,
        sizes,
        laid,
        page,
        spill,
        steps,
    )
}
