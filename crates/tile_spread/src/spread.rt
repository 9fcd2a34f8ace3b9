//! The features of a part, spread over the tiles of a map one after another.

ghost use Rattle.std.specs.Prelude.{◌≡◌, ◌≢◌, ◌+◌, ◌*◌, ◌≤◌, ◌<◌, ◌^◌, true, List, [], ◌∷◌, flat_map, length};
ghost use Rattle.std.specs.Prelude.{IsTrue, IfOk, OnOk, OnErr, is_some};
ghost use Rattle.std.specs.List.{AllByRecursion};
ghost use Rattle.mf_base.specs.Ranges.{is_rect};
ghost use Rattle.mf_edge.specs.Device.{CountsOne};
ghost use Rattle.mf_edge.specs.Spill.{SameParts, TouchesOnly, part_limit};
ghost use Rattle.map_model.specs.Header.{HeadSettings};
ghost use Rattle.map_model.specs.Intervals.{are_intervals};
ghost use Rattle.mf_rows.specs.Kinds.{shape_kind, tile_kind};
ghost use Rattle.spill_parts.specs.Parts.{IsHeld, IsReading};
ghost use Rattle.spill_parts.specs.Join.{rest_of};
ghost use Rattle.spill_parts.specs.Shaped.{Spelled, shape_rows, IsLight};
ghost use Rattle.tile_rows.specs.TileRows.{put_rows};
ghost use Rattle.tile_spread.specs.Pass.{MaySpread, AreSpread, IsLoaded, AreSoFar, all_spread};

use crate::feature::{Grid, put_feature};
use mercator_rows::rows::Rows;
use mf_base::place::Rect;
use mf_base::tile::Interval;
use mf_edge::{Failed, Spill, Steps};
use mf_rows::kinds::{ShapeRow, TileRow};
use mf_rows::records::Records;
use spill_parts::{Page, Part, Reader, Writer};
use std::sync::ledger::Ledger;
use unit_rows::load::load_record;

/// Puts the rows of the features of a part for all tiles of a map, feature after feature: in each interval that has the
/// feature's zoom or a greater one, the feature's units for each tile that the box and its rectangle have in common. The
/// row limit is the room of the records. Rows that no features have are a fault of the store. After `Failed` the writer
/// is not used again.
pub fn spread<P: Spill, L: Ledger>(
    intervals: &[Interval],
    bounds: &Rect,
    rows: &Rows,
    from: &Part<ShapeRow>,
    out: &mut Writer<TileRow>,
    records: &mut Records,
    page: &mut Page,
    spill: &mut P,
    steps: &mut Steps<L>,
) -> Result<(), Failed>
    requires started { (P.state spill.old).is_started ≡ true }
    requires intervals { IsTrue (are_intervals intervals.now) }
    requires bounds { IsTrue (is_rect bounds.now) }
    requires from { IsHeld shape_kind from.now (P.state spill.old) }
    requires out { IsHeld tile_kind out.old (P.state spill.old) }
    requires apart { from.now.part ≢ out.old.part }
    requires empty { out.old.rows ≡ [] }
    requires found { (P.state spill.old).tells ≡ true
        → (list : List Spelled) × MaySpread records.old.capacity list from.now.rows }

    // Where the store tells its bytes, the rows are those of all features, of units that spell the same records.
    ensures put { OnOk result ((P.state spill.old).tells ≡ true → (set : HeadSettings) (list : List Spelled)
        → set.intervals ≡ intervals.now → MaySpread records.old.capacity list from.now.rows
        → AreSpread records.old.capacity set bounds.now list out.new.rows) }
    ensures held { OnOk result (IsHeld tile_kind out.new (P.state spill.new)) }
    ensures same_part { out.new.part ≡ out.old.part }
    ensures only { TouchesOnly out.old.part (P.state spill.old) (P.state spill.new) }
    ensures same_faults { OnOk result ((P.state spill.new).faults ≡ (P.state spill.old).faults) }
    ensures failed { OnErr result (CountsOne (P.state spill.old).faults (P.state spill.new).faults) }

    // The store becomes overrun only where the rows of the features pass the limit of a part.
    ensures within { (P.state spill.old).tells ≡ true → (set : HeadSettings) (list : List Spelled)
        → set.intervals ≡ intervals.now → MaySpread records.old.capacity list from.now.rows
        → 39 * length (put_rows set bounds.now list) ≤ part_limit
        → (P.state spill.new).is_overrun ≡ (P.state spill.old).is_overrun }
    ensures steps { steps.new ≤ steps.old + 28 * length from.now.rows }
    ensures capacity { records.new.capacity ≡ records.old.capacity }
    ensures same_room { page.new.room ≡ page.old.room }
{
    let grid = Grid {
        intervals,
        bounds,
        rows,
    };
    let mut reader = Reader::start(from);
    let mut held = reader.next(spill, page, steps)?;
    while is_held(&held) {
        held = put_held(held, &mut reader, &grid, out, records, spill, page, steps)?;
    }
    Ok(())
}

// Whether a row is held.
fn is_held(held: &Option<ShapeRow>) -> bool
    ensures { result ≡ is_some held.now }
{
    held.is_some()
}

// Puts the feature that begins with the row that is held, and answers the first row of the next.
fn put_held<P: Spill, L: Ledger>(
    held: Option<ShapeRow>,
    reader: &mut Reader<ShapeRow>,
    grid: &Grid<'_>,
    out: &mut Writer<TileRow>,
    records: &mut Records,
    spill: &mut P,
    page: &mut Page,
    steps: &mut Steps<L>,
) -> Result<Option<ShapeRow>, Failed>
    requires started { (P.state spill.old).is_started ≡ true }
    requires reading { IsReading shape_kind reader.old page.old (P.state spill.old) }
    requires loaded { 28 * reader.old.loaded ≤ 28 * length reader.old.source.rows }
    requires few { length (rest_of held reader.old.left) < 2 ^ 63 }
    requires out { IsHeld tile_kind out.old (P.state spill.old) }
    requires apart { reader.old.source.part ≢ out.old.part }
    requires some { is_some held ≡ true }
    requires found { (P.state spill.old).tells ≡ true → (list : List Spelled)
        × MaySpread records.old.capacity list reader.old.source.rows
        × AreSoFar records.old.capacity grid.now.intervals.now grid.now.bounds.now list
        (rest_of held reader.old.left) out.old.rows }
    ensures so_far { IfOk result (λ next. (P.state spill.old).tells ≡ true → (list : List Spelled)
        → MaySpread records.old.capacity list reader.old.source.rows
        → AreSoFar records.old.capacity grid.now.intervals.now grid.now.bounds.now list
        (rest_of held reader.old.left) out.old.rows
        → AreSoFar records.old.capacity grid.now.intervals.now grid.now.bounds.now list
        (rest_of next reader.new.left) out.new.rows) }
    ensures within { (P.state spill.old).tells ≡ true → (list : List Spelled)
        → MaySpread records.old.capacity list reader.old.source.rows
        → AreSoFar records.old.capacity grid.now.intervals.now grid.now.bounds.now list
        (rest_of held reader.old.left) out.old.rows
        → 39 * length (all_spread grid.now.intervals.now grid.now.bounds.now list) ≤ part_limit
        → (P.state spill.new).is_overrun ≡ (P.state spill.old).is_overrun }
    ensures shorter { IfOk result (λ next. length (rest_of next reader.new.left) + 1 ≤ length (rest_of held reader.old.left)) }
    ensures held { OnOk result (IsHeld tile_kind out.new (P.state spill.new)) }
    ensures same_part { out.new.part ≡ out.old.part }
    ensures only { TouchesOnly out.old.part (P.state spill.old) (P.state spill.new) }
    ensures same_faults { OnOk result ((P.state spill.new).faults ≡ (P.state spill.old).faults) }
    ensures failed { OnErr result (CountsOne (P.state spill.old).faults (P.state spill.new).faults) }
    ensures reading { OnOk result (IsReading shape_kind reader.new page.new (P.state spill.new)) }
    ensures source { reader.new.source ≡ reader.old.source }
    ensures steps { OnOk result (steps.new + 28 * reader.old.loaded ≡ steps.old + 28 * reader.new.loaded) }
    ensures loaded { OnOk result (28 * reader.new.loaded ≤ 28 * length reader.new.source.rows) }
    ensures steps_most { steps.new + 28 * reader.old.loaded ≤ steps.old + 28 * length reader.old.source.rows }
    ensures capacity { records.new.capacity ≡ records.old.capacity }
    ensures same_room { page.new.room ≡ page.old.room }
{
    match held {
        Some(first) => put_next(&first, reader, grid, out, records, spill, page, steps),
        None => Ok(None),
    }
}

// Puts the feature that begins with this row, and answers the first row of the next.
fn put_next<P: Spill, L: Ledger>(
    first: &ShapeRow,
    reader: &mut Reader<ShapeRow>,
    grid: &Grid<'_>,
    out: &mut Writer<TileRow>,
    records: &mut Records,
    spill: &mut P,
    page: &mut Page,
    steps: &mut Steps<L>,
) -> Result<Option<ShapeRow>, Failed>
    requires started { (P.state spill.old).is_started ≡ true }
    requires reading { IsReading shape_kind reader.old page.old (P.state spill.old) }
    requires few { length reader.old.left < 2 ^ 63 }
    requires out { IsHeld tile_kind out.old (P.state spill.old) }
    requires apart { reader.old.source.part ≢ out.old.part }
    requires found { (P.state spill.old).tells ≡ true → (list : List Spelled)
        × MaySpread records.old.capacity list reader.old.source.rows
        × AreSoFar records.old.capacity grid.now.intervals.now grid.now.bounds.now list
        (first.now ∷ reader.old.left) out.old.rows }
    ensures so_far { IfOk result (λ next. (P.state spill.old).tells ≡ true → (list : List Spelled)
        → MaySpread records.old.capacity list reader.old.source.rows
        → AreSoFar records.old.capacity grid.now.intervals.now grid.now.bounds.now list
        (first.now ∷ reader.old.left) out.old.rows
        → AreSoFar records.old.capacity grid.now.intervals.now grid.now.bounds.now list
        (rest_of next reader.new.left) out.new.rows) }
    ensures within { (P.state spill.old).tells ≡ true → (list : List Spelled)
        → MaySpread records.old.capacity list reader.old.source.rows
        → AreSoFar records.old.capacity grid.now.intervals.now grid.now.bounds.now list
        (first.now ∷ reader.old.left) out.old.rows
        → 39 * length (all_spread grid.now.intervals.now grid.now.bounds.now list) ≤ part_limit
        → (P.state spill.new).is_overrun ≡ (P.state spill.old).is_overrun }
    ensures shorter { IfOk result (λ next. length (rest_of next reader.new.left) ≤ length reader.old.left) }
    ensures held { OnOk result (IsHeld tile_kind out.new (P.state spill.new)) }
    ensures same_part { out.new.part ≡ out.old.part }
    ensures only { TouchesOnly out.old.part (P.state spill.old) (P.state spill.new) }
    ensures same_faults { OnOk result ((P.state spill.new).faults ≡ (P.state spill.old).faults) }
    ensures failed { OnErr result (CountsOne (P.state spill.old).faults (P.state spill.new).faults) }
    ensures reading { OnOk result (IsReading shape_kind reader.new page.new (P.state spill.new)) }
    ensures source { reader.new.source ≡ reader.old.source }
    ensures steps { OnOk result (steps.new + 28 * reader.old.loaded ≡ steps.old + 28 * reader.new.loaded) }
    ensures loaded { OnOk result (28 * reader.new.loaded ≤ 28 * length reader.new.source.rows) }
    ensures steps_most { steps.new + 28 * reader.old.loaded ≤ steps.old + 28 * length reader.old.source.rows }
    ensures capacity { records.new.capacity ≡ records.old.capacity }
    ensures same_room { page.new.room ≡ page.old.room }
{
    let next = load_feature(first, reader, records, spill, page, steps)?;
    put_feature(grid, records, out, spill)?;
    Ok(next)
}

// Loads the feature that begins with this row as the one record of a desk, and answers the first row of the next. Rows
// that spell no record, or more units than there is room for, are a fault of the store.
fn load_feature<P: Spill, L: Ledger>(
    first: &ShapeRow,
    reader: &mut Reader<ShapeRow>,
    records: &mut Records,
    spill: &mut P,
    page: &mut Page,
    steps: &mut Steps<L>,
) -> Result<Option<ShapeRow>, Failed>
    requires started { (P.state spill.old).is_started ≡ true }
    requires reading { IsReading shape_kind reader.old page.old (P.state spill.old) }
    requires few { length reader.old.left < 2 ^ 63 }
    requires found { (P.state spill.old).tells ≡ true → (list : List Spelled)
        × AllByRecursion (IsLight records.old.capacity) list
        × (first.now ∷ reader.old.left ≡ flat_map shape_rows list) }
    ensures told { IfOk result (λ next. (P.state spill.old).tells ≡ true → (list : List Spelled)
        → AllByRecursion (IsLight records.old.capacity) list → first.now ∷ reader.old.left ≡ flat_map shape_rows list
        → IsLoaded list (rest_of next reader.new.left) records.new) }
    ensures some { OnOk result (0 < length records.new.records) }
    ensures shorter { IfOk result (λ next. length (rest_of next reader.new.left) ≤ length reader.old.left) }
    ensures same_faults { OnOk result ((P.state spill.new).faults ≡ (P.state spill.old).faults) }
    ensures failed { OnErr result (CountsOne (P.state spill.old).faults (P.state spill.new).faults) }
    ensures reading { OnOk result (IsReading shape_kind reader.new page.new (P.state spill.new)) }
    ensures source { reader.new.source ≡ reader.old.source }
    ensures steps { OnOk result (steps.new + 28 * reader.old.loaded ≡ steps.old + 28 * reader.new.loaded) }
    ensures loaded { OnOk result (28 * reader.new.loaded ≤ 28 * length reader.new.source.rows) }
    ensures steps_most { steps.new + 28 * reader.old.loaded ≤ steps.old + 28 * length reader.old.source.rows }
    ensures capacity { records.new.capacity ≡ records.old.capacity }
    ensures same_room { page.new.room ≡ page.old.room }
    ensures same { SameParts (P.state spill.old) (P.state spill.new) }
{
    records.clear();
    let limit = records.spare();
    let loaded = load_record(first, reader, records, spill, page, steps)?;
    if loaded.units > u64::from(limit) {
        return Err(spill.damaged());
    }
    if !records.close_record() {
        return Err(spill.damaged());
    }
    Ok(loaded.next)
}
