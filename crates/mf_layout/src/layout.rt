//! The features of a map become the tiles of its sub-files.

ghost use Rattle.std.specs.Prelude.{◌≡◌, ◌≢◌, ◌+◌, ◌*◌, ◌<◌, ◌≤◌, true, List, [], ◌∷◌, map, length, Some, Err, IfOk, IsTrue};
ghost use Rattle.std.specs.Prelude.{slice_index_or};
ghost use Rattle.std.specs.List.{AllByRecursion};
ghost use Rattle.mf_base.specs.Ranges.{is_rect};
ghost use Rattle.mf_edge.specs.Device.{CountsOne};
ghost use Rattle.mf_edge.specs.Spill.{SameStore, part_limit};
ghost use Rattle.feature_model.specs.Mapping.{Mapping};
ghost use Rattle.feature_model.specs.Features.{Feature};
ghost use Rattle.feature_model.specs.declared.fault.LimitFault.{LimitFault as Fault};
ghost use Rattle.map_model.specs.Intervals.{are_intervals};
ghost use Rattle.map_model.specs.MapFile.{all_tiles, layout_fault};
ghost use Rattle.map_header.specs.Shown.{settings_of};
ghost use Rattle.mf_rows.specs.Kinds.{shape_kind, tile_kind};
ghost use Rattle.spill_parts.specs.Parts.{HasJust, piece_of};
ghost use Rattle.spill_parts.specs.Shaped.{Spelled, shapes_pieces};
ghost use Rattle.tile_rows.specs.TileRows.{shown};
ghost use Rattle.mf_layout.specs.Laying.{AreToLay};
ghost use Rattle.mf_layout.specs.Layouts.{AreFeatures, IsLayoutOf, sub_pieces, layout_size};
ghost use Rattle.mf_layout.specs.SubFiles.{AreSubFiles};

use crate::fault::LayoutFault;
use crate::member_rows::order_members;
use crate::ordered::lay_ordered;
use crate::sub_files::SubFiles;
use map_header::head_settings::HeadSettings;
use mercator_rows::rows::Rows;
use mf_base::place::Rect;
use mf_edge::{Spill, Steps};
use mf_rows::desk::Desk;
use spill_parts::{Page, Shapes};
use std::sync::ledger::Ledger;

/// Makes the features of a map the tiles of its sub-files, interval after interval, in the first of the desks. The row
/// limit is the room of the page and of each desk. After a fault the parts are not to be used again.
pub fn layout<P: Spill, L: Ledger>(
    set: &HeadSettings,
    bounds: &Rect,
    rows: &Rows,
    shapes: Shapes,
    desks: &mut [Desk],
    page: &mut Page,
    spill: &mut P,
    steps: &mut Steps<L>,
) -> Result<SubFiles, LayoutFault>
    requires intervals { IsTrue (are_intervals set.now.intervals.items) }
    requires bounds { IsTrue (is_rect bounds.now) }
    requires some { 0 < length desks.old }
    requires rooms { AllByRecursion (λ (d : Desk). d.records.capacity ≡ page.old.room) desks.old }
    requires just { HasJust (shapes_pieces shapes) (P.state spill.old) }
    requires found { (P.state spill.old).tells ≡ true → (mapping : Mapping) × (list : List Feature)
        × AreFeatures page.old.room mapping list shapes.shapes.rows }

    // Over a store that tells its bytes, the sub-files are those of the features, or the first tile or sub-file over its
    // limit is told.
    ensures laid { IfOk result (λ subs. (P.state spill.old).tells ≡ true → (mapping : Mapping) (list : List Feature)
        → AreFeatures page.old.room mapping list shapes.shapes.rows
        → IsLayoutOf page.old.room (settings_of set.now) bounds.now list shapes.largest subs (P.state spill.new)) }
    ensures limit { (f : Fault) (mapping : Mapping) (list : List Feature) → result ≡ Err (LayoutFault.Limit f)
        → (P.state spill.old).tells ≡ true → AreFeatures page.old.room mapping list shapes.shapes.rows
        → layout_fault page.old.room (settings_of set.now) bounds.now list ≡ Some f }
    ensures within { (mapping : Mapping) (list : List Feature) → (P.state spill.old).tells ≡ true
        → AreFeatures page.old.room mapping list shapes.shapes.rows
        → 39 * layout_size (settings_of set.now) bounds.now list ≤ part_limit
        → (P.state spill.new).is_overrun ≡ (P.state spill.old).is_overrun }
    ensures size { (mapping : Mapping) (list : List Feature) → (P.state spill.old).tells ≡ true
        → AreFeatures page.old.room mapping list shapes.shapes.rows
        → steps.new ≤ steps.old + 39 * layout_size (settings_of set.now) bounds.now list }

    // Over every store.
    ensures sub_files { IfOk result (AreSubFiles (length set.now.intervals.items)) }
    ensures just { IfOk result (λ subs. HasJust (sub_pieces (P.state spill.new) subs) (P.state spill.new)) }
    ensures spill { result ≡ Err LayoutFault.Spill → CountsOne (P.state spill.old).faults (P.state spill.new).faults }
    ensures same_faults { result ≢ Err LayoutFault.Spill → (P.state spill.new).faults ≡ (P.state spill.old).faults }
    ensures same { SameStore (P.state spill.old) (P.state spill.new) }
    ensures rooms { AllByRecursion (λ (d : Desk). d.records.capacity ≡ page.old.room) desks.new }
    ensures many { length desks.new ≡ length desks.old }
    ensures same_room { page.new.room ≡ page.old.room }
{
    lay_features(set, bounds, rows, shapes, &mut desks[0], page, spill, steps)
}

// The same in one desk.
fn lay_features<P: Spill, L: Ledger>(
    set: &HeadSettings,
    bounds: &Rect,
    rows: &Rows,
    shapes: Shapes,
    desk: &mut Desk,
    page: &mut Page,
    spill: &mut P,
    steps: &mut Steps<L>,
) -> Result<SubFiles, LayoutFault>
    requires intervals { IsTrue (are_intervals set.now.intervals.items) }
    requires bounds { IsTrue (is_rect bounds.now) }
    requires just { HasJust (shapes_pieces shapes) (P.state spill.old) }
    requires found { (P.state spill.old).tells ≡ true → (mapping : Mapping) × (list : List Feature)
        × AreFeatures desk.old.records.capacity mapping list shapes.shapes.rows }
    ensures laid { IfOk result (λ subs. (P.state spill.old).tells ≡ true → (mapping : Mapping) (list : List Feature)
        → AreFeatures desk.old.records.capacity mapping list shapes.shapes.rows
        → IsLayoutOf desk.old.records.capacity (settings_of set.now) bounds.now list shapes.largest subs
        (P.state spill.new)) }
    ensures limit { (f : Fault) (mapping : Mapping) (list : List Feature) → result ≡ Err (LayoutFault.Limit f)
        → (P.state spill.old).tells ≡ true → AreFeatures desk.old.records.capacity mapping list shapes.shapes.rows
        → layout_fault desk.old.records.capacity (settings_of set.now) bounds.now list ≡ Some f }
    ensures within { (mapping : Mapping) (list : List Feature) → (P.state spill.old).tells ≡ true
        → AreFeatures desk.old.records.capacity mapping list shapes.shapes.rows
        → 39 * layout_size (settings_of set.now) bounds.now list ≤ part_limit
        → (P.state spill.new).is_overrun ≡ (P.state spill.old).is_overrun }
    ensures size { (mapping : Mapping) (list : List Feature) → (P.state spill.old).tells ≡ true
        → AreFeatures desk.old.records.capacity mapping list shapes.shapes.rows
        → steps.new ≤ steps.old + 39 * layout_size (settings_of set.now) bounds.now list }
    ensures sub_files { IfOk result (AreSubFiles (length set.now.intervals.items)) }
    ensures just { IfOk result (λ subs. HasJust (sub_pieces (P.state spill.new) subs) (P.state spill.new)) }
    ensures spill { result ≡ Err LayoutFault.Spill → CountsOne (P.state spill.old).faults (P.state spill.new).faults }
    ensures same_faults { result ≢ Err LayoutFault.Spill → (P.state spill.new).faults ≡ (P.state spill.old).faults }
    ensures same { SameStore (P.state spill.old) (P.state spill.new) }
    ensures capacity { desk.new.records.capacity ≡ desk.old.records.capacity }
    ensures same_room { page.new.room ≡ page.old.room }
{
    let _known = shapes.shapes.len();
    let ordered = order_members(
        set,
        bounds,
        rows,
        shapes.shapes,
        &mut desk.records,
        page,
        spill,
        steps,
    )?;
    lay_ordered(
        set,
        bounds,
        rows,
        ordered,
        shapes.largest,
        desk,
        page,
        spill,
        steps,
    )
}
