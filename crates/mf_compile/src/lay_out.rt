//! Parts become features, and features become sub-files, with their report.

ghost use Rattle.std.specs.Prelude.{◌≡◌, ◌≢◌, ℕ, ◌+◌, ◌*◌, ◌<◌, ◌≤◌, ◌^◌, true, List, [], length, Some, Err, IfOk, IsTrue};
ghost use Rattle.std.specs.List.{AllByRecursion};
ghost use Rattle.mf_base.specs.Ranges.{is_rect};
ghost use Rattle.osm_model.specs.Entities.{Entity};
ghost use Rattle.osm_model.specs.declared.faults.InputFault.{InputFault as Refused};
ghost use Rattle.feature_model.specs.Mapping.{Mapping};
ghost use Rattle.feature_model.specs.Entries.{IsMapping};
ghost use Rattle.feature_model.specs.Limits.{candidate_fault};
ghost use Rattle.feature_model.specs.declared.fault.LimitFault.{LimitFault as Over};
ghost use Rattle.map_model.specs.MapFile.{limit_fault, job_size, shape_size};
ghost use Rattle.mf_edge.specs.Device.{CountsOne};
ghost use Rattle.mf_edge.specs.Spill.{SameStore, part_limit};
ghost use Rattle.spill_parts.specs.Parts.{HasJust};
ghost use Rattle.spill_parts.specs.Handed.{IsIngested, ingested_pieces};
ghost use Rattle.spill_parts.specs.Shaped.{IsShapeOf, shapes_pieces};
ghost use Rattle.mf_layout.specs.SubFiles.{IsSubFile, AreSubFiles, bytes_in};
ghost use Rattle.mf_layout.specs.Layouts.{sub_pieces};
ghost use Rattle.job_words.specs.Settings.{IsJob};
ghost use Rattle.job_words.specs.Shown.{settings_of};
ghost use Rattle.mf_compile.specs.Jobs.{HaveRooms};
ghost use Rattle.mf_compile.specs.LaidOut.{IsLaidOut};

use crate::fault::Fault;
use job_words::settings::Settings;
use map_header::header::header_size;
use map_model::report::Report;
use mercator_rows::rows::Rows;
use mf_base::place::Rect;
use mf_edge::{Spill, Steps};
use mf_layout::layout::layout;
use mf_layout::sub_files::{SubFileSize, SubFiles};
use mf_rows::desk::Desk;
use mf_shape::fault::ShapeFault;
use mf_shape::shape::shape;
use spill_parts::{Ingested, Page, Shapes};
use std::sync::ledger::Ledger;

/// Makes the features of gathered parts, and lays out their sub-files, with the report of their map. After a fault the
/// parts are not to be used again.
pub(crate) fn lay_out<P: Spill, L: Ledger>(
    settings: &Settings,
    rows: &Rows,
    bounds: &Rect,
    found: Ingested,
    desks: &mut [Desk],
    page: &mut Page,
    spill: &mut P,
    steps: &mut Steps<L>,
) -> Result<(SubFiles, Report), Fault>
    requires job { IsJob (settings_of settings.now) }
    requires mapping { IsMapping settings.now.mapping }
    requires no_ways { settings.now.mapping.way ≡ [] }
    requires bounds { IsTrue (is_rect bounds.now) }
    requires rooms { HaveRooms settings.now.workers settings.now.rows desks.old page.old }
    requires just { HasJust (ingested_pieces found) (P.state spill.old) }
    requires found { (P.state spill.old).tells ≡ true
        → (entities : List Entity) × IsIngested settings.now.mapping entities found }

    // Over a store that tells its bytes, of the entities that were gathered.
    ensures laid { (entities : List Entity) → IsIngested settings.now.mapping entities found
        → (P.state spill.old).tells ≡ true
        → IfOk result (λ r. IsLaidOut (settings_of settings.now) bounds.now entities r.0 r.1 (P.state spill.new)) }
    ensures limit { (entities : List Entity) (f : Over) → IsIngested settings.now.mapping entities found
        → (P.state spill.old).tells ≡ true → result ≡ Err (Fault.Limit f) → let job = settings_of settings.now in
        limit_fault job.rows job.head job.mapping bounds.now entities ≡ Some f }
    ensures within { (entities : List Entity) → IsIngested settings.now.mapping entities found
        → (P.state spill.old).tells ≡ true → let job = settings_of settings.now in
        39 * job_size job.head job.mapping bounds.now entities ≤ part_limit
        → (P.state spill.new).is_overrun ≡ (P.state spill.old).is_overrun }
    ensures steps { (entities : List Entity) → IsIngested settings.now.mapping entities found
        → (P.state spill.old).tells ≡ true → let job = settings_of settings.now in
        steps.new ≤ steps.old + 68 * job_size job.head job.mapping bounds.now entities }

    // Over every store.
    ensures sub_files { IfOk result (λ r. AreSubFiles (length settings.now.head.intervals.items) r.0) }
    ensures just { IfOk result (λ r. HasJust (sub_pieces (P.state spill.new) r.0) (P.state spill.new)) }
    ensures spill { result ≡ Err Fault.Spill → CountsOne (P.state spill.old).faults (P.state spill.new).faults }
    ensures same_faults { result ≢ Err Fault.Spill → (P.state spill.new).faults ≡ (P.state spill.old).faults }
    ensures never { (result ≢ Err Fault.Read) × (result ≢ Err Fault.Write) × (result ≢ Err Fault.NoBox)
        × ((f : Refused) → result ≢ Err (Fault.Input f)) }
    ensures same { SameStore (P.state spill.old) (P.state spill.new) }
    ensures rooms { HaveRooms settings.now.workers settings.now.rows desks.new page.new }
{
    let shapes = shape_first(found, desks, page, spill, steps)?;
    let counted = counted(&shapes);
    let subs = layout(
        &settings.head,
        bounds,
        rows,
        shapes,
        desks,
        page,
        spill,
        steps,
    )?;
    let report = Report {
        tiles: subs.shown,
        water: subs.water,
        bytes: header_size(&settings.head, &settings.mapping) + size_of_all(&subs.sizes),
        largest: subs.largest,
        ..counted
    };
    Ok((subs, report))
}

// Has the first desk work.
fn shape_first<P: Spill, L: Ledger>(
    found: Ingested,
    desks: &mut [Desk],
    page: &mut Page,
    spill: &mut P,
    steps: &mut Steps<L>,
) -> Result<Shapes, ShapeFault>
    requires some { 0 < length desks.old }
    requires rooms { AllByRecursion (λ (d : Desk). d.records.capacity ≡ page.old.room) desks.old }
    requires just { HasJust (ingested_pieces found) (P.state spill.old) }
    ensures features { (mapping : Mapping) (entities : List Entity) → IsIngested mapping entities found
        → mapping.way ≡ [] → (P.state spill.old).tells ≡ true
        → IfOk result (IsShapeOf page.old.room mapping entities) }
    ensures limit { (f : Over) (mapping : Mapping) (entities : List Entity) → IsIngested mapping entities found
        → mapping.way ≡ [] → (P.state spill.old).tells ≡ true → result ≡ Err (ShapeFault.Limit f)
        → candidate_fault page.old.room mapping entities ≡ Some f }
    ensures just { IfOk result (λ shapes. HasJust (shapes_pieces shapes) (P.state spill.new)) }
    ensures spill { result ≡ Err ShapeFault.Spill → CountsOne (P.state spill.old).faults (P.state spill.new).faults }
    ensures same_faults { result ≢ Err ShapeFault.Spill → (P.state spill.new).faults ≡ (P.state spill.old).faults }
    ensures same { SameStore (P.state spill.old) (P.state spill.new) }
    ensures same_overrun { (P.state spill.new).is_overrun ≡ (P.state spill.old).is_overrun }
    ensures size { (mapping : Mapping) (entities : List Entity) → IsIngested mapping entities found
        → mapping.way ≡ [] → steps.new ≤ steps.old + 29 * shape_size mapping entities }
    ensures rooms { AllByRecursion (λ (d : Desk). d.records.capacity ≡ page.old.room) desks.new }
    ensures many { length desks.new ≡ length desks.old }
    ensures same_room { page.new.room ≡ page.old.room }
{
    shape(found, &mut desks[0], page, spill, steps)
}

// A report of what was shaped. The map is still to be laid out.
fn counted(shapes: &Shapes) -> Report
    ensures { result ≡ record {
      nodes = shapes.now.nodes;
      ways = shapes.now.ways;
      relations = shapes.now.relations;
      features = shapes.now.features;
      skipped = shapes.now.skipped;
      tiles = 0;
      water = 0;
      bytes = 0;
      largest = 0;
    } }
{
    Report {
        nodes: shapes.nodes,
        ways: shapes.ways,
        relations: shapes.relations,
        features: shapes.features,
        skipped: shapes.skipped,
        tiles: 0,
        water: 0,
        bytes: 0,
        largest: 0,
    }
}

// How many bytes sub-files have.
fn size_of_all(sizes: &[SubFileSize]) -> u64
    requires few { length sizes.now ≤ 8 }
    requires each { AllByRecursion IsSubFile sizes.now }
    ensures size { result ≡ bytes_in sizes.now }
    ensures most { result ≤ 8 * 2 ^ 39 }
{
    let mut bytes = 0;
    for size in sizes {
        bytes += size.bytes;
    }
    bytes
}
