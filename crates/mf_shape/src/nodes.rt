//! Candidates that are nodes. Each is a feature, with its point, and weighs as much as it has units.

ghost use Rattle.std.specs.Prelude.{◌≡◌, ◌≢◌, ◌+◌, ◌*◌, ◌≤◌, ◌<◌, ◌^◌, true, List, [], ◌∷◌, flat_map, length};
ghost use Rattle.std.specs.Prelude.{Some, Err, IfOk, OnOk, OnErr, is_some};
ghost use Rattle.std.specs.List.{AllByRecursion};
ghost use Rattle.mf_edge.specs.Device.{CountsOne};
ghost use Rattle.mf_edge.specs.Spill.{TouchesOnly, part_limit};
ghost use Rattle.feature_model.specs.declared.fault.LimitFault.{LimitFault as Fault};
ghost use Rattle.mf_rows.specs.Heads.{kind_told};
ghost use Rattle.mf_rows.specs.Kinds.{feature_kind, shape_kind};
ghost use Rattle.mf_rows.specs.Records.{Record};
ghost use Rattle.mf_rows.specs.RecordUnits.{record_in};
ghost use Rattle.spill_parts.specs.Parts.{IsHeld, IsReading};
ghost use Rattle.spill_parts.specs.Join.{rest_of};
ghost use Rattle.spill_parts.specs.Handed.{record_rows};
ghost use Rattle.mf_shape.specs.Numbered.{IsSpelled, AreNumbered, AreCounted, AreSoFar, IsOneMore, records_fault};

use crate::fault::ShapeFault;
use mf_edge::{Failed, Spill, Steps};
use mf_rows::LimitFault;
use mf_rows::kinds::{FeatureRow, ShapeRow};
use mf_rows::numbers::kind_of_number;
use mf_rows::records::Records;
use spill_parts::{Page, Part, Reader, Writer};
use std::sync::ledger::Ledger;
use unit_rows::give::put_units;
use unit_rows::load::load_record;

/// How many candidates were features, how many were skipped, and the greatest weight of all.
#[derive(Clone, Copy, Debug, Default, PartialEq, Eq)]
pub(crate) struct Counts {
    pub(crate) features: u64,
    pub(crate) skipped: u64,
    pub(crate) largest: u64,
}

/// Puts the features that the candidates of a part are to another, by their numbers, which count from 0. The row limit
/// is the room of the records.
pub(crate) fn put_nodes<P: Spill, L: Ledger>(
    from: &Part<FeatureRow>,
    out: &mut Writer<ShapeRow>,
    records: &mut Records,
    page: &mut Page,
    spill: &mut P,
    steps: &mut Steps<L>,
) -> Result<Counts, ShapeFault>
    requires started { (P.state spill.old).is_started ≡ true }
    requires from { IsHeld feature_kind from.now (P.state spill.old) }
    requires out { IsHeld shape_kind out.old (P.state spill.old) }
    requires apart { from.now.part ≢ out.old.part }
    requires empty { out.old.rows ≡ [] }

    // Where the store tells its bytes, the rows are those of all records, or the first one over the limit is told.
    ensures numbered { IfOk result (λ c. (P.state spill.old).tells ≡ true → (all : List Record)
        → AllByRecursion IsSpelled all → from.now.rows ≡ flat_map record_rows all
        → AreNumbered records.old.capacity all out.new.rows × AreCounted all c) }
    ensures limit { (f : Fault) → result ≡ Err (ShapeFault.Limit f) → (P.state spill.old).tells ≡ true
        → (all : List Record) → AllByRecursion IsSpelled all → from.now.rows ≡ flat_map record_rows all
        → records_fault records.old.capacity all ≡ Some f }

    ensures held { OnOk result (IsHeld shape_kind out.new (P.state spill.new)) }
    ensures part { out.new.part ≡ out.old.part }
    ensures only { TouchesOnly out.old.part (P.state spill.old) (P.state spill.new) }
    ensures spill { result ≡ Err ShapeFault.Spill → CountsOne (P.state spill.old).faults (P.state spill.new).faults }
    ensures same_faults { result ≢ Err ShapeFault.Spill → (P.state spill.new).faults ≡ (P.state spill.old).faults }
    ensures same_overrun { (P.state spill.new).is_overrun ≡ (P.state spill.old).is_overrun }
    ensures steps { steps.new ≤ steps.old + 29 * length from.now.rows }
    ensures small { 29 * length from.now.rows ≤ part_limit }
    ensures capacity { records.new.capacity ≡ records.old.capacity }
    ensures same_room { page.new.room ≡ page.old.room }
{
    let mut counts = Counts {
        features: 0,
        skipped: 0,
        largest: 0,
    };
    let mut reader = Reader::start(from);
    let mut held = reader.next(spill, page, steps)?;
    while is_held(&held) {
        held = put_held(
            held,
            &mut reader,
            out,
            &mut counts,
            records,
            spill,
            page,
            steps,
        )?;
    }
    Ok(counts)
}

// Whether a row is held.
fn is_held(held: &Option<FeatureRow>) -> bool
    ensures { result ≡ is_some held.now }
{
    held.is_some()
}

// Puts the feature of the candidate that begins with the row that is held, and answers the first row of the next.
fn put_held<P: Spill, L: Ledger>(
    held: Option<FeatureRow>,
    reader: &mut Reader<FeatureRow>,
    out: &mut Writer<ShapeRow>,
    counts: &mut Counts,
    records: &mut Records,
    spill: &mut P,
    page: &mut Page,
    steps: &mut Steps<L>,
) -> Result<Option<FeatureRow>, ShapeFault>
    requires started { (P.state spill.old).is_started ≡ true }
    requires reading { IsReading feature_kind reader.old page.old (P.state spill.old) }
    requires loaded { 29 * reader.old.loaded ≤ 29 * length reader.old.source.rows }
    requires out { IsHeld shape_kind out.old (P.state spill.old) }
    requires apart { reader.old.source.part ≢ out.old.part }
    requires fits { 29 * (length out.old.rows + length (rest_of held reader.old.left)) ≤ part_limit }
    requires few { counts.old.features + counts.old.skipped + length (rest_of held reader.old.left) < 2 ^ 63 }
    requires some { is_some held ≡ true }
    ensures so_far { IfOk result (λ next. (P.state spill.old).tells ≡ true → (all : List Record)
        → AllByRecursion IsSpelled all
        → AreSoFar records.old.capacity all (rest_of held reader.old.left) out.old.rows counts.old
        → AreSoFar records.old.capacity all (rest_of next reader.new.left) out.new.rows counts.new) }
    ensures limit { (f : Fault) → result ≡ Err (ShapeFault.Limit f) → (P.state spill.old).tells ≡ true
        → (all : List Record) → AllByRecursion IsSpelled all
        → AreSoFar records.old.capacity all (rest_of held reader.old.left) out.old.rows counts.old
        → records_fault records.old.capacity all ≡ Some f }
    ensures longer { IfOk result (λ next. length out.new.rows + length (rest_of next reader.new.left)
        ≤ length out.old.rows + length (rest_of held reader.old.left)) }
    ensures fewer { IfOk result (λ next. counts.new.features + counts.new.skipped
        + length (rest_of next reader.new.left) ≤ counts.old.features + counts.old.skipped + length (rest_of held reader.old.left)) }
    ensures shorter { IfOk result (λ next. length (rest_of next reader.new.left) + 1 ≤ length (rest_of held reader.old.left)) }
    ensures held { OnOk result (IsHeld shape_kind out.new (P.state spill.new)) }
    ensures part { out.new.part ≡ out.old.part }
    ensures only { TouchesOnly out.old.part (P.state spill.old) (P.state spill.new) }
    ensures spill { result ≡ Err ShapeFault.Spill → CountsOne (P.state spill.old).faults (P.state spill.new).faults }
    ensures same_faults { result ≢ Err ShapeFault.Spill → (P.state spill.new).faults ≡ (P.state spill.old).faults }
    ensures same_overrun { (P.state spill.new).is_overrun ≡ (P.state spill.old).is_overrun }
    ensures reading { OnOk result (IsReading feature_kind reader.new page.new (P.state spill.new)) }
    ensures source { reader.new.source ≡ reader.old.source }
    ensures steps { OnOk result (steps.new + 29 * reader.old.loaded ≡ steps.old + 29 * reader.new.loaded) }
    ensures within { OnOk result (29 * reader.new.loaded ≤ 29 * length reader.new.source.rows) }
    ensures steps_most { steps.new + 29 * reader.old.loaded ≤ steps.old + 29 * length reader.old.source.rows }
    ensures capacity { records.new.capacity ≡ records.old.capacity }
    ensures same_room { page.new.room ≡ page.old.room }
{
    match held {
        Some(first) => put_next(&first, reader, out, counts, records, spill, page, steps),
        None => Ok(None),
    }
}

// Puts the feature of the candidate that begins with this row, and answers the first row of the next.
fn put_next<P: Spill, L: Ledger>(
    first: &FeatureRow,
    reader: &mut Reader<FeatureRow>,
    out: &mut Writer<ShapeRow>,
    counts: &mut Counts,
    records: &mut Records,
    spill: &mut P,
    page: &mut Page,
    steps: &mut Steps<L>,
) -> Result<Option<FeatureRow>, ShapeFault>
    requires started { (P.state spill.old).is_started ≡ true }
    requires reading { IsReading feature_kind reader.old page.old (P.state spill.old) }
    requires loaded { 29 * reader.old.loaded ≤ 29 * length reader.old.source.rows }
    requires out { IsHeld shape_kind out.old (P.state spill.old) }
    requires apart { reader.old.source.part ≢ out.old.part }
    requires fits { 29 * (length out.old.rows + (1 + length reader.old.left)) ≤ part_limit }
    requires few { counts.old.features + counts.old.skipped + (1 + length reader.old.left) < 2 ^ 63 }
    ensures so_far { IfOk result (λ next. (P.state spill.old).tells ≡ true → (all : List Record)
        → AllByRecursion IsSpelled all
        → AreSoFar records.old.capacity all (first.now ∷ reader.old.left) out.old.rows counts.old
        → AreSoFar records.old.capacity all (rest_of next reader.new.left) out.new.rows counts.new) }
    ensures limit { (f : Fault) → result ≡ Err (ShapeFault.Limit f) → (P.state spill.old).tells ≡ true
        → (all : List Record) → AllByRecursion IsSpelled all
        → AreSoFar records.old.capacity all (first.now ∷ reader.old.left) out.old.rows counts.old
        → records_fault records.old.capacity all ≡ Some f }
    ensures longer { IfOk result (λ next. length out.new.rows + length (rest_of next reader.new.left)
        ≤ length out.old.rows + (1 + length reader.old.left)) }
    ensures fewer { IfOk result (λ next. counts.new.features + counts.new.skipped
        + length (rest_of next reader.new.left) ≤ counts.old.features + counts.old.skipped + (1 + length reader.old.left)) }
    ensures shorter { IfOk result (λ next. length (rest_of next reader.new.left) ≤ length reader.old.left) }
    ensures held { OnOk result (IsHeld shape_kind out.new (P.state spill.new)) }
    ensures part { out.new.part ≡ out.old.part }
    ensures only { TouchesOnly out.old.part (P.state spill.old) (P.state spill.new) }
    ensures spill { result ≡ Err ShapeFault.Spill → CountsOne (P.state spill.old).faults (P.state spill.new).faults }
    ensures same_faults { result ≢ Err ShapeFault.Spill → (P.state spill.new).faults ≡ (P.state spill.old).faults }
    ensures same_overrun { (P.state spill.new).is_overrun ≡ (P.state spill.old).is_overrun }
    ensures reading { OnOk result (IsReading feature_kind reader.new page.new (P.state spill.new)) }
    ensures source { reader.new.source ≡ reader.old.source }
    ensures steps { OnOk result (steps.new + 29 * reader.old.loaded ≡ steps.old + 29 * reader.new.loaded) }
    ensures within { OnOk result (29 * reader.new.loaded ≤ 29 * length reader.new.source.rows) }
    ensures steps_most { steps.new + 29 * reader.old.loaded ≤ steps.old + 29 * length reader.old.source.rows }
    ensures capacity { records.new.capacity ≡ records.old.capacity }
    ensures same_room { page.new.room ≡ page.old.room }
{
    records.clear();
    let limit = records.spare();
    let loaded = load_record(first, reader, records, spill, page, steps)?;
    if loaded.units > u64::from(limit) {
        return Err(ShapeFault::Limit(over(first, loaded.units)));
    }
    put_feature(records, loaded.units, counts, out, spill)?;
    Ok(loaded.next)
}

// The fault of a candidate of this weight.
fn over(row: &FeatureRow, weight: u64) -> LimitFault
    ensures { result ≡ Fault.Feature (kind_told row.now.kind) row.now.id weight }
{
    LimitFault::Feature {
        kind: kind_of_number(row.kind),
        id: row.id,
        weight,
    }
}

// Makes the loose units a record with the next number and this weight, and puts its rows. Units that spell none are
// skipped.
fn put_feature<P: Spill>(
    records: &mut Records,
    weight: u64,
    counts: &mut Counts,
    out: &mut Writer<ShapeRow>,
    spill: &mut P,
) -> Result<(), Failed>
    requires started { (P.state spill.old).is_started ≡ true }
    requires held { IsHeld shape_kind out.old (P.state spill.old) }
    requires none { records.old.records ≡ [] }
    requires fits { 28 * (length out.old.rows + length records.old.loose) ≤ part_limit }
    requires few { counts.old.features + counts.old.skipped + 1 < 2 ^ 63 }
    ensures made { OnOk result ((r : Record) → record_in records.old.loose ≡ Some r
        → IsOneMore r (length records.old.loose) weight out.old.rows out.new.rows counts.old counts.new) }
    ensures longer { OnOk result (length out.new.rows ≤ length out.old.rows + length records.old.loose) }
    ensures counted { OnOk result (counts.new.features + counts.new.skipped
        ≡ counts.old.features + counts.old.skipped + 1) }
    ensures held { OnOk result (IsHeld shape_kind out.new (P.state spill.new)) }
    ensures part { out.new.part ≡ out.old.part }
    ensures only { TouchesOnly out.old.part (P.state spill.old) (P.state spill.new) }
    ensures failed { OnErr result (CountsOne (P.state spill.old).faults (P.state spill.new).faults) }
    ensures same_faults { OnOk result ((P.state spill.new).faults ≡ (P.state spill.old).faults) }
    ensures same_overrun { (P.state spill.new).is_overrun ≡ (P.state spill.old).is_overrun }
    ensures capacity { records.new.capacity ≡ records.old.capacity }
{
    prove!(records.spare() <= 16_777_216);
    if !records.close_record() {
        counts.skipped += 1;
        return Ok(());
    }
    records.set_feature(counts.features, weight);
    let like = ShapeRow {
        number: counts.features,
        place: 0,
        unit: [0; 16],
    };
    put_units(&like, records.units(0), out, spill)?;
    counts.features += 1;
    counts.largest = counts.largest.max(weight);
    Ok(())
}
