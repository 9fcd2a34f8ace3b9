//! Members beside points: each member takes all points of its way.

ghost use Rattle.std.specs.Prelude.{◌≡◌, ◌≢◌, ◌+◌, ◌*◌, ◌<◌, ◌≤◌, true, ◌++◌, length, IfOk, OnOk, OnErr};
ghost use Rattle.mf_edge.specs.Device.{CountsOne};
ghost use Rattle.mf_edge.specs.Spill.{SameStore, SameParts, TouchesOnly, most_parts, part_limit};
ghost use Rattle.mf_rows.specs.Kinds.{member_kind, point_kind, rel_kind};
ghost use Rattle.spill_parts.specs.Parts.{IsHeld};
ghost use Rattle.spill_parts.specs.Join.{Climbs, IsAdded};
ghost use Rattle.row_runs.specs.Running.{IsRunning, rows_left};
ghost use Rattle.way_points.specs.PointRows.{point_way};
ghost use Rattle.member_points.specs.RelRows.{member_way};
ghost use Rattle.member_points.specs.Pairing.{rows_of_member, rows_from, counted_points, paired_rows, IsHolding};

use crate::given::MemberPoints;
use crate::held::hold_points;
use mf_edge::{Failed, Spill, Steps};
use mf_rows::kinds::{MemberRow, PointRow, RelRow};
use mf_rows::records::Records;
use row_runs::Runs;
use spill_parts::{Page, Part, Reader, Writer, put_rows};
use std::sync::ledger::Ledger;

// The way whose points are held as loose units, and how many points it has.
#[derive(Clone, Copy)]
struct Held {
    way: u64,
    count: u64,
}

/// Writes for each member the points of its way to a new part, as many as the records hold, and a blank one for each
/// further point. Members and points are ordered by way. Each part is read once.
pub(crate) fn pair_members<P: Spill, L: Ledger>(
    members: &Part<MemberRow>,
    points: &Part<PointRow>,
    records: &mut Records,
    first: &mut Page,
    second: &mut Page,
    spill: &mut P,
    steps: &mut Steps<L>,
) -> Result<Part<RelRow>, Failed>
    requires started { (P.state spill.old).is_started ≡ true }
    requires few { (P.state spill.old).count < most_parts }
    requires members { IsHeld member_kind members.now (P.state spill.old) }
    requires points { IsHeld point_kind points.now (P.state spill.old) }
    requires climbs { (P.state spill.old).tells ≡ true → Climbs member_way members.now.rows }
    requires points_climb { (P.state spill.old).tells ≡ true → Climbs point_way points.now.rows }
    ensures rows { IfOk result (λ out. (P.state spill.old).tells ≡ true
        → out.rows ≡ paired_rows records.old.capacity points.now.rows members.now.rows) }
    ensures held { IfOk result (λ out. IsHeld rel_kind out (P.state spill.new)) }
    ensures added { IfOk result (λ out. IsAdded out.part (P.state spill.old) (P.state spill.new)) }
    ensures same_faults { OnOk result ((P.state spill.new).faults ≡ (P.state spill.old).faults) }
    ensures failed { OnErr result (CountsOne (P.state spill.old).faults (P.state spill.new).faults) }

    // The store becomes overrun only where the rows pass the limit of a part.
    ensures within { (P.state spill.old).tells ≡ true
        → 33 * length (paired_rows records.old.capacity points.now.rows members.now.rows) ≤ part_limit
        → (P.state spill.new).is_overrun ≡ (P.state spill.old).is_overrun }
    ensures steps { steps.new ≤ steps.old + 21 * length members.now.rows + 28 * length points.now.rows }
    ensures capacity { records.new.capacity ≡ records.old.capacity }
    ensures same { SameStore (P.state spill.old) (P.state spill.new) }
    ensures counts { (P.state spill.old).faults ≤ (P.state spill.new).faults }
    ensures same_rooms { (first.new.room ≡ first.old.room) × (second.new.room ≡ second.old.room) }
{
    let mut out = Writer::<RelRow>::make(spill)?;
    let mut reader = Reader::start(members);
    let mut runs = Runs::start(points, spill, second, steps)?;
    let count = hold_points(0, records, &mut runs, spill, second, steps)?;
    let mut held = Held { way: 0, count };
    while let Some(member) = reader.next(spill, first, steps)? {
        pair_member(
            &member, &mut held, records, &mut runs, &mut out, spill, second, steps,
        )?;
    }
    Ok(out.finish())
}

// Puts the points of a member's way. Its way is not lower than the one whose points are held.
fn pair_member<P: Spill, L: Ledger>(
    member: &MemberRow,
    held: &mut Held,
    records: &mut Records,
    runs: &mut Runs<PointRow>,
    out: &mut Writer<RelRow>,
    spill: &mut P,
    page: &mut Page,
    steps: &mut Steps<L>,
) -> Result<(), Failed>
    requires started { (P.state spill.old).is_started ≡ true }
    requires running { IsRunning point_kind point_way runs.old page.old (P.state spill.old) }
    requires out { IsHeld rel_kind out.old (P.state spill.old) }
    requires apart { runs.old.reading.source.part ≢ out.old.part }
    requires few { length records.old.loose ≤ held.old.count }
    requires holding { (P.state spill.old).tells ≡ true → IsHolding records.old.capacity held.old.way held.old.count
        records.old.loose (rows_left runs.old) runs.old.reading.source.rows }
    requires climbs { (P.state spill.old).tells ≡ true → held.old.way ≤ member_way member.now }
    ensures rows { OnOk result ((P.state spill.old).tells ≡ true → out.new.rows
        ≡ out.old.rows ++ rows_of_member records.old.capacity runs.old.reading.source.rows member.now) }
    ensures holding { OnOk result ((P.state spill.old).tells ≡ true → IsHolding records.new.capacity held.new.way
        held.new.count records.new.loose (rows_left runs.new) runs.new.reading.source.rows) }
    ensures few { OnOk result (length records.new.loose ≤ held.new.count) }
    ensures way { OnOk result (held.new.way ≡ member_way member.now) }
    ensures capacity { records.new.capacity ≡ records.old.capacity }
    ensures fits { (P.state spill.old).tells ≡ true → 33 * length out.old.rows
        + 33 * length (rows_of_member records.old.capacity runs.old.reading.source.rows member.now) ≤ part_limit
        → (P.state spill.new).is_overrun ≡ (P.state spill.old).is_overrun }
    ensures part { out.new.part ≡ out.old.part }
    ensures out { OnOk result (IsHeld rel_kind out.new (P.state spill.new)) }
    ensures running { OnOk result (IsRunning point_kind point_way runs.new page.new (P.state spill.new)) }
    ensures same_source { runs.new.reading.source ≡ runs.old.reading.source }
    ensures same_faults { OnOk result ((P.state spill.new).faults ≡ (P.state spill.old).faults) }
    ensures failed { OnErr result (CountsOne (P.state spill.old).faults (P.state spill.new).faults) }
    ensures steps { OnOk result (steps.new + 28 * runs.old.reading.loaded ≡ steps.old + 28 * runs.new.reading.loaded) }
    ensures most { steps.new + 28 * runs.old.reading.loaded ≤ steps.old + 28 * length runs.old.reading.source.rows }
    ensures only { TouchesOnly out.old.part (P.state spill.old) (P.state spill.new) }
    ensures counts { (P.state spill.old).faults ≤ (P.state spill.new).faults }
    ensures same_room { page.new.room ≡ page.old.room }
{
    hold_way(member.way, held, records, runs, spill, page, steps)?;
    put_member(member, held.count, records, out, spill)
}

// Holds the points of a way in place of those of a lower one, where they are not held yet.
fn hold_way<P: Spill, L: Ledger>(
    way: u64,
    held: &mut Held,
    records: &mut Records,
    runs: &mut Runs<PointRow>,
    spill: &mut P,
    page: &mut Page,
    steps: &mut Steps<L>,
) -> Result<(), Failed>
    requires started { (P.state spill.old).is_started ≡ true }
    requires running { IsRunning point_kind point_way runs.old page.old (P.state spill.old) }
    requires few { length records.old.loose ≤ held.old.count }
    requires holding { (P.state spill.old).tells ≡ true → IsHolding records.old.capacity held.old.way held.old.count
        records.old.loose (rows_left runs.old) runs.old.reading.source.rows }
    requires climbs { (P.state spill.old).tells ≡ true → held.old.way ≤ way }
    ensures holding { OnOk result ((P.state spill.old).tells ≡ true → IsHolding records.new.capacity way
        held.new.count records.new.loose (rows_left runs.new) runs.new.reading.source.rows) }
    ensures few { OnOk result (length records.new.loose ≤ held.new.count) }
    ensures way { OnOk result (held.new.way ≡ way) }
    ensures capacity { records.new.capacity ≡ records.old.capacity }
    ensures running { OnOk result (IsRunning point_kind point_way runs.new page.new (P.state spill.new)) }
    ensures same_source { runs.new.reading.source ≡ runs.old.reading.source }
    ensures same_faults { OnOk result ((P.state spill.new).faults ≡ (P.state spill.old).faults) }
    ensures failed { OnErr result (CountsOne (P.state spill.old).faults (P.state spill.new).faults) }
    ensures steps { OnOk result (steps.new + 28 * runs.old.reading.loaded ≡ steps.old + 28 * runs.new.reading.loaded) }
    ensures steps_failed { OnErr result
        (steps.new + 28 * runs.old.reading.loaded ≤ steps.old + 28 * length runs.old.reading.source.rows) }
    ensures same { SameParts (P.state spill.old) (P.state spill.new) }
    ensures counts { (P.state spill.old).faults ≤ (P.state spill.new).faults }
    ensures same_room { page.new.room ≡ page.old.room }
{
    if held.way != way {
        let count = hold_points(way, records, runs, spill, page, steps)?;
        *held = Held { way, count };
    }
    Ok(())
}

// Puts the points that are held as the rows of a member.
fn put_member<P: Spill>(
    member: &MemberRow,
    count: u64,
    records: &Records,
    out: &mut Writer<RelRow>,
    spill: &mut P,
) -> Result<(), Failed>
    requires started { (P.state spill.old).is_started ≡ true }
    requires out { IsHeld rel_kind out.old (P.state spill.old) }
    requires few { length records.now.loose ≤ count }
    ensures rows { OnOk result
        (out.new.rows ≡ out.old.rows ++ rows_from member.now 0 (counted_points records.now.loose count)) }
    ensures out { OnOk result (IsHeld rel_kind out.new (P.state spill.new)) }
    ensures within { 33 * (length out.old.rows + length (rows_from member.now 0 (counted_points records.now.loose count)))
        ≤ part_limit → (P.state spill.new).is_overrun ≡ (P.state spill.old).is_overrun }
    ensures part { out.new.part ≡ out.old.part }
    ensures same_faults { OnOk result ((P.state spill.new).faults ≡ (P.state spill.old).faults) }
    ensures failed { OnErr result (CountsOne (P.state spill.old).faults (P.state spill.new).faults) }
    ensures only { TouchesOnly out.old.part (P.state spill.old) (P.state spill.new) }
    ensures counts { (P.state spill.old).faults ≤ (P.state spill.new).faults }
{
    let units = records.loose();
    let mut rows = MemberPoints::of(member, units, count - units.len() as u64);
    put_rows(out, spill, &mut rows)
}
