//! The points of a way, held once for all members that it is.

ghost use Rattle.std.specs.Prelude.{◌≡◌, ◌+◌, ◌*◌, ◌≤◌, true, [], ◌∷◌, ◌++◌, map, take, length, IfOk, OnOk, OnErr};
ghost use Rattle.mf_edge.specs.Device.{CountsOne};
ghost use Rattle.mf_edge.specs.Spill.{SameParts};
ghost use Rattle.mf_rows.specs.Kinds.{point_kind};
ghost use Rattle.mf_rows.specs.Units.{point_in};
ghost use Rattle.row_runs.specs.Runs.{run_of, after_run, HasAllFrom};
ghost use Rattle.row_runs.specs.Running.{IsRunning, rows_left};
ghost use Rattle.way_points.specs.PointRows.{point_way, point_told};
ghost use Rattle.member_points.specs.RelRows.{held_points};
ghost use Rattle.member_points.specs.Pairing.{counted_points, IsHolding};

use mf_base::place::Place;
use mf_edge::{Failed, Spill, Steps};
use mf_rows::kind::RowKind;
use mf_rows::kinds::PointRow;
use mf_rows::records::Records;
use mf_rows::units::point_unit;
use row_runs::Runs;
use spill_parts::Page;
use std::sync::ledger::Ledger;

/// Holds the points of a way as loose units, in place of all that the records had: as many as there is room for. Answers
/// how many points the way has. Each way that was asked for before is lower.
pub(crate) fn hold_points<P: Spill, L: Ledger>(
    way: u64,
    records: &mut Records,
    runs: &mut Runs<PointRow>,
    spill: &mut P,
    page: &mut Page,
    steps: &mut Steps<L>,
) -> Result<u64, Failed>
    requires started { (P.state spill.old).is_started ≡ true }
    requires running { IsRunning point_kind point_way runs.old page.old (P.state spill.old) }
    requires all { (P.state spill.old).tells ≡ true
        → HasAllFrom point_way way (rows_left runs.old) runs.old.reading.source.rows }
    ensures holding { IfOk result (λ count. (P.state spill.old).tells ≡ true
        → IsHolding records.old.capacity way count records.new.loose (rows_left runs.new) runs.old.reading.source.rows) }
    ensures few { IfOk result (λ count. length records.new.loose ≤ count) }
    ensures capacity { records.new.capacity ≡ records.old.capacity }
    ensures running { OnOk result (IsRunning point_kind point_way runs.new page.new (P.state spill.new)) }
    ensures same_faults { OnOk result ((P.state spill.new).faults ≡ (P.state spill.old).faults) }
    ensures failed { OnErr result (CountsOne (P.state spill.old).faults (P.state spill.new).faults) }
    ensures steps { OnOk result (steps.new + 28 * runs.old.reading.loaded ≡ steps.old + 28 * runs.new.reading.loaded) }
    ensures steps_failed { OnErr result
        (steps.new + 28 * runs.old.reading.loaded ≤ steps.old + 28 * length runs.old.reading.source.rows) }
    ensures same_source { runs.new.reading.source ≡ runs.old.reading.source }
    ensures same_room { page.new.room ≡ page.old.room }
    ensures same { SameParts (P.state spill.old) (P.state spill.new) }
    ensures counts { (P.state spill.old).faults ≤ (P.state spill.new).faults }
{
    records.clear();
    runs.seek(way, spill, page, steps)?;
    hold_run(way, records, runs, spill, page, steps)
}

// Holds the points of a way that stand in front.
fn hold_run<P: Spill, L: Ledger>(
    way: u64,
    records: &mut Records,
    runs: &mut Runs<PointRow>,
    spill: &mut P,
    page: &mut Page,
    steps: &mut Steps<L>,
) -> Result<u64, Failed>
    requires started { (P.state spill.old).is_started ≡ true }
    requires running { IsRunning point_kind point_way runs.old page.old (P.state spill.old) }
    requires empty { (records.old.records ≡ []) × (records.old.loose ≡ []) }
    ensures held { IfOk result (λ count. (P.state spill.old).tells ≡ true
        → counted_points records.new.loose count
        ≡ held_points records.old.capacity (map point_told (run_of point_way way (rows_left runs.old)))) }
    ensures left { OnOk result ((P.state spill.old).tells ≡ true
        → rows_left runs.new ≡ after_run point_way way (rows_left runs.old)) }
    ensures few { IfOk result (λ count. length records.new.loose ≤ count) }
    ensures capacity { records.new.capacity ≡ records.old.capacity }
    ensures running { OnOk result (IsRunning point_kind point_way runs.new page.new (P.state spill.new)) }
    ensures same_faults { OnOk result ((P.state spill.new).faults ≡ (P.state spill.old).faults) }
    ensures failed { OnErr result (CountsOne (P.state spill.old).faults (P.state spill.new).faults) }
    ensures steps { OnOk result (steps.new + 28 * runs.old.reading.loaded ≡ steps.old + 28 * runs.new.reading.loaded) }
    ensures steps_failed { OnErr result
        (steps.new + 28 * runs.old.reading.loaded ≤ steps.old + 28 * length runs.old.reading.source.rows) }
    ensures same_source { runs.new.reading.source ≡ runs.old.reading.source }
    ensures same_room { page.new.room ≡ page.old.room }
    ensures same { SameParts (P.state spill.old) (P.state spill.new) }
    ensures counts { (P.state spill.old).faults ≤ (P.state spill.new).faults }
{
    let mut count = 0;
    while let Some(row) = runs.next_of(way, spill, page, steps)? {
        hold_point(&row, records);
        count += 1;
    }
    Ok(count)
}

// Holds a point behind others, where there is room.
fn hold_point(row: &PointRow, records: &mut Records)
    requires none { records.old.records ≡ [] }
    ensures held { map point_in records.new.loose
        ≡ take records.old.capacity (map point_in records.old.loose ++ point_told row.now ∷ []) }
    ensures few { length records.new.loose ≤ length records.old.loose + 1 }
    ensures none { records.new.records ≡ [] }
    ensures capacity { records.new.capacity ≡ records.old.capacity }
{
    if records.spare() > 0 {
        records.add_unit(&unit_of(row));
    }
}

// The unit of a point.
fn unit_of(row: &PointRow) -> [u8; 16]
    ensures { point_in result ≡ point_told row.now }
{
    (*row).known();
    point_unit(
        row.node,
        Place {
            lat: row.lat,
            lon: row.lon,
        },
    )
}
