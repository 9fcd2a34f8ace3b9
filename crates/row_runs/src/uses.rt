//! The rows of a key are counted, or put to another part: the forms of a loop over a run.

ghost use Rattle.std.specs.Prelude.{◌≡◌, ◌≢◌, ◌+◌, ◌*◌, ◌≤◌, true, ◌++◌, map, length, IfOk, OnOk, OnErr};
ghost use Rattle.mf_edge.specs.Device.{CountsOne};
ghost use Rattle.mf_edge.specs.Spill.{SameParts, TouchesOnly, part_limit};
ghost use Rattle.spill_parts.specs.Parts.{IsHeld};
ghost use Rattle.row_runs.specs.Runs.{rows_with, run_of, after_run, HasAllFrom};
ghost use Rattle.row_runs.specs.Running.{IsRunning, rows_left};

use crate::runs::Runs;
use mf_edge::{Failed, Spill, Steps};
use mf_rows::kind::RowKind;
use spill_parts::{Keyed, Page, Writer};
use std::sync::ledger::Ledger;

/// How many rows of the part have this key. Each key that was asked for before is lower.
pub fn count_of<N: Keyed, P: Spill, L: Ledger>(
    key: u64,
    runs: &mut Runs<N>,
    spill: &mut P,
    page: &mut Page,
    steps: &mut Steps<L>,
) -> Result<u64, Failed>
    requires started { (P.state spill.old).is_started ≡ true }
    requires running { IsRunning N.kind N.key_of runs.old page.old (P.state spill.old) }
    requires all { (P.state spill.old).tells ≡ true
        → HasAllFrom N.key_of key (rows_left runs.old) runs.old.reading.source.rows }
    ensures number { IfOk result (λ n. (P.state spill.old).tells ≡ true
        → n ≡ length (rows_with N.key_of key runs.old.reading.source.rows)) }
    ensures all { OnOk result ((P.state spill.old).tells ≡ true
        → HasAllFrom N.key_of (key + 1) (rows_left runs.new) runs.new.reading.source.rows) }
    ensures fewer { IfOk result (λ n. n + length (rows_left runs.new) ≤ length (rows_left runs.old)) }
    ensures running { OnOk result (IsRunning N.kind N.key_of runs.new page.new (P.state spill.new)) }
    ensures same_faults { OnOk result ((P.state spill.new).faults ≡ (P.state spill.old).faults) }
    ensures failed { OnErr result (CountsOne (P.state spill.old).faults (P.state spill.new).faults) }
    ensures steps { OnOk result (steps.new + N.kind.width * runs.old.reading.loaded
        ≡ steps.old + N.kind.width * runs.new.reading.loaded) }
    ensures within { OnOk result
        (N.kind.width * runs.new.reading.loaded ≤ N.kind.width * length runs.new.reading.source.rows) }
    ensures steps_failed { OnErr result (steps.new + N.kind.width * runs.old.reading.loaded
        ≤ steps.old + N.kind.width * length runs.old.reading.source.rows) }
    ensures same_source { runs.new.reading.source ≡ runs.old.reading.source }
    ensures same_room { page.new.room ≡ page.old.room }
    ensures same { SameParts (P.state spill.old) (P.state spill.new) }
    ensures counts { (P.state spill.old).faults ≤ (P.state spill.new).faults }
{
    runs.seek(key, spill, page, steps)?;
    count_run(key, runs, spill, page, steps)
}

// Counts the rows of a key that stand in front.
fn count_run<N: Keyed, P: Spill, L: Ledger>(
    key: u64,
    runs: &mut Runs<N>,
    spill: &mut P,
    page: &mut Page,
    steps: &mut Steps<L>,
) -> Result<u64, Failed>
    requires started { (P.state spill.old).is_started ≡ true }
    requires running { IsRunning N.kind N.key_of runs.old page.old (P.state spill.old) }
    ensures number { IfOk result (λ n. (P.state spill.old).tells ≡ true
        → n ≡ length (run_of N.key_of key (rows_left runs.old))) }
    ensures left { OnOk result ((P.state spill.old).tells ≡ true
        → rows_left runs.new ≡ after_run N.key_of key (rows_left runs.old)) }
    ensures fewer { IfOk result (λ n. n + length (rows_left runs.new) ≡ length (rows_left runs.old)) }
    ensures running { OnOk result (IsRunning N.kind N.key_of runs.new page.new (P.state spill.new)) }
    ensures same_faults { OnOk result ((P.state spill.new).faults ≡ (P.state spill.old).faults) }
    ensures failed { OnErr result (CountsOne (P.state spill.old).faults (P.state spill.new).faults) }
    ensures steps { OnOk result (steps.new + N.kind.width * runs.old.reading.loaded
        ≡ steps.old + N.kind.width * runs.new.reading.loaded) }
    ensures within { OnOk result
        (N.kind.width * runs.new.reading.loaded ≤ N.kind.width * length runs.new.reading.source.rows) }
    ensures steps_failed { OnErr result (steps.new + N.kind.width * runs.old.reading.loaded
        ≤ steps.old + N.kind.width * length runs.old.reading.source.rows) }
    ensures same_source { runs.new.reading.source ≡ runs.old.reading.source }
    ensures same_room { page.new.room ≡ page.old.room }
    ensures same { SameParts (P.state spill.old) (P.state spill.new) }
    ensures counts { (P.state spill.old).faults ≤ (P.state spill.new).faults }
{
    let mut n = 0;
    while let Some(_row) = runs.next_of(key, spill, page, steps)? {
        n += 1;
    }
    Ok(n)
}

/// A row that is made of one of another kind.
pub trait MadeOf<N>: RowKind {
    ghost made_of: { N → Self };

    /// The row of this one.
    fn made(row: &N) -> Self
        ensures { result ≡ made_of row.now };
}

/// Puts the rows of a key that stand in front to the end of a part, each as a row of another kind.
pub fn put_run<N: Keyed, O: MadeOf<N>, P: Spill, L: Ledger>(
    key: u64,
    runs: &mut Runs<N>,
    out: &mut Writer<O>,
    spill: &mut P,
    page: &mut Page,
    steps: &mut Steps<L>,
) -> Result<(), Failed>
    requires started { (P.state spill.old).is_started ≡ true }
    requires running { IsRunning N.kind N.key_of runs.old page.old (P.state spill.old) }
    requires out { IsHeld O.kind out.old (P.state spill.old) }
    requires apart { runs.old.reading.source.part ≢ out.old.part }
    ensures rows { OnOk result ((P.state spill.old).tells ≡ true
        → out.new.rows ≡ out.old.rows ++ map O.made_of (run_of N.key_of key (rows_left runs.old))) }
    ensures left { OnOk result ((P.state spill.old).tells ≡ true
        → rows_left runs.new ≡ after_run N.key_of key (rows_left runs.old)) }
    ensures as_many { OnOk result
        (length out.new.rows + length (rows_left runs.new) ≡ length out.old.rows + length (rows_left runs.old)) }
    ensures out { OnOk result (IsHeld O.kind out.new (P.state spill.new)) }
    ensures running { OnOk result (IsRunning N.kind N.key_of runs.new page.new (P.state spill.new)) }
    ensures same_faults { OnOk result ((P.state spill.new).faults ≡ (P.state spill.old).faults) }
    ensures failed { OnErr result (CountsOne (P.state spill.old).faults (P.state spill.new).faults) }

    // The store becomes overrun only where the rows of the run would pass the limit, and where it does not tell its
    // bytes only where all rows that are left would.
    ensures fits_run { (P.state spill.old).tells ≡ true → O.kind.width * length out.old.rows
        + O.kind.width * length (run_of N.key_of key (rows_left runs.old)) ≤ part_limit
        → (P.state spill.new).is_overrun ≡ (P.state spill.old).is_overrun }
    ensures fits { O.kind.width * length out.old.rows + O.kind.width * length (rows_left runs.old) ≤ part_limit
        → (P.state spill.new).is_overrun ≡ (P.state spill.old).is_overrun }

    ensures steps { OnOk result (steps.new + N.kind.width * runs.old.reading.loaded
        ≡ steps.old + N.kind.width * runs.new.reading.loaded) }
    ensures within { OnOk result
        (N.kind.width * runs.new.reading.loaded ≤ N.kind.width * length runs.new.reading.source.rows) }
    ensures steps_failed { OnErr result (steps.new + N.kind.width * runs.old.reading.loaded
        ≤ steps.old + N.kind.width * length runs.old.reading.source.rows) }
    ensures same_source { runs.new.reading.source ≡ runs.old.reading.source }
    ensures same_room { page.new.room ≡ page.old.room }
    ensures part { out.new.part ≡ out.old.part }
    ensures only { TouchesOnly out.old.part (P.state spill.old) (P.state spill.new) }
    ensures counts { (P.state spill.old).faults ≤ (P.state spill.new).faults }
{
    while let Some(row) = runs.next_of(key, spill, page, steps)? {
        out.put(spill, &O::made(&row))?;
    }
    Ok(())
}

#[cfg(test)]
mod tests;
