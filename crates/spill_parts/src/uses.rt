//! A part is copied: the form of a loop over a reader.

ghost use Rattle.std.specs.Prelude.{◌≡◌, ◌≢◌, ◌+◌, ◌*◌, ◌<◌, ◌≤◌, true, ◌++◌, length, IfOk, OnOk, OnErr};
ghost use Rattle.mf_edge.specs.Device.{CountsOne};
ghost use Rattle.mf_edge.specs.Spill.{SameStore, TouchesOnly, most_parts, part_limit};
ghost use Rattle.spill_parts.specs.Parts.{IsHeld, IsReading};
ghost use Rattle.spill_parts.specs.Join.{IsAdded, AddsAtMostOne};

use crate::part::Part;
use crate::reader::{Page, Reader};
use crate::writer::Writer;
use mf_edge::{Failed, Spill, Steps};
use mf_rows::kind::RowKind;
use std::sync::ledger::Ledger;

/// Copies the rows of a part to a new one.
pub fn copy<K: RowKind, P: Spill, L: Ledger>(
    from: &Part<K>,
    spill: &mut P,
    page: &mut Page,
    steps: &mut Steps<L>,
) -> Result<Part<K>, Failed>
    requires started { (P.state spill.old).is_started ≡ true }
    requires few { (P.state spill.old).count < most_parts }
    requires held { IsHeld K.kind from.now (P.state spill.old) }
    ensures rows { IfOk result (λ to. (P.state spill.old).tells ≡ true → to.rows ≡ from.now.rows) }
    ensures as_many { IfOk result (λ to. length to.rows ≡ length from.now.rows) }
    ensures held { IfOk result (λ to. IsHeld K.kind to (P.state spill.new)) }
    ensures same_faults { OnOk result ((P.state spill.new).faults ≡ (P.state spill.old).faults) }
    ensures failed { OnErr result (CountsOne (P.state spill.old).faults (P.state spill.new).faults) }
    ensures steps { steps.new ≤ steps.old + K.kind.width * length from.now.rows }
    ensures added { IfOk result (λ to. IsAdded to.part (P.state spill.old) (P.state spill.new)) }
    ensures at_most_one { OnErr result (AddsAtMostOne (P.state spill.old) (P.state spill.new)) }
    ensures same { SameStore (P.state spill.old) (P.state spill.new) }
    ensures same_overrun { (P.state spill.new).is_overrun ≡ (P.state spill.old).is_overrun }
    ensures counts { (P.state spill.old).faults ≤ (P.state spill.new).faults }
    ensures same_room { page.new.room ≡ page.old.room }
{
    let mut to = Writer::<K>::make(spill)?;
    let mut reader = Reader::start(from);
    copy_rest(&mut reader, &mut to, spill, page, steps)?;
    Ok(to.finish())
}

// Puts the rows that a reader has still to give to the end of a part.
fn copy_rest<K: RowKind, P: Spill, L: Ledger>(
    reader: &mut Reader<K>,
    to: &mut Writer<K>,
    spill: &mut P,
    page: &mut Page,
    steps: &mut Steps<L>,
) -> Result<(), Failed>
    requires started { (P.state spill.old).is_started ≡ true }
    requires apart { to.old.part ≢ reader.old.source.part }
    requires reading { IsReading K.kind reader.old page.old (P.state spill.old) }
    requires held { IsHeld K.kind to.old (P.state spill.old) }
    requires within { K.kind.width * reader.old.loaded ≤ K.kind.width * length reader.old.source.rows }
    requires small { K.kind.width * length to.old.rows + K.kind.width * length reader.old.left ≤ part_limit }
    ensures rows { OnOk result ((P.state spill.old).tells ≡ true → to.new.rows ≡ to.old.rows ++ reader.old.left) }
    ensures as_many { OnOk result (length to.new.rows ≡ length to.old.rows + length reader.old.left) }
    ensures held { OnOk result (IsHeld K.kind to.new (P.state spill.new)) }
    ensures steps { steps.new + K.kind.width * reader.old.loaded ≤ steps.old + K.kind.width * length reader.old.source.rows }
    ensures same_faults { OnOk result ((P.state spill.new).faults ≡ (P.state spill.old).faults) }
    ensures failed { OnErr result (CountsOne (P.state spill.old).faults (P.state spill.new).faults) }
    ensures part { to.new.part ≡ to.old.part }
    ensures only { TouchesOnly to.old.part (P.state spill.old) (P.state spill.new) }
    ensures same_overrun { (P.state spill.new).is_overrun ≡ (P.state spill.old).is_overrun }
    ensures counts { (P.state spill.old).faults ≤ (P.state spill.new).faults }
    ensures same_room { page.new.room ≡ page.old.room }
{
    while let Some(row) = reader.next(spill, page, steps)? {
        to.put(spill, &row)?;
    }
    Ok(())
}

#[cfg(test)]
mod tests;
