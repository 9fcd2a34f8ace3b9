//! The join of two parts by a key, each read once from front to back.

ghost use Rattle.std.specs.Prelude.{◌≡◌, ◌≢◌, ◌==◌, ◌+◌, ◌*◌, ◌≤◌, ◌<◌, true, ◌++◌, length, find, IfOk, OnOk, OnErr};
ghost use Rattle.mf_edge.specs.Device.{CountsOne};
ghost use Rattle.mf_edge.specs.Spill.{SameStore, TouchesOnly, most_parts, part_limit};
ghost use Rattle.spill_parts.specs.Parts.{IsHeld};
ghost use Rattle.spill_parts.specs.Join.{joined_rows, one_joined, Climbs, Rises, IsLooking, IsAdded, AddsAtMostOne};

use crate::lookup::{Keyed, Lookup};
use crate::part::Part;
use crate::reader::{Page, Reader};
use crate::writer::Writer;
use mf_edge::{Failed, Spill, Steps};
use mf_rows::kind::RowKind;
use std::sync::ledger::Ledger;

/// A row that is made of two.
pub trait JoinOf<R, N>: RowKind {
    ghost join_of: { R → N → Self };

    /// The row of these two.
    fn join(r: &R, n: &N) -> Self
        ensures { result ≡ join_of r.now n.now };
}

/// Writes each row of `refs` that has a row in `nodes`, joined with it, to a new part. Both are ordered by their keys,
/// and no key stands twice in `nodes`. Each is read once.
#[tactic(auto, using(crate::proofs::Looked::joined_steps))]
pub fn join<R: Keyed, N: Keyed, O: JoinOf<R, N>, P: Spill, L: Ledger>(
    refs: &Part<R>,
    nodes: &Part<N>,
    first: &mut Page,
    second: &mut Page,
    spill: &mut P,
    steps: &mut Steps<L>,
) -> Result<Part<O>, Failed>
    requires started { (P.state spill.old).is_started ≡ true }
    requires few { (P.state spill.old).count < most_parts }
    requires refs { IsHeld R.kind refs.now (P.state spill.old) }
    requires nodes { IsHeld N.kind nodes.now (P.state spill.old) }
    requires climbs { (P.state spill.old).tells ≡ true → Climbs R.key_of refs.now.rows }
    requires rises { (P.state spill.old).tells ≡ true → Rises N.key_of nodes.now.rows }
    ensures rows { IfOk result (λ out. (P.state spill.old).tells ≡ true
        → out.rows ≡ joined_rows R.key_of N.key_of O.join_of nodes.now.rows refs.now.rows) }
    ensures held { IfOk result (λ out. IsHeld O.kind out (P.state spill.new)) }
    ensures added { IfOk result (λ out. IsAdded out.part (P.state spill.old) (P.state spill.new)) }
    ensures same_faults { OnOk result ((P.state spill.new).faults ≡ (P.state spill.old).faults) }

    ensures failed { OnErr result (CountsOne (P.state spill.old).faults (P.state spill.new).faults) }
    ensures at_most_one { OnErr result (AddsAtMostOne (P.state spill.old) (P.state spill.new)) }

    // The store becomes overrun only where the rows that are joined pass the limit, and where it does not tell its
    // bytes only where a row for each of `refs` would.
    ensures within_joined { (P.state spill.old).tells ≡ true → O.kind.width
        * length (joined_rows R.key_of N.key_of O.join_of nodes.now.rows refs.now.rows) ≤ part_limit
        → (P.state spill.new).is_overrun ≡ (P.state spill.old).is_overrun }
    ensures within { O.kind.width * length refs.now.rows ≤ part_limit
        → (P.state spill.new).is_overrun ≡ (P.state spill.old).is_overrun }
    ensures steps { steps.new ≤ steps.old + R.kind.width * length refs.now.rows + N.kind.width * length nodes.now.rows }
    ensures same { SameStore (P.state spill.old) (P.state spill.new) }
    ensures counts { (P.state spill.old).faults ≤ (P.state spill.new).faults }
    ensures same_rooms { (first.new.room ≡ first.old.room) × (second.new.room ≡ second.old.room) }
{
    let mut out = Writer::<O>::make(spill)?;
    let mut reader = Reader::start(refs);
    let mut lookup = Lookup::start(nodes, spill, second, steps)?;
    while let Some(row) = reader.next(spill, first, steps)? {
        join_row(&row, &mut lookup, &mut out, spill, second, steps)?;
    }
    Ok(out.finish())
}

// Puts a row joined with the one of its key, where there is one.
fn join_row<R: Keyed, N: Keyed, O: JoinOf<R, N>, P: Spill, L: Ledger>(
    row: &R,
    lookup: &mut Lookup<N>,
    out: &mut Writer<O>,
    spill: &mut P,
    page: &mut Page,
    steps: &mut Steps<L>,
) -> Result<(), Failed>
    requires started { (P.state spill.old).is_started ≡ true }
    requires looking { IsLooking N.kind N.key_of lookup.old page.old (P.state spill.old) }
    requires out { IsHeld O.kind out.old (P.state spill.old) }
    requires apart { lookup.old.reading.source.part ≢ out.old.part }
    requires climbs { (P.state spill.old).tells ≡ true → lookup.old.asked ≤ R.key_of row.now }
    ensures rows { OnOk result ((P.state spill.old).tells ≡ true
        → out.new.rows ≡ out.old.rows
        ++ one_joined O.join_of row.now (find (λ n. N.key_of n == R.key_of row.now) lookup.old.reading.source.rows)) }
    ensures few { OnOk result (length out.new.rows ≤ length out.old.rows + 1) }
    ensures fits_joined { (P.state spill.old).tells ≡ true
        → O.kind.width * length out.old.rows + O.kind.width
        * length (one_joined O.join_of row.now (find (λ n. N.key_of n == R.key_of row.now) lookup.old.reading.source.rows))
        ≤ part_limit → (P.state spill.new).is_overrun ≡ (P.state spill.old).is_overrun }
    ensures fits { O.kind.width * length out.old.rows + O.kind.width ≤ part_limit
        → (P.state spill.new).is_overrun ≡ (P.state spill.old).is_overrun }
    ensures part { out.new.part ≡ out.old.part }
    ensures out { OnOk result (IsHeld O.kind out.new (P.state spill.new)) }
    ensures looking { OnOk result (IsLooking N.kind N.key_of lookup.new page.new (P.state spill.new)) }
    ensures asked { OnOk result (lookup.new.asked ≡ R.key_of row.now) }
    ensures same_source { lookup.new.reading.source ≡ lookup.old.reading.source }
    ensures same_faults { OnOk result ((P.state spill.new).faults ≡ (P.state spill.old).faults) }
    ensures failed { OnErr result (CountsOne (P.state spill.old).faults (P.state spill.new).faults) }
    ensures steps { OnOk result (steps.new + N.kind.width * lookup.old.reading.loaded
        ≡ steps.old + N.kind.width * lookup.new.reading.loaded) }
    ensures within { OnOk result
        (N.kind.width * lookup.new.reading.loaded ≤ N.kind.width * length lookup.new.reading.source.rows) }
    ensures most { steps.new + N.kind.width * lookup.old.reading.loaded
        ≤ steps.old + N.kind.width * length lookup.old.reading.source.rows }
    ensures only { TouchesOnly out.old.part (P.state spill.old) (P.state spill.new) }
    ensures counts { (P.state spill.old).faults ≤ (P.state spill.new).faults }
    ensures same_room { page.new.room ≡ page.old.room }
{
    let found = lookup.find(row.key(), spill, page, steps)?;
    put_joined(row, found, out, spill)
}

// Puts a row joined with the one that was found for it, where there is one.
fn put_joined<R: Keyed, N: Keyed, O: JoinOf<R, N>, P: Spill>(
    row: &R,
    found: Option<N>,
    out: &mut Writer<O>,
    spill: &mut P,
) -> Result<(), Failed>
    requires started { (P.state spill.old).is_started ≡ true }
    requires out { IsHeld O.kind out.old (P.state spill.old) }
    ensures rows { OnOk result (out.new.rows ≡ out.old.rows ++ one_joined O.join_of row.now found) }
    ensures within { O.kind.width * length out.old.rows + O.kind.width * length (one_joined O.join_of row.now found)
        ≤ part_limit → (P.state spill.new).is_overrun ≡ (P.state spill.old).is_overrun }
    ensures part { out.new.part ≡ out.old.part }
    ensures out { OnOk result (IsHeld O.kind out.new (P.state spill.new)) }
    ensures same_faults { OnOk result ((P.state spill.new).faults ≡ (P.state spill.old).faults) }
    ensures failed { OnErr result (CountsOne (P.state spill.old).faults (P.state spill.new).faults) }
    ensures only { TouchesOnly out.old.part (P.state spill.old) (P.state spill.new) }
    ensures counts { (P.state spill.old).faults ≤ (P.state spill.new).faults }
{
    match found {
        Some(node) => out.put(spill, &O::join(row, &node)),
        None => Ok(()),
    }
}

#[cfg(test)]
mod tests;
