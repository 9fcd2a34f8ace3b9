//! Who reads the rows of a part run after run.

ghost use Rattle.std.specs.Prelude.{◌≡◌, ◌≢◌, ◌+◌, ◌*◌, ◌≤◌, true, false, length, Ok, Some, None, IsOk, IfOk, OnOk, OnErr};
ghost use Rattle.mf_edge.specs.Device.{CountsOne};
ghost use Rattle.mf_edge.specs.Spill.{SameParts};
ghost use Rattle.spill_parts.specs.Parts.{IsHeld};
ghost use Rattle.spill_parts.specs.Join.{Climbs, from_key, is_below, if_its_key};
ghost use Rattle.row_runs.specs.Running.{IsRunning, GivesOf, rows_left};

use mf_edge::{Failed, Spill, Steps};
use spill_parts::{Keyed, Page, Part, Reader};
use std::marker::Model;
use std::sync::ledger::Ledger;

/// Rows of a part, whose keys do not fall, given by keys that rise. So the part is read once, from front to back.
#[derive(Drop)]
pub struct Runs<N: Keyed> {
    reader: Reader<N>,
    held: Option<N>,
}

impl<N: Keyed> Model for Runs<N> {
    ghost use Rattle.row_runs.specs.Running.{Running};

    ghost Value = { Running N };

    ghost view = { λ r. record { reading = r.reader; held = r.held } };
}

impl<N: Keyed> Runs<N> {
    /// Begins to read a part, of which it reads the first row.
    pub fn start<P: Spill, L: Ledger>(
        part: &Part<N>,
        spill: &mut P,
        page: &mut Page,
        steps: &mut Steps<L>,
    ) -> Result<Runs<N>, Failed>
        requires started { (P.state spill.old).is_started ≡ true }
        requires held { IsHeld N.kind part.now (P.state spill.old) }
        requires climbs { (P.state spill.old).tells ≡ true → Climbs N.key_of part.now.rows }
        ensures running { IfOk result (λ r. IsRunning N.kind N.key_of r page.new (P.state spill.new)) }
        ensures left { IfOk result (λ r. (P.state spill.old).tells ≡ true → rows_left r ≡ part.now.rows) }
        ensures as_many { IfOk result (λ r. length (rows_left r) ≡ length part.now.rows) }
        ensures source { IfOk result (λ r. r.reading.source ≡ part.now) }
        ensures same_faults { OnOk result ((P.state spill.new).faults ≡ (P.state spill.old).faults) }
        ensures failed { OnErr result (CountsOne (P.state spill.old).faults (P.state spill.new).faults) }
        ensures steps { IfOk result (λ r. steps.new ≡ steps.old + N.kind.width * r.reading.loaded) }
        ensures within { IfOk result (λ r. N.kind.width * r.reading.loaded ≤ N.kind.width * length part.now.rows) }
        ensures steps_failed { OnErr result (steps.new ≤ steps.old + N.kind.width * length part.now.rows) }
        ensures same_room { page.new.room ≡ page.old.room }
        ensures same { SameParts (P.state spill.old) (P.state spill.new) }
        ensures counts { (P.state spill.old).faults ≤ (P.state spill.new).faults }
    {
        let mut reader = Reader::start(part);
        let held = reader.next(spill, page, steps)?;
        Ok(Runs { reader, held })
    }

    /// Passes over the rows below a key.
    pub fn seek<P: Spill, L: Ledger>(
        &mut self,
        key: u64,
        spill: &mut P,
        page: &mut Page,
        steps: &mut Steps<L>,
    ) -> Result<(), Failed>
        requires started { (P.state spill.old).is_started ≡ true }
        requires running { IsRunning N.kind N.key_of self.old page.old (P.state spill.old) }
        ensures left { OnOk result ((P.state spill.old).tells ≡ true
            → rows_left self.new ≡ from_key N.key_of key (rows_left self.old)) }
        ensures stops { OnOk result (is_below N.key_of key self.new.held ≡ false) }
        ensures fewer { OnOk result (length (rows_left self.new) ≤ length (rows_left self.old)) }
        ensures none_below { is_below N.key_of key self.old.held ≡ false → IsOk result × (self.new ≡ self.old)
            × (page.new ≡ page.old) × (P.state spill.new ≡ P.state spill.old) × (steps.new ≡ steps.old) }
        ensures running { OnOk result (IsRunning N.kind N.key_of self.new page.new (P.state spill.new)) }
        ensures same_faults { OnOk result ((P.state spill.new).faults ≡ (P.state spill.old).faults) }
        ensures failed { OnErr result (CountsOne (P.state spill.old).faults (P.state spill.new).faults) }
        ensures steps { OnOk result (steps.new + N.kind.width * self.old.reading.loaded
            ≡ steps.old + N.kind.width * self.new.reading.loaded) }
        ensures within { OnOk result
            (N.kind.width * self.new.reading.loaded ≤ N.kind.width * length self.new.reading.source.rows) }
        ensures steps_failed { OnErr result (steps.new + N.kind.width * self.old.reading.loaded
            ≤ steps.old + N.kind.width * length self.old.reading.source.rows) }
        ensures same_source { self.new.reading.source ≡ self.old.reading.source }
        ensures same_room { page.new.room ≡ page.old.room }
        ensures same { SameParts (P.state spill.old) (P.state spill.new) }
        ensures counts { (P.state spill.old).faults ≤ (P.state spill.new).faults }
    {
        while is_held_below(&self.held, key) {
            self.pass(spill, page, steps)?;
        }
        Ok(())
    }

    /// The row in front, where it has this key, and then it is no longer left.
    pub fn next_of<P: Spill, L: Ledger>(
        &mut self,
        key: u64,
        spill: &mut P,
        page: &mut Page,
        steps: &mut Steps<L>,
    ) -> Result<Option<N>, Failed>
        requires started { (P.state spill.old).is_started ≡ true }
        requires running { IsRunning N.kind N.key_of self.old page.old (P.state spill.old) }
        ensures next { IfOk result (λ found.
            GivesOf N.key_of key (P.state spill.old).tells (rows_left self.old) found (rows_left self.new)) }
        ensures none { result ≡ Ok None → (self.new ≡ self.old) × (page.new ≡ page.old)
            × (P.state spill.new ≡ P.state spill.old) × (steps.new ≡ steps.old) }
        ensures running { OnOk result (IsRunning N.kind N.key_of self.new page.new (P.state spill.new)) }
        ensures same_faults { OnOk result ((P.state spill.new).faults ≡ (P.state spill.old).faults) }
        ensures failed { OnErr result (CountsOne (P.state spill.old).faults (P.state spill.new).faults) }
        ensures steps { OnOk result (steps.new + N.kind.width * self.old.reading.loaded
            ≡ steps.old + N.kind.width * self.new.reading.loaded) }
        ensures within { OnOk result
            (N.kind.width * self.new.reading.loaded ≤ N.kind.width * length self.new.reading.source.rows) }
        ensures steps_failed { OnErr result (steps.new + N.kind.width * self.old.reading.loaded
            ≤ steps.old + N.kind.width * length self.old.reading.source.rows) }
        ensures same_source { self.new.reading.source ≡ self.old.reading.source }
        ensures same_room { page.new.room ≡ page.old.room }
        ensures same { SameParts (P.state spill.old) (P.state spill.new) }
        ensures counts { (P.state spill.old).faults ≤ (P.state spill.new).faults }
    {
        match if_key(self.held, key) {
            Some(row) => {
                self.pass(spill, page, steps)?;
                Ok(Some(row))
            }
            None => Ok(None),
        }
    }

    // Passes over the row in front.
    fn pass<P: Spill, L: Ledger>(
        &mut self,
        spill: &mut P,
        page: &mut Page,
        steps: &mut Steps<L>,
    ) -> Result<(), Failed>
        requires started { (P.state spill.old).is_started ≡ true }
        requires running { IsRunning N.kind N.key_of self.old page.old (P.state spill.old) }
        ensures left { OnOk result ((P.state spill.old).tells ≡ true → rows_left self.new ≡ self.old.reading.left) }
        ensures as_many { OnOk result (length (rows_left self.new) ≡ length self.old.reading.left) }
        ensures running { OnOk result (IsRunning N.kind N.key_of self.new page.new (P.state spill.new)) }
        ensures same_faults { OnOk result ((P.state spill.new).faults ≡ (P.state spill.old).faults) }
        ensures failed { OnErr result (CountsOne (P.state spill.old).faults (P.state spill.new).faults) }
        ensures steps { OnOk result (steps.new + N.kind.width * self.old.reading.loaded
            ≡ steps.old + N.kind.width * self.new.reading.loaded) }
        ensures within { OnOk result
            (N.kind.width * self.new.reading.loaded ≤ N.kind.width * length self.new.reading.source.rows) }
        ensures steps_failed { OnErr result (steps.new + N.kind.width * self.old.reading.loaded
            ≤ steps.old + N.kind.width * length self.old.reading.source.rows) }
        ensures same_source { self.new.reading.source ≡ self.old.reading.source }
        ensures same_room { page.new.room ≡ page.old.room }
        ensures same { SameParts (P.state spill.old) (P.state spill.new) }
        ensures counts { (P.state spill.old).faults ≤ (P.state spill.new).faults }
    {
        self.held = self.reader.next(spill, page, steps)?;
        Ok(())
    }
}

// Whether a row is held whose key is below another.
fn is_held_below<N: Keyed>(held: &Option<N>, wanted: u64) -> bool
    ensures { result ≡ is_below N.key_of wanted held.now }
{
    match held {
        Some(row) => row.key() < wanted,
        None => false,
    }
}

// The row that is held, where it has this key.
fn if_key<N: Keyed>(held: Option<N>, key: u64) -> Option<N>
    ensures { result ≡ if_its_key N.key_of key held }
{
    match held {
        Some(row) => { if row.key() == key { Some(row) } else { None } }
        None => None,
    }
}
