//! Who finds rows of a part by their keys.

ghost use Rattle.std.specs.Prelude.{◌≡◌, ◌+◌, ◌*◌, ◌≤◌, ℕ, true, false, find, ◌==◌, length, IfOk, OnOk, OnErr};
ghost use Rattle.mf_edge.specs.Device.{CountsOne};
ghost use Rattle.mf_edge.specs.Spill.{SameParts};
ghost use Rattle.spill_parts.specs.Parts.{IsHeld, IsReading};
ghost use Rattle.spill_parts.specs.Join.{Rises, IsLooking, rest_of, from_key, is_below, if_its_key};

use crate::part::Part;
use crate::reader::{Page, Reader};
use mf_edge::{Failed, Spill, Steps};
use mf_rows::kind::RowKind;
use std::marker::Model;
use std::sync::ledger::Ledger;

/// A row with a number by which it is found.
pub trait Keyed: RowKind {
    ghost key_of: { Self → ℕ };

    /// The number.
    fn key(&self) -> u64
        ensures { result ≡ key_of self.now };
}

/// What finds rows of a part, whose keys rise, by keys that do not fall. So the part is read once, from front to back.
#[derive(Drop)]
pub struct Lookup<N: Keyed> {
    reader: Reader<N>,
    held: Option<N>,
    asked: u64,
}

impl<N: Keyed> Model for Lookup<N> {
    ghost use Rattle.spill_parts.specs.Join.{Looking};

    ghost Value = { Looking N };

    ghost view = { λ l. record { reading = l.reader; held = l.held; asked = l.asked } };
}

impl<N: Keyed> Lookup<N> {
    /// Begins to look up rows of a part, of which it reads the first.
    pub fn start<P: Spill, L: Ledger>(
        part: &Part<N>,
        spill: &mut P,
        page: &mut Page,
        steps: &mut Steps<L>,
    ) -> Result<Lookup<N>, Failed>
        requires started { (P.state spill.old).is_started ≡ true }
        requires held { IsHeld N.kind part.now (P.state spill.old) }
        requires rises { (P.state spill.old).tells ≡ true → Rises N.key_of part.now.rows }
        ensures looking { IfOk result (λ l. IsLooking N.kind N.key_of l page.new (P.state spill.new)) }
        ensures source { IfOk result (λ l. l.reading.source ≡ part.now) }
        ensures asked { IfOk result (λ l. l.asked ≡ 0) }
        ensures same_faults { OnOk result ((P.state spill.new).faults ≡ (P.state spill.old).faults) }
        ensures failed { OnErr result (CountsOne (P.state spill.old).faults (P.state spill.new).faults) }
        ensures steps { IfOk result (λ l. steps.new ≡ steps.old + N.kind.width * l.reading.loaded) }
        ensures within { IfOk result (λ l. N.kind.width * l.reading.loaded ≤ N.kind.width * length part.now.rows) }
        ensures steps_failed { OnErr result (steps.new ≤ steps.old + N.kind.width * length part.now.rows) }
        ensures same_room { page.new.room ≡ page.old.room }
        ensures same { SameParts (P.state spill.old) (P.state spill.new) }
        ensures counts { (P.state spill.old).faults ≤ (P.state spill.new).faults }
    {
        let mut reader = Reader::start(part);
        let held = reader.next(spill, page, steps)?;
        Ok(Lookup {
            reader,
            held,
            asked: 0,
        })
    }

    /// The row of the part that has a key, where there is one. No key is below one that was asked for before.
    pub fn find<P: Spill, L: Ledger>(
        &mut self,
        key: u64,
        spill: &mut P,
        page: &mut Page,
        steps: &mut Steps<L>,
    ) -> Result<Option<N>, Failed>
        requires started { (P.state spill.old).is_started ≡ true }
        requires looking { IsLooking N.kind N.key_of self.old page.old (P.state spill.old) }
        requires climbs { (P.state spill.old).tells ≡ true → self.old.asked ≤ key }
        ensures found { IfOk result (λ found. (P.state spill.old).tells ≡ true
            → found ≡ find (λ n. N.key_of n == key) self.old.reading.source.rows) }
        ensures looking { OnOk result (IsLooking N.kind N.key_of self.new page.new (P.state spill.new)) }
        ensures asked { OnOk result (self.new.asked ≡ key) }
        ensures same_faults { OnOk result ((P.state spill.new).faults ≡ (P.state spill.old).faults) }
        ensures failed { OnErr result (CountsOne (P.state spill.old).faults (P.state spill.new).faults) }
        ensures steps { OnOk result (steps.new + N.kind.width * self.old.reading.loaded
            ≡ steps.old + N.kind.width * self.new.reading.loaded) }
        ensures within { OnOk result
            (N.kind.width * self.new.reading.loaded ≤ N.kind.width * length self.new.reading.source.rows) }
        ensures steps_failed { OnErr result (steps.new + N.kind.width * self.old.reading.loaded
            ≤ steps.old + N.kind.width * length self.old.reading.source.rows) }
        ensures same_source { self.new.reading.source ≡ self.old.reading.source }
        ensures same_room { page.new.room ≡ page.old.room }
        ensures same { SameParts (P.state spill.old) (P.state spill.new) }
        ensures counts { (P.state spill.old).faults ≤ (P.state spill.new).faults }
    {
        self.held = pass_below(key, self.held, &mut self.reader, spill, page, steps)?;
        self.asked = key;
        Ok(if_key(self.held, key))
    }
}

// Passes over the rows below a key.
fn pass_below<N: Keyed, P: Spill, L: Ledger>(
    wanted: u64,
    held: Option<N>,
    reader: &mut Reader<N>,
    spill: &mut P,
    page: &mut Page,
    steps: &mut Steps<L>,
) -> Result<Option<N>, Failed>
    requires started { (P.state spill.old).is_started ≡ true }
    requires reading { IsReading N.kind reader.old page.old (P.state spill.old) }
    ensures rest { IfOk result (λ now. (P.state spill.old).tells ≡ true
        → rest_of now reader.new.left ≡ from_key N.key_of wanted (rest_of held reader.old.left)) }
    ensures stops { IfOk result (λ now. is_below N.key_of wanted now ≡ false) }
    ensures reading { OnOk result (IsReading N.kind reader.new page.new (P.state spill.new)) }
    ensures same_faults { OnOk result ((P.state spill.new).faults ≡ (P.state spill.old).faults) }
    ensures steps { OnOk result
        (steps.new + N.kind.width * reader.old.loaded ≡ steps.old + N.kind.width * reader.new.loaded) }
    ensures steps_failed { OnErr result
        (steps.new + N.kind.width * reader.old.loaded ≤ steps.old + N.kind.width * length reader.old.source.rows) }
    ensures within { OnOk result (N.kind.width * reader.old.loaded ≤ N.kind.width * length reader.old.source.rows
        → N.kind.width * reader.new.loaded ≤ N.kind.width * length reader.new.source.rows) }
    ensures failed { OnErr result (CountsOne (P.state spill.old).faults (P.state spill.new).faults) }
    ensures same_source { reader.new.source ≡ reader.old.source }
    ensures same_room { page.new.room ≡ page.old.room }
    ensures same { SameParts (P.state spill.old) (P.state spill.new) }
    ensures counts { (P.state spill.old).faults ≤ (P.state spill.new).faults }
{
    let mut held = held;
    while is_held_below(&held, wanted) {
        held = reader.next(spill, page, steps)?;
    }
    Ok(held)
}

// Whether a row is held whose key is below another.
fn is_held_below<N: Keyed>(held: &Option<N>, wanted: u64) -> bool
    ensures { result ≡ is_below N.key_of wanted held.now }
{
    match held {
        Some(row) => row.key() < wanted,
        None => false,
    }
}

// The row that is held, where it has this key.
fn if_key<N: Keyed>(held: Option<N>, key: u64) -> Option<N>
    ensures { result ≡ if_its_key N.key_of key held }
{
    match held {
        Some(row) => { if row.key() == key { Some(row) } else { None } }
        None => None,
    }
}
