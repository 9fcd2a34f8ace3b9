//! A part of plain bytes.

ghost use Rattle.std.specs.Prelude.{◌≡◌, ◌+◌, ◌<◌, ◌≤◌, true, length, IfOk, OnOk, OnErr};
ghost use Rattle.mf_edge.specs.Device.{CountsOne};
ghost use Rattle.mf_edge.specs.Spill.{SameStore, SameParts, TouchesOnly, IsMade, IsAppended, IsForgotten, stretch};
ghost use Rattle.mf_edge.specs.Spill.{most_parts, part_limit};
ghost use Rattle.spill_parts.specs.Parts.{HasItsSize};

use mf_edge::{Failed, Spill, Steps};
use std::marker::Model;
use std::sync::ledger::Ledger;

/// A part of a store, as bytes. Contracts see its number and its size; its bytes are those that the store tells.
#[derive(Drop)]
pub struct BytePart {
    part: u32,
    size: u64,
}

impl Model for BytePart {
    ghost use Rattle.std.specs.Prelude.{◌≤◌};
    ghost use Rattle.mf_edge.specs.Spill.{part_limit};
    ghost use Rattle.spill_parts.specs.Parts.{BytePart as PartSize};

    ghost Value = { PartSize };

    ghost view = { λ p. record { part = p.part; size = p.size } };

    ghost invariant = { λ p. p.size ≤ part_limit };
}

impl BytePart {
    /// Makes a part without bytes. After `Failed` all parts are as they were.
    pub fn make<P: Spill>(spill: &mut P) -> Result<BytePart, Failed>
        requires started { (P.state spill.old).is_started ≡ true }
        requires few { (P.state spill.old).count < most_parts }
        ensures made { IfOk result (λ p. IsMade p.part (P.state spill.old) (P.state spill.new)) }
        ensures empty { IfOk result (λ p. p.size ≡ 0) }
        ensures same_faults { OnOk result ((P.state spill.new).faults ≡ (P.state spill.old).faults) }

        ensures none { OnErr result (SameParts (P.state spill.old) (P.state spill.new)) }
        ensures failed { OnErr result (CountsOne (P.state spill.old).faults (P.state spill.new).faults) }

        ensures same { SameStore (P.state spill.old) (P.state spill.new) }
        ensures same_overrun { (P.state spill.new).is_overrun ≡ (P.state spill.old).is_overrun }
        ensures counts { (P.state spill.old).faults ≤ (P.state spill.new).faults }
    {
        let part = spill.make()?;
        Ok(BytePart { part, size: 0 })
    }

    /// How many bytes it has.
    pub fn len(&self) -> u64
        ensures many { result ≡ self.now.size }
        ensures small { self.now.size ≤ part_limit }
    {
        self.size
    }

    /// Its number in the store.
    pub fn number(&self) -> u32
        ensures { result ≡ self.now.part }
    {
        self.part
    }

    /// Puts bytes to its end. After `Failed` the part is not used again.
    pub fn append<P: Spill>(&mut self, spill: &mut P, bytes: &[u8]) -> Result<(), Failed>
        requires started { (P.state spill.old).is_started ≡ true }
        requires held { HasItsSize self.old (P.state spill.old) }
        ensures put { OnOk result (IsAppended self.old.part bytes.now (P.state spill.old) (P.state spill.new)) }
        ensures size { OnOk result (self.new.size ≡ self.old.size + length bytes.now) }
        ensures held { OnOk result (HasItsSize self.new (P.state spill.new)) }
        ensures same_faults { OnOk result ((P.state spill.new).faults ≡ (P.state spill.old).faults) }

        ensures failed { OnErr result (CountsOne (P.state spill.old).faults (P.state spill.new).faults) }

        ensures within { self.old.size + length bytes.now ≤ part_limit
            → (P.state spill.new).is_overrun ≡ (P.state spill.old).is_overrun }
        ensures past { part_limit < self.old.size + length bytes.now
            → (P.state spill.new).is_overrun ≡ true }
        ensures same_part { self.new.part ≡ self.old.part }
        ensures only { TouchesOnly self.old.part (P.state spill.old) (P.state spill.new) }
        ensures counts { (P.state spill.old).faults ≤ (P.state spill.new).faults }
    {
        spill.append(self.part, bytes)?;
        self.size += bytes.len() as u64;
        Ok(())
    }

    /// Reads bytes from a place on, a step for each.
    pub fn read<P: Spill, L: Ledger>(
        &self,
        at: u64,
        out: &mut [u8],
        spill: &mut P,
        steps: &mut Steps<L>,
    ) -> Result<(), Failed>
        requires started { (P.state spill.old).is_started ≡ true }
        requires held { HasItsSize self.now (P.state spill.old) }
        requires range { at + length out.old ≤ self.now.size }
        ensures read { OnOk result ((P.state spill.old).tells ≡ true
            → out.new ≡ stretch (P.state spill.old) self.now.part at (length out.old)) }
        ensures same_faults { OnOk result ((P.state spill.new).faults ≡ (P.state spill.old).faults) }

        ensures failed { OnErr result (CountsOne (P.state spill.old).faults (P.state spill.new).faults) }

        ensures steps { steps.new ≡ steps.old + length out.old }
        ensures same { SameParts (P.state spill.old) (P.state spill.new) }
        ensures counts { (P.state spill.old).faults ≤ (P.state spill.new).faults }
    {
        spill.read(self.part, at, out, steps)
    }

    /// Lets the part go.
    pub fn forget<P: Spill>(self, spill: &mut P)
        requires started { (P.state spill.old).is_started ≡ true }
        requires held { HasItsSize self (P.state spill.old) }
        ensures gone { IsForgotten self.part (P.state spill.old) (P.state spill.new) }
        ensures same { SameStore (P.state spill.old) (P.state spill.new) }
        ensures same_overrun { (P.state spill.new).is_overrun ≡ (P.state spill.old).is_overrun }
        ensures same_faults { (P.state spill.new).faults ≡ (P.state spill.old).faults }
    {
        spill.forget(self.part);
    }
}
