//! Who writes a part.

ghost use Rattle.std.specs.Prelude.{◌≡◌, ◌≢◌, ◌+◌, ◌*◌, ◌<◌, ◌≤◌, true, length, IfOk, OnOk, OnErr};
ghost use Rattle.mf_edge.specs.Device.{CountsOne};
ghost use Rattle.mf_edge.specs.Spill.{SameStore, SameParts, TouchesOnly, most_parts, part_limit};
ghost use Rattle.spill_parts.specs.Parts.{Piece, IsThere, IsHeld, IsBegun, IsPut, ArePut};

use crate::part::Part;
use crate::reader::Page;
use mf_edge::{Failed, Spill};
use mf_rows::kind::RowKind;
use std::marker::Model;

/// What puts rows to the end of a part. Contracts see the part as it is so far.
#[derive(Drop)]
pub struct Writer<K: RowKind> {
    part: Part<K>,
}

impl<K: RowKind> Model for Writer<K> {
    ghost use Rattle.spill_parts.specs.Parts.{Part as PartRows};

    ghost Value = { PartRows K };

    ghost view = { λ w. w.part };
}

impl<K: RowKind> Writer<K> {
    /// Makes a part without rows. After `Failed` all parts are as they were.
    pub fn make<P: Spill>(spill: &mut P) -> Result<Writer<K>, Failed>
        requires started { (P.state spill.old).is_started ≡ true }
        requires few { (P.state spill.old).count < most_parts }
        ensures made { IfOk result (λ w. IsBegun K.kind w (P.state spill.old) (P.state spill.new)) }
        ensures kept { OnOk result ((p : Piece) → IsThere p (P.state spill.old) → IsThere p (P.state spill.new)) }
        ensures apart { IfOk result (λ w. (p : Piece) → IsThere p (P.state spill.old) → p.part ≢ w.part) }
        ensures same_faults { OnOk result ((P.state spill.new).faults ≡ (P.state spill.old).faults) }

        ensures none { OnErr result (SameParts (P.state spill.old) (P.state spill.new)) }
        ensures failed { OnErr result (CountsOne (P.state spill.old).faults (P.state spill.new).faults) }

        ensures same { SameStore (P.state spill.old) (P.state spill.new) }
        ensures same_overrun { (P.state spill.new).is_overrun ≡ (P.state spill.old).is_overrun }
        ensures counts { (P.state spill.old).faults ≤ (P.state spill.new).faults }
    {
        let part = spill.make()?;
        Ok(Writer {
            part: Part::of(part),
        })
    }

    /// Puts a row to the end of the part. After `Failed` the writer is not used again.
    pub fn put<P: Spill>(&mut self, spill: &mut P, row: &K) -> Result<(), Failed>
        requires started { (P.state spill.old).is_started ≡ true }
        requires held { IsHeld K.kind self.old (P.state spill.old) }
        ensures put { OnOk result (IsPut K.kind row.now self.old self.new (P.state spill.new)) }
        ensures small { OnOk result (K.kind.width * length self.old.rows + K.kind.width ≤ part_limit) }
        ensures same_faults { OnOk result ((P.state spill.new).faults ≡ (P.state spill.old).faults) }

        ensures failed { OnErr result (CountsOne (P.state spill.old).faults (P.state spill.new).faults) }

        ensures within { K.kind.width * length self.old.rows + K.kind.width ≤ part_limit
            → (P.state spill.new).is_overrun ≡ (P.state spill.old).is_overrun }
        ensures past { part_limit < K.kind.width * length self.old.rows + K.kind.width
            → (P.state spill.new).is_overrun ≡ true }
        ensures same_part { self.new.part ≡ self.old.part }
        ensures only { TouchesOnly self.old.part (P.state spill.old) (P.state spill.new) }
        ensures counts { (P.state spill.old).faults ≤ (P.state spill.new).faults }
    {
        let mut bytes = [0; 39];
        row.put(&mut bytes[..K::WIDTH]);
        spill.append(self.part.number(), &bytes[..K::WIDTH])?;
        self.part.add(row);
        Ok(())
    }

    /// Puts rows to the end of the part by one call of the store. They are spelled into the page, in place of what it
    /// held. After `Failed` the writer is not used again.
    pub fn put_all<P: Spill>(
        &mut self,
        spill: &mut P,
        rows: &[K],
        page: &mut Page,
    ) -> Result<(), Failed>
        requires started { (P.state spill.old).is_started ≡ true }
        requires held { IsHeld K.kind self.old (P.state spill.old) }
        requires room { length rows.now ≤ page.old.room }
        ensures put { OnOk result (ArePut K.kind rows.now self.old self.new (P.state spill.new)) }
        ensures small { OnOk result
            (K.kind.width * length self.old.rows + K.kind.width * length rows.now ≤ part_limit) }
        ensures same_faults { OnOk result ((P.state spill.new).faults ≡ (P.state spill.old).faults) }

        ensures failed { OnErr result (CountsOne (P.state spill.old).faults (P.state spill.new).faults) }

        ensures within { K.kind.width * length self.old.rows + K.kind.width * length rows.now ≤ part_limit
            → (P.state spill.new).is_overrun ≡ (P.state spill.old).is_overrun }
        ensures past { part_limit < K.kind.width * length self.old.rows + K.kind.width * length rows.now
            → (P.state spill.new).is_overrun ≡ true }
        ensures same_part { self.new.part ≡ self.old.part }
        ensures same_room { page.new.room ≡ page.old.room }
        ensures only { TouchesOnly self.old.part (P.state spill.old) (P.state spill.new) }
        ensures counts { (P.state spill.old).faults ≤ (P.state spill.new).faults }
    {
        let n = page.spell(rows);
        spill.append(self.part.number(), page.front(n))?;
        self.part.add_all(rows);
        Ok(())
    }

    /// The part as it was written.
    pub fn finish(self) -> Part<K>
        ensures { result ≡ self }
    {
        self.part
    }
}
