//! The units of a record, given as rows.

ghost use Rattle.std.specs.Prelude.{◌≡◌, ◌+◌, ◌*◌, ◌≤◌, ◌<◌, ◌^◌, true, length, OnOk, OnErr};
ghost use Rattle.mf_edge.specs.Device.{CountsOne};
ghost use Rattle.mf_edge.specs.Spill.{TouchesOnly, part_limit};
ghost use Rattle.spill_parts.specs.Parts.{IsHeld, ArePut};
ghost use Rattle.unit_rows.specs.Runs.{rows_of, rows_from};

use crate::row::UnitRow;
use mf_edge::{Failed, Spill};
use spill_parts::{Rows, Writer, put_rows};

/// Puts units as the rows of the record that has the row `like`. After `Failed` the writer is not used again.
pub fn put_units<K: UnitRow, P: Spill>(
    like: &K,
    units: &[[u8; 16]],
    out: &mut Writer<K>,
    spill: &mut P,
) -> Result<(), Failed>
    requires started { (P.state spill.old).is_started ≡ true }
    requires held { IsHeld K.kind out.old (P.state spill.old) }
    requires few { length units.now < 2 ^ 32 }
    ensures put { OnOk result (ArePut K.kind (rows_of (K.with_unit like.now) units.now) out.old out.new (P.state spill.new)) }
    ensures same_faults { OnOk result ((P.state spill.new).faults ≡ (P.state spill.old).faults) }

    ensures failed { OnErr result (CountsOne (P.state spill.old).faults (P.state spill.new).faults) }

    ensures within { K.kind.width * (length out.old.rows + length units.now) ≤ part_limit
        → (P.state spill.new).is_overrun ≡ (P.state spill.old).is_overrun }
    ensures same_part { out.new.part ≡ out.old.part }
    ensures only { TouchesOnly out.old.part (P.state spill.old) (P.state spill.new) }
    ensures counts { (P.state spill.old).faults ≤ (P.state spill.new).faults }
{
    let mut rows = RecordRows::of(like, units);
    put_rows(out, spill, &mut rows)
}

/// Gives the rows of a record, one for each of its units.
#[derive(Drop)]
pub struct RecordRows<'a, K: UnitRow> {
    // A row of the record.
    like: &'a K,
    units: &'a [[u8; 16]],
    // The place of the next unit.
    place: u32,
    ghost within: { place ≤ length units.now },
    ghost few: { length units.now < 2 ^ 32 },
}

impl<'a, K: UnitRow> RecordRows<'a, K> {
    ghost use Rattle.std.specs.Prelude.{◌≡◌, ◌<◌, ◌^◌, length};
    ghost use Rattle.unit_rows.specs.Runs.{rows_of, rows_from};

    /// The rows of the record that has the row `like`, for all these units.
    pub fn of(like: &'a K, units: &'a [[u8; 16]]) -> RecordRows<'a, K>
        requires { length units.now < 2 ^ 32 }
        ensures { rows_from (K.with_unit result.like.now) result.place result.units.now
            ≡ rows_of (K.with_unit like.now) units.now }
    {
        RecordRows {
            like,
            units,
            place: 0,
        }
    }
}

impl<'a, K: UnitRow> Rows<K> for RecordRows<'a, K> {
    ghost use Rattle.unit_rows.specs.Runs.{rows_from};

    ghost left = { λ r. rows_from (K.with_unit r.like.now) r.place r.units.now };

    fn next(&mut self) -> Option<K> {
        let at = self.place as usize;
        if at >= self.units.len() {
            return None;
        }
        let row = self.like.with(self.place, &self.units[at]);
        self.place += 1;
        Some(row)
    }
}
