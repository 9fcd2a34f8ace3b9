//! Rows, one behind another, and how they are put to a part.

ghost use Rattle.std.specs.Prelude.{◌≡◌, ◌+◌, ◌*◌, ◌≤◌, List, true, length, OnOk, OnErr};
ghost use Rattle.mf_edge.specs.Device.{CountsOne};
ghost use Rattle.mf_edge.specs.Spill.{TouchesOnly, part_limit};
ghost use Rattle.spill_parts.specs.Parts.{IsHeld, ArePut};
ghost use Rattle.spill_parts.specs.Giving.{GivesFirst};

use crate::writer::Writer;
use mf_edge::{Failed, Spill};
use mf_rows::kind::RowKind;

/// Gives rows, one behind another.
pub trait Rows<K: RowKind> {
    // The rows that are left to be given.
    ghost left: { Self → List K };

    /// The next row, or None after the last.
    fn next(&mut self) -> Option<K>
        ensures { GivesFirst (left self.old) result (left self.new) };
}

/// Puts rows to the end of a part. After `Failed` the writer is not used again.
pub fn put_rows<K: RowKind, R: Rows<K>, P: Spill>(
    writer: &mut Writer<K>,
    spill: &mut P,
    rows: &mut R,
) -> Result<(), Failed>
    requires started { (P.state spill.old).is_started ≡ true }
    requires held { IsHeld K.kind writer.old (P.state spill.old) }
    ensures put { OnOk result (ArePut K.kind (R.left rows.old) writer.old writer.new (P.state spill.new)) }
    ensures same_faults { OnOk result ((P.state spill.new).faults ≡ (P.state spill.old).faults) }

    ensures failed { OnErr result (CountsOne (P.state spill.old).faults (P.state spill.new).faults) }

    ensures within { K.kind.width * (length writer.old.rows + length (R.left rows.old)) ≤ part_limit
        → (P.state spill.new).is_overrun ≡ (P.state spill.old).is_overrun }
    ensures same_part { writer.new.part ≡ writer.old.part }
    ensures only { TouchesOnly writer.old.part (P.state spill.old) (P.state spill.new) }
    ensures counts { (P.state spill.old).faults ≤ (P.state spill.new).faults }
{
    while let Some(row) = rows.next() {
        writer.put(spill, &row)?;
    }
    Ok(())
}
