//! Parts as tests write and read them.

ghost use Rattle.std.specs.Prelude.{◌≡◌, ◌+◌, ◌<◌, ◌≤◌, true, length, IfOk, OnOk};
ghost use Rattle.mf_edge.specs.Spill.{SameStore, most_parts};
ghost use Rattle.spill_parts.specs.Parts.{Piece, IsThere, IsHeld};

use crate::part::Part;
use crate::reader::{Page, Reader};
use crate::writer::Writer;
use mf_edge::{Failed, Spill, Steps};
use mf_rows::kind::RowKind;
use std::sync::ledger::Ledger;

/// A part of these rows, in this order.
pub(crate) fn written<K: RowKind, P: Spill>(spill: &mut P, rows: &[K]) -> Result<Part<K>, Failed>
    requires started { (P.state spill.old).is_started ≡ true }
    requires few { (P.state spill.old).count < most_parts }
    ensures same { SameStore (P.state spill.old) (P.state spill.new) }
    ensures count { (P.state spill.new).count ≤ (P.state spill.old).count + 1 }
    ensures kept { OnOk result ((p : Piece) → IsThere p (P.state spill.old) → IsThere p (P.state spill.new)) }
    ensures held { IfOk result (λ part. IsHeld K.kind part (P.state spill.new)) }
{
    let mut writer = Writer::make(spill)?;
    for row in rows {
        writer.put(spill, row)?;
    }
    Ok(writer.finish())
}

/// Puts the rows of a part, in its order, to the front of a room, and answers how many there are. There is room for
/// all.
pub(crate) fn rows_of<K: RowKind, P: Spill, L: Ledger>(
    spill: &mut P,
    part: &Part<K>,
    page: &mut Page,
    steps: &mut Steps<L>,
    room: &mut [K],
) -> Result<usize, Failed>
    requires started { (P.state spill.old).is_started ≡ true }
    requires held { IsHeld K.kind part.now (P.state spill.old) }
    ensures most { IfOk result (λ n. n ≤ length room.new) }
{
    let mut reader = Reader::start(part);
    let mut n = 0;
    while let Some(row) = reader.next(spill, page, steps)? {
        if n == room.len() {
            return Err(Failed);
        }
        room[n] = row;
        n += 1;
    }
    Ok(n)
}
