//! The bytes of tiles go from their part to a sink.

ghost use Rattle.std.specs.Prelude.{◌≡◌, ◌≢◌, ◌+◌, ◌-◌, ◌<◌, ◌≤◌, true, length, Err, OnOk, OnErr};
ghost use Rattle.mf_edge.specs.Device.{Gained, GainedFront, CountsOne};
ghost use Rattle.mf_edge.specs.Spill.{SameParts, stretch};
ghost use Rattle.spill_parts.specs.Parts.{HasItsSize};

use crate::buffered::put_bytes;
use crate::emit::EmitFault;
use mf_edge::{Sink, Spill, Steps};
use spill_parts::BytePart;
use std::sync::ledger::Ledger;

// How many bytes are read at a time.
const PIECE: usize = 65_536;

// Puts the bytes of a part between two places to a sink.
pub(crate) fn put_stretch<P: Spill, K: Sink, L: Ledger>(
    part: &BytePart,
    from: u64,
    to: u64,
    spill: &mut P,
    out: &mut K,
    steps: &mut Steps<L>,
) -> Result<(), EmitFault>
    requires started { (P.state spill.old).is_started ≡ true }
    requires held { HasItsSize part.now (P.state spill.old) }
    requires whole { (P.state spill.old).tells ≡ true
        → length ((P.state spill.old).bytes part.now.part) ≡ part.now.size }
    requires order { from ≤ to }
    requires range { to ≤ part.now.size }
    ensures all { OnOk result ((P.state spill.old).tells ≡ true → Gained (K.state out.old)
        (stretch (P.state spill.old) part.now.part from (to - from)) (K.state out.new)) }
    ensures front { OnErr result ((P.state spill.old).tells ≡ true → GainedFront (K.state out.old)
        (stretch (P.state spill.old) part.now.part from (to - from)) (K.state out.new)) }
    ensures steps { OnOk result (steps.new ≡ steps.old + (to - from)) }
    ensures most { steps.new ≤ steps.old + (to - from) }
    ensures write { result ≡ Err EmitFault.Write → CountsOne (K.state out.old).faults (K.state out.new).faults }
    ensures same_output { result ≢ Err EmitFault.Write → (K.state out.new).faults ≡ (K.state out.old).faults }
    ensures spill { result ≡ Err EmitFault.Spill → CountsOne (P.state spill.old).faults (P.state spill.new).faults }
    ensures same_store { result ≢ Err EmitFault.Spill → (P.state spill.new).faults ≡ (P.state spill.old).faults }
    ensures same { SameParts (P.state spill.old) (P.state spill.new) }
{
    let mut piece = [0; PIECE];
    let mut at = from;
    while at < to {
        let n = piece_of(to - at);
        put_piece(part, at, &mut piece, n, spill, out, steps)?;
        at += n as u64;
    }
    Ok(())
}

// How many of so many bytes are read at a time.
fn piece_of(left: u64) -> usize
    requires { 0 < left }
    ensures some { 0 < result }
    ensures left { result ≤ left }
    ensures piece { result ≤ 65536 }
{
    left.min(PIECE as u64) as usize
}

// Puts so many bytes of a part from a place on to a sink, by way of a piece.
fn put_piece<P: Spill, K: Sink, L: Ledger>(
    part: &BytePart,
    at: u64,
    piece: &mut [u8],
    n: usize,
    spill: &mut P,
    out: &mut K,
    steps: &mut Steps<L>,
) -> Result<(), EmitFault>
    requires started { (P.state spill.old).is_started ≡ true }
    requires held { HasItsSize part.now (P.state spill.old) }
    requires whole { (P.state spill.old).tells ≡ true
        → length ((P.state spill.old).bytes part.now.part) ≡ part.now.size }
    requires some { 0 < n }
    requires room { n ≤ length piece.old }
    requires range { at + n ≤ part.now.size }
    ensures all { OnOk result ((P.state spill.old).tells ≡ true → Gained (K.state out.old)
        (stretch (P.state spill.old) part.now.part at n) (K.state out.new)) }
    ensures front { OnErr result ((P.state spill.old).tells ≡ true → GainedFront (K.state out.old)
        (stretch (P.state spill.old) part.now.part at n) (K.state out.new)) }
    ensures steps { steps.new ≡ steps.old + n }
    ensures write { result ≡ Err EmitFault.Write → CountsOne (K.state out.old).faults (K.state out.new).faults }
    ensures same_output { result ≢ Err EmitFault.Write → (K.state out.new).faults ≡ (K.state out.old).faults }
    ensures spill { result ≡ Err EmitFault.Spill → CountsOne (P.state spill.old).faults (P.state spill.new).faults }
    ensures same_store { result ≢ Err EmitFault.Spill → (P.state spill.new).faults ≡ (P.state spill.old).faults }
    ensures same { SameParts (P.state spill.old) (P.state spill.new) }
    ensures same_room { length piece.new ≡ length piece.old }
{
    let Ok(()) = part.read(at, &mut piece[..n], spill, steps) else {
        return Err(EmitFault::Spill);
    };
    put_bytes(&piece[..n], out)
}
