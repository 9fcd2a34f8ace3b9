//! A store in memory, with each call failing in turn, and with a read that is answered by zeros.

ghost use Rattle.std.specs.Prelude.{◌≡◌, ◌<◌, Some, true, IfOk, codes};
ghost use Rattle.mf_edge.specs.Spill.{SpillState, IsNameOf, HasNoPart};

use super::*;
use std::marker::Brand;
use std::sync::ledger::Blank;
use std::test::Fail;

// Six bytes in a part, or the number of the call that failed.
type Outcome = Result<[u8; 6], u8>;

// A part of six bytes in a store that was started.
fn written<P: Spill>(store: &mut P) -> Result<u32, u8>
    requires started { (P.state store.old).is_started ≡ true }
    requires empty { HasNoPart (P.state store.old) }
    ensures started { (P.state store.new).is_started ≡ true }
    ensures six { IfOk result (λ part. (P.state store.new).size part ≡ Some 6) }
{
    let Ok(part) = store.make() else {
        return Err(2);
    };
    if store.append(part, b"cbab").is_err() {
        return Err(3);
    }
    if store.append(part, b"aa").is_err() {
        return Err(4);
    }
    Ok(part)
}

// The bytes of a part, ordered as rows of two bytes.
fn ordered<P: Spill, L: Ledger>(store: &mut P, part: u32, steps: &mut Steps<L>) -> Outcome
    requires started { (P.state store.old).is_started ≡ true }
    requires six { (P.state store.old).size part ≡ Some 6 }
{
    if store.order(part, 2).is_err() {
        return Err(5);
    }
    let mut out = [b'.'; 6];
    match store.read(part, 0, &mut out, steps) {
        Ok(()) => Ok(out),
        Err(Failed) => Err(6),
    }
}

// The outcome of all calls.
fn all_calls<P: Spill, L: Ledger>(store: &mut P, blank: Blank) -> Outcome
    requires ledger { blank.name ≡ L.name }
    requires parts { blank.parts ≡ L.parts }
    requires some { 0 < blank.parts }
    requires name { IsNameOf (codes "rows") (P.state store.old).name }
{
    let mut steps = Steps::<L>::new(blank);
    if store.start("rows").is_err() {
        return Err(1);
    }
    let part = written(store)?;
    ordered(store, part, &mut steps)
}

#[test]
fn each_call_fails_in_turn(rt: HostRuntime) -> Result<(), Fail> {
    let done = Ok(*b"aaabcb");
    for (call, outcome) in [
        (1, Err(1)),
        (2, Err(2)),
        (3, Err(3)),
        (4, Err(4)),
        (5, Err(5)),
        (6, Err(6)),
        (7, done),
    ] {
        let mut store = MemSpill::new(rt.alloc(), &[call])?;
        assert_eq!(rt;
            all_calls::<MemSpill, Brand>(&mut store, Blank::new(1)),
            outcome
        );
    }
    Ok(())
}

#[test]
fn a_read_is_answered_by_zeros(rt: HostRuntime) -> Result<(), Fail> {
    for (zeros, bytes) in [(0, *b"aaabcb"), (1, [0; 6]), (2, *b"aaabcb")] {
        let mut store = MemSpill::untold(rt.alloc(), &[], zeros)?;
        assert_eq!(rt;
            all_calls::<MemSpill, Brand>(&mut store, Blank::new(1)),
            Ok(bytes)
        );
    }
    Ok(())
}
