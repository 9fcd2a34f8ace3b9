//! Six rows through a page of two, asked for by rising keys.

ghost use Rattle.std.specs.Prelude.{◌≡◌, ◌+◌, ◌<◌, ◌≤◌, true, false, length, IfOk, OnOk, codes};
ghost use Rattle.mf_edge.specs.Spill.{SameStore, SameParts, IsNameOf, most_parts};
ghost use Rattle.spill_parts.specs.Parts.{IsHeld};
ghost use Rattle.row_runs.specs.Running.{IsRunning};

use super::*;
use mf_edge::MemSpill;
use mf_rows::kinds::NodeRow;
use spill_parts::{Part, Reader};
use std::alloc::{AllocError, Global};
use std::marker::Brand;
use std::sync::ledger::Blank;
use std::test::Fail;

// A row of these tests: a node, with its number for the key.
#[derive(Clone, Copy, Debug, PartialEq, Eq)]
struct Numbered {
    node: NodeRow,
}

impl RowKind for Numbered {
    ghost use Rattle.std.proofs.Common.{refl, ap};
    ghost use Rattle.mf_rows.specs.Kinds.{node_row, node_kind};
    ghost use Rattle.mf_rows.specs.Laws.{node-laws};

    ghost kind = { record {
      width = 16;
      key = 8;
      row = λ r. node_row r.node;
      row_of = λ b. record { node = node_kind.row_of b };
    } };

    ghost WIDTH = { 16 };

    const WIDTH: usize = 16;

    ghost KEY = { 8 };

    const KEY: usize = 8;

    fn known(self) {
        self.node.known();
    }

    fn put(&self, out: &mut [u8]) {
        self.node.put(out);
    }

    fn get(bytes: &[u8]) -> Self {
        Numbered {
            node: NodeRow::get(bytes),
        }
    }

    ghost width = { refl };

    ghost key = { refl };

    ghost laws = { record {
      some = node-laws.some;
      within = node-laws.within;
      most = node-laws.most;
      long = λ r. node-laws.long r.node;
      spelled = λ r. node-laws.spelled r.node;
      reads_back = λ r is. ap (λ n. record { node = n }) (node-laws.reads_back r.node is);
      puts_back = node-laws.puts_back;
      orders = λ a b. node-laws.orders a.node b.node;
    } };
}

impl Keyed for Numbered {
    ghost key_of = { λ r. r.node.node };

    fn key(&self) -> u64 {
        self.node.node
    }
}

fn row(number: u64, lat: i32) -> Numbered {
    Numbered {
        node: NodeRow {
            node: number,
            lat,
            lon: -1,
        },
    }
}

// A part of these rows.
fn written<N: Keyed, P: Spill>(
    spill: &mut P,
    rows: &[N],
    page: &mut Page,
) -> Result<Part<N>, Failed>
    requires started { (P.state spill.old).is_started ≡ true }
    requires few { (P.state spill.old).count < most_parts }
    requires room { length rows.now ≤ page.old.room }
    ensures same { SameStore (P.state spill.old) (P.state spill.new) }
    ensures count { (P.state spill.new).count ≤ (P.state spill.old).count + 1 }
    ensures held { IfOk result (λ part. IsHeld N.kind part (P.state spill.new)) }
{
    let mut writer = Writer::make(spill)?;
    writer.put_all(spill, rows, page)?;
    Ok(writer.finish())
}

// Puts the rows of a key behind those that were given before, and answers how many there are now.
fn give_run<N: Keyed, P: Spill, L: Ledger>(
    key: u64,
    runs: &mut Runs<N>,
    spill: &mut P,
    page: &mut Page,
    steps: &mut Steps<L>,
    room: &mut [N],
    given: usize,
) -> Result<usize, Failed>
    requires started { (P.state spill.old).is_started ≡ true }
    requires running { IsRunning N.kind N.key_of runs.old page.old (P.state spill.old) }
    requires given { given ≤ length room.old }
    ensures running { OnOk result (IsRunning N.kind N.key_of runs.new page.new (P.state spill.new)) }
    ensures same { SameParts (P.state spill.old) (P.state spill.new) }
    ensures same_room { length room.new ≡ length room.old }
    ensures given { IfOk result (λ n. n ≤ length room.new) }
{
    runs.seek(key, spill, page, steps)?;
    let mut n = given;
    while let Some(row) = runs.next_of(key, spill, page, steps)? {
        if n == room.len() {
            return Err(Failed);
        }
        room[n] = row;
        n += 1;
    }
    Ok(n)
}

// The rows of these keys, as they are given. There is room for all rows in the first page.
fn given<N: Keyed, P: Spill, L: Ledger>(
    spill: &mut P,
    rows: &[N],
    keys: &[u64],
    first: &mut Page,
    page: &mut Page,
    blank: Blank,
    room: &mut [N],
) -> Result<usize, Failed>
    requires ledger { blank.name ≡ L.name }
    requires parts { blank.parts ≡ L.parts }
    requires some { 0 < blank.parts }
    requires untold { (P.state spill.old).tells ≡ false }
    requires name { IsNameOf (codes "rows") (P.state spill.old).name }
    requires rows { length rows.now ≤ first.old.room }
    ensures given { IfOk result (λ n. n ≤ length room.new) }
{
    let mut steps = Steps::<L>::new(blank);
    spill.start("rows")?;
    let part = written(spill, rows, first)?;
    let mut runs = Runs::start(&part, spill, page, &mut steps)?;
    let mut n = 0;
    for key in keys {
        n = give_run(*key, &mut runs, spill, page, &mut steps, room, n)?;
    }
    Ok(n)
}

// Whether these rows are given of those that were written, through a page of two, where a call of the store may fail.
fn are_given(
    alloc: Global,
    rows: &[Numbered],
    keys: &[u64],
    found: &[Numbered],
    fails: &[u64],
) -> Result<bool, AllocError>
    requires { length rows.now ≤ 6 }
{
    let mut first = Page::new(alloc, 6)?;
    let mut page = Page::new(alloc, 2)?;
    let mut store = MemSpill::untold(alloc, fails, 0)?;
    let mut room = [row(0, 9); 7];
    let blank = Blank::new(1);
    let outcome = given::<Numbered, MemSpill, Brand>(
        &mut store, rows, keys, &mut first, &mut page, blank, &mut room,
    );
    match outcome {
        Ok(n) => Ok(&room[..n] == found),
        Err(Failed) => Ok(false),
    }
}

// No row is below the first key or has it; a run ends within a page and another with the last one; rows are passed over
// between two keys, and behind the last row nothing is found. A key that is asked for again has no rows left.
#[test]
fn runs_by_rising_keys(rt: HostRuntime) -> Result<(), Fail> {
    let rows = [
        row(2, 0),
        row(2, 1),
        row(2, 2),
        row(5, 3),
        row(7, 4),
        row(7, 5),
    ];
    let found = [row(2, 0), row(2, 1), row(2, 2), row(7, 4), row(7, 5)];
    assert!(rt; are_given(rt.alloc(), &rows, &[1, 2, 3, 7, 9], &found, &[])?);
    assert!(rt; are_given(rt.alloc(), &rows, &[1], &[], &[])?);
    assert!(rt; are_given(rt.alloc(), &rows, &[2, 2], &found[..3], &[])?);
    assert!(rt; are_given(rt.alloc(), &rows, &[5, 6], &rows[3..4], &[])?);
    assert!(rt; are_given(rt.alloc(), &rows, &[7], &found[3..], &[])?);
    assert!(rt; are_given(rt.alloc(), &rows, &[u64::MAX], &[], &[])?);
    assert!(rt; are_given(rt.alloc(), &[], &[0, 2], &[], &[])?);
    assert!(rt; are_given(rt.alloc(), &rows, &[], &[], &[])?);
    Ok(())
}

// The part is started, made, written by one call and read by three, of which the first key needs two.
#[test]
fn each_of_six_calls_fails_in_turn(rt: HostRuntime) -> Result<(), Fail> {
    let rows = [
        row(2, 0),
        row(2, 1),
        row(2, 2),
        row(5, 3),
        row(7, 4),
        row(7, 5),
    ];
    for call in 1..8 {
        let all = are_given(rt.alloc(), &rows, &[2, 5, 7], &rows, &[call])?;
        assert_eq!(rt; all, call == 7, "call {call}");
        let few = are_given(rt.alloc(), &rows, &[2], &rows[..3], &[call])?;
        assert_eq!(rt; few, call >= 6, "call {call}");
    }
    Ok(())
}

impl MadeOf<Numbered> for NodeRow {
    ghost made_of = { λ r. r.node };

    fn made(row: &Numbered) -> NodeRow {
        row.node
    }
}

// Puts the rows of a part to the front of a room, and answers how many there are. There is room for all.
fn rows_of<O: RowKind, P: Spill, L: Ledger>(
    part: &Part<O>,
    spill: &mut P,
    page: &mut Page,
    steps: &mut Steps<L>,
    room: &mut [O],
) -> Result<usize, Failed>
    requires started { (P.state spill.old).is_started ≡ true }
    requires held { IsHeld O.kind part.now (P.state spill.old) }
    ensures most { IfOk result (λ n. n ≤ length room.new) }
{
    let mut reader = Reader::start(part);
    let mut n = 0;
    while let Some(row) = reader.next(spill, page, steps)? {
        if n == room.len() {
            return Err(Failed);
        }
        room[n] = row;
        n += 1;
    }
    Ok(n)
}

// The rows of these keys, as they are read where they were put to another part.
fn put_out<N: Keyed, O: MadeOf<N>, P: Spill, L: Ledger>(
    spill: &mut P,
    rows: &[N],
    keys: &[u64],
    first: &mut Page,
    page: &mut Page,
    blank: Blank,
    room: &mut [O],
) -> Result<usize, Failed>
    requires ledger { blank.name ≡ L.name }
    requires parts { blank.parts ≡ L.parts }
    requires some { 0 < blank.parts }
    requires untold { (P.state spill.old).tells ≡ false }
    requires name { IsNameOf (codes "rows") (P.state spill.old).name }
    requires rows { length rows.now ≤ first.old.room }
    ensures most { IfOk result (λ n. n ≤ length room.new) }
{
    let mut steps = Steps::<L>::new(blank);
    spill.start("rows")?;
    let part = written(spill, rows, first)?;
    let mut out = Writer::<O>::make(spill)?;
    let mut runs = Runs::start(&part, spill, page, &mut steps)?;
    for key in keys {
        runs.seek(*key, spill, page, &mut steps)?;
        put_run(*key, &mut runs, &mut out, spill, page, &mut steps)?;
    }
    rows_of(&out.finish(), spill, page, &mut steps, room)
}

#[test]
fn runs_are_put_to_another_part(rt: HostRuntime) -> Result<(), Fail> {
    let rows = [
        row(2, 0),
        row(2, 1),
        row(2, 2),
        row(5, 3),
        row(7, 4),
        row(7, 5),
    ];
    let mut first = Page::new(rt.alloc(), 6)?;
    let mut page = Page::new(rt.alloc(), 2)?;
    let mut store = MemSpill::untold(rt.alloc(), &[], 0)?;
    let mut room = [row(0, 9).node; 5];
    let outcome = put_out::<Numbered, NodeRow, MemSpill, Brand>(
        &mut store,
        &rows,
        &[1, 2, 3, 7, 9],
        &mut first,
        &mut page,
        Blank::new(1),
        &mut room,
    );
    let found = [
        row(2, 0).node,
        row(2, 1).node,
        row(2, 2).node,
        row(7, 4).node,
        row(7, 5).node,
    ];
    assert_eq!(rt; outcome, Ok(5));
    assert!(rt; room == found);
    Ok(())
}

// How many rows these keys have.
fn counted<N: Keyed, P: Spill, L: Ledger>(
    spill: &mut P,
    rows: &[N],
    keys: &[u64],
    first: &mut Page,
    page: &mut Page,
    blank: Blank,
    counts: &mut [u64],
) -> Result<(), Failed>
    requires ledger { blank.name ≡ L.name }
    requires parts { blank.parts ≡ L.parts }
    requires some { 0 < blank.parts }
    requires untold { (P.state spill.old).tells ≡ false }
    requires name { IsNameOf (codes "rows") (P.state spill.old).name }
    requires rows { length rows.now ≤ first.old.room }
    requires room { length keys.now ≤ length counts.old }
{
    let mut steps = Steps::<L>::new(blank);
    spill.start("rows")?;
    let part = written(spill, rows, first)?;
    let mut runs = Runs::start(&part, spill, page, &mut steps)?;
    for (i, key) in keys.iter().enumerate() {
        counts[i] = count_of(*key, &mut runs, spill, page, &mut steps)?;
    }
    Ok(())
}

#[test]
fn rows_of_keys_are_counted(rt: HostRuntime) -> Result<(), Fail> {
    let rows = [
        row(2, 0),
        row(2, 1),
        row(2, 2),
        row(5, 3),
        row(7, 4),
        row(7, 5),
    ];
    let mut first = Page::new(rt.alloc(), 6)?;
    let mut page = Page::new(rt.alloc(), 2)?;
    let mut store = MemSpill::untold(rt.alloc(), &[], 0)?;
    let mut counts = [9; 5];
    let outcome = counted::<Numbered, MemSpill, Brand>(
        &mut store,
        &rows,
        &[1, 2, 3, 7, 9],
        &mut first,
        &mut page,
        Blank::new(1),
        &mut counts,
    );
    assert!(rt; outcome.is_ok());
    assert!(rt; counts == [0, 3, 0, 2, 0]);
    Ok(())
}
