//! Parts of few and of many rows through a page of three.

ghost use Rattle.std.specs.Prelude.{◌≡◌, ◌<◌, ◌≤◌, length, IfOk, codes};
ghost use Rattle.mf_edge.specs.Spill.{IsNameOf};

use super::*;
use crate::part::order_part;
use crate::test_parts::{rows_of, written};
use mf_edge::MemSpill;
use mf_rows::kinds::NodeRow;
use std::alloc::{AllocError, Global};
use std::marker::Brand;
use std::sync::ledger::Blank;
use std::test::Fail;

fn row(node: u64, lat: i32) -> NodeRow {
    NodeRow { node, lat, lon: -1 }
}

// The rows as they are read after they were written, ordered and copied.
fn in_order<P: Spill, L: Ledger>(
    spill: &mut P,
    rows: &[NodeRow],
    page: &mut Page,
    blank: Blank,
    room: &mut [NodeRow],
) -> Result<usize, Failed>
    requires ledger { blank.name ≡ L.name }
    requires parts { blank.parts ≡ L.parts }
    requires some { 0 < blank.parts }
    requires name { IsNameOf (codes "rows") (P.state spill.old).name }
    ensures most { IfOk result (λ n. n ≤ length room.new) }
{
    let mut steps = Steps::<L>::new(blank);
    spill.start("rows")?;
    let part = written(spill, rows)?;
    let part = order_part(spill, part)?;
    let part = copy(&part, spill, page, &mut steps)?;
    rows_of(spill, &part, page, &mut steps, room)
}

// Whether the rows are read in this order, after they were written and ordered.
fn are_read_as(alloc: Global, rows: &[NodeRow], ordered: &[NodeRow]) -> Result<bool, AllocError> {
    let mut page = Page::new(alloc, 3)?;
    let mut store = MemSpill::new(alloc, &[])?;
    let mut room = [row(0, 0); 9];
    match in_order::<MemSpill, Brand>(&mut store, rows, &mut page, Blank::new(1), &mut room) {
        Ok(n) => Ok(&room[..n] == ordered),
        Err(Failed) => Ok(false),
    }
}

// A place south of the equator stands behind those north of it.
#[test]
fn rows_through_pages_of_three(rt: HostRuntime) -> Result<(), Fail> {
    let many = [
        row(1 << 40, 0),
        row(7, -1),
        row(7, 2),
        row(u64::MAX, 5),
        row(7, -2),
        row(0, 1),
        row(7, 2),
        row(256, 0),
        row(255, 0),
    ];
    let many_ordered = [
        row(0, 1),
        row(7, 2),
        row(7, 2),
        row(7, -2),
        row(7, -1),
        row(255, 0),
        row(256, 0),
        row(1 << 40, 0),
        row(u64::MAX, 5),
    ];
    assert!(rt; are_read_as(rt.alloc(), &[], &[])?);
    assert!(rt; are_read_as(rt.alloc(), &many[1..2], &many[1..2])?);
    assert!(rt; are_read_as(rt.alloc(), &[row(2, 0), row(1, 0)], &[row(1, 0), row(2, 0)])?);
    assert!(rt; are_read_as(rt.alloc(), &many[4..7], &[row(0, 1), row(7, 2), row(7, -2)])?);
    let four_ordered = [row(7, 2), row(7, -1), row(1 << 40, 0), row(u64::MAX, 5)];
    assert!(rt; are_read_as(rt.alloc(), &many[..4], &four_ordered)?);
    assert!(rt; are_read_as(rt.alloc(), &[row(7, 0); 9], &[row(7, 0); 9])?);
    assert!(rt; are_read_as(rt.alloc(), &many, &many_ordered)?);
    Ok(())
}

// Two rows are written, ordered, and read once for each of two readers.
#[test]
fn each_of_ten_calls_fails_in_turn(rt: HostRuntime) -> Result<(), Fail> {
    let mut page = Page::new(rt.alloc(), 3)?;
    for call in 1..12 {
        let mut store = MemSpill::new(rt.alloc(), &[call])?;
        let rows = [row(2, 0), row(1, 0)];
        let mut room = [row(0, 0); 2];
        let blank = Blank::new(1);
        let outcome = in_order::<MemSpill, Brand>(&mut store, &rows, &mut page, blank, &mut room);
        assert_eq!(rt; outcome.is_err(), call <= 10, "call {call}");
    }
    Ok(())
}

// The first row by itself, and then all by one call, as they are read.
fn put_at_once<P: Spill, L: Ledger>(
    spill: &mut P,
    rows: &[NodeRow],
    page: &mut Page,
    blank: Blank,
    room: &mut [NodeRow],
) -> Result<usize, Failed>
    requires ledger { blank.name ≡ L.name }
    requires parts { blank.parts ≡ L.parts }
    requires some { 0 < blank.parts }
    requires name { IsNameOf (codes "rows") (P.state spill.old).name }
    requires rows { length rows.now ≤ page.old.room }
    ensures most { IfOk result (λ n. n ≤ length room.new) }
{
    let mut steps = Steps::<L>::new(blank);
    spill.start("rows")?;
    let mut writer = Writer::make(spill)?;
    if let Some(first) = rows.first() {
        writer.put(spill, first)?;
    }
    writer.put_all(spill, rows, page)?;
    let part = writer.finish();
    rows_of(spill, &part, page, &mut steps, room)
}

// Whether the rows are read so, after they were put to a store of which one call fails.
fn are_put_as(
    alloc: Global,
    rows: &[NodeRow],
    found: &[NodeRow],
    call: u64,
) -> Result<bool, AllocError>
    requires { length rows.now ≤ 3 }
{
    let mut page = Page::new(alloc, 3)?;
    let mut store = MemSpill::new(alloc, &[call])?;
    let mut room = [row(9, 9); 4];
    match put_at_once::<MemSpill, Brand>(&mut store, rows, &mut page, Blank::new(1), &mut room) {
        Ok(n) => Ok(&room[..n] == found),
        Err(Failed) => Ok(false),
    }
}

// No row, one, and as many as the page has room for. The calls are start, make, two of append, and two of read.
#[test]
fn rows_put_by_one_call(rt: HostRuntime) -> Result<(), Fail> {
    let rows = [row(7, -1), row(u64::MAX, 5), row(0, 1)];
    let read = [row(7, -1), row(7, -1), row(u64::MAX, 5), row(0, 1)];
    assert!(rt; are_put_as(rt.alloc(), &[], &[], 0)?);
    assert!(rt; are_put_as(rt.alloc(), &rows[..1], &read[..2], 0)?);
    for call in 1..8 {
        let answer = are_put_as(rt.alloc(), &rows, &read, call)?;
        assert_eq!(rt; answer, call == 7, "call {call}");
    }
    Ok(())
}

// Two rows are read by the copy, and then of the copy. What is read as zeros are rows that nobody wrote.
#[test]
fn zeros_are_read_as_rows(rt: HostRuntime) -> Result<(), Fail> {
    let mut page = Page::new(rt.alloc(), 3)?;
    let rows = [row(2, 0), row(1, 0)];
    let ordered = [row(1, 0), row(2, 0)];
    let zero = NodeRow {
        node: 0,
        lat: 0,
        lon: 0,
    };
    for (zeros, found) in [(0, ordered), (1, [zero; 2]), (2, [zero; 2]), (3, ordered)] {
        let mut store = MemSpill::untold(rt.alloc(), &[], zeros)?;
        let mut room = [row(9, 9); 2];
        let blank = Blank::new(1);
        let outcome = in_order::<MemSpill, Brand>(&mut store, &rows, &mut page, blank, &mut room);
        assert_eq!(rt; outcome, Ok(2), "zeros at read {zeros}");
        assert!(rt; room == found, "zeros at read {zeros}");
    }
    Ok(())
}
