//! Refs are joined with nodes, through pages of two rows.

ghost use Rattle.std.specs.Prelude.{◌≡◌, ◌<◌, ◌≤◌, false, length, IfOk, codes};
ghost use Rattle.mf_edge.specs.Spill.{IsNameOf};

use super::*;
use crate::test_parts::{rows_of, written};
use mf_edge::MemSpill;
use mf_rows::kinds::{NodeRow, PointRow, RefRow};
use std::alloc::{AllocError, Global};
use std::marker::Brand;
use std::sync::ledger::Blank;
use std::test::Fail;

// The rows of a join, as they are read, over a store that does not tell its bytes: it asks of no row that it is in
// order.
fn joined<P: Spill, L: Ledger>(
    spill: &mut P,
    refs: &[RefRow],
    nodes: &[NodeRow],
    first: &mut Page,
    second: &mut Page,
    blank: Blank,
    room: &mut [PointRow],
) -> Result<usize, Failed>
    requires ledger { blank.name ≡ L.name }
    requires parts { blank.parts ≡ L.parts }
    requires some { 0 < blank.parts }
    requires untold { (P.state spill.old).tells ≡ false }
    requires name { IsNameOf (codes "rows") (P.state spill.old).name }
    ensures most { IfOk result (λ n. n ≤ length room.new) }
{
    let mut steps = Steps::<L>::new(blank);
    spill.start("rows")?;
    let refs = written(spill, refs)?;
    let nodes = written(spill, nodes)?;
    let points = join::<RefRow, NodeRow, PointRow, P, L>(
        &refs, &nodes, first, second, spill, &mut steps,
    )?;
    rows_of(spill, &points, first, &mut steps, room)
}

fn node_ref(node: u64, way: u64) -> RefRow {
    RefRow {
        node,
        way,
        place: 5,
    }
}

fn node(node: u64, lat: i32) -> NodeRow {
    NodeRow { node, lat, lon: -1 }
}

fn point(way: u64, node: u64, lat: i32) -> PointRow {
    PointRow {
        way,
        place: 5,
        node,
        lat,
        lon: -1,
    }
}

// Whether these refs and nodes are joined to these points.
fn are_joined(
    alloc: Global,
    refs: &[RefRow],
    nodes: &[NodeRow],
    points: &[PointRow],
) -> Result<bool, AllocError> {
    let mut first = Page::new(alloc, 2)?;
    let mut second = Page::new(alloc, 2)?;
    let mut store = MemSpill::untold(alloc, &[], 0)?;
    let mut room = [point(0, 0, 0); 6];
    let blank = Blank::new(1);
    let found = joined::<MemSpill, Brand>(
        &mut store,
        refs,
        nodes,
        &mut first,
        &mut second,
        blank,
        &mut room,
    );
    match found {
        Ok(n) => Ok(&room[..n] == points),
        Err(Failed) => Ok(false),
    }
}

// Refs before the first node, between two and behind the last have none; two refs have the same node.
#[test]
fn refs_and_their_nodes(rt: HostRuntime) -> Result<(), Fail> {
    let refs = [
        node_ref(1, 8),
        node_ref(2, 8),
        node_ref(2, 9),
        node_ref(4, 8),
        node_ref(5, 8),
        node_ref(u64::MAX, 8),
    ];
    let nodes = [node(2, 20), node(3, 30), node(5, 50), node(9, 90)];
    let points = [point(8, 2, 20), point(9, 2, 20), point(8, 5, 50)];
    assert!(rt; are_joined(rt.alloc(), &refs, &nodes, &points)?);
    assert!(rt;
        are_joined(
            rt.alloc(),
            &refs[5..],
            &[node(u64::MAX, 7)],
            &[point(8, u64::MAX, 7)]
        )?
    );
    assert!(rt; are_joined(rt.alloc(), &refs, &[], &[])?);
    assert!(rt; are_joined(rt.alloc(), &[], &nodes, &[])?);
    assert!(rt; are_joined(rt.alloc(), &refs[..1], &nodes, &[])?);
    Ok(())
}
