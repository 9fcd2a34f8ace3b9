//! Two ways with a node in both, through pages of two rows, and stores of which a call fails.

ghost use Rattle.std.specs.Prelude.{◌≡◌, ◌<◌, ◌≤◌, ◌+◌, [], ◌∷◌, ◌++◌, List, true, false, IfOk, OnOk, codes};
ghost use Rattle.mf_edge.specs.Spill.{SameStore, IsNameOf, most_parts};
ghost use Rattle.mf_rows.specs.Kinds.{point_kind};
ghost use Rattle.spill_parts.specs.Parts.{Piece, piece_of, IsHeld, HasJust};

use super::*;
use mf_edge::MemSpill;
use mf_rows::kind::RowKind;
use spill_parts::{Reader, Writer};
use std::alloc::{AllocError, Global};
use std::marker::Brand;
use std::sync::ledger::Blank;
use std::test::Fail;

// What a store tells of the points.
#[derive(Clone, Copy, Debug, PartialEq, Eq)]
enum Told {
    Points,
    Others,
    // A call of the store failed.
    Failed,
}

// A part of these rows, in this order, behind those that are there.
fn written<K: RowKind, P: Spill>(spill: &mut P, rows: &[K]) -> Result<Part<K>, Failed>
    requires started { (P.state spill.old).is_started ≡ true }
    requires few { (P.state spill.old).count < most_parts }
    ensures just { IfOk result (λ part. (pieces : List Piece) → HasJust pieces (P.state spill.old)
        → HasJust (pieces ++ piece_of K.kind part ∷ []) (P.state spill.new)) }
    ensures same { SameStore (P.state spill.old) (P.state spill.new) }
    ensures count { (P.state spill.new).count ≤ (P.state spill.old).count + 1 }
{
    let mut writer = Writer::make(spill)?;
    for row in rows {
        writer.put(spill, row)?;
    }
    Ok(writer.finish())
}

// Whether a part has just these rows.
fn are_rows<P: Spill, L: Ledger>(
    spill: &mut P,
    part: &Part<PointRow>,
    rows: &[PointRow],
    page: &mut Page,
    steps: &mut Steps<L>,
) -> Result<bool, Failed>
    requires started { (P.state spill.old).is_started ≡ true }
    requires held { IsHeld point_kind part.now (P.state spill.old) }
{
    let mut reader = Reader::start(part);
    let mut n = 0;
    while let Some(row) = reader.next(spill, page, steps)? {
        if n == rows.len() || rows[n] != row {
            return Ok(false);
        }
        n += 1;
    }
    Ok(n == rows.len())
}

// Whether these are the points of these nodes and refs, in a store that does not tell its bytes: it asks of no row of
// what input it is.
fn are_points<P: Spill, L: Ledger>(
    spill: &mut P,
    nodes: &[NodeRow],
    refs: &[RefRow],
    points: &[PointRow],
    first: &mut Page,
    second: &mut Page,
    blank: Blank,
) -> Result<bool, Failed>
    requires ledger { blank.name ≡ L.name }
    requires parts { blank.parts ≡ L.parts }
    requires some { 0 < blank.parts }
    requires untold { (P.state spill.old).tells ≡ false }
    requires name { IsNameOf (codes "rows") (P.state spill.old).name }
{
    let mut steps = Steps::<L>::new(blank);
    spill.start("rows")?;
    let places = written(spill, nodes)?;
    let refs = written(spill, refs)?;
    let found = points_of_ways(places, refs, first, second, spill, &mut steps)?;
    are_rows(spill, &found, points, first, &mut steps)
}

// What is told of these nodes, refs and points, where the call of the store with a number fails; 0: none does.
fn told_by(
    alloc: Global,
    call: u64,
    nodes: &[NodeRow],
    refs: &[RefRow],
    points: &[PointRow],
) -> Result<Told, AllocError> {
    let mut store = MemSpill::untold(alloc, &[call], 0)?;
    let mut first = Page::new(alloc, 2)?;
    let mut second = Page::new(alloc, 2)?;
    let blank = Blank::new(1);
    let found = are_points::<MemSpill, Brand>(
        &mut store,
        nodes,
        refs,
        points,
        &mut first,
        &mut second,
        blank,
    );
    match found {
        Ok(true) => Ok(Told::Points),
        Ok(false) => Ok(Told::Others),
        Err(Failed) => Ok(Told::Failed),
    }
}

const NODES: [NodeRow; 6] = [
    NodeRow {
        node: 1,
        lat: 10,
        lon: -100,
    },
    NodeRow {
        node: 2,
        lat: -20,
        lon: 200,
    },
    NodeRow {
        node: 3,
        lat: 30,
        lon: 300,
    },
    NodeRow {
        node: 5,
        lat: 90_000_000,
        lon: -180_000_000,
    },
    NodeRow {
        node: 9,
        lat: -90,
        lon: -900,
    },
    NodeRow {
        node: 12,
        lat: 120,
        lon: 1200,
    },
];

// The refs of way 7 fall, and that at place 2 has no node. Way 8 has a node of way 7 twice, and no row of a ref at place 2.
const REFS: [RefRow; 7] = [
    RefRow {
        node: 9,
        way: 7,
        place: 0,
    },
    RefRow {
        node: 5,
        way: 7,
        place: 1,
    },
    RefRow {
        node: 4,
        way: 7,
        place: 2,
    },
    RefRow {
        node: 2,
        way: 7,
        place: 3,
    },
    RefRow {
        node: 5,
        way: 8,
        place: 0,
    },
    RefRow {
        node: 3,
        way: 8,
        place: 1,
    },
    RefRow {
        node: 5,
        way: 8,
        place: 3,
    },
];

const POINTS: [PointRow; 6] = [
    PointRow {
        way: 7,
        place: 0,
        node: 9,
        lat: -90,
        lon: -900,
    },
    PointRow {
        way: 7,
        place: 1,
        node: 5,
        lat: 90_000_000,
        lon: -180_000_000,
    },
    PointRow {
        way: 7,
        place: 3,
        node: 2,
        lat: -20,
        lon: 200,
    },
    PointRow {
        way: 8,
        place: 0,
        node: 5,
        lat: 90_000_000,
        lon: -180_000_000,
    },
    PointRow {
        way: 8,
        place: 1,
        node: 3,
        lat: 30,
        lon: 300,
    },
    PointRow {
        way: 8,
        place: 3,
        node: 5,
        lat: 90_000_000,
        lon: -180_000_000,
    },
];

#[test]
fn points_of_two_ways(rt: HostRuntime) -> Result<(), Fail> {
    let alloc = rt.alloc();
    assert_eq!(rt; told_by(alloc, 0, &NODES, &REFS, &POINTS)?, Told::Points);
    assert_eq!(rt;
        told_by(alloc, 0, &NODES, &REFS, &POINTS[..5])?,
        Told::Others
    );
    Ok(())
}

// The store is started, makes two parts and puts 13 rows, and orders the refs; the join makes a part, reads four pages
// of refs and three of nodes, and puts six points, which are ordered and read again by three pages.
#[test]
fn each_call_of_the_store_fails(rt: HostRuntime) -> Result<(), Fail> {
    let alloc = rt.alloc();
    for call in 1..36 {
        assert_eq!(rt;
            told_by(alloc, call, &NODES, &REFS, &POINTS)?,
            Told::Failed,
            "at {call}"
        );
    }
    assert_eq!(rt; told_by(alloc, 36, &NODES, &REFS, &POINTS)?, Told::Points);
    Ok(())
}

// No node, no ref, and no ref that has a node.
#[test]
fn no_points(rt: HostRuntime) -> Result<(), Fail> {
    let alloc = rt.alloc();
    assert_eq!(rt; told_by(alloc, 0, &[], &REFS, &[])?, Told::Points);
    assert_eq!(rt; told_by(alloc, 0, &NODES, &[], &[])?, Told::Points);
    assert_eq!(rt; told_by(alloc, 0, &NODES, &REFS[2..3], &[])?, Told::Points);
    Ok(())
}

// The greatest numbers.
#[test]
fn last_point(rt: HostRuntime) -> Result<(), Fail> {
    let node = NodeRow {
        node: u64::MAX,
        lat: i32::MIN,
        lon: i32::MAX,
    };
    let way_ref = RefRow {
        node: u64::MAX,
        way: u64::MAX,
        place: u32::MAX,
    };
    let point = PointRow {
        way: u64::MAX,
        place: u32::MAX,
        node: u64::MAX,
        lat: i32::MIN,
        lon: i32::MAX,
    };
    assert_eq!(rt;
        told_by(rt.alloc(), 0, &[node], &[way_ref], &[point])?,
        Told::Points
    );
    Ok(())
}
