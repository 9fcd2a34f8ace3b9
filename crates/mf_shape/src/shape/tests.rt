//! Candidates that are nodes, their features as they are read again, and stores of which a call fails.

ghost use Rattle.std.specs.Prelude.{◌≡◌, ◌<◌, ◌≤◌, ◌+◌, [], ◌∷◌, ◌++◌, List, true, IfOk, codes};
ghost use Rattle.mf_edge.specs.Spill.{IsNameOf, most_parts};
ghost use Rattle.mf_rows.specs.Kinds.{shape_kind};
ghost use Rattle.spill_parts.specs.Parts.{Piece, piece_of, IsHeld, HasJust};
ghost use Rattle.spill_parts.specs.Handed.{ingested_pieces};
ghost use Rattle.spill_parts.specs.Shaped.{shapes_pieces};

use super::*;
use arrayvec::ArrayVec;
use mf_base::kind::EntityKind;
use mf_base::place::Place;
use mf_edge::{Failed, MemSpill};
use mf_rows::LimitFault;
use mf_rows::head::Head;
use mf_rows::head_units::{TextLengths, head_unit};
use mf_rows::kind::RowKind;
use mf_rows::kinds::{FeatureRow, ShapeRow};
use mf_rows::units::point_unit;
use spill_parts::{Part, Reader};
use std::alloc::{AllocError, Global};
use std::marker::Brand;
use std::sync::ledger::Blank;
use std::test::Fail;

// A node that is a candidate. Its name has at most 16 bytes, and zeros behind them; 0 bytes: it has none.
#[derive(Clone, Copy)]
struct Node {
    id: u64,
    name: [u8; 16],
    len: u16,
    height: Option<i32>,
    place: Place,
}

const BENCH: Node = Node {
    id: 1,
    name: [0; 16],
    len: 0,
    height: None,
    place: Place { lat: 1, lon: -2 },
};

const SPRING: Node = Node {
    id: 7,
    name: *b"Spring\0\0\0\0\0\0\0\0\0\0",
    len: 6,
    height: Some(-3),
    place: Place {
        lat: 1_500_000,
        lon: 2_500_000,
    },
};

const TOWER: Node = Node {
    id: u64::MAX,
    name: *b"The Second Tower",
    len: 16,
    height: Some(90),
    place: Place {
        lat: -90_000_000,
        lon: 180_000_000,
    },
};

// What a shaping tells.
#[derive(Clone, Copy, Debug, PartialEq, Eq)]
enum Told {
    // The counts, and whether the rows are those that are wanted, beside the counts of objects as they were.
    Shapes {
        features: u64,
        skipped: u64,
        largest: u64,
        are_wanted: bool,
    },
    Fault(ShapeFault),
    // The store failed before the shaping, or behind it.
    Failed,
}

// The head of a node.
fn head(node: &Node, number: u64, weight: u64) -> Head {
    Head {
        kind: EntityKind::Node,
        id: node.id,
        number,
        weight,
        zoom: 14,
        layer: 5,
        water: false,
        label: node.len > 0,
        coast: false,
        height: node.height,
        tags: ArrayVec::new(),
    }
}

// How many units a node has.
fn units_of(node: &Node) -> u32 {
    if node.len > 0 { 12 } else { 11 }
}

// A unit of a node: ten of its head, one of its name, where it has one, and its point.
fn unit(node: &Node, number: u64, weight: u64, place: u32) -> [u8; 16] {
    if place < 10 {
        let lengths = TextLengths {
            name: node.len,
            house: 0,
            reference: 0,
        };
        head_unit(&head(node, number, weight), lengths, place as usize)
    } else if place == 10 && node.len > 0 {
        node.name
    } else {
        point_unit(node.id, node.place)
    }
}

// The rows of a node as a candidate, which has no number and no weight.
fn put_feature_rows(rows: &mut Vec<FeatureRow>, node: &Node) -> Result<(), AllocError> {
    for place in 0..units_of(node) {
        rows.push(FeatureRow {
            kind: 0,
            id: node.id,
            place,
            unit: unit(node, 0, 0, place),
        })?;
    }
    Ok(())
}

// The rows of nodes as candidates.
fn feature_rows(alloc: Global, nodes: &[Node]) -> Result<Vec<FeatureRow>, AllocError> {
    let mut rows = Vec::new(alloc);
    for node in nodes {
        put_feature_rows(&mut rows, node)?;
    }
    Ok(rows)
}

// The rows of a node as a feature.
fn put_shape_rows(rows: &mut Vec<ShapeRow>, node: &Node, number: u64) -> Result<(), AllocError> {
    let units = units_of(node);
    for place in 0..units {
        rows.push(ShapeRow {
            number,
            place,
            unit: unit(node, number, u64::from(units), place),
        })?;
    }
    Ok(())
}

// The rows of nodes as features with the numbers from 0 on.
fn shape_rows(alloc: Global, nodes: &[Node]) -> Result<Vec<ShapeRow>, AllocError> {
    let mut rows = Vec::new(alloc);
    for i in 0..nodes.len() {
        put_shape_rows(&mut rows, &nodes[i], i as u64)?;
    }
    Ok(rows)
}

// A part of these rows, in this order, behind those that are there.
fn written<K: RowKind, P: Spill>(spill: &mut P, rows: &[K]) -> Result<Part<K>, Failed>
    requires started { (P.state spill.old).is_started ≡ true }
    requires few { (P.state spill.old).count < most_parts }
    ensures just { IfOk result (λ part. (pieces : List Piece) → HasJust pieces (P.state spill.old)
        → HasJust (pieces ++ piece_of K.kind part ∷ []) (P.state spill.new)) }
    ensures started { (P.state spill.new).is_started ≡ true }
    ensures count { (P.state spill.new).count ≤ (P.state spill.old).count + 1 }
{
    let mut writer = Writer::make(spill)?;
    for row in rows {
        writer.put(spill, row)?;
    }
    Ok(writer.finish())
}

// Six parts, of which the fourth has these rows, and the others none.
fn ingested<P: Spill>(spill: &mut P, rows: &[FeatureRow]) -> Result<Ingested, Failed>
    requires { HasJust [] (P.state spill.old) }
    ensures { IfOk result (λ found. HasJust (ingested_pieces found) (P.state spill.new)) }
{
    Ok(Ingested {
        nodes: 7,
        ways: 8,
        relations: 9,
        bounds: None,
        places: written(spill, &[])?,
        refs: written(spill, &[])?,
        members: written(spill, &[])?,
        node_units: written(spill, rows)?,
        way_units: written(spill, &[])?,
        relation_units: written(spill, &[])?,
    })
}

// Whether a part has just these rows.
fn are_rows<P: Spill, L: Ledger>(
    spill: &mut P,
    part: &Part<ShapeRow>,
    rows: &[ShapeRow],
    page: &mut Page,
    steps: &mut Steps<L>,
) -> Result<bool, Failed>
    requires started { (P.state spill.old).is_started ≡ true }
    requires held { IsHeld shape_kind part.now (P.state spill.old) }
{
    let mut reader = Reader::start(part);
    let mut n = 0;
    while let Some(row) = reader.next(spill, page, steps)? {
        if n == rows.len() || rows[n] != row {
            return Ok(false);
        }
        n += 1;
    }
    Ok(n == rows.len())
}

// What shapes tell, in a store that has just their part.
fn told_of<P: Spill, L: Ledger>(
    shapes: &Shapes,
    wanted: &[ShapeRow],
    page: &mut Page,
    spill: &mut P,
    steps: &mut Steps<L>,
) -> Result<Told, Failed>
    requires { HasJust (shapes_pieces shapes.now) (P.state spill.old) }
{
    let are_counted = (shapes.nodes, shapes.ways, shapes.relations) == (7, 8, 9);
    let are_wanted = are_rows(spill, &shapes.shapes, wanted, page, steps)?;
    Ok(Told::Shapes {
        features: shapes.features,
        skipped: shapes.skipped,
        largest: shapes.largest,
        are_wanted: are_counted && are_wanted,
    })
}

// What the shaping of these rows tells, in a store that is started first.
fn told_by<P: Spill, L: Ledger>(
    spill: &mut P,
    rows: &[FeatureRow],
    wanted: &[ShapeRow],
    desk: &mut Desk,
    page: &mut Page,
    blank: Blank,
) -> Result<Told, Failed>
    requires ledger { blank.name ≡ L.name }
    requires parts { blank.parts ≡ L.parts }
    requires some { 0 < blank.parts }
    requires name { IsNameOf (codes "rows") (P.state spill.old).name }
{
    let mut steps = Steps::<L>::new(blank);
    spill.start("rows")?;
    let found = ingested(spill, rows)?;
    match shape(found, desk, page, spill, &mut steps) {
        Ok(shapes) => told_of(&shapes, wanted, page, spill, &mut steps),
        Err(fault) => Ok(Told::Fault(fault)),
    }
}

// What the shaping of nodes tells, at a desk of so many rows, where the features of other nodes are wanted.
fn told_in(
    alloc: Global,
    store: &mut MemSpill,
    desk_rows: u32,
    nodes: &[Node],
    wanted: &[Node],
) -> Result<Told, AllocError>
    requires rows { (1 ≤ desk_rows) × (desk_rows ≤ 16777216) }
    requires name { IsNameOf (codes "rows") store.old.name }
{
    let mut desk = Desk::new(alloc, desk_rows)?;
    let mut page = Page::new(alloc, 3)?;
    let rows = feature_rows(alloc, nodes)?;
    let wanted = shape_rows(alloc, wanted)?;
    let blank = Blank::new(1);
    match told_by::<MemSpill, Brand>(store, &rows, &wanted, &mut desk, &mut page, blank) {
        Ok(told) => Ok(told),
        Err(Failed) => Ok(Told::Failed),
    }
}

// The same, where the call of the store with a number fails; 0: none does.
fn told_failing(
    alloc: Global,
    call: u64,
    desk_rows: u32,
    nodes: &[Node],
    wanted: &[Node],
) -> Result<Told, AllocError>
    requires { (1 ≤ desk_rows) × (desk_rows ≤ 16777216) }
{
    let mut store = MemSpill::new(alloc, &[call])?;
    told_in(alloc, &mut store, desk_rows, nodes, wanted)
}

// The same, where the store does not tell its bytes, and the read with a number answers zeros; 0: none does.
fn told_untold(
    alloc: Global,
    zeros: u64,
    nodes: &[Node],
    wanted: &[Node],
) -> Result<Told, AllocError> {
    let mut store = MemSpill::untold(alloc, &[], zeros)?;
    told_in(alloc, &mut store, 64, nodes, wanted)
}

// The features that are wanted, so many, and the greatest weight.
fn features(features: u64, largest: u64) -> Told {
    Told::Shapes {
        features,
        skipped: 0,
        largest,
        are_wanted: true,
    }
}

// A node over the limit.
fn over(id: u64, weight: u64) -> Told {
    Told::Fault(ShapeFault::Limit(LimitFault::Feature {
        kind: EntityKind::Node,
        id,
        weight,
    }))
}

#[test]
fn features_of_nodes(rt: HostRuntime) -> Result<(), Fail> {
    let alloc = rt.alloc();
    let nodes = [BENCH, SPRING, TOWER];
    assert_eq!(rt;
        told_failing(alloc, 0, 64, &nodes, &nodes)?,
        features(3, 12)
    );
    assert_eq!(rt;
        told_failing(alloc, 0, 64, &[BENCH], &[BENCH])?,
        features(1, 11)
    );
    assert_eq!(rt; told_failing(alloc, 0, 64, &[], &[])?, features(0, 0));
    assert_eq!(rt; told_untold(alloc, 0, &nodes, &nodes)?, features(3, 12));
    Ok(())
}

// A node with a name has twelve units, and one without has eleven.
#[test]
fn nodes_at_the_limit(rt: HostRuntime) -> Result<(), Fail> {
    let alloc = rt.alloc();
    assert_eq!(rt;
        told_failing(alloc, 0, 12, &[SPRING], &[SPRING])?,
        features(1, 12)
    );
    assert_eq!(rt; told_failing(alloc, 0, 11, &[SPRING], &[])?, over(7, 12));
    assert_eq!(rt;
        told_failing(alloc, 0, 11, &[BENCH, BENCH], &[BENCH, BENCH])?,
        features(2, 11)
    );
    assert_eq!(rt;
        told_failing(alloc, 0, 11, &[BENCH, TOWER, SPRING], &[])?,
        over(u64::MAX, 12)
    );
    assert_eq!(rt; told_failing(alloc, 0, 1, &[BENCH], &[])?, over(1, 11));
    Ok(())
}

// The store is started, and makes six parts and puts 35 rows before the shaping, which makes a part, puts as many rows,
// and reads twelve times.
#[test]
fn each_call_of_the_store_fails(rt: HostRuntime) -> Result<(), Fail> {
    let alloc = rt.alloc();
    let nodes = [BENCH, SPRING, TOWER];
    assert_eq!(rt; told_failing(alloc, 42, 64, &nodes, &nodes)?, Told::Failed);
    for call in 43..91 {
        assert_eq!(rt;
            told_failing(alloc, call, 64, &nodes, &nodes)?,
            Told::Fault(ShapeFault::Spill),
            "at {call}"
        );
    }

    // The next reads the rows of the features again.
    assert_eq!(rt; told_failing(alloc, 91, 64, &nodes, &nodes)?, Told::Failed);
    assert_eq!(rt;
        told_failing(alloc, 103, 64, &nodes, &nodes)?,
        features(3, 12)
    );
    Ok(())
}

// The first three rows are read as candidates of one unit, of which the last goes on with what is left of the bench.
#[test]
fn zeros_are_read_as_rows(rt: HostRuntime) -> Result<(), Fail> {
    let alloc = rt.alloc();
    let nodes = [BENCH, SPRING, TOWER];
    assert_eq!(rt;
        told_untold(alloc, 1, &nodes, &[SPRING, TOWER])?,
        Told::Shapes {
            features: 2,
            skipped: 3,
            largest: 12,
            are_wanted: true,
        }
    );
    for zeros in 2..13 {
        let told = told_untold(alloc, zeros, &nodes, &nodes)?;
        let is_told = matches!(
            &told,
            Told::Shapes {
                are_wanted: false,
                ..
            }
        );
        assert!(rt; is_told, "zeros at read {zeros}");
    }
    Ok(())
}
