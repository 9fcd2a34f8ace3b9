//! Relations whose rings are joined, and those that are refused.

ghost use Rattle.std.specs.Prelude.{IsTrue};
ghost use Rattle.ring_assembly.specs.Assembled.{HoldsRelation};

use super::*;
use arrayvec::ArrayVec;
use mf_base::kind::EntityKind;
use mf_base::place::Place;
use mf_rows::cursors::PointCursor;
use mf_rows::head::Head;
use mf_rows::head_units::{TextLengths, head_unit};
use mf_rows::units::{part_unit, point_unit};
use std::test::Fail;

// A part: its role, and its nodes. Node 304 lies at latitude 3 and longitude 4.
type Nodes = (Role, &'static [u64]);

const NO_TEXT: TextLengths = TextLengths {
    name: 0,
    house: 0,
    reference: 0,
};

// A relation without tags.
fn head() -> Head {
    Head {
        kind: EntityKind::Relation,
        id: 7,
        number: 0,
        weight: 24,
        zoom: 5,
        layer: 0,
        water: false,
        label: false,
        coast: false,
        height: None,
        tags: ArrayVec::new(),
    }
}

// Puts a unit, where there is room.
fn put(desk: &mut Desk, unit: &[u8; 16]) -> bool {
    if desk.records.spare() == 0 {
        return false;
    }
    desk.records.add_unit(unit);
    true
}

// Puts a part.
fn put_part(desk: &mut Desk, part: Nodes) -> bool {
    let (role, nodes) = part;
    let mut fits = put(desk, &part_unit(role, nodes.len() as u64));
    for node in nodes {
        let place = Place {
            lat: (*node / 100 % 100) as i32,
            lon: (*node % 100) as i32,
        };
        fits = fits && put(desk, &point_unit(*node, place));
    }
    fits
}

// Puts a head.
fn put_head(desk: &mut Desk) -> bool {
    let head = head();
    let mut fits = true;
    for i in 0..10usize {
        fits = fits && put(desk, &head_unit(&head, NO_TEXT, i));
    }
    fits
}

// Puts a relation of these parts.
fn put_relation(desk: &mut Desk, parts: &[Nodes]) -> bool
    ensures { IsTrue result → HoldsRelation desk.new.records }
{
    let mut fits = put_head(desk);
    for part in parts {
        fits = fits && put_part(desk, *part);
    }
    fits && desk.records.close_record() && holds_relation(&desk.records)
}

// Whether the points of a ring are these nodes.
fn are_nodes(mut points: PointCursor<'_>, nodes: &[u64]) -> bool {
    for node in nodes {
        match points.next() {
            Some((found, _)) => {
                if found != *node {
                    return false;
                }
            }
            None => return false,
        }
    }
    points.next().is_none()
}

// Whether the rings of the relation are these.
fn are_rings(desk: &Desk, rings: &[Nodes]) -> bool {
    if desk.records.len() != 1 {
        return false;
    }
    let mut found = desk.records.view(0).rings();
    for (role, nodes) in rings {
        match found.next() {
            Some((other, points)) => {
                if other != *role || !are_nodes(points, nodes) {
                    return false;
                }
            }
            None => return false,
        }
    }
    found.next().is_none() && desk.out.bytes().is_empty()
}

const OUTER: Role = Role::Outer;

const INNER: Role = Role::Inner;

// Parts, and the rings of their blocks: the triangle of three ways with its hole, with the hole as outer, with the hole
// outside, and after a closed outer part.
const JOINED: [(&[Nodes], &[Nodes]); 9] = [
    (
        &[
            (OUTER, &[0, 90]),
            (OUTER, &[9090, 90]),
            (OUTER, &[9090, 0]),
            (INNER, &[2040, 3060, 2070, 2040]),
        ],
        &[
            (OUTER, &[0, 90, 9090, 0]),
            (INNER, &[2040, 3060, 2070, 2040]),
        ],
    ),
    (
        &[
            (OUTER, &[0, 90]),
            (OUTER, &[9090, 90]),
            (OUTER, &[9090, 0]),
            (OUTER, &[2040, 3060, 2070, 2040]),
        ],
        &[
            (OUTER, &[0, 90, 9090, 0]),
            (OUTER, &[2040, 3060, 2070, 2040]),
        ],
    ),
    (
        &[
            (OUTER, &[0, 90]),
            (OUTER, &[9090, 90]),
            (OUTER, &[9090, 0]),
            (INNER, &[9001, 9002, 9102, 9001]),
        ],
        &[(OUTER, &[0, 90, 9090, 0])],
    ),
    // A closed part takes no other.
    (
        &[(OUTER, &[1, 2, 102, 1]), (OUTER, &[1, 3, 103, 1])],
        &[(OUTER, &[1, 2, 102, 1]), (OUTER, &[1, 3, 103, 1])],
    ),
    // A part that leads back to the ring's end.
    (
        &[(OUTER, &[1, 2]), (OUTER, &[2, 5, 6, 2]), (OUTER, &[2, 1])],
        &[(OUTER, &[1, 2, 5, 6, 2, 1])],
    ),
    // Two outer rings with holes of each, told in no order; the last hole lies in none.
    (
        &[
            (INNER, &[5010, 5020, 6015, 5010]),
            (OUTER, &[0, 30]),
            (INNER, &[510, 515, 712, 510]),
            (OUTER, &[5000, 5030, 8030, 8000, 5000]),
            (INNER, &[616, 617, 718, 616]),
            (OUTER, &[2015, 30]),
            (OUTER, &[2015, 0]),
            (INNER, &[9990, 9991, 9891, 9990]),
        ],
        &[
            (OUTER, &[0, 30, 2015, 0]),
            (INNER, &[510, 515, 712, 510]),
            (INNER, &[616, 617, 718, 616]),
            (OUTER, &[5000, 5030, 8030, 8000, 5000]),
            (INNER, &[5010, 5020, 6015, 5010]),
        ],
    ),
    // A part that fits at both of its ends is taken as it stands.
    (
        &[(OUTER, &[1, 2]), (OUTER, &[2, 3, 4, 2]), (OUTER, &[1, 2])],
        &[(OUTER, &[1, 2, 3, 4, 2, 1])],
    ),
    // A hole of three parts in the second of two rings that both have it: it is the first's.
    (
        &[
            (OUTER, &[0, 90, 9090, 9000, 0]),
            (OUTER, &[1010, 1080, 8080, 8010, 1010]),
            (INNER, &[2020, 2030]),
            (INNER, &[3025, 2030]),
            (INNER, &[3025, 2020]),
        ],
        &[
            (OUTER, &[0, 90, 9090, 9000, 0]),
            (INNER, &[2020, 2030, 3025, 2020]),
            (OUTER, &[1010, 1080, 8080, 8010, 1010]),
        ],
    ),
    // Two points that are one node make a ring.
    (&[(OUTER, &[5, 5])], &[(OUTER, &[5, 5])]),
];

#[test]
fn joined_rings(rt: HostRuntime) -> Result<(), Fail> {
    let mut desk = Desk::new(rt.alloc(), 80)?;
    for (parts, rings) in JOINED {
        desk.records.clear();
        assert!(rt; put_relation(&mut desk, parts));
        assert!(rt; assemble(&mut desk).is_ok());
        assert!(rt; are_rings(&desk, rings), "a ring of {}", rings.len());
    }
    Ok(())
}

// Parts, and why they make no blocks: without the third way; holes alone; an open hole, and an open outer ring before
// one; the place counts all parts.
const REFUSED: [(&[Nodes], RingFault); 5] = [
    (
        &[
            (OUTER, &[0, 90]),
            (OUTER, &[9090, 90]),
            (INNER, &[2040, 3060, 2070, 2040]),
        ],
        RingFault::OpenRing { part: 0 },
    ),
    (&[(INNER, &[1, 2, 3, 1])], RingFault::NoOuter),
    (&[], RingFault::NoOuter),
    (
        &[(OUTER, &[3, 4, 3]), (INNER, &[7, 8, 7]), (INNER, &[1, 2])],
        RingFault::OpenRing { part: 2 },
    ),
    (
        &[
            (INNER, &[1, 2]),
            (OUTER, &[3, 4, 3]),
            (INNER, &[7, 8]),
            (OUTER, &[5, 6]),
        ],
        RingFault::OpenRing { part: 3 },
    ),
];

#[test]
fn refused_parts(rt: HostRuntime) -> Result<(), Fail> {
    let mut desk = Desk::new(rt.alloc(), 80)?;
    for (parts, why) in REFUSED {
        desk.records.clear();
        assert!(rt; put_relation(&mut desk, parts));
        assert!(rt; assemble(&mut desk) == Err(why));
        assert_eq!(rt; desk.records.spare(), 80);
        assert!(rt; desk.out.bytes().is_empty());
    }
    Ok(())
}

// How many parts the ring of many parts has.
const MANY: u64 = 10_000;

// Puts the point of a node.
fn put_node(desk: &mut Desk, node: u64) -> bool {
    put(desk, &point_unit(node, Place { lat: 0, lon: 0 }))
}

// Puts a relation whose parts are the edges of one ring through the nodes below `MANY`, the last first, each other one
// from its greater node to its smaller.
fn put_edges(desk: &mut Desk) -> bool
    ensures { IsTrue result → HoldsRelation desk.new.records }
{
    let mut fits = put_head(desk);
    for i in 0..MANY {
        let from = MANY - 1 - i;
        let to = (from + 1) % MANY;
        let (first, last) = if i % 2 == 0 { (from, to) } else { (to, from) };
        fits = fits
            && put(desk, &part_unit(OUTER, 2))
            && put_node(desk, first)
            && put_node(desk, last);
    }
    fits && desk.records.close_record() && holds_relation(&desk.records)
}

// Whether points are those of the ring: the last node, and then all from 0 on.
fn are_edges(mut points: PointCursor<'_>) -> bool {
    for i in 0..MANY + 1 {
        match points.next() {
            Some((node, _)) => {
                if node != (MANY - 1 + i) % MANY {
                    return false;
                }
            }
            None => return false,
        }
    }
    points.next().is_none()
}

// Whether the relation has that ring alone.
fn is_ring_of_edges(desk: &Desk) -> bool {
    if desk.records.len() != 1 {
        return false;
    }
    let mut found = desk.records.view(0).rings();
    match found.next() {
        Some((_, points)) => are_edges(points) && found.next().is_none(),
        None => false,
    }
}

#[test]
fn ring_of_many_parts(rt: HostRuntime) -> Result<(), Fail> {
    let mut desk = Desk::new(rt.alloc(), 30_010)?;
    assert!(rt; put_edges(&mut desk));
    assert!(rt; assemble(&mut desk).is_ok());
    assert!(rt; is_ring_of_edges(&desk));
    Ok(())
}
