//! Places inside a square, outside it, on its sides and in its hole, and at the ends of their numbers.

use super::*;
use arrayvec::ArrayVec;
use mf_base::kind::{EntityKind, Role};
use mf_rows::desk::Desk;
use mf_rows::head::Head;
use mf_rows::head_units::{TextLengths, head_unit};
use mf_rows::units::{part_unit, point_unit};
use std::test::Fail;

// The places of a ring, as pairs of latitude and longitude.
type Ring = &'static [(i32, i32)];

const NO_TEXT: TextLengths = TextLengths {
    name: 0,
    house: 0,
    reference: 0,
};

// A relation without tags.
fn head() -> Head {
    Head {
        kind: EntityKind::Relation,
        id: 1,
        number: 0,
        weight: 16,
        zoom: 5,
        layer: 0,
        water: false,
        label: false,
        coast: false,
        height: None,
        tags: ArrayVec::new(),
    }
}

// Puts a unit, where there is room.
fn put(desk: &mut Desk, unit: &[u8; 16]) -> bool {
    if desk.records.spare() == 0 {
        return false;
    }
    desk.records.add_unit(unit);
    true
}

// Puts a ring.
fn put_ring(desk: &mut Desk, ring: Ring) -> bool {
    let mut fits = put(desk, &part_unit(Role::Outer, ring.len() as u64));
    for (lat, lon) in ring {
        let place = Place {
            lat: *lat,
            lon: *lon,
        };
        fits = put(desk, &point_unit(1, place)) && fits;
    }
    fits
}

// Whether a place is inside these rings, where there is room for them.
fn is_inside(desk: &mut Desk, rings: &[Ring], lat: i32, lon: i32) -> Option<bool> {
    desk.records.clear();
    let head = head();
    let mut fits = true;
    for i in 0..10usize {
        fits = put(desk, &head_unit(&head, NO_TEXT, i)) && fits;
    }
    for ring in rings {
        fits = put_ring(desk, ring) && fits;
    }
    if fits && desk.records.close_record() && desk.records.len() >= 1 {
        Some(inside(desk.records.view(0).rings(), Place { lat, lon }))
    } else {
        None
    }
}

const EMPTY: Ring = &[];

const ONE: Ring = &[(0, 0)];

const SQUARE: Ring = &[(0, 0), (0, 4), (4, 4), (4, 0), (0, 0)];

const HOLE: Ring = &[(1, 1), (3, 1), (3, 3), (1, 3), (1, 1)];

const WORLD: Ring = &[
    (i32::MIN, i32::MIN),
    (i32::MIN, i32::MAX),
    (i32::MAX, i32::MAX),
    (i32::MAX, i32::MIN),
    (i32::MIN, i32::MIN),
];

const SLOPE: Ring = &[
    (i32::MIN, i32::MIN),
    (i32::MAX, i32::MAX),
    (i32::MIN, i32::MAX),
    (i32::MIN, i32::MIN),
];

// Rings, a place, and whether it is inside: south and west belong to a square, north and east don't.
const PLACES: [(&[Ring], (i32, i32), bool); 21] = [
    (&[SQUARE], (2, 2), true),
    (&[SQUARE], (0, 2), true),
    (&[SQUARE], (2, 0), true),
    (&[SQUARE], (0, 0), true),
    (&[SQUARE], (4, 2), false),
    (&[SQUARE], (2, 4), false),
    (&[SQUARE], (4, 4), false),
    (&[SQUARE], (2, 5), false),
    (&[SQUARE, HOLE], (2, 2), false),
    (&[SQUARE, HOLE], (0, 2), true),
    (&[SQUARE, SQUARE], (2, 2), false),
    (&[SQUARE, HOLE, SQUARE], (2, 2), true),
    (&[], (0, 0), false),
    (&[EMPTY], (0, 0), false),
    (&[ONE], (0, 0), false),
    (&[WORLD], (0, 0), true),
    (&[WORLD], (i32::MIN, i32::MIN), true),
    (&[WORLD], (i32::MAX, 0), false),
    (&[SLOPE], (i32::MAX - 1, i32::MAX - 2), false),
    (&[SLOPE], (i32::MAX - 2, i32::MAX - 1), true),
    (&[SLOPE], (i32::MIN, i32::MIN + 1), true),
];

#[test]
fn places(rt: HostRuntime) -> Result<(), Fail> {
    let mut desk = Desk::new(rt.alloc(), 40)?;
    for (rings, (lat, lon), within) in PLACES {
        assert!(rt;
            is_inside(&mut desk, rings, lat, lon) == Some(within),
            "at {lat} {lon}"
        );
    }
    Ok(())
}
