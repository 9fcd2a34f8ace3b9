//! Data blocks of records, with the bytes of worked rows.

ghost use Rattle.std.specs.Prelude.{◌≡◌, ◌<◌, ◌^◌, if◌then◌else◌};
ghost use Rattle.mf_rows.specs.RecordUnits.{parts_count};
ghost use Rattle.mf_rows.specs.Shapes.{IsFeature};

use crate::counts::count_blocks;
use crate::measure::measure;
use crate::put::put_blocks;
use arrayvec::ArrayVec;
use mf_base::kind::{EntityKind, Role};
use mf_base::out_buf::OutBuf;
use mf_base::place::Place;
use mf_rows::features::is_feature;
use mf_rows::head::Head;
use mf_rows::head_units::{TextLengths, head_unit};
use mf_rows::records::Records;
use mf_rows::units::{part_unit, point_unit};
use mf_rows::view::View;
use std::alloc::{AllocError, Global};
use std::test::Fail;

// A ring: its role, and its places as pairs of latitude and longitude.
type Ring = (Role, &'static [(i32, i32)]);

// The bytes of all coordinates under single and under double delta, and the data blocks.
type Spelled = ((u64, u64), OutBuf);

const CORNER: Place = Place {
    lat: 85_051_128,
    lon: -180_000_000,
};

const NO_TEXT: TextLengths = TextLengths {
    name: 0,
    house: 0,
    reference: 0,
};

// The head of a relation without tags.
fn head() -> Head {
    Head {
        kind: EntityKind::Relation,
        id: 1,
        number: 0,
        weight: 16,
        zoom: 5,
        layer: 0,
        water: false,
        label: false,
        coast: false,
        height: None,
        tags: ArrayVec::new(),
    }
}

// Puts a unit, where there is room.
fn put(records: &mut Records, unit: &[u8; 16]) -> bool
    ensures { records.new.capacity ≡ records.old.capacity }
{
    if records.spare() == 0 {
        return false;
    }
    records.add_unit(unit);
    true
}

// Puts a ring.
fn put_ring(records: &mut Records, ring: Ring) -> bool
    ensures { records.new.capacity ≡ records.old.capacity }
{
    let (role, places) = ring;
    let mut fits = put(records, &part_unit(role, places.len() as u64));
    for (lat, lon) in places {
        let place = Place {
            lat: *lat,
            lon: *lon,
        };
        fits = put(records, &point_unit(7, place)) && fits;
    }
    fits
}

// Puts a relation of these rings.
fn put_relation(records: &mut Records, rings: &[Ring]) -> bool
    ensures { records.new.capacity ≡ records.old.capacity }
{
    let head = head();
    let mut fits = true;
    for i in 0..10usize {
        fits = put(records, &head_unit(&head, NO_TEXT, i)) && fits;
    }
    for ring in rings {
        fits = put_ring(records, *ring) && fits;
    }
    records.close_record() && fits
}

// One of two numbers: the second under double delta.
fn one_of(sizes: (u64, u64), double: bool) -> u64
    ensures { result ≡ (if double then sizes.1 else sizes.0) }
{
    if double { sizes.1 } else { sizes.0 }
}

// What is measured of a feature, and its data blocks under a delta kind, in just the room that they need.
fn spelled_of(alloc: Global, view: &View, double: bool) -> Result<Spelled, AllocError>
    requires feature { IsFeature view.now }
    requires few { parts_count view.now.parts < 2 ^ 32 }
{
    let sizes = measure(view, CORNER);
    let size = count_blocks(view).size + one_of(sizes, double);
    let mut out = OutBuf::new(alloc, size as usize + 10)?;
    put_blocks(&mut out, view, CORNER, double);
    Ok((sizes, out))
}

// The same of a relation of these rings, where it is a feature.
fn spelled(alloc: Global, rings: &[Ring], double: bool) -> Result<Option<Spelled>, AllocError> {
    let mut records = Records::new(alloc, 64)?;
    if !put_relation(&mut records, rings) || records.len() == 0 {
        return Ok(None);
    }
    prove!(records.spare() <= 64);
    let view = records.view(0);
    if !is_feature(&view) {
        return Ok(None);
    }
    Ok(Some(spelled_of(alloc, &view, double)?))
}

const EASTWARD: Ring = (Role::Outer, &[(0, 0), (0, 1000), (0, 2000), (0, 3000)]);

const TWO: Ring = (Role::Outer, &[(0, 0), (0, 1000)]);

const SHORT: Ring = (Role::Outer, &[(0, 0)]);

const CLOSED: Ring = (Role::Outer, &[(0, 0), (0, 20), (10, 20), (10, 0), (0, 0)]);

const NORTHWARD: Ring = (Role::Outer, &[(0, 0), (1, 0)]);

const HOLE: Ring = (Role::Inner, &[(0, 0), (0, 1), (0, 0)]);

const WESTWARD: Ring = (Role::Outer, &[(0, 0), (0, -2)]);

// Rings, a delta kind, the bytes of all coordinates under both delta kinds, and the data blocks.
const ROWS: [(&[Ring], bool, (u64, u64), &[u8]); 6] = [
    // Each place is 1,000 microdegrees east of the last.
    (
        &[EASTWARD],
        true,
        (18, 16),
        &[
            1, 4, 0xf8, 0x8d, 0xc7, 0x68, 0x80, 0xaa, 0xea, 0xd5, 0, 0, 0xe8, 0x07, 0, 0, 0, 0,
        ],
    ),
    (
        &[EASTWARD],
        false,
        (18, 16),
        &[
            1, 4, 0xf8, 0x8d, 0xc7, 0x68, 0x80, 0xaa, 0xea, 0xd5, 0, 0, 0xe8, 0x07, 0, 0xe8, 0x07,
            0, 0xe8, 0x07,
        ],
    ),
    // With two places both kinds take as many bytes, and the bytes are the same.
    (
        &[TWO],
        true,
        (12, 12),
        &[
            1, 2, 0xf8, 0x8d, 0xc7, 0x68, 0x80, 0xaa, 0xea, 0xd5, 0, 0, 0xe8, 0x07,
        ],
    ),
    // A garden.
    (
        &[CLOSED],
        false,
        (17, 17),
        &[
            1, 5, 0xf8, 0x8d, 0xc7, 0x68, 0x80, 0xaa, 0xea, 0xd5, 0, 0, 0x14, 0x0a, 0, 0, 0x54,
            0x4a, 0,
        ],
    ),
    // Two blocks, the first with a hole.
    (
        &[NORTHWARD, HOLE, WESTWARD],
        false,
        (35, 35),
        &[
            2, 2, 0xf8, 0x8d, 0xc7, 0x68, 0x80, 0xaa, 0xea, 0xd5, 0, 1, 0, 3, 0xf8, 0x8d, 0xc7,
            0x68, 0x80, 0xaa, 0xea, 0xd5, 0, 0, 1, 0, 0x41, 1, 2, 0xf8, 0x8d, 0xc7, 0x68, 0x80,
            0xaa, 0xea, 0xd5, 0, 0, 0x42,
        ],
    ),
    (
        &[NORTHWARD, HOLE, WESTWARD],
        true,
        (35, 35),
        &[
            2, 2, 0xf8, 0x8d, 0xc7, 0x68, 0x80, 0xaa, 0xea, 0xd5, 0, 1, 0, 3, 0xf8, 0x8d, 0xc7,
            0x68, 0x80, 0xaa, 0xea, 0xd5, 0, 0, 1, 0, 0x42, 1, 2, 0xf8, 0x8d, 0xc7, 0x68, 0x80,
            0xaa, 0xea, 0xd5, 0, 0, 0x42,
        ],
    ),
];

#[test]
fn blocks_of_rings(rt: HostRuntime) -> Result<(), Fail> {
    for (rings, double, sizes, bytes) in ROWS {
        let found = spelled(rt.alloc(), rings, double)?;
        assert!(rt; found.is_some(), "under {double}");
        if let Some((found, out)) = found {
            assert_eq!(rt; found, sizes);
            assert_eq!(rt; out.bytes(), bytes);
        }
    }
    Ok(())
}

// What is no feature: an inner ring first, a ring of one place, and no ring.
#[test]
fn no_features(rt: HostRuntime) -> Result<(), Fail> {
    for rings in [[HOLE, TWO], [TWO, SHORT]] {
        assert!(rt; spelled(rt.alloc(), &rings, false)?.is_none());
    }
    assert!(rt; spelled(rt.alloc(), &[], false)?.is_none());
    Ok(())
}
