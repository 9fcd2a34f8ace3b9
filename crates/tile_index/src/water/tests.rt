//! Tiles of base zoom 5, and the features that cover them or not.

ghost use Rattle.std.specs.Prelude.{◌≡◌, ◌<◌, IsTrue};
ghost use Rattle.std.specs.List.{AllByRecursion};
ghost use Rattle.mf_rows.specs.Shapes.{IsFeature};

use super::*;
use arrayvec::ArrayVec;
use mf_base::kind::Role;
use mf_base::tile::Interval;
use mf_rows::features::is_feature;
use mf_rows::head::Head;
use mf_rows::head_units::{TextLengths, head_unit};
use mf_rows::units::{part_unit, point_unit};
use std::test::Fail;

// A ring: its role, and its places as pairs of latitude and longitude.
type Ring = (Role, &'static [(i32, i32)]);

// A feature: its kind, whether it has the water mark, and its rings. A node lies at (1, 12000000).
type Feature = (EntityKind, bool, &'static [Ring]);

const NO_TEXT: TextLengths = TextLengths {
    name: 0,
    house: 0,
    reference: 0,
};

// A head without tags.
fn head(kind: EntityKind, water: bool) -> Head {
    Head {
        kind,
        id: 1,
        number: 0,
        weight: 16,
        zoom: 5,
        layer: 0,
        water,
        label: false,
        coast: false,
        height: None,
        tags: ArrayVec::new(),
    }
}

// Puts a unit, where there is room.
fn put(desk: &mut Desk, unit: &[u8; 16]) -> bool {
    if desk.records.spare() == 0 {
        return false;
    }
    desk.records.add_unit(unit);
    true
}

// Puts a point.
fn put_point(desk: &mut Desk, at: (i32, i32)) -> bool {
    put(
        desk,
        &point_unit(
            1,
            Place {
                lat: at.0,
                lon: at.1,
            },
        ),
    )
}

// Puts a ring.
fn put_ring(desk: &mut Desk, ring: Ring) -> bool {
    let mut fits = put(desk, &part_unit(ring.0, ring.1.len() as u64));
    for at in ring.1 {
        fits = put_point(desk, *at) && fits;
    }
    fits
}

// Puts a feature.
fn put_feature(desk: &mut Desk, feature: Feature) -> bool {
    let (kind, water, rings) = feature;
    let head = head(kind, water);
    let mut fits = true;
    for i in 0..10usize {
        fits = put(desk, &head_unit(&head, NO_TEXT, i)) && fits;
    }
    if kind == EntityKind::Node {
        fits = put_point(desk, (1, 12_000_000)) && fits;
    }
    for ring in rings {
        fits = put_ring(desk, *ring) && fits;
    }
    fits && desk.records.close_record()
}

// Whether each record is a feature.
fn are_features(desk: &Desk) -> bool
    ensures { IsTrue result → AllByRecursion IsFeature desk.now.records.records }
{
    for i in 0..desk.records.len() {
        if !is_feature(&desk.records.view(i)) {
            return false;
        }
    }
    true
}

// A tile of base zoom 5.
fn tile(x: u32, y: u32) -> TilePlace
    ensures base { result.interval.base ≡ 5 }
    ensures x { result.x ≡ x }
    ensures y { result.y ≡ y }
{
    TilePlace {
        index: 0,
        interval: Interval {
            base: 5,
            min: 0,
            max: 7,
        },
        x,
        y,
    }
}

// The water bit of a tile with these features.
fn water_of(desk: &mut Desk, features: &[Feature], x: u32, y: u32, rows: &Rows) -> Option<bool>
    requires x { x < 32 }
    requires y { y < 32 }
{
    desk.records.clear();
    for feature in features {
        if !put_feature(desk, *feature) {
            return None;
        }
    }
    if are_features(desk) {
        Some(is_water(desk, &tile(x, y), rows))
    } else {
        None
    }
}

const WAY: EntityKind = EntityKind::Way;

const RELATION: EntityKind = EntityKind::Relation;

// Round tile (17, 15), through the eight round it.
const SHORE: &[(i32, i32)] = &[
    (-5_000_000, 5_000_000),
    (-5_000_000, 28_000_000),
    (16_000_000, 28_000_000),
    (16_000_000, 5_000_000),
    (-5_000_000, 5_000_000),
];

const LAKE: Ring = (Role::Outer, SHORE);

// The same without its last place, and with another as its last.
const WITHOUT_LAST: Ring = (
    Role::Outer,
    &[
        (-5_000_000, 5_000_000),
        (-5_000_000, 28_000_000),
        (16_000_000, 28_000_000),
        (16_000_000, 5_000_000),
    ],
);

const OPEN: Ring = (
    Role::Outer,
    &[
        (-5_000_000, 5_000_000),
        (-5_000_000, 28_000_000),
        (16_000_000, 28_000_000),
        (16_000_000, 5_000_000),
        (-5_000_000, 5_000_001),
    ],
);

// The lake as a hole, and a ring round it.
const HOLE: Ring = (Role::Inner, SHORE);

const ROUND: Ring = (
    Role::Outer,
    &[
        (-50_000_000, -50_000_000),
        (-50_000_000, 50_000_000),
        (50_000_000, 50_000_000),
        (50_000_000, -50_000_000),
        (-50_000_000, -50_000_000),
    ],
);

// An island in the hole that has the tile's south-eastern part.
const ISLAND: Ring = (
    Role::Inner,
    &[
        (1, 20_000_000),
        (1, 21_000_000),
        (2, 21_000_000),
        (1, 20_000_000),
    ],
);

// The northern side along that of the tile, and a microdegree north of it; the western side likewise.
const NORTH_IN: Ring = (
    Role::Outer,
    &[
        (-5_000_000, 5_000_000),
        (-5_000_000, 28_000_000),
        (11_178_401, 28_000_000),
        (11_178_401, 5_000_000),
        (-5_000_000, 5_000_000),
    ],
);

const NORTH_OUT: Ring = (
    Role::Outer,
    &[
        (-5_000_000, 5_000_000),
        (-5_000_000, 28_000_000),
        (11_178_402, 28_000_000),
        (11_178_402, 5_000_000),
        (-5_000_000, 5_000_000),
    ],
);

const WEST_IN: Ring = (
    Role::Outer,
    &[
        (-5_000_000, 11_250_000),
        (-5_000_000, 28_000_000),
        (16_000_000, 28_000_000),
        (16_000_000, 11_250_000),
        (-5_000_000, 11_250_000),
    ],
);

const WEST_OUT: Ring = (
    Role::Outer,
    &[
        (-5_000_000, 11_249_999),
        (-5_000_000, 28_000_000),
        (16_000_000, 28_000_000),
        (16_000_000, 11_249_999),
        (-5_000_000, 11_249_999),
    ],
);

// Round tile (17, 17): the corner lies on the northern side, which does not meet the tile; and just south of it.
const ON_CORNER: Ring = (
    Role::Outer,
    &[
        (-28_000_000, 5_000_000),
        (-28_000_000, 28_000_000),
        (-11_178_401, 28_000_000),
        (-11_178_401, 5_000_000),
        (-28_000_000, 5_000_000),
    ],
);

const OFF_CORNER: Ring = (
    Role::Outer,
    &[
        (-28_000_000, 5_000_000),
        (-28_000_000, 28_000_000),
        (-11_178_400, 28_000_000),
        (-11_178_400, 5_000_000),
        (-28_000_000, 5_000_000),
    ],
);

// Features, a tile, and its water bit: the nine tiles of the lake first.
const BITS: [(&[Feature], (u32, u32), bool); 26] = [
    (&[(WAY, true, &[LAKE])], (17, 15), true),
    (&[(WAY, true, &[LAKE])], (16, 14), false),
    (&[(WAY, true, &[LAKE])], (17, 14), false),
    (&[(WAY, true, &[LAKE])], (18, 14), false),
    (&[(WAY, true, &[LAKE])], (16, 15), false),
    (&[(WAY, true, &[LAKE])], (18, 15), false),
    (&[(WAY, true, &[LAKE])], (16, 16), false),
    (&[(WAY, true, &[LAKE])], (17, 16), false),
    (&[(WAY, true, &[LAKE])], (18, 16), false),
    (&[], (17, 15), false),
    (&[(WAY, false, &[LAKE])], (17, 15), false),
    (&[(WAY, true, &[WITHOUT_LAST])], (17, 15), false),
    (&[(WAY, true, &[OPEN])], (17, 15), false),
    (&[(WAY, true, &[NORTH_IN])], (17, 15), false),
    (&[(WAY, true, &[NORTH_OUT])], (17, 15), true),
    (&[(WAY, true, &[WEST_IN])], (17, 15), false),
    (&[(WAY, true, &[WEST_OUT])], (17, 15), true),
    (&[(WAY, true, &[ON_CORNER])], (17, 17), false),
    (&[(WAY, true, &[OFF_CORNER])], (17, 17), true),
    (&[(RELATION, true, &[ROUND])], (17, 15), true),
    (&[(RELATION, true, &[ROUND, HOLE])], (17, 15), false),
    (&[(RELATION, true, &[LAKE, ROUND])], (17, 15), false),
    (&[(RELATION, true, &[ROUND, ISLAND])], (17, 15), false),
    (&[(RELATION, true, &[ROUND, OPEN])], (17, 15), false),
    // Only the last one covers the tile.
    (
        &[
            (EntityKind::Node, true, &[]),
            (WAY, false, &[LAKE]),
            (WAY, true, &[OPEN]),
            (RELATION, true, &[ROUND, HOLE]),
            (RELATION, true, &[ROUND]),
        ],
        (17, 15),
        true,
    ),
    (
        &[
            (EntityKind::Node, true, &[]),
            (WAY, false, &[LAKE]),
            (WAY, true, &[OPEN]),
            (RELATION, true, &[ROUND, HOLE]),
        ],
        (17, 15),
        false,
    ),
];

#[test]
fn water_bits(rt: HostRuntime) -> Result<(), Fail> {
    let rows = Rows::new(rt.alloc())?;
    let mut desk = Desk::new(rt.alloc(), 120)?;
    for (features, (x, y), water) in BITS {
        if x < 32 && y < 32 {
            assert!(rt;
                water_of(&mut desk, features, x, y, &rows) == Some(water),
                "tile {x} {y}"
            );
        }
    }
    Ok(())
}
