//! Tiles of desks, with the bytes of worked rows.

ghost use Rattle.std.specs.Prelude.{◌≡◌, ◌^◌, ◌≤◌, ◌<◌};
ghost use Rattle.tile_body.specs.Members.{IsTile};

use super::*;
use crate::holding::holds_members;
use arrayvec::ArrayVec;
use mf_base::kept::{Kept, KeptValue};
use mf_base::kind::{EntityKind, Role};
use mf_base::place::Place;
use mf_base::tile::Interval;
use mf_rows::head::Head;
use mf_rows::head_units::{TextLengths, head_unit};
use std::alloc::{AllocError, Global};
use std::test::Fail;

// A ring: its role, and its places as pairs of latitude and longitude.
type Ring = (Role, &'static [(i32, i32)]);

// A member. Its texts stand one behind another, and have at most 16 bytes. The place of a node is the first of its ring.
#[derive(Clone, Copy)]
struct Member {
    kind: EntityKind,
    zoom: u8,
    layer: i8,
    marks: Marks,
    height: Option<i32>,
    tags: &'static [Kept],
    lengths: TextLengths,
    text: &'static [u8],
    rings: &'static [Ring],
}

// Whether a member has the label mark, and the coast mark.
#[derive(Clone, Copy)]
struct Marks {
    label: bool,
    coast: bool,
}

// Up to fifteen kept tags.
fn kept(tags: &[Kept]) -> ArrayVec<Kept, 15> {
    let mut all = ArrayVec::new();
    for tag in tags {
        if !all.is_full() {
            all.push(*tag);
        }
    }
    all
}

fn head(member: &Member) -> Head {
    Head {
        kind: member.kind,
        id: 1,
        number: 0,
        weight: 0,
        zoom: member.zoom,
        layer: member.layer,
        water: false,
        label: member.marks.label,
        coast: member.marks.coast,
        height: member.height,
        tags: kept(member.tags),
    }
}

// The first sixteen bytes of a text, with zeros behind them.
fn text_unit(text: &[u8]) -> [u8; 16] {
    let mut unit = [0; 16];
    for i in 0..16usize {
        if i < text.len() {
            unit[i] = text[i];
        }
    }
    unit
}

// Puts a unit, where there is room.
fn put(records: &mut Records, unit: &[u8; 16]) -> bool
    ensures { records.new.capacity ≡ records.old.capacity }
{
    if records.spare() == 0 {
        return false;
    }
    records.add_unit(unit);
    true
}

// Puts the head and the texts of a member as a record, which has no ring yet.
fn begin(records: &mut Records, member: &Member) -> bool
    ensures { records.new.capacity ≡ records.old.capacity }
{
    let head = head(member);
    let mut fits = true;
    for i in 0..10usize {
        fits = put(records, &head_unit(&head, member.lengths, i)) && fits;
    }
    if !member.text.is_empty() {
        fits = put(records, &text_unit(member.text)) && fits;
    }
    records.close_record() && fits
}

// Puts a part to the last record, where it takes one.
fn put_part(records: &mut Records, role: Role) -> bool
    ensures { records.new.capacity ≡ records.old.capacity }
{
    if !records.loose().is_empty() || records.spare() == 0 || !records.takes_part(role) {
        return false;
    }
    records.add_part(role);
    true
}

// Puts a point to the last record, where it takes one.
fn put_point(records: &mut Records, place: Place) -> bool
    ensures { records.new.capacity ≡ records.old.capacity }
{
    if !records.loose().is_empty() || records.spare() == 0 || !records.takes_point() {
        return false;
    }
    records.add_point(7, place);
    true
}

// Puts a ring to the last record, or the point of a node.
fn put_ring(records: &mut Records, kind: EntityKind, ring: Ring) -> bool
    ensures { records.new.capacity ≡ records.old.capacity }
{
    let (role, places) = ring;
    let mut fits = kind == EntityKind::Node || put_part(records, role);
    for (lat, lon) in places {
        let place = Place {
            lat: *lat,
            lon: *lon,
        };
        fits = put_point(records, place) && fits;
    }
    fits
}

// Numbers the last record, where there is one.
fn number(records: &mut Records, number: u64, weight: u64) -> bool
    ensures { records.new.capacity ≡ records.old.capacity }
{
    if !records.loose().is_empty() || records.len() == 0 {
        return false;
    }
    records.set_feature(number, weight);
    true
}

// Puts a member.
fn put_member(records: &mut Records, member: &Member) -> bool
    ensures { records.new.capacity ≡ records.old.capacity }
{
    let mut fits = begin(records, member);
    for ring in member.rings {
        fits = put_ring(records, member.kind, *ring) && fits;
    }
    number(records, 3, 20) && fits
}

// Puts members, one behind another.
fn put_members(records: &mut Records, members: &[Member]) -> bool
    ensures { records.new.capacity ≡ records.old.capacity }
{
    let mut fits = true;
    for member in members {
        fits = put_member(records, member) && fits;
    }
    fits
}

// A tile of base zoom 0 or 1, with zoom levels from 16 to 18.
fn tile(base: u8, x: u32, y: u32) -> TilePlace
    requires base { base ≤ 1 }
    requires x { x < 2 ^ base }
    requires y { y < 2 ^ base }
    ensures { IsTile result }
{
    TilePlace {
        index: 0,
        interval: Interval {
            base,
            min: 16,
            max: 18,
        },
        x,
        y,
    }
}

// The desk of a tile of these members, once it is encoded. None where they are not the members of a tile in order.
fn encoded(
    alloc: Global,
    tile: &TilePlace,
    members: &[Member],
    rows: &Rows,
) -> Result<Option<Desk>, AllocError>
    requires { IsTile tile.now }
{
    let mut desk = Desk::new(alloc, 128)?;
    if !put_members(&mut desk.records, members) || !holds_members(&desk.records, tile) {
        return Ok(None);
    }
    encode(&mut desk, tile, rows);
    Ok(Some(desk))
}

const PLAIN: Kept = Kept {
    tag: 0,
    value: KeptValue::Plain,
};

const NO_TEXT: TextLengths = TextLengths {
    name: 0,
    house: 0,
    reference: 0,
};

const NO_MARKS: Marks = Marks {
    label: false,
    coast: false,
};

// A POI at (0, 0).
const POI: Member = Member {
    kind: EntityKind::Node,
    zoom: 17,
    layer: 0,
    marks: NO_MARKS,
    height: None,
    tags: &[PLAIN],
    lengths: NO_TEXT,
    text: b"",
    rings: &[(Role::Outer, &[(0, 0)])],
};

// A way of two places.
const WAY: Member = Member {
    kind: EntityKind::Way,
    rings: &[EAST],
    ..POI
};

// A relation of two blocks, the first with a hole.
const RELATION: Member = Member {
    kind: EntityKind::Relation,
    rings: &[GARDEN, HOLE, WEST],
    ..POI
};

const EAST: Ring = (Role::Outer, &[(0, 0), (0, 1000)]);

const WEST: Ring = (Role::Outer, &[(0, 0), (0, -2)]);

const FAR_EAST: Ring = (Role::Outer, &[(0, 0), (0, 1000), (0, 2000), (0, 3000)]);

const GARDEN: Ring = (Role::Outer, &[(0, 0), (0, 20), (10, 20), (10, 0), (0, 0)]);

const HOLE: Ring = (Role::Inner, &[(2, 2), (2, 3), (3, 3), (2, 2)]);

const SPRING: TextLengths = TextLengths {
    name: 6,
    house: 0,
    reference: 0,
};

// Members, and the bytes of their tile.
const TILES: [(&[Member], &[u8]); 18] = [
    // A name.
    (
        &[Member {
            lengths: SPRING,
            text: b"Spring",
            ..POI
        }],
        &[
            0, 0, 1, 0, 0, 0, 0x13, 0xf8, 0x8d, 0xc7, 0x68, 0x80, 0xaa, 0xea, 0xd5, 0, 0x51, 0,
            0x80, 6, 0x53, 0x70, 0x72, 0x69, 0x6e, 0x67,
        ],
    ),
    // A name, a house number, a layer and an elevation.
    (
        &[Member {
            layer: 2,
            height: Some(12),
            lengths: TextLengths {
                name: 6,
                house: 2,
                reference: 0,
            },
            text: b"Spring7b",
            ..POI
        }],
        &[
            0, 0, 1, 0, 0, 0, 0x17, 0xf8, 0x8d, 0xc7, 0x68, 0x80, 0xaa, 0xea, 0xd5, 0, 0x71, 0,
            0xe0, 6, 0x53, 0x70, 0x72, 0x69, 0x6e, 0x67, 2, 0x37, 0x62, 0x0c,
        ],
    ),
    // An elevation below the sea, and the lowest layer.
    (
        &[Member {
            layer: -5,
            height: Some(-64),
            ..POI
        }],
        &[
            0, 0, 1, 0, 0, 0, 0x0e, 0xf8, 0x8d, 0xc7, 0x68, 0x80, 0xaa, 0xea, 0xd5, 0, 1, 0, 0x20,
            0xc0, 0x40,
        ],
    ),
    // Values of one, two and four bytes, and a text.
    (
        &[Member {
            tags: &[Kept {
                tag: 0,
                value: KeptValue::Byte(-2),
            }],
            ..POI
        }],
        &[
            0, 0, 1, 0, 0, 0, 0x0d, 0xf8, 0x8d, 0xc7, 0x68, 0x80, 0xaa, 0xea, 0xd5, 0, 0x51, 0,
            0xfe, 0,
        ],
    ),
    (
        &[Member {
            tags: &[Kept {
                tag: 0,
                value: KeptValue::Short(300),
            }],
            ..POI
        }],
        &[
            0, 0, 1, 0, 0, 0, 0x0e, 0xf8, 0x8d, 0xc7, 0x68, 0x80, 0xaa, 0xea, 0xd5, 0, 0x51, 0, 1,
            0x2c, 0,
        ],
    ),
    (
        &[Member {
            tags: &[Kept {
                tag: 0,
                value: KeptValue::Int(-70000),
            }],
            ..POI
        }],
        &[
            0, 0, 1, 0, 0, 0, 0x10, 0xf8, 0x8d, 0xc7, 0x68, 0x80, 0xaa, 0xea, 0xd5, 0, 0x51, 0,
            0xff, 0xfe, 0xee, 0x90, 0,
        ],
    ),
    (
        &[Member {
            tags: &[Kept {
                tag: 0,
                value: KeptValue::Text { len: 3 },
            }],
            text: b"Alp",
            ..POI
        }],
        &[
            0, 0, 1, 0, 0, 0, 0x10, 0xf8, 0x8d, 0xc7, 0x68, 0x80, 0xaa, 0xea, 0xd5, 0, 0x51, 0, 3,
            0x41, 0x6c, 0x70, 0,
        ],
    ),
    // Fifteen tags, whose values stand behind all ids.
    (
        &[Member {
            tags: &[
                Kept {
                    tag: 0,
                    value: KeptValue::Plain,
                },
                Kept {
                    tag: 1,
                    value: KeptValue::Plain,
                },
                Kept {
                    tag: 2,
                    value: KeptValue::Plain,
                },
                Kept {
                    tag: 3,
                    value: KeptValue::Plain,
                },
                Kept {
                    tag: 4,
                    value: KeptValue::Plain,
                },
                Kept {
                    tag: 5,
                    value: KeptValue::Plain,
                },
                Kept {
                    tag: 6,
                    value: KeptValue::Plain,
                },
                Kept {
                    tag: 7,
                    value: KeptValue::Plain,
                },
                Kept {
                    tag: 8,
                    value: KeptValue::Plain,
                },
                Kept {
                    tag: 9,
                    value: KeptValue::Plain,
                },
                Kept {
                    tag: 10,
                    value: KeptValue::Plain,
                },
                Kept {
                    tag: 11,
                    value: KeptValue::Plain,
                },
                Kept {
                    tag: 127,
                    value: KeptValue::Byte(-2),
                },
                Kept {
                    tag: 128,
                    value: KeptValue::Short(300),
                },
                Kept {
                    tag: 4095,
                    value: KeptValue::Text { len: 3 },
                },
            ],
            text: b"Alp",
            ..POI
        }],
        &[
            0, 0, 1, 0, 0, 0, 0x23, 0xf8, 0x8d, 0xc7, 0x68, 0x80, 0xaa, 0xea, 0xd5, 0, 0x5f, 0, 1,
            2, 3, 4, 5, 6, 7, 8, 9, 0x0a, 0x0b, 0x7f, 0x80, 1, 0xff, 0x1f, 0xfe, 1, 0x2c, 3, 0x41,
            0x6c, 0x70, 0,
        ],
    ),
    // A garden with its label, in two sub-tiles.
    (
        &[Member {
            marks: Marks {
                label: true,
                coast: false,
            },
            rings: &[GARDEN],
            ..WAY
        }],
        &[
            0, 0, 0, 1, 0, 0, 0, 0x1a, 2, 0x20, 0x51, 0, 0x10, 5, 0x0a, 1, 5, 0xf8, 0x8d, 0xc7,
            0x68, 0x80, 0xaa, 0xea, 0xd5, 0, 0, 0x14, 0x0a, 0, 0, 0x54, 0x4a, 0,
        ],
    ),
    // A way that is not closed has no label.
    (
        &[Member {
            marks: Marks {
                label: true,
                coast: false,
            },
            ..WAY
        }],
        &[
            0, 0, 0, 1, 0, 0, 0, 0x13, 0, 0x20, 0x51, 0, 0, 1, 2, 0xf8, 0x8d, 0xc7, 0x68, 0x80,
            0xaa, 0xea, 0xd5, 0, 0, 0xe8, 7,
        ],
    ),
    // Four places: double delta takes fewer bytes.
    (
        &[Member {
            rings: &[FAR_EAST],
            ..WAY
        }],
        &[
            0, 0, 0, 1, 0, 0, 0, 0x17, 0, 0x20, 0x51, 0, 4, 1, 4, 0xf8, 0x8d, 0xc7, 0x68, 0x80,
            0xaa, 0xea, 0xd5, 0, 0, 0xe8, 7, 0, 0, 0, 0,
        ],
    ),
    // A name, a house number and a reference.
    (
        &[Member {
            lengths: TextLengths {
                name: 6,
                house: 2,
                reference: 2,
            },
            text: b"Spring7bA1",
            ..WAY
        }],
        &[
            0, 0, 0, 1, 0, 0, 0, 0x20, 0, 0x20, 0x51, 0, 0xe0, 6, 0x53, 0x70, 0x72, 0x69, 0x6e,
            0x67, 2, 0x37, 0x62, 2, 0x41, 0x31, 1, 2, 0xf8, 0x8d, 0xc7, 0x68, 0x80, 0xaa, 0xea,
            0xd5, 0, 0, 0xe8, 7,
        ],
    ),
    // A coast line has all bits.
    (
        &[Member {
            marks: Marks {
                label: false,
                coast: true,
            },
            ..WAY
        }],
        &[
            0, 0, 0, 1, 0, 0, 0, 0x13, 0xff, 0xff, 0x51, 0, 0, 1, 2, 0xf8, 0x8d, 0xc7, 0x68, 0x80,
            0xaa, 0xea, 0xd5, 0, 0, 0xe8, 7,
        ],
    ),
    // A ring with a hole, and two blocks.
    (
        &[Member {
            rings: &[GARDEN, HOLE],
            ..RELATION
        }],
        &[
            0, 0, 0, 1, 0, 0, 0, 0x28, 2, 0x20, 0x51, 0, 0, 2, 5, 0xf8, 0x8d, 0xc7, 0x68, 0x80,
            0xaa, 0xea, 0xd5, 0, 0, 0x14, 0x0a, 0, 0, 0x54, 0x4a, 0, 4, 0xf6, 0x8d, 0xc7, 0x68,
            0x82, 0xaa, 0xea, 0xd5, 0, 0, 1, 1, 0, 0x41, 0x41,
        ],
    ),
    (
        &[RELATION],
        &[
            0, 0, 0, 1, 0, 0, 0, 0x36, 6, 0x60, 0x51, 0, 8, 2, 2, 5, 0xf8, 0x8d, 0xc7, 0x68, 0x80,
            0xaa, 0xea, 0xd5, 0, 0, 0x14, 0x0a, 0, 0, 0x54, 0x4a, 0, 4, 0xf6, 0x8d, 0xc7, 0x68,
            0x82, 0xaa, 0xea, 0xd5, 0, 0, 1, 1, 0, 0x41, 0x41, 1, 2, 0xf8, 0x8d, 0xc7, 0x68, 0x80,
            0xaa, 0xea, 0xd5, 0, 0, 0x42,
        ],
    ),
    // A POI, a way and a relation.
    (
        &[
            Member {
                lengths: SPRING,
                text: b"Spring",
                ..POI
            },
            WAY,
            RELATION,
        ],
        &[
            0, 0, 1, 2, 0, 0, 0x13, 0xf8, 0x8d, 0xc7, 0x68, 0x80, 0xaa, 0xea, 0xd5, 0, 0x51, 0,
            0x80, 6, 0x53, 0x70, 0x72, 0x69, 0x6e, 0x67, 0x13, 0, 0x20, 0x51, 0, 0, 1, 2, 0xf8,
            0x8d, 0xc7, 0x68, 0x80, 0xaa, 0xea, 0xd5, 0, 0, 0xe8, 7, 0x36, 6, 0x60, 0x51, 0, 8, 2,
            2, 5, 0xf8, 0x8d, 0xc7, 0x68, 0x80, 0xaa, 0xea, 0xd5, 0, 0, 0x14, 0x0a, 0, 0, 0x54,
            0x4a, 0, 4, 0xf6, 0x8d, 0xc7, 0x68, 0x82, 0xaa, 0xea, 0xd5, 0, 0, 1, 1, 0, 0x41, 0x41,
            1, 2, 0xf8, 0x8d, 0xc7, 0x68, 0x80, 0xaa, 0xea, 0xd5, 0, 0, 0x42,
        ],
    ),
    // Several zoom levels: the first is below the minimum.
    (
        &[
            Member { zoom: 5, ..POI },
            POI,
            Member { zoom: 18, ..POI },
            Member { zoom: 16, ..WAY },
            Member { zoom: 18, ..WAY },
        ],
        &[
            1, 1, 1, 0, 1, 1, 0x24, 0xf8, 0x8d, 0xc7, 0x68, 0x80, 0xaa, 0xea, 0xd5, 0, 0x51, 0, 0,
            0xf8, 0x8d, 0xc7, 0x68, 0x80, 0xaa, 0xea, 0xd5, 0, 0x51, 0, 0, 0xf8, 0x8d, 0xc7, 0x68,
            0x80, 0xaa, 0xea, 0xd5, 0, 0x51, 0, 0, 0x13, 0, 0x20, 0x51, 0, 0, 1, 2, 0xf8, 0x8d,
            0xc7, 0x68, 0x80, 0xaa, 0xea, 0xd5, 0, 0, 0xe8, 7, 0x13, 0, 0x20, 0x51, 0, 0, 1, 2,
            0xf8, 0x8d, 0xc7, 0x68, 0x80, 0xaa, 0xea, 0xd5, 0, 0, 0xe8, 7,
        ],
    ),
    // No member.
    (&[], &[]),
];

#[test]
fn tiles_of_members(rt: HostRuntime) -> Result<(), Fail> {
    let rows = Rows::new(rt.alloc())?;
    let world = tile(0, 0, 0);
    for (members, bytes) in &TILES {
        let desk = encoded(rt.alloc(), &world, members, &rows)?;
        assert!(rt; desk.is_some(), "{bytes:?}");
        if let Some(desk) = desk {
            assert_eq!(rt; desk.out.bytes(), *bytes);
        }
    }
    Ok(())
}

const ACROSS: Member = Member {
    rings: &[(Role::Outer, &[(5, -7), (-5, 7)])],
    ..WAY
};

// The places lie outside the tile, and nothing is cut off.
#[test]
fn a_way_round_a_tile(rt: HostRuntime) -> Result<(), Fail> {
    let rows = Rows::new(rt.alloc())?;
    let south_east = tile(1, 1, 1);
    let desk = encoded(rt.alloc(), &south_east, &[ACROSS], &rows)?;
    assert!(rt; desk.is_some());
    if let Some(desk) = desk {
        assert_eq!(rt;
            desk.out.bytes(),
            [
                0, 0, 0, 1, 0, 0, 0, 0x0b, 0x80, 0, 0x51, 0, 0, 1, 2, 5, 0x47, 0x4a, 0x0e
            ]
            .as_slice()
        );
    }
    Ok(())
}

// What is not in order, and what is no member.
const NONE: [&[Member]; 9] = [
    &[WAY, POI],
    &[POI, Member { zoom: 16, ..POI }],
    &[WAY, Member { zoom: 5, ..WAY }],
    &[Member { zoom: 19, ..POI }],
    &[Member { layer: 6, ..POI }],
    &[Member {
        tags: &[Kept {
            tag: 4096,
            value: KeptValue::Plain,
        }],
        ..POI
    }],
    &[Member {
        rings: &[(Role::Outer, &[(90_000_001, 0)])],
        ..POI
    }],
    &[Member {
        rings: &[(Role::Outer, &[(0, 0)])],
        ..WAY
    }],
    &[Member {
        rings: &[HOLE, GARDEN],
        ..RELATION
    }],
];

#[test]
fn no_tiles(rt: HostRuntime) -> Result<(), Fail> {
    let rows = Rows::new(rt.alloc())?;
    let world = tile(0, 0, 0);
    for members in &NONE {
        assert!(rt; encoded(rt.alloc(), &world, members, &rows)?.is_none());
    }
    Ok(())
}
