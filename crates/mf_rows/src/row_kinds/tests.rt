//! Each kind of rows at the ends of its fields.

use crate::kind::RowKind;
use crate::kinds::{
    FeatureRow, IndexRow, MemberRow, NodeRow, PointRow, RefRow, RelRow, ShapeRow, TileRow,
};
use std::cmp::Ordering;
use std::test::Fail;

const UNIT: [u8; 16] = [1, 2, 3, 4, 5, 6, 7, 8, 9, 10, 11, 12, 13, 14, 15, 16];

// Whether the row is put as these bytes, and they are read as the row.
fn both_ways<K: RowKind + PartialEq>(row: K, bytes: &[u8]) -> bool {
    if bytes.len() != K::WIDTH {
        return false;
    }
    let mut out = [0; 39];
    row.put(&mut out[..K::WIDTH]);
    &out[..K::WIDTH] == bytes && K::get(bytes) == row
}

#[test]
fn rows_at_the_ends_of_their_fields(rt: HostRuntime) -> Result<(), Fail> {
    assert!(rt;
        both_ways(
            NodeRow {
                node: u64::MAX,
                lat: i32::MIN,
                lon: i32::MAX,
            },
            &[
                255, 255, 255, 255, 255, 255, 255, 255, 128, 0, 0, 0, 127, 255, 255, 255,
            ],
        )
    );
    assert!(rt;
        both_ways(
            NodeRow {
                node: 1,
                lat: -1,
                lon: 0,
            },
            &[0, 0, 0, 0, 0, 0, 0, 1, 255, 255, 255, 255, 0, 0, 0, 0],
        )
    );
    assert!(rt;
        both_ways(
            RefRow {
                node: u64::MAX,
                way: 0,
                place: u32::MAX,
            },
            &[
                255, 255, 255, 255, 255, 255, 255, 255, 0, 0, 0, 0, 0, 0, 0, 0, 255, 255, 255, 255,
            ],
        )
    );
    assert!(rt;
        both_ways(
            PointRow {
                way: 0,
                place: u32::MAX,
                node: 1 << 32,
                lat: -2,
                lon: i32::MIN,
            },
            &[
                0, 0, 0, 0, 0, 0, 0, 0, 255, 255, 255, 255, 0, 0, 0, 1, 0, 0, 0, 0, 255, 255, 255,
                254, 128, 0, 0, 0,
            ],
        )
    );
    assert!(rt;
        both_ways(
            MemberRow {
                way: 1 << 56,
                relation: u64::MAX,
                member: 258,
                role: 255,
            },
            &[
                1, 0, 0, 0, 0, 0, 0, 0, 255, 255, 255, 255, 255, 255, 255, 255, 0, 0, 1, 2, 255,
            ],
        )
    );
    assert!(rt;
        both_ways(
            RelRow {
                relation: 3,
                member: u32::MAX,
                place: 0,
                role: 1,
                node: u64::MAX,
                lat: i32::MAX,
                lon: -1,
            },
            &[
                0, 0, 0, 0, 0, 0, 0, 3, 255, 255, 255, 255, 0, 0, 0, 0, 1, 255, 255, 255, 255, 255,
                255, 255, 255, 127, 255, 255, 255, 255, 255, 255, 255,
            ],
        )
    );
    assert!(rt;
        both_ways(
            FeatureRow {
                kind: 2,
                id: u64::MAX,
                place: 7,
                unit: UNIT,
            },
            &[
                2, 255, 255, 255, 255, 255, 255, 255, 255, 0, 0, 0, 7, 1, 2, 3, 4, 5, 6, 7, 8, 9,
                10, 11, 12, 13, 14, 15, 16,
            ],
        )
    );
    assert!(rt;
        both_ways(
            ShapeRow {
                number: 1 << 40,
                place: u32::MAX,
                unit: UNIT,
            },
            &[
                0, 0, 1, 0, 0, 0, 0, 0, 255, 255, 255, 255, 1, 2, 3, 4, 5, 6, 7, 8, 9, 10, 11, 12,
                13, 14, 15, 16,
            ],
        )
    );
    assert!(rt;
        both_ways(
            TileRow {
                interval: 255,
                y: 1,
                x: u32::MAX,
                class: 1,
                zoom: 21,
                number: u64::MAX,
                place: 2,
                unit: UNIT,
            },
            &[
                255, 0, 0, 0, 1, 255, 255, 255, 255, 1, 21, 255, 255, 255, 255, 255, 255, 255, 255,
                0, 0, 0, 2, 1, 2, 3, 4, 5, 6, 7, 8, 9, 10, 11, 12, 13, 14, 15, 16,
            ],
        )
    );
    assert!(rt;
        both_ways(
            IndexRow {
                interval: 7,
                y: u32::MAX,
                x: 0,
                water: 1,
                size: u64::MAX,
            },
            &[
                7, 255, 255, 255, 255, 0, 0, 0, 0, 1, 255, 255, 255, 255, 255, 255, 255, 255,
            ],
        )
    );
    Ok(())
}

// Rows of the least values: zeros, but for coordinates.
#[test]
fn least_rows(rt: HostRuntime) -> Result<(), Fail> {
    let node = NodeRow {
        node: 0,
        lat: i32::MIN,
        lon: i32::MIN,
    };
    assert!(rt; both_ways(node, &[0, 0, 0, 0, 0, 0, 0, 0, 128, 0, 0, 0, 128, 0, 0, 0]));
    let reference = RefRow {
        node: 0,
        way: 0,
        place: 0,
    };
    assert!(rt; both_ways(reference, &[0; 20]));
    let point = PointRow {
        way: 0,
        place: 0,
        node: 0,
        lat: i32::MIN,
        lon: i32::MIN,
    };
    assert!(rt;
        both_ways(
            point,
            &[
                0, 0, 0, 0, 0, 0, 0, 0, 0, 0, 0, 0, 0, 0, 0, 0, 0, 0, 0, 0, 128, 0, 0, 0, 128, 0,
                0, 0,
            ]
        )
    );
    let member = MemberRow {
        way: 0,
        relation: 0,
        member: 0,
        role: 0,
    };
    assert!(rt; both_ways(member, &[0; 21]));
    let relation = RelRow {
        relation: 0,
        member: 0,
        place: 0,
        role: 0,
        node: 0,
        lat: i32::MIN,
        lon: i32::MIN,
    };
    assert!(rt;
        both_ways(
            relation,
            &[
                0, 0, 0, 0, 0, 0, 0, 0, 0, 0, 0, 0, 0, 0, 0, 0, 0, 0, 0, 0, 0, 0, 0, 0, 0, 128, 0,
                0, 0, 128, 0, 0, 0,
            ]
        )
    );
    let unit = [0; 16];
    let feature = FeatureRow {
        kind: 0,
        id: 0,
        place: 0,
        unit,
    };
    assert!(rt; both_ways(feature, &[0; 29]));
    let shape = ShapeRow {
        number: 0,
        place: 0,
        unit,
    };
    assert!(rt; both_ways(shape, &[0; 28]));
    let tile = TileRow {
        interval: 0,
        y: 0,
        x: 0,
        class: 0,
        zoom: 0,
        number: 0,
        place: 0,
        unit,
    };
    assert!(rt; both_ways(tile, &[0; 39]));
    let index = IndexRow {
        interval: 0,
        y: 0,
        x: 0,
        water: 0,
        size: 0,
    };
    assert!(rt; both_ways(index, &[0; 18]));
    Ok(())
}

// Rows of the greatest values: 255 in each byte, but for coordinates.
#[test]
fn greatest_rows(rt: HostRuntime) -> Result<(), Fail> {
    let node = NodeRow {
        node: u64::MAX,
        lat: i32::MAX,
        lon: i32::MAX,
    };
    assert!(rt;
        both_ways(
            node,
            &[
                255, 255, 255, 255, 255, 255, 255, 255, 127, 255, 255, 255, 127, 255, 255, 255,
            ]
        )
    );
    let reference = RefRow {
        node: u64::MAX,
        way: u64::MAX,
        place: u32::MAX,
    };
    assert!(rt; both_ways(reference, &[255; 20]));
    let point = PointRow {
        way: u64::MAX,
        place: u32::MAX,
        node: u64::MAX,
        lat: i32::MAX,
        lon: i32::MAX,
    };
    assert!(rt;
        both_ways(
            point,
            &[
                255, 255, 255, 255, 255, 255, 255, 255, 255, 255, 255, 255, 255, 255, 255, 255,
                255, 255, 255, 255, 127, 255, 255, 255, 127, 255, 255, 255,
            ]
        )
    );
    let member = MemberRow {
        way: u64::MAX,
        relation: u64::MAX,
        member: u32::MAX,
        role: 255,
    };
    assert!(rt; both_ways(member, &[255; 21]));
    let relation = RelRow {
        relation: u64::MAX,
        member: u32::MAX,
        place: u32::MAX,
        role: 255,
        node: u64::MAX,
        lat: i32::MAX,
        lon: i32::MAX,
    };
    assert!(rt;
        both_ways(
            relation,
            &[
                255, 255, 255, 255, 255, 255, 255, 255, 255, 255, 255, 255, 255, 255, 255, 255,
                255, 255, 255, 255, 255, 255, 255, 255, 255, 127, 255, 255, 255, 127, 255, 255,
                255,
            ]
        )
    );
    let unit = [255; 16];
    let feature = FeatureRow {
        kind: 255,
        id: u64::MAX,
        place: u32::MAX,
        unit,
    };
    assert!(rt; both_ways(feature, &[255; 29]));
    let shape = ShapeRow {
        number: u64::MAX,
        place: u32::MAX,
        unit,
    };
    assert!(rt; both_ways(shape, &[255; 28]));
    let tile = TileRow {
        interval: 255,
        y: u32::MAX,
        x: u32::MAX,
        class: 255,
        zoom: 255,
        number: u64::MAX,
        place: u32::MAX,
        unit,
    };
    assert!(rt; both_ways(tile, &[255; 39]));
    let index = IndexRow {
        interval: 255,
        y: u32::MAX,
        x: u32::MAX,
        water: 255,
        size: u64::MAX,
    };
    assert!(rt; both_ways(index, &[255; 18]));
    Ok(())
}

// How the keys of two rows stand to one another, by their bytes.
fn keys<K: RowKind>(a: K, b: K) -> Ordering {
    let mut first = [0; 39];
    let mut second = [0; 39];
    if K::KEY > K::WIDTH || K::WIDTH > 39 {
        return Ordering::Equal;
    }
    a.put(&mut first[..K::WIDTH]);
    b.put(&mut second[..K::WIDTH]);
    first[..K::KEY].cmp(&second[..K::KEY])
}

// A row of a node that stands at these coordinates.
fn node_at(node: u64, lat: i32, lon: i32) -> NodeRow {
    NodeRow { node, lat, lon }
}

// A row of a point with this key, south and west of the corner.
fn point_of(way: u64, place: u32, lat: i32) -> PointRow {
    PointRow {
        way,
        place,
        node: 9,
        lat,
        lon: -1,
    }
}

// A row of a tile with this key.
fn tile_of(y: u32, x: u32, class: u8, zoom: u8, number: u64, place: u32) -> TileRow {
    TileRow {
        interval: 1,
        y,
        x,
        class,
        zoom,
        number,
        place,
        unit: UNIT,
    }
}

// The first number that differs decides, also where its lowest byte is less; places that are negative decide nothing.
#[test]
fn keys_in_order(rt: HostRuntime) -> Result<(), Fail> {
    assert!(rt; keys(node_at(255, 1, 1), node_at(256, -1, -1)) == Ordering::Less);
    assert!(rt; keys(node_at(7, -1, -2), node_at(7, 1, 2)) == Ordering::Equal);
    assert!(rt; keys(node_at(7, i32::MIN, 0), node_at(7, i32::MAX, 0)) == Ordering::Equal);
    assert!(rt; keys(node_at(u64::MAX, 0, 0), node_at(1, 0, 0)) == Ordering::Greater);
    assert!(rt; keys(point_of(1, u32::MAX, 5), point_of(2, 0, -5)) == Ordering::Less);
    assert!(rt; keys(point_of(3, 255, -90), point_of(3, 256, -91)) == Ordering::Less);
    assert!(rt; keys(point_of(3, 4, -90), point_of(3, 4, 90)) == Ordering::Equal);
    assert!(rt; keys(tile_of(1, 65535, 1, 21, 9, 9), tile_of(2, 0, 0, 0, 0, 0)) == Ordering::Less);
    assert!(rt; keys(tile_of(1, 255, 1, 21, 9, 9), tile_of(1, 256, 0, 0, 0, 0)) == Ordering::Less);
    assert!(rt; keys(tile_of(1, 1, 0, 21, 9, 9), tile_of(1, 1, 1, 0, 0, 0)) == Ordering::Less);
    assert!(rt; keys(tile_of(1, 1, 1, 5, 9, 9), tile_of(1, 1, 1, 6, 0, 0)) == Ordering::Less);
    assert!(rt; keys(tile_of(1, 1, 1, 5, 511, 9), tile_of(1, 1, 1, 5, 512, 0)) == Ordering::Less);
    assert!(rt; keys(tile_of(1, 1, 1, 5, 9, 10), tile_of(1, 1, 1, 5, 9, 9)) == Ordering::Greater);
    Ok(())
}
