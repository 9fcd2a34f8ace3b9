//! A tile of a node, a way and a relation of two blocks, and a desk at its room.

ghost use Rattle.std.specs.Prelude.{◌≤◌, ◌<◌};

use crate::desk::Desk;
use crate::head::{Head, TextSlot};
use crate::head_units::{TextLengths, head_unit};
use crate::records::Records;
use crate::units::{part_unit, point_unit};
use arrayvec::ArrayVec;
use mf_base::kept::{Kept, KeptValue};
use mf_base::kind::{EntityKind, Role};
use mf_base::place::Place;
use std::test::Fail;

const NAMED: TextLengths = TextLengths {
    name: 6,
    house: 0,
    reference: 0,
};

const NAMELESS: TextLengths = TextLengths {
    name: 0,
    house: 0,
    reference: 0,
};

// A head at the ends of its fields.
fn head_of(kind: EntityKind, id: u64) -> Head {
    let mut tags = ArrayVec::new();
    tags.push(Kept {
        tag: 65535,
        value: KeptValue::Byte(-128),
    });
    tags.push(Kept {
        tag: 0,
        value: KeptValue::Short(-32768),
    });
    tags.push(Kept {
        tag: 3,
        value: KeptValue::Int(i32::MIN),
    });
    tags.push(Kept {
        tag: 4095,
        value: KeptValue::Plain,
    });
    Head {
        kind,
        id,
        number: u64::MAX,
        weight: 12,
        zoom: 255,
        layer: -128,
        water: true,
        label: false,
        coast: true,
        height: Some(-1),
        tags,
    }
}

// Puts a unit, where there is room.
fn put(records: &mut Records, unit: &[u8; 16]) -> bool {
    if records.spare() == 0 {
        return false;
    }
    records.add_unit(unit);
    true
}

// Puts the units of a head.
fn put_head(records: &mut Records, head: &Head, texts: TextLengths) -> bool {
    for i in 0..10usize {
        if !put(records, &head_unit(head, texts, i)) {
            return false;
        }
    }
    true
}

// Puts a point on the equator.
fn put_point(records: &mut Records, node: u64, lon: i32) -> bool {
    put(records, &point_unit(node, Place { lat: 0, lon }))
}

// Puts a part of two points.
fn put_part(records: &mut Records, role: Role, node: u64) -> bool {
    put(records, &part_unit(role, 2)) && put_point(records, node, 1) && put_point(records, node, -1)
}

const SPRING: [u8; 16] = [83, 112, 114, 105, 110, 103, 0, 0, 0, 0, 0, 0, 0, 0, 0, 0];

// Puts a node with a name.
fn put_node(records: &mut Records, id: u64) -> bool {
    put_head(records, &head_of(EntityKind::Node, id), NAMED)
        && put(records, &SPRING)
        && put_point(records, id, 180_000_000)
        && records.close_record()
}

// Puts a way of one part.
fn put_way(records: &mut Records, id: u64) -> bool {
    put_head(records, &head_of(EntityKind::Way, id), NAMELESS)
        && put_part(records, Role::Outer, 4)
        && records.close_record()
}

// Puts a relation of two outer parts, the first with an inner one.
fn put_relation(records: &mut Records, id: u64) -> bool {
    put_head(records, &head_of(EntityKind::Relation, id), NAMELESS)
        && put_part(records, Role::Outer, 5)
        && put_part(records, Role::Inner, 6)
        && put_part(records, Role::Outer, 7)
        && records.close_record()
}

// How many parts a record has, and the id of the last point.
fn parts_of(records: &Records, i: u32) -> (u32, u64) {
    if i >= records.len() {
        return (0, 0);
    }
    let mut rings = records.view(i).rings();
    let mut last = 0;
    for count in 0..64u32 {
        match rings.next() {
            Some((_, mut points)) => {
                if let Some((node, _)) = points.next() {
                    last = node;
                }
            }
            None => return (count, last),
        }
    }
    (64, last)
}

#[test]
fn a_tile_is_loaded(rt: HostRuntime) -> Result<(), Fail> {
    let mut records = Records::new(rt.alloc(), 64)?;
    assert!(rt; put_node(&mut records, 1));
    assert!(rt; put_way(&mut records, 2));
    assert!(rt; put_relation(&mut records, 3));
    assert_eq!(rt; records.len(), 3);
    assert_eq!(rt; records.spare(), 64 - 12 - 13 - 19);
    assert_eq!(rt; parts_of(&records, 0), (0, 0));
    assert_eq!(rt; parts_of(&records, 1), (1, 4));
    assert_eq!(rt; parts_of(&records, 2), (3, 7));
    assert!(rt; records.len() >= 1);
    let view = records.view(0);
    assert!(rt; *view.head() == head_of(EntityKind::Node, 1));
    assert!(rt; view.text(TextSlot::Name) == Some(b"Spring".as_slice()));
    assert!(rt; view.text(TextSlot::House).is_none());
    assert_eq!(rt;
        view.point(),
        Some((
            1,
            Place {
                lat: 0,
                lon: 180_000_000
            }
        ))
    );
    records.clear();
    assert_eq!(rt; records.spare(), 64);
    assert_eq!(rt; records.len(), 0);
    Ok(())
}

#[test]
fn a_desk_has_its_room(rt: HostRuntime) -> Result<(), Fail> {
    let desk = Desk::new(rt.alloc(), 64)?;
    assert_eq!(rt; desk.records.spare(), 64);
    assert_eq!(rt; desk.records.len(), 0);
    assert_eq!(rt; desk.out.spare(), 16 * 64 + 256);
    assert!(rt; !desk.water);
    Ok(())
}

#[test]
fn a_desk_at_its_room(rt: HostRuntime) -> Result<(), Fail> {
    let mut less = Records::new(rt.alloc(), 11)?;
    assert!(rt; !put_node(&mut less, 1));
    assert_eq!(rt; less.spare(), 0);
    let mut just = Records::new(rt.alloc(), 12)?;
    assert!(rt; put_node(&mut just, 1));
    assert_eq!(rt; just.spare(), 0);
    assert!(rt; !put(&mut just, &SPRING));
    let mut more = Records::new(rt.alloc(), 13)?;
    assert!(rt; put_node(&mut more, 1));
    assert_eq!(rt; more.spare(), 1);
    assert!(rt; put(&mut more, &SPRING));
    assert!(rt; !more.close_record());
    assert_eq!(rt; more.loose().len(), 1);
    assert_eq!(rt; more.len(), 1);
    Ok(())
}

#[test]
fn a_record_is_changed(rt: HostRuntime) -> Result<(), Fail> {
    let mut records = Records::new(rt.alloc(), 32)?;
    assert!(rt; put_way(&mut records, 2));
    assert!(rt; records.loose().is_empty());
    assert!(rt; records.len() >= 1);
    records.loosen();
    assert_eq!(rt; records.len(), 0);
    assert!(rt; records.loose().len() >= 13);
    records.set_loose(10, &part_unit(Role::Inner, 2));
    assert!(rt; !records.close_record());
    assert!(rt; records.loose().len() >= 13);
    records.set_loose(10, &part_unit(Role::Outer, 1));
    assert!(rt; !records.close_record());
    assert!(rt; records.loose().len() >= 12);
    records.cut_loose(12);
    assert!(rt; records.close_record());
    assert_eq!(rt; parts_of(&records, 0), (1, 4));
    assert_eq!(rt; records.spare(), 20);
    Ok(())
}

// Begins an outer part, where the last record takes one.
fn begin_part(records: &mut Records) -> bool {
    if !records.loose().is_empty() || records.spare() == 0 || !records.takes_part(Role::Outer) {
        return false;
    }
    records.add_part(Role::Outer);
    true
}

// Puts a point, where the last record takes one.
fn grow(records: &mut Records, node: u64, place: Place) -> bool {
    if !records.loose().is_empty() || records.spare() == 0 || !records.takes_point() {
        return false;
    }
    records.add_point(node, place);
    true
}

// Sets number and weight, where there is a record.
fn number(records: &mut Records, number: u64, weight: u64) -> bool {
    if !records.loose().is_empty() || records.len() == 0 {
        return false;
    }
    records.set_feature(number, weight);
    true
}

// A unit of the first record, where it has so many.
fn unit_of(records: &Records, i: usize) -> Option<[u8; 16]> {
    if records.len() == 0 {
        return None;
    }
    match records.units(0).get(i) {
        Some(unit) => Some(*unit),
        None => None,
    }
}

#[test]
fn a_way_grows(rt: HostRuntime) -> Result<(), Fail> {
    let equator = Place { lat: 0, lon: -7 };
    let mut records = Records::new(rt.alloc(), 32)?;
    assert!(rt; put_head(&mut records, &head_of(EntityKind::Way, 2), NAMELESS));
    assert!(rt; records.loose().len() == 10);
    assert!(rt; records.close_record());
    assert!(rt; !records.takes_point());
    assert!(rt; !records.takes_part(Role::Inner));
    assert!(rt; begin_part(&mut records));
    assert!(rt; !records.takes_part(Role::Outer));
    assert!(rt; grow(&mut records, 4, equator));
    assert!(rt; grow(&mut records, 6, equator));
    assert!(rt; number(&mut records, 11, 13));
    assert_eq!(rt; records.spare(), 32 - 13);
    assert_eq!(rt; parts_of(&records, 0), (1, 4));
    assert!(rt; records.len() >= 1);
    assert!(rt; unit_of(&records, 10) == Some(part_unit(Role::Outer, 2)));
    assert!(rt; unit_of(&records, 12) == Some(point_unit(6, equator)));
    assert_eq!(rt; records.view(0).head().number, 11);
    assert_eq!(rt; records.view(0).head().weight, 13);
    assert!(rt; records.loose().is_empty());
    records.loosen();
    assert!(rt; records.close_record());
    assert!(rt; records.len() >= 1);
    assert_eq!(rt; records.view(0).head().number, 11);
    assert!(rt; grow(&mut records, 8, equator));
    assert_eq!(rt; records.spare(), 32 - 14);
    Ok(())
}

#[test]
fn a_node_and_a_relation_grow(rt: HostRuntime) -> Result<(), Fail> {
    let corner = Place {
        lat: i32::MIN,
        lon: i32::MAX,
    };
    let mut records = Records::new(rt.alloc(), 64)?;
    assert!(rt; !records.takes_point() && !records.takes_part(Role::Outer));
    assert!(rt; put_relation(&mut records, 3));
    assert!(rt; grow(&mut records, 77, corner));
    assert!(rt; records.len() >= 1);
    assert!(rt; unit_of(&records, 16) == Some(part_unit(Role::Outer, 3)));
    assert!(rt; unit_of(&records, 19) == Some(point_unit(77, corner)));
    assert!(rt; begin_part(&mut records));
    assert_eq!(rt; parts_of(&records, 0), (4, 7));
    assert!(rt; put_head(&mut records, &head_of(EntityKind::Node, 5), NAMELESS));
    assert!(rt; records.close_record());
    assert!(rt; !records.takes_part(Role::Outer));
    assert!(rt; grow(&mut records, 5, corner));
    assert!(rt; !records.takes_point());
    assert!(rt; records.len() >= 2);
    assert_eq!(rt; records.view(1).point(), Some((5, corner)));
    assert_eq!(rt; records.spare(), 64 - 21 - 11);
    Ok(())
}
