//! Blocks as bytes, and what is given of them: a line for each entity, and the first fault.

mod read;
mod refused;

use crate::entities::Entities;
use crate::entity::Entity;
use crate::node_view::NodeView;
use crate::order::Order;
use crate::relation::RelationView;
use crate::way::WayView;
use mf_base::tag_cursor::TagCursor;
use osm_model::faults::EntityFault;
use pbf_block::head::block_head;
use pbf_block::strings::Strings;
use read::READ;
use refused::{DENSE, GROUPS, NODES, RELATIONS, WAYS};
use std::alloc::{AllocError, Global};
use std::test::Fail;

// The StringTable of each block, of five strings: none, name, A, ref and B.
const STRINGS: &[u8] = b"\x0A\x13\x0A\x00\x0A\x04name\x0A\x01A\x0A\x03ref\x0A\x01B";

// What is given of a block: a line for each entity, the last fault that is told, and the fault before that.
#[derive(Debug, Drop, PartialEq)]
struct Seen {
    lines: String,
    fault: Option<EntityFault>,
    again: Option<EntityFault>,
}

// A string of a block.
fn text(bytes: &[u8]) -> &str {
    str::from_utf8(bytes).unwrap_or("no UTF-8")
}

// Tags, of which there are fewer than ten.
fn put_tags(alloc: Global, tags: TagCursor, line: &mut String) -> Result<(), AllocError> {
    let mut left = tags;
    for _ in 0..10 {
        if let Some((key, val)) = left.next() {
            line.push_str(&format!(in alloc; " {}={}", text(key), text(val))?)?;
        }
    }
    Ok(())
}

fn node_line(alloc: Global, node: NodeView) -> Result<String, AllocError> {
    let place = node.place();
    let mut line = format!(in alloc; "node {} at {}, {}", node.id(), place.lat, place.lon)?;
    put_tags(alloc, node.tags(), &mut line)?;
    line.push_str("\n")?;
    Ok(line)
}

// A way, of fewer than ten refs.
fn way_line(alloc: Global, way: WayView) -> Result<String, AllocError> {
    let mut line = format!(in alloc; "way {}:", way.id())?;
    let mut refs = way.refs();
    for _ in 0..10 {
        if let Some(id) = refs.next() {
            line.push_str(&format!(in alloc; " {id}")?)?;
        }
    }
    put_tags(alloc, way.tags(), &mut line)?;
    line.push_str("\n")?;
    Ok(line)
}

// A relation, of fewer than ten members.
fn relation_line(alloc: Global, relation: RelationView) -> Result<String, AllocError> {
    let mut line = format!(in alloc; "relation {}:", relation.id())?;
    let mut members = relation.members();
    for _ in 0..10 {
        if let Some(member) = members.next() {
            let role = text(member.role);
            line.push_str(&format!(in alloc; " {:?} {} as {role},", member.kind, member.id)?)?;
        }
    }
    put_tags(alloc, relation.tags(), &mut line)?;
    line.push_str("\n")?;
    Ok(line)
}

fn line_of(alloc: Global, entity: Entity) -> Result<String, AllocError> {
    match entity {
        Entity::Node(node) => node_line(alloc, node),
        Entity::Way(way) => way_line(alloc, way),
        Entity::Relation(relation) => relation_line(alloc, relation),
    }
}

// One line more, or a fault.
fn put_next(
    alloc: Global,
    left: &mut Entities,
    order: &mut Order,
    seen: &mut Seen,
) -> Result<(), AllocError> {
    match left.next(order) {
        Ok(None) => {}
        Ok(Some(entity)) => seen.lines.push_str(&line_of(alloc, entity)?)?,
        Err(fault) => {
            seen.again = seen.fault;
            seen.fault = Some(fault);
        }
    }
    Ok(())
}

// What is given of the entities of a block, of which there are fewer than nine.
fn given(alloc: Global, entities: Entities, order: &mut Order) -> Result<Seen, AllocError> {
    let mut seen = Seen {
        lines: String::new(alloc),
        fault: None,
        again: None,
    };
    let mut left = entities;
    for _ in 0..10 {
        put_next(alloc, &mut left, order, &mut seen)?;
    }
    Ok(seen)
}

// What is given of a block behind the entities that an order stands behind, or None where it has no strings, or more
// bytes than a test wants.
fn given_of(
    alloc: Global,
    block: &[u8],
    strings: &mut Strings,
    order: &mut Order,
) -> Result<Option<Seen>, AllocError> {
    if block.len() >= 1000 {
        return Ok(None);
    }
    let Ok(()) = strings.index(block) else {
        return Ok(None);
    };
    let Ok(head) = block_head(block) else {
        return Ok(None);
    };
    let entities = Entities::start(block, head, strings);
    Ok(Some(given(alloc, entities, order)?))
}

// The strings, and behind them the other fields of a block.
fn block_of(alloc: Global, fields: &[&[u8]]) -> Result<Vec<u8>, AllocError> {
    let mut block = Vec::new(alloc);
    block.extend_from_slice(STRINGS)?;
    for bytes in fields {
        block.extend_from_slice(bytes)?;
    }
    Ok(block)
}

// What is given of a block with these fields behind its strings.
fn answer(
    alloc: Global,
    fields: &[&[u8]],
    strings: &mut Strings,
    order: &mut Order,
) -> Result<Seen, Fail> {
    let block = block_of(alloc, fields)?;
    let seen = given_of(alloc, &block, strings, order)?;
    Ok(seen.ok_or("no strings")?)
}

// What is given of a whole block.
fn whole_answer(alloc: Global, block: &[u8], strings: &mut Strings) -> Result<Seen, Fail> {
    let seen = given_of(alloc, block, strings, &mut Order::new())?;
    Ok(seen.ok_or("no strings")?)
}

// Lines, one behind another.
fn joined(alloc: Global, lines: &[&str]) -> Result<String, AllocError> {
    let mut all = String::new(alloc);
    for line in lines {
        all.push_str(line)?;
    }
    Ok(all)
}

// What is given of a block up to its first fault, which is told again.
fn refused_as(alloc: Global, lines: &[&str], fault: EntityFault) -> Result<Seen, AllocError> {
    Ok(Seen {
        lines: joined(alloc, lines)?,
        fault: Some(fault),
        again: Some(fault),
    })
}

#[test]
fn all_entities(rt: HostRuntime) -> Result<(), Fail> {
    let mut strings = Strings::new(rt.alloc())?;
    for (fields, lines) in READ {
        let seen = answer(rt.alloc(), fields, &mut strings, &mut Order::new())?;
        let want = joined(rt.alloc(), lines)?;
        assert_eq!(rt; seen.fault, None, "of {fields:?}");
        assert_eq!(rt; seen.lines, want, "of {fields:?}");
    }
    Ok(())
}

#[test]
fn refused_groups(rt: HostRuntime) -> Result<(), Fail> {
    let mut strings = Strings::new(rt.alloc())?;
    for (fields, lines, fault) in GROUPS {
        let seen = answer(rt.alloc(), fields, &mut strings, &mut Order::new())?;
        let want = refused_as(rt.alloc(), lines, fault)?;
        assert_eq!(rt; seen, want, "of {fields:?}");
    }
    Ok(())
}

#[test]
fn refused_nodes(rt: HostRuntime) -> Result<(), Fail> {
    let mut strings = Strings::new(rt.alloc())?;
    for (fields, lines, fault) in NODES {
        let seen = answer(rt.alloc(), fields, &mut strings, &mut Order::new())?;
        let want = refused_as(rt.alloc(), lines, fault)?;
        assert_eq!(rt; seen, want, "of {fields:?}");
    }
    Ok(())
}

#[test]
fn refused_dense_nodes(rt: HostRuntime) -> Result<(), Fail> {
    let mut strings = Strings::new(rt.alloc())?;
    for (fields, lines, fault) in DENSE {
        let seen = answer(rt.alloc(), fields, &mut strings, &mut Order::new())?;
        let want = refused_as(rt.alloc(), lines, fault)?;
        assert_eq!(rt; seen, want, "of {fields:?}");
    }
    Ok(())
}

#[test]
fn refused_ways(rt: HostRuntime) -> Result<(), Fail> {
    let mut strings = Strings::new(rt.alloc())?;
    for (fields, lines, fault) in WAYS {
        let seen = answer(rt.alloc(), fields, &mut strings, &mut Order::new())?;
        let want = refused_as(rt.alloc(), lines, fault)?;
        assert_eq!(rt; seen, want, "of {fields:?}");
    }
    Ok(())
}

#[test]
fn refused_relations(rt: HostRuntime) -> Result<(), Fail> {
    let mut strings = Strings::new(rt.alloc())?;
    for (fields, lines, fault) in RELATIONS {
        let seen = answer(rt.alloc(), fields, &mut strings, &mut Order::new())?;
        let want = refused_as(rt.alloc(), lines, fault)?;
        assert_eq!(rt; seen, want, "of {fields:?}");
    }
    Ok(())
}

// Blocks that are read one behind another: what each has behind its strings, its lines and its fault.
const BLOCKS: [(&[&[u8]], &str, Option<EntityFault>); 8] = [
    // The node 5, the node 6, and the node 6 once more.
    (
        &[b"\x12\x08\x0A\x06\x08\x0A\x40\x00\x48\x00"],
        "node 5 at 0, 0\n",
        None,
    ),
    (
        &[b"\x12\x08\x0A\x06\x08\x0C\x40\x00\x48\x00"],
        "node 6 at 0, 0\n",
        None,
    ),
    (
        &[b"\x12\x08\x0A\x06\x08\x0C\x40\x00\x48\x00"],
        "",
        Some(EntityFault::OutOfOrder { last: 6, id: 6 }),
    ),
    // No entity; the way 2, and the node 7 behind it.
    (&[], "", None),
    (&[b"\x12\x04\x1A\x02\x08\x02"], "way 2:\n", None),
    (
        &[b"\x12\x08\x0A\x06\x08\x0E\x40\x00\x48\x00"],
        "",
        Some(EntityFault::KindOrder),
    ),
    // The relation 1, and the way 3 behind it.
    (&[b"\x12\x04\x22\x02\x08\x01"], "relation 1:\n", None),
    (
        &[b"\x12\x04\x1A\x02\x08\x03"],
        "",
        Some(EntityFault::KindOrder),
    ),
];

#[test]
fn block_behind_block(rt: HostRuntime) -> Result<(), Fail> {
    let mut strings = Strings::new(rt.alloc())?;
    let mut order = Order::new();
    for (fields, lines, fault) in BLOCKS {
        let seen = answer(rt.alloc(), fields, &mut strings, &mut order)?;
        assert_eq!(rt; seen.lines.as_str(), lines, "of {fields:?}");
        assert_eq!(rt; seen.fault, fault, "of {fields:?}");
    }
    Ok(())
}

// Whole blocks with their own strings, amenity and bench: the lines before the fault, and the fault.
const WHOLE: [(&[u8], &str, EntityFault); 5] = [
    // The id 5 twice, in dense nodes; the ids 0 and -1.
    (
        b"\x0A\x02\x0A\x00\x12\x0E\x12\x0C\x0A\x02\x0A\x00B\x02\x00\x00J\x02\x00\x00",
        "node 5 at 0, 0\n",
        EntityFault::OutOfOrder { last: 5, id: 5 },
    ),
    (
        b"\x0A\x12\x0A\x00\x0A\x07amenity\x0A\x05bench\x12\x10\x12\x0E\x0A\x01\x00B\x01\x00J\x01\x00R\x03\x01\x02\x00",
        "",
        EntityFault::OutOfOrder { last: 0, id: 0 },
    ),
    (
        b"\x0A\x12\x0A\x00\x0A\x07amenity\x0A\x05bench\x12\x10\x12\x0E\x0A\x01\x01B\x01\x00J\x01\x00R\x03\x01\x02\x00",
        "",
        EntityFault::OutOfOrder { last: 0, id: -1 },
    ),
    // A key with the index 3, of three strings; keys and values that end behind a key.
    (
        b"\x0A\x12\x0A\x00\x0A\x07amenity\x0A\x05bench\x12\x10\x12\x0E\x0A\x01\x02B\x01\x00J\x01\x00R\x03\x03\x02\x00",
        "",
        EntityFault::StringIndex,
    ),
    (
        b"\x0A\x12\x0A\x00\x0A\x07amenity\x0A\x05bench\x12\x10\x12\x0E\x0A\x01\x02B\x01\x00J\x01\x00R\x03\x01\x02\x01",
        "",
        EntityFault::KeyWithoutValue,
    ),
];

#[test]
fn whole_blocks(rt: HostRuntime) -> Result<(), Fail> {
    let mut strings = Strings::new(rt.alloc())?;
    for (block, lines, fault) in WHOLE {
        let seen = whole_answer(rt.alloc(), block, &mut strings)?;
        assert_eq!(rt; seen.lines.as_str(), lines, "of {block:?}");
        assert_eq!(rt; seen.fault, Some(fault), "of {block:?}");
    }
    Ok(())
}
