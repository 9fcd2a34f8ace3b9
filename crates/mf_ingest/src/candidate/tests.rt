//! Nodes, ways and relations as bytes, and what is described of each.

use super::describe;
use crate::front::Described;
use osm_entity::entities::Entities;
use osm_entity::order::Order;
use pbf_block::head::block_head;
use pbf_block::strings::Strings;
use std::alloc::{AllocError, Global};
use std::test::Fail;
use tag_mapping::file::read_mapping;
use tag_mapping::mapping::Mapping;

const MAPPING: &[u8] = b"poi = [
    {key = 'amenity', value = 'bench', zoom = 5},
    {key = 'capacity', value = '%b', zoom = 17},
    {key = 'operator', value = '%s', zoom = 17},
]
way = [
    {key = 'highway', value = 'path', zoom = 12},
    {key = 'building', value = 'yes', zoom = 14, label = true},
]";

// The bytes of a block with one entity, and what is described of it.
const ENTITIES: [(&[&[u8]], Option<&str>); 13] = [
    // A bench, with no name.
    (
        &[
            b"\x0A\x12\x0A\x00\x0A\x07amenity\x0A\x05bench\x12\x0E\x0A\x0C\x08\x02\x12\x01\x01\x1A\x01\x02@",
            b"\x00H\x00",
        ],
        Some("Node 1 zoom 5 layer 0 false false false height None 0:Plain"),
    ),
    // With a name.
    (
        &[
            b"\x0A \x0A\x00\x0A\x07amenity\x0A\x04name\x0A\x05bench\x0A\x06Spring\x12\x10\x0A\x0E\x08\x02\x12",
            b"\x02\x01\x02\x1A\x02\x03\x04@\x00H\x00",
        ],
        Some("Node 1 zoom 5 layer 0 false false false height None 0:Plain Name=Spring"),
    ),
    // With a height and a layer.
    (
        &[
            b"\x0A(\x0A\x00\x0A\x07amenity\x0A\x03ele\x0A\x05layer\x0A\x05bench\x0A\x05+12.5\x0A\x012\x12\x12",
            b"\x0A\x10\x08\x02\x12\x03\x01\x02\x03\x1A\x03\x04\x05\x06@\x00H\x00",
        ],
        Some("Node 1 zoom 5 layer 2 false false false height Some(12) 0:Plain"),
    ),
    // A value of one byte.
    (
        &[
            b"\x0A\x10\x0A\x00\x0A\x08capacity\x0A\x02-2\x12\x0E\x0A\x0C\x08\x02\x12\x01\x01\x1A\x01\x02@\x00H",
            b"\x00",
        ],
        Some("Node 1 zoom 17 layer 0 false false false height None 1:Byte(-2)"),
    ),
    // A value that is a text.
    (
        &[
            b"\x0A\x11\x0A\x00\x0A\x08operator\x0A\x03Alp\x12\x0E\x0A\x0C\x08\x02\x12\x01\x01\x1A\x01\x02@\x00",
            b"H\x00",
        ],
        Some("Node 1 zoom 17 layer 0 false false false height None 2:Text { len: 3 } Tag(0)=Alp"),
    ),
    // No value is readable.
    (
        &[
            b"\x0A\x1B\x0A\x00\x0A\x08operator\x0A\x08capacity\x0A\x03129\x12\x10\x0A\x0E\x08\x02\x12\x02\x01",
            b"\x02\x1A\x02\x00\x03@\x00H\x00",
        ],
        None,
    ),
    // Texts by their slots; an empty name, and a reference of a node, are none.
    (
        &[
            b"\x0A\x5C\x0A\x00\x0A\x08operator\x0A\x08capacity\x0A\x07amenity\x0A\x04name\x0A\x03ref\x0A\x10ad",
            b"dr:housenumber\x0A\x03ele\x0A\x03Alp\x0A\x017\x0A\x05bench\x0A\x02A1\x0A\x0322a\x0A\x01x\x12\x1A",
            b"\x0A\x18\x08\x02\x12\x07\x01\x02\x03\x04\x05\x06\x07\x1A\x07\x08\x09\x0A\x00\x0B\x0C\x0D@\x00H",
            b"\x00",
        ],
        Some(
            "Node 1 zoom 5 layer 0 false false false height None 0:Plain 1:Byte(7) 2:Text { len: 3 } House=22a Tag(2)=Alp",
        ),
    ),
    // A way with a reference; its elevation counts for nothing.
    (
        &[
            b"\x0A-\x0A\x00\x0A\x07highway\x0A\x03ref\x0A\x04name\x0A\x03ele\x0A\x04path\x0A\x02A1\x0A\x03Way",
            b"\x0A\x013\x12\x10\x1A\x0E\x08\x02\x12\x04\x01\x02\x03\x04\x1A\x04\x05\x06\x07\x08",
        ],
        Some("Way 2 zoom 12 layer 0 false false false height None 0:Plain Name=Way Reference=A1"),
    ),
    // An entry of nodes is none of ways.
    (
        &[
            b"\x0A\x12\x0A\x00\x0A\x07amenity\x0A\x05bench\x12\x0A\x1A\x08\x08\x02\x12\x01\x01\x1A\x01\x02",
        ],
        None,
    ),
    // Multipolygons, by the first tag with their key.
    (
        &[
            b"\x0A-\x0A\x00\x0A\x04type\x0A\x08building\x0A\x03ref\x0A\x0Cmultipolygon\x0A\x03yes\x0A\x01B\x12",
            b"\x0E\x22\x0C\x08\x03\x12\x03\x01\x02\x03\x1A\x03\x04\x05\x06",
        ],
        Some("Relation 3 zoom 14 layer 0 false true false height None 1:Plain Reference=B"),
    ),
    (
        &[
            b"\x0A,\x0A\x00\x0A\x08building\x0A\x04type\x0A\x03yes\x0A\x0Cmultipolygon\x0A\x05route\x12\x0E",
            b"\x22\x0C\x08\x03\x12\x03\x01\x02\x02\x1A\x03\x03\x04\x05",
        ],
        Some("Relation 3 zoom 14 layer 0 false true false height None 1:Plain"),
    ),
    (
        &[
            b"\x0A,\x0A\x00\x0A\x04type\x0A\x08building\x0A\x05route\x0A\x0Cmultipolygon\x0A\x03yes\x12\x0E",
            b"\x22\x0C\x08\x03\x12\x03\x01\x01\x02\x1A\x03\x03\x04\x05",
        ],
        None,
    ),
    (
        &[
            b"\x0A\x11\x0A\x00\x0A\x08building\x0A\x03yes\x12\x0A\x22\x08\x08\x03\x12\x01\x01\x1A\x01\x02",
        ],
        None,
    ),
];

// What is described of the first entity of a block, which has fewer bytes than a test wants.
fn first<'a>(mapping: &Mapping, block: &'a [u8], strings: &mut Strings) -> Option<Described<'a>> {
    if block.len() >= 1000 {
        return None;
    }
    let Ok(()) = strings.index(block) else {
        return None;
    };
    let Ok(head) = block_head(block) else {
        return None;
    };
    let mut entities = Entities::start(block, head, strings);
    match entities.next(&mut Order::new()) {
        Ok(Some(entity)) => describe(mapping, entity, block),
        _ => None,
    }
}

// A head and its texts as a line.
fn line_of(alloc: Global, described: &Described) -> Result<String, AllocError> {
    let head = &described.head;
    let mut line = format!(in alloc;
        "{:?} {} zoom {} layer {} {} {} {} height {:?}",
        head.kind, head.id, head.zoom, head.layer, head.water, head.label, head.coast, head.height
    )?;
    for kept in &head.tags {
        line.push_str(&format!(in alloc; " {}:{:?}", kept.tag, kept.value)?)?;
    }
    let block = described.texts.block;
    for span in &described.texts.spans {
        let start = span.start as usize;
        let text = block.get(start..start + span.len as usize);
        let text = str::from_utf8(text.unwrap_or(b"")).unwrap_or("no UTF-8");
        line.push_str(&format!(in alloc; " {:?}={text}", span.slot)?)?;
    }
    Ok(line)
}

// Bytes, one behind another.
fn joined(alloc: Global, pieces: &[&[u8]]) -> Result<Vec<u8>, AllocError> {
    let mut all = Vec::new(alloc);
    for bytes in pieces {
        all.extend_from_slice(bytes)?;
    }
    Ok(all)
}

#[test]
fn entities_are_described(rt: HostRuntime) -> Result<(), Fail> {
    let mapping = read_mapping(rt.alloc(), MAPPING)?;
    let mut strings = Strings::new(rt.alloc())?;
    for (pieces, want) in ENTITIES {
        let block = joined(rt.alloc(), pieces)?;
        match first(&mapping, &block, &mut strings) {
            Some(described) => {
                assert_eq!(rt; Some(line_of(rt.alloc(), &described)?.as_str()), want);
            }
            None => assert_eq!(rt; None, want),
        }
    }
    Ok(())
}
