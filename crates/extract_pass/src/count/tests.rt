//! Whole extracts as bytes: what they have, or their first fault.

ghost use Rattle.std.specs.Prelude.{◌<◌};

use super::{Counted, count_extract};
use crate::counts::Counts;
use crate::fault::PassFault;
use mf_base::place::Rect;
use mf_edge::{Block, MemSource, ReadSource, Source, Stream, SureSource};
use osm_model::faults::{BlockFault, EntityFault, FrameFault, InputCode, InputFault};
use pbf_block::strings::Strings;
use std::alloc::{AllocError, Global};
use std::test::Fail;

// The room of a block: the longest Blob.
const ROOM: usize = 33_554_432;

// A header without a box.
const HEADER: &[u8] = b"\0\0\0\x0D\x0A\x09OSMHeader\x18\x02\x0A\0";

// Headers with a box: the first and the other.
const BOXED: &[u8] =
    b"\0\0\0\x0D\x0A\x09OSMHeader\x18\x10\x0A\x0E\x0A\x0C\x08\xD0\x0F\x10\xA0\x1F\x18\xC0>\x20\xF0.";

const OTHER_BOXED: &[u8] =
    b"\0\0\0\x0D\x0A\x09OSMHeader\x18\x10\x0A\x0E\x0A\x0C\x08\x90N\x10\xE0]\x18\x80}\x20\xB0m";

// A blob of a type that is passed over.
const PASSED: &[u8] = b"\0\0\0\x05\x0A\x01X\x18\x02\x0A\0";

// Nodes 1, plain, and 2 and 3, dense.
const NODES: &[u8] =
    b"\0\0\0\x0B\x0A\x07OSMData\x18\x20\x0A\x1E\x0A\x02\x0A\0\x12\x08\x0A\x06\x08\x02@\0H\0\
    \x12\x0E\x12\x0C\x0A\x02\x04\x02B\x02\0\0J\x02\0\0";

// Ways 4 and 5.
const WAYS: &[u8] =
    b"\0\0\0\x0B\x0A\x07OSMData\x18\x10\x0A\x0E\x0A\x02\x0A\0\x12\x08\x1A\x02\x08\x04\x1A\x02\x08\x05";

// Relation 6.
const RELATION: &[u8] =
    b"\0\0\0\x0B\x0A\x07OSMData\x18\x0C\x0A\x0A\x0A\x02\x0A\0\x12\x04\"\x02\x08\x06";

// Node 7, way 8 and relation 9, each in a group of its own.
const MIXED: &[u8] =
    b"\0\0\0\x0B\x0A\x07OSMData\x18\x1C\x0A\x1A\x0A\x02\x0A\0\x12\x08\x0A\x06\x08\x0E@\0H\0\
    \x12\x04\x1A\x02\x08\x08\x12\x04\"\x02\x08\x09";

// A block without a group.
const BARE: &[u8] = b"\0\0\0\x0B\x0A\x07OSMData\x18\x06\x0A\x04\x0A\x02\x0A\0";

// Headers with a required feature that is not known, and with a box whose sides cross.
const UNKNOWN: &[u8] = b"\0\0\0\x0D\x0A\x09OSMHeader\x18\x05\x0A\x03\"\x01X";

const CROSSED: &[u8] =
    b"\0\0\0\x0D\x0A\x09OSMHeader\x18\x10\x0A\x0E\x0A\x0C\x08\xA0\x1F\x10\xD0\x0F\x18\xC0>\x20\xF0.";

// Blocks without a StringTable, and with a string that is no text.
const NO_STRINGS: &[u8] =
    b"\0\0\0\x0B\x0A\x07OSMData\x18\x0C\x0A\x0A\x12\x08\x0A\x06\x08\x02@\0H\0";

const BAD_TEXT: &[u8] = b"\0\0\0\x0B\x0A\x07OSMData\x18\x09\x0A\x07\x0A\x05\x0A\0\x0A\x01\xFF";

// A block with plain and dense nodes in one group.
const SKEWED: &[u8] =
    b"\0\0\0\x0B\x0A\x07OSMData\x18\x1B\x0A\x19\x0A\x02\x0A\0\x12\x13\x0A\x06\x08\x08@\0H\0\
    \x12\x09\x0A\x01\x0AB\x01\0J\x01\0";

// The boxes of the two headers, and one of the words.
const BOX: Rect = Rect {
    min_lat: 3,
    min_lon: 1,
    max_lat: 4,
    max_lon: 2,
};

const OTHER_BOX: Rect = Rect {
    min_lat: 7,
    min_lon: 5,
    max_lat: 8,
    max_lon: 6,
};

const WORDS: Rect = Rect {
    min_lat: -4,
    min_lon: -3,
    max_lat: -2,
    max_lon: -1,
};

// Blobs, the box of the words, how many nodes, ways and relations they have, and the box that is known.
const COUNTED: [(&[&[u8]], Option<Rect>, [u64; 3], Option<Rect>); 12] = [
    (&[], None, [0, 0, 0], None),
    (&[PASSED], None, [0, 0, 0], None),
    (&[HEADER], None, [0, 0, 0], None),
    (&[BARE, BARE], None, [0, 0, 0], None),
    (
        &[HEADER, NODES, PASSED, WAYS, RELATION],
        None,
        [3, 2, 1],
        None,
    ),
    (&[NODES, MIXED], None, [4, 1, 1], None),
    (&[MIXED, BARE, PASSED], None, [1, 1, 1], None),
    // Of two boxes the first is known, wherever it stands.
    (&[BOXED, NODES], None, [3, 0, 0], Some(BOX)),
    (
        &[HEADER, BOXED, WAYS, OTHER_BOXED],
        None,
        [0, 2, 0],
        Some(BOX),
    ),
    (
        &[RELATION, OTHER_BOXED, BOXED],
        None,
        [0, 0, 1],
        Some(OTHER_BOX),
    ),
    // The box of the words comes before all.
    (&[NODES], Some(WORDS), [3, 0, 0], Some(WORDS)),
    (&[BOXED, MIXED], Some(WORDS), [1, 1, 1], Some(WORDS)),
];

// What is counted of a source.
fn answer_of<S: Source>(
    alloc: Global,
    source: &mut S,
    words: Option<Rect>,
) -> Result<Result<Counted, PassFault>, AllocError> {
    let mut block = Block::new(alloc, ROOM)?;
    let mut strings = Strings::new(alloc)?;
    let mut stream = Stream::new(source);
    Ok(count_extract(&mut stream, &mut block, &mut strings, words))
}

// What is counted of blobs in pieces of so many bytes.
fn answer_in_pieces(
    alloc: Global,
    blobs: &[&[u8]],
    piece: usize,
    words: Option<Rect>,
) -> Result<Result<Counted, PassFault>, AllocError>
    requires { 0 < piece }
{
    let bytes = blobs.concat(alloc)?;
    let mut source = SureSource::new(alloc, &bytes, piece)?;
    answer_of(alloc, &mut source, words)
}

fn counted(numbers: [u64; 3], bounds: Option<Rect>) -> Counted {
    let [nodes, ways, relations] = numbers;
    Counted {
        counts: Counts {
            nodes,
            ways,
            relations,
        },
        bounds,
    }
}

#[test]
fn what_is_counted(rt: HostRuntime) -> Result<(), Fail> {
    for (blobs, words, numbers, bounds) in COUNTED {
        for piece in [1, 7, 1000] {
            assert_eq!(rt;
                answer_in_pieces(rt.alloc(), blobs, piece, words)?,
                Ok(counted(numbers, bounds)),
                "of {blobs:?} in pieces of {piece}"
            );
        }
    }
    Ok(())
}

// The same of a reader, which does not tell its bytes.
#[test]
fn what_is_counted_of_a_reader(rt: HostRuntime) -> Result<(), Fail> {
    for (blobs, words, numbers, bounds) in COUNTED {
        let bytes = blobs.concat(rt.alloc())?;
        let mut source = ReadSource::new(bytes.as_slice());
        assert_eq!(rt;
            answer_of(rt.alloc(), &mut source, words)?,
            Ok(counted(numbers, bounds)),
            "of {blobs:?}"
        );
    }
    Ok(())
}

// Blobs, the place of the blob that has the first fault, and the fault.
const FAULTS: [(&[&[u8]], u64, InputCode); 21] = [
    // The steps of a blob, a HeaderBlock, a PrimitiveBlock and an entity, at the first blob.
    (
        &[b"\0"],
        0,
        InputCode::Frame(FrameFault::Truncated { have: 1 }),
    ),
    (&[UNKNOWN], 0, InputCode::Block(BlockFault::RequiredFeature)),
    (&[CROSSED], 0, InputCode::Block(BlockFault::BadBox)),
    (&[NO_STRINGS], 0, InputCode::Block(BlockFault::NoStrings)),
    (
        &[BAD_TEXT],
        0,
        InputCode::Block(BlockFault::NotText { index: 1 }),
    ),
    (&[SKEWED], 0, InputCode::Entity(EntityFault::MixedGroup)),
    // The same at a later blob.
    (
        &[HEADER, NODES, b"\0"],
        66,
        InputCode::Frame(FrameFault::Truncated { have: 1 }),
    ),
    (
        &[NODES, UNKNOWN],
        47,
        InputCode::Block(BlockFault::RequiredFeature),
    ),
    (&[BOXED, CROSSED], 33, InputCode::Block(BlockFault::BadBox)),
    (
        &[BOXED, NODES, NO_STRINGS],
        80,
        InputCode::Block(BlockFault::NoStrings),
    ),
    (
        &[NODES, PASSED, BAD_TEXT],
        58,
        InputCode::Block(BlockFault::NotText { index: 1 }),
    ),
    (
        &[NODES, SKEWED],
        47,
        InputCode::Entity(EntityFault::MixedGroup),
    ),
    // The order goes on from block to block, whatever stands between.
    (
        &[NODES, NODES],
        47,
        InputCode::Entity(EntityFault::OutOfOrder { last: 3, id: 1 }),
    ),
    (
        &[NODES, WAYS, HEADER, WAYS],
        97,
        InputCode::Entity(EntityFault::OutOfOrder { last: 5, id: 4 }),
    ),
    (
        &[RELATION, RELATION],
        27,
        InputCode::Entity(EntityFault::OutOfOrder { last: 6, id: 6 }),
    ),
    (
        &[WAYS, NODES],
        31,
        InputCode::Entity(EntityFault::KindOrder),
    ),
    (
        &[RELATION, PASSED, WAYS],
        38,
        InputCode::Entity(EntityFault::KindOrder),
    ),
    (
        &[MIXED, BARE, WAYS],
        64,
        InputCode::Entity(EntityFault::KindOrder),
    ),
    // The first of two faults.
    (
        &[NO_STRINGS, b"\0"],
        0,
        InputCode::Block(BlockFault::NoStrings),
    ),
    (
        &[NODES, NODES, CROSSED],
        47,
        InputCode::Entity(EntityFault::OutOfOrder { last: 3, id: 1 }),
    ),
    (
        &[UNKNOWN, SKEWED],
        0,
        InputCode::Block(BlockFault::RequiredFeature),
    ),
];

#[test]
fn the_first_fault(rt: HostRuntime) -> Result<(), Fail> {
    for (blobs, at, code) in FAULTS {
        for piece in [1, 7, 1000] {
            assert_eq!(rt;
                answer_in_pieces(rt.alloc(), blobs, piece, None)?,
                Err(PassFault::Input(InputFault { at, code })),
                "of {blobs:?} in pieces of {piece}"
            );
        }
    }
    Ok(())
}

// What is counted of blobs in pieces of one byte, where the read of this number fails.
fn answer_to_a_failure(
    alloc: Global,
    blobs: &[&[u8]],
    read: u64,
) -> Result<Result<Counted, PassFault>, AllocError> {
    let bytes = blobs.concat(alloc)?;
    let mut source = MemSource::new(alloc, &bytes, 1, &[read])?;
    answer_of(alloc, &mut source, None)
}

// The blobs have 33, 47, 11 and 31 bytes, each of which is one read, and the end of the input is one more.
#[test]
fn a_read_fails_in_each_place(rt: HostRuntime) -> Result<(), Fail> {
    for read in 1..124 {
        assert_eq!(rt;
            answer_to_a_failure(rt.alloc(), &[BOXED, NODES, PASSED, WAYS], read)?,
            Err(PassFault::Read),
            "at {read}"
        );
    }
    Ok(())
}

// A fault of the input comes before that of a read behind it, which is not made.
#[test]
fn a_read_fails_behind_a_fault(rt: HostRuntime) -> Result<(), Fail> {
    let told = Err(PassFault::Input(InputFault {
        at: 47,
        code: InputCode::Block(BlockFault::NoStrings),
    }));
    assert_eq!(rt;
        answer_to_a_failure(rt.alloc(), &[NODES, NO_STRINGS], 75)?,
        told
    );
    assert_eq!(rt;
        answer_to_a_failure(rt.alloc(), &[NODES, NO_STRINGS], 74)?,
        Err(PassFault::Read)
    );
    Ok(())
}
