//! Whole inputs as bytes: the rows of their parts, their box, or their first fault; and devices that fail.

ghost use Rattle.std.specs.Prelude.{◌≡◌, ◌<◌, codes};
ghost use Rattle.mf_edge.specs.Spill.{IsNameOf};

use super::*;
use crate::sample::{DENSE_NODES, MAPPING, NODES, RELATIONS, STRINGS, WAYS, are_parts};
use mf_edge::{MemSource, MemSpill, ReadSource, Steps, SureSource};
use osm_model::faults::{BlockFault, EntityFault, FrameFault, InputCode};
use spill_parts::Page;
use std::alloc::{AllocError, Global};
use std::marker::Brand;
use std::sync::ledger::{Blank, Ledger};
use std::test::Fail;
use tag_mapping::file::read_mapping;

// The room of a block: the longest Blob.
const ROOM: usize = 33_554_432;

// A header without a box.
const HEADER: &[u8] = b"\0\0\0\x0D\x0A\x09OSMHeader\x18\x02\x0A\0";

// Headers with a box: the first and the other.
const BOXED: &[u8] =
    b"\0\0\0\x0D\x0A\x09OSMHeader\x18\x10\x0A\x0E\x0A\x0C\x08\xD0\x0F\x10\xA0\x1F\x18\xC0>\x20\xF0.";

const OTHER_BOXED: &[u8] =
    b"\0\0\0\x0D\x0A\x09OSMHeader\x18\x10\x0A\x0E\x0A\x0C\x08\x90N\x10\xE0]\x18\x80}\x20\xB0m";

// The box of the first.
const BOX: Rect = Rect {
    min_lat: 3,
    min_lon: 1,
    max_lat: 4,
    max_lon: 2,
};

// What stands before the strings of a blob of nodes, of dense nodes, and of ways and relations.
const OF_NODES: &[u8] = b"\0\0\0\x0C\x0A\x07OSMData\x18\x8D\x01\x0A\x8A\x01";

const OF_DENSE_NODES: &[u8] = b"\0\0\0\x0C\x0A\x07OSMData\x18\x89\x01\x0A\x86\x01";

const OF_OTHERS: &[u8] = b"\0\0\0\x0C\x0A\x07OSMData\x18\xC1\x01\x0A\xBE\x01";

// A blob without a StringTable.
const NO_STRINGS: &[u8] =
    b"\0\0\0\x0B\x0A\x07OSMData\x18\x0C\x0A\x0A\x12\x08\x0A\x06\x08\x02@\0H\0";

// What an ingest tells.
#[derive(Clone, Copy, Debug, PartialEq, Eq)]
enum Told {
    // The rows and counts of the sample, and this box.
    Sample(Option<Rect>),
    // Other rows, or other counts.
    Other,
    Fault(IngestFault),
}

// What an ingest of a source tells, whose parts are read again.
fn told_by<S: Source, P: Spill, L: Ledger>(
    alloc: Global,
    source: &mut S,
    mapping: &Mapping,
    spill: &mut P,
    blank: Blank,
) -> Result<Told, AllocError>
    requires ledger { blank.name ≡ L.name }
    requires parts { blank.parts ≡ L.parts }
    requires some { 0 < blank.parts }
    requires name { IsNameOf (codes "rows") (P.state spill.old).name }
{
    let mut block = Block::new(alloc, ROOM)?;
    let mut strings = Strings::new(alloc)?;
    let mut page = Page::new(alloc, 4)?;
    let mut steps = Steps::<L>::new(blank);
    if let Err(Failed) = spill.start("rows") {
        return Ok(Told::Fault(IngestFault::Spill));
    }
    let mut stream = Stream::new(source);
    match ingest(mapping, &mut block, &mut strings, &mut stream, spill) {
        Ok(found) => match are_parts(&found, spill, &mut page, &mut steps) {
            Ok(true) => Ok(Told::Sample(found.bounds)),
            _ => Ok(Told::Other),
        },
        Err(fault) => Ok(Told::Fault(fault)),
    }
}

// What an ingest of blobs tells, in pieces of so many bytes, to a store of which the call with a number fails; 0: none
// does.
fn told_of(
    alloc: Global,
    mapping: &Mapping,
    blobs: &[&[u8]],
    piece: usize,
    call: u64,
) -> Result<Told, AllocError>
    requires { 0 < piece }
{
    let bytes = blobs.concat(alloc)?;
    let mut source = SureSource::new(alloc, &bytes, piece)?;
    let mut store = MemSpill::new(alloc, &[call])?;
    let blank = Blank::new(1);
    told_by::<SureSource, MemSpill, Brand>(alloc, &mut source, mapping, &mut store, blank)
}

// The same of a source that does not tell its bytes, to a store that does not.
fn told_of_untold(alloc: Global, mapping: &Mapping, blobs: &[&[u8]]) -> Result<Told, AllocError> {
    let bytes = blobs.concat(alloc)?;
    let mut source = ReadSource::new(bytes.as_slice());
    let mut store = MemSpill::untold(alloc, &[], 0)?;
    let blank = Blank::new(1);
    told_by::<ReadSource<&[u8]>, MemSpill, Brand>(alloc, &mut source, mapping, &mut store, blank)
}

// The same of a source in pieces of one byte of which the read with a number fails.
fn told_of_failing(
    alloc: Global,
    mapping: &Mapping,
    blobs: &[&[u8]],
    read: u64,
) -> Result<Told, AllocError> {
    let bytes = blobs.concat(alloc)?;
    let mut source = MemSource::new(alloc, &bytes, 1, &[read])?;
    let mut store = MemSpill::new(alloc, &[])?;
    let blank = Blank::new(1);
    told_by::<MemSource, MemSpill, Brand>(alloc, &mut source, mapping, &mut store, blank)
}

// Blobs with the sample, and its box.
const INPUTS: [(&[&[u8]], Option<Rect>); 4] = [
    (
        &[
            OF_NODES, STRINGS, NODES, OF_OTHERS, STRINGS, WAYS, RELATIONS,
        ],
        None,
    ),
    (
        &[
            HEADER,
            OF_DENSE_NODES,
            STRINGS,
            DENSE_NODES,
            OF_OTHERS,
            STRINGS,
            WAYS,
            RELATIONS,
        ],
        None,
    ),
    (
        &[
            BOXED,
            OF_DENSE_NODES,
            STRINGS,
            DENSE_NODES,
            OTHER_BOXED,
            OF_OTHERS,
            STRINGS,
            WAYS,
            RELATIONS,
        ],
        Some(BOX),
    ),
    (
        &[
            HEADER, OF_NODES, STRINGS, NODES, BOXED, OF_OTHERS, STRINGS, WAYS, RELATIONS,
        ],
        Some(BOX),
    ),
];

#[test]
fn what_is_ingested(rt: HostRuntime) -> Result<(), Fail> {
    let mapping = read_mapping(rt.alloc(), MAPPING)?;
    for (blobs, bounds) in INPUTS {
        for piece in [1, 7, 1000] {
            assert_eq!(rt;
                told_of(rt.alloc(), &mapping, blobs, piece, 0)?,
                Told::Sample(bounds),
                "of {blobs:?} in pieces of {piece}"
            );
        }
        assert_eq!(rt;
            told_of_untold(rt.alloc(), &mapping, blobs)?,
            Told::Sample(bounds),
            "of {blobs:?}"
        );
    }
    assert_eq!(rt;
        told_of(rt.alloc(), &mapping, &[OF_NODES, STRINGS, NODES], 7, 0)?,
        Told::Other
    );
    Ok(())
}

// Blobs, the place of the blob that has the first fault, and the fault.
const FAULTS: [(&[&[u8]], u64, InputCode); 4] = [
    (
        &[b"\0"],
        0,
        InputCode::Frame(FrameFault::Truncated { have: 1 }),
    ),
    (
        &[BOXED, OF_NODES, STRINGS, NODES, NO_STRINGS],
        190,
        InputCode::Block(BlockFault::NoStrings),
    ),
    (
        &[
            OF_NODES,
            STRINGS,
            NODES,
            OF_DENSE_NODES,
            STRINGS,
            DENSE_NODES,
        ],
        157,
        InputCode::Entity(EntityFault::OutOfOrder { last: 2, id: 1 }),
    ),
    (
        &[
            OF_OTHERS, STRINGS, WAYS, RELATIONS, OF_NODES, STRINGS, NODES, NO_STRINGS,
        ],
        209,
        InputCode::Entity(EntityFault::KindOrder),
    ),
];

#[test]
fn the_first_fault(rt: HostRuntime) -> Result<(), Fail> {
    let mapping = read_mapping(rt.alloc(), MAPPING)?;
    for (blobs, at, code) in FAULTS {
        for piece in [1, 7, 1000] {
            assert_eq!(rt;
                told_of(rt.alloc(), &mapping, blobs, piece, 0)?,
                Told::Fault(IngestFault::Input(InputFault { at, code })),
                "of {blobs:?} in pieces of {piece}"
            );
        }
    }
    Ok(())
}

// The store is started by its first call, and six more make the parts. Each of the 40 rows is put by one call.
#[test]
fn each_call_of_the_store_fails(rt: HostRuntime) -> Result<(), Fail> {
    let mapping = read_mapping(rt.alloc(), MAPPING)?;
    let (blobs, bounds) = INPUTS[0];
    for call in 2..48 {
        assert_eq!(rt;
            told_of(rt.alloc(), &mapping, blobs, 1000, call)?,
            Told::Fault(IngestFault::Spill),
            "at {call}"
        );
    }

    // The next is a read of the parts, behind the ingest.
    assert_eq!(rt;
        told_of(rt.alloc(), &mapping, blobs, 1000, 48)?,
        Told::Other
    );
    assert_eq!(rt;
        told_of(rt.alloc(), &mapping, blobs, 1000, 999)?,
        Told::Sample(bounds)
    );
    Ok(())
}

// Each byte is one read, and the end of the input one more.
#[test]
fn each_read_fails(rt: HostRuntime) -> Result<(), Fail> {
    let mapping = read_mapping(rt.alloc(), MAPPING)?;
    let (blobs, bounds) = INPUTS[0];
    for read in 1..368 {
        assert_eq!(rt;
            told_of_failing(rt.alloc(), &mapping, blobs, read)?,
            Told::Fault(IngestFault::Read),
            "at {read}"
        );
    }
    assert_eq!(rt;
        told_of_failing(rt.alloc(), &mapping, blobs, 368)?,
        Told::Sample(bounds)
    );
    Ok(())
}
