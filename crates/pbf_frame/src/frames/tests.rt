//! The reader of blobs over inputs with and without faults, whole and in pieces.

ghost use Rattle.std.specs.Prelude.{◌≡◌, ◌<◌, ◌≤◌, length};

use super::Frames;
use crate::frame::{BlobKind, Frame};
use crate::frame_fault::{FrameFault, NextFault};
use mf_edge::{Block, MemSource, Source, Stream, SureSource};
use pbf_wire::check::MessageFault;
use pbf_wire::fields::WireFault;
use std::alloc::{AllocError, Global};
use std::test::Fail;

// The room of a block: the longest Blob.
const ROOM: usize = 33_554_432;

// What the reader gave, a line for each blob, and the fault at the end.
#[derive(Drop)]
struct Seen {
    blobs: String,
    fault: Option<NextFault>,
}

// A line for a blob, with the number of its raw bytes and the first three of them.
fn line(alloc: Global, frame: Frame, block: &Block) -> Result<String, AllocError>
    requires order { frame.start ≤ frame.end }
    requires within { frame.end ≤ length block.now.bytes }
{
    let raw = &block.bytes()[frame.start..frame.end];
    let first = &raw[..raw.len().min(3)];
    format!(in alloc;
        "{:?} at {}, {}: {:?}\n",
        frame.kind,
        frame.at,
        raw.len(),
        first
    )
}

// What the reader gives of a source, of at most ten blobs.
fn answers_of<S: Source>(
    alloc: Global,
    source: &mut S,
    block: &mut Block,
) -> Result<Seen, AllocError>
    requires room { 33554432 ≤ block.old.capacity }
    ensures room { block.new.capacity ≡ block.old.capacity }
{
    let mut blobs = String::new(alloc);
    let mut stream = Stream::new(source);
    let mut frames = Frames::new();
    for _ in 0..10 {
        match frames.next(&mut stream, block) {
            Ok(Some(frame)) => blobs.push_str(&line(alloc, frame, block)?)?,
            Ok(None) => return Ok(Seen { blobs, fault: None }),
            Err(fault) => {
                return Ok(Seen {
                    blobs,
                    fault: Some(fault),
                });
            }
        }
    }
    Ok(Seen { blobs, fault: None })
}

// A blob of 11 bytes of a type that is passed over, and blobs of 20 and 18 bytes with the raw bytes H and A.
const OTHER: &[u8] = b"\0\0\0\x05\x0A\x01X\x18\x02ab";

const HEADER: &[u8] = b"\0\0\0\x0D\x0A\x09OSMHeader\x18\x03\x0A\x01H";

const DATA: &[u8] = b"\0\0\0\x0B\x0A\x07OSMData\x18\x03\x0A\x01A";

// Blobs, and what is given of them.
const BLOBS: [(&[&[u8]], &str); 9] = [
    (&[], ""),
    (&[OTHER], ""),
    (&[OTHER, OTHER], ""),
    (&[HEADER], "Header at 0, 1: [72]\n"),
    (
        &[DATA, HEADER],
        "Primitive at 0, 1: [65]\nHeader at 18, 1: [72]\n",
    ),
    (
        &[OTHER, HEADER, OTHER, OTHER, DATA, OTHER],
        "Header at 11, 1: [72]\nPrimitive at 53, 1: [65]\n",
    ),
    // No raw bytes; a raw_size that fits, of which the last counts; fields that are in no table.
    (
        &[b"\0\0\0\x0B\x0A\x07OSMData\x18\x02\x0A\x00"],
        "Primitive at 0, 0: []\n",
    ),
    (
        &[b"\0\0\0\x0B\x0A\x07OSMData\x18\x09\x10\x05\x0A\x03abc\x10\x03"],
        "Primitive at 0, 3: [97, 98, 99]\n",
    ),
    // The last datasize counts, and the first field of a header may be any.
    (
        &[b"\0\0\0\x0F\x18\x63\x0A\x07OSMData\x12\x00\x18\x05\x40\x07\x0A\x01A"],
        "Primitive at 0, 1: [65]\n",
    ),
];

// What the reader gives of blobs and what follows them, in pieces of so many bytes.
fn answers_in_pieces(
    alloc: Global,
    blobs: &[&[u8]],
    rest: &[u8],
    piece: usize,
    block: &mut Block,
) -> Result<Seen, AllocError>
    requires piece { 0 < piece }
    requires room { 33554432 ≤ block.old.capacity }
    ensures room { block.new.capacity ≡ block.old.capacity }
{
    let mut bytes = blobs.concat(alloc)?;
    bytes.extend_from_slice(rest)?;
    let mut source = SureSource::new(alloc, &bytes, piece)?;
    answers_of(alloc, &mut source, block)
}

#[test]
fn blobs_in_order(rt: HostRuntime) -> Result<(), Fail> {
    let mut block = Block::new(rt.alloc(), ROOM)?;
    for (blobs, want) in BLOBS {
        let whole = answers_in_pieces(rt.alloc(), blobs, b"", 100, &mut block)?;
        assert_eq!(rt;
            (whole.blobs.as_str(), whole.fault),
            (want, None),
            "of {blobs:?}"
        );
        let pieces = answers_in_pieces(rt.alloc(), blobs, b"", 1, &mut block)?;
        assert_eq!(rt;
            (pieces.blobs.as_str(), pieces.fault),
            (want, None),
            "of {blobs:?} in pieces"
        );
    }
    Ok(())
}

// Bytes that begin with no blob, and the first cause, in the order of the steps; of causes that stand together the one
// that counts.
const FAULTS: [(&[u8], FrameFault); 43] = [
    // The length is cut.
    (b"\0", FrameFault::Truncated { have: 1 }),
    (b"\0\x01", FrameFault::Truncated { have: 2 }),
    (b"\xFF\xFF\xFF", FrameFault::Truncated { have: 3 }),
    // The length is above 65,535, also where nothing follows.
    (b"\0\x01\0\0", FrameFault::HeaderLength),
    (b"\0\x01\0\0\x0A", FrameFault::HeaderLength),
    (b"\xFF\xFF\xFF\xFF", FrameFault::HeaderLength),
    // The BlobHeader is cut.
    (b"\0\0\0\x05", FrameFault::Truncated { have: 0 }),
    (b"\0\0\xFF\xFF\x0B", FrameFault::Truncated { have: 1 }),
    (
        b"\0\0\0\x05\x0A\x01X\x18",
        FrameFault::Truncated { have: 4 },
    ),
    // The BlobHeader is no message, or breaks its table.
    (b"\0\0\0\x01\x0B", FrameFault::HeaderWire(KIND)),
    (
        b"\0\0\0\x0B\x18\x80\x80\x80\x80\x80\x80\x80\x80\x80\x02",
        FrameFault::HeaderWire(VARINT),
    ),
    (b"\0\0\0\x03\x0A\x05X", FrameFault::HeaderWire(LENGTH)),
    (
        b"\0\0\0\x08\x0A\x01X\x0A\x01X\x18\x00",
        FrameFault::HeaderWire(MessageFault::Twice { field: 1 }),
    ),
    (
        b"\0\0\0\x05\x0A\x01X\x1A\x00",
        FrameFault::HeaderWire(MessageFault::Form { field: 3 }),
    ),
    (b"\0\0\0\x06\x18\xFF\xFF\xFF\xFF\x7F", FrameFault::NoKind),
    // The BlobHeader has no type, or no datasize.
    (b"\0\0\0\0", FrameFault::NoKind),
    (b"\0\0\0\x02\x18\x00", FrameFault::NoKind),
    (b"\0\0\0\x03\x0A\x01X", FrameFault::NoSize),
    (b"\0\0\0\x09\x0A\x07OSMData", FrameFault::NoSize),
    // The datasize is above 33,554,432, also by far; nothing follows.
    (
        b"\0\0\0\x08\x0A\x01X\x18\x81\x80\x80\x10",
        FrameFault::BlobSize,
    ),
    (
        b"\0\0\0\x16\x0A\x09OSMHeader\x18\xFF\xFF\xFF\xFF\xFF\xFF\xFF\xFF\xFF\x01",
        FrameFault::BlobSize,
    ),
    // The Blob is cut, also one of a type that is passed over.
    (
        b"\0\0\0\x05\x0A\x01X\x18\x05\0\0\0",
        FrameFault::Truncated { have: 3 },
    ),
    (
        b"\0\0\0\x08\x0A\x01X\x18\x80\x80\x80\x10",
        FrameFault::Truncated { have: 0 },
    ),
    (
        b"\0\0\0\x0B\x0A\x07OSMData\x18\x05\x0A\x01",
        FrameFault::Truncated { have: 2 },
    ),
    (
        b"\0\0\0\x0D\x0A\x09OSMHeader\x18\x05\x0B\0\0\0",
        FrameFault::Truncated { have: 4 },
    ),
    // The Blob is no message, or breaks its table.
    (
        b"\0\0\0\x0B\x0A\x07OSMData\x18\x01\x0B",
        FrameFault::BlobWire(KIND),
    ),
    (
        b"\0\0\0\x0D\x0A\x09OSMHeader\x18\x01\x80",
        FrameFault::BlobWire(VARINT),
    ),
    (
        b"\0\0\0\x0B\x0A\x07OSMData\x18\x03\x0A\x05A",
        FrameFault::BlobWire(LENGTH),
    ),
    (
        b"\0\0\0\x0B\x0A\x07OSMData\x18\x06\x0A\x01A\x0A\x01A",
        FrameFault::BlobWire(MessageFault::Twice { field: 1 }),
    ),
    (
        b"\0\0\0\x0B\x0A\x07OSMData\x18\x02\x18\x00",
        FrameFault::BlobWire(MessageFault::Form { field: 3 }),
    ),
    (
        b"\0\0\0\x0B\x0A\x07OSMData\x18\x03\x1A\x00\x0B",
        FrameFault::BlobWire(KIND),
    ),
    // Compressed data of each kind; the first field counts, and it comes before that there is no raw data.
    (
        b"\0\0\0\x0B\x0A\x07OSMData\x18\x02\x1A\x00",
        FrameFault::Compressed { field: 3 },
    ),
    (
        b"\0\0\0\x0B\x0A\x07OSMData\x18\x02\x22\x00",
        FrameFault::Compressed { field: 4 },
    ),
    (
        b"\0\0\0\x0B\x0A\x07OSMData\x18\x02\x2A\x00",
        FrameFault::Compressed { field: 5 },
    ),
    (
        b"\0\0\0\x0B\x0A\x07OSMData\x18\x02\x32\x00",
        FrameFault::Compressed { field: 6 },
    ),
    (
        b"\0\0\0\x0D\x0A\x09OSMHeader\x18\x02\x3A\x00",
        FrameFault::Compressed { field: 7 },
    ),
    (
        b"\0\0\0\x0D\x0A\x09OSMHeader\x18\x07\x0A\x01A\x3A\x00\x1A\x00",
        FrameFault::Compressed { field: 7 },
    ),
    (
        b"\0\0\0\x0B\x0A\x07OSMData\x18\x07\x10\x05\x0A\x01A\x22\x00",
        FrameFault::Compressed { field: 4 },
    ),
    // The Blob has no raw data.
    (b"\0\0\0\x0B\x0A\x07OSMData\x18\x00", FrameFault::NoBytes),
    (
        b"\0\0\0\x0B\x0A\x07OSMData\x18\x04\x10\x05\x42\x00",
        FrameFault::NoBytes,
    ),
    // raw_size is not the number of raw bytes.
    (
        b"\0\0\0\x0B\x0A\x07OSMData\x18\x05\x0A\x01A\x10\x02",
        FrameFault::RawSize { told: 2, found: 1 },
    ),
    (
        b"\0\0\0\x0D\x0A\x09OSMHeader\x18\x04\x10\x01\x0A\x00",
        FrameFault::RawSize { told: 1, found: 0 },
    ),
    (
        b"\0\0\0\x0B\x0A\x07OSMData\x18\x07\x10\x01\x0A\x01A\x10\x00",
        FrameFault::RawSize { told: 0, found: 1 },
    ),
];

const VARINT: MessageFault = MessageFault::Wire(WireFault::Varint);

const KIND: MessageFault = MessageFault::Wire(WireFault::Kind);

const LENGTH: MessageFault = MessageFault::Wire(WireFault::Length);

// The first fault of `FAULTS` that is told otherwise behind these blobs, of which these lines are given.
fn wrong_behind(
    alloc: Global,
    blobs: &[&[u8]],
    at: u64,
    want: &str,
) -> Result<Option<FrameFault>, AllocError> {
    let mut block = Block::new(alloc, ROOM)?;
    for (rest, fault) in FAULTS {
        let told = (want, Some(NextFault::Frame { at, fault }));
        let whole = answers_in_pieces(alloc, blobs, rest, 100, &mut block)?;
        let pieces = answers_in_pieces(alloc, blobs, rest, 1, &mut block)?;
        if (whole.blobs.as_str(), whole.fault) != told
            || (pieces.blobs.as_str(), pieces.fault) != told
        {
            return Ok(Some(fault));
        }
    }
    Ok(None)
}

#[test]
fn faults(rt: HostRuntime) -> Result<(), Fail> {
    assert_eq!(rt; wrong_behind(rt.alloc(), &[], 0, "")?, None);
    let given = "Header at 0, 1: [72]\nPrimitive at 31, 1: [65]\n";
    let blobs = [HEADER, OTHER, DATA, OTHER];
    assert_eq!(rt; wrong_behind(rt.alloc(), &blobs, 60, given)?, None);
    Ok(())
}

// Bytes, how many bytes of 0 follow, then more bytes; and what is given. The limits of a BlobHeader and a Blob, and one
// more.
const LONGEST: [(&[u8], usize, &[u8], &str, Option<FrameFault>); 5] = [
    (
        b"\0\0\xFF\xFF\x0A\x07OSMData\x18\x03\x12\xF0\xFF\x03",
        65520,
        b"\x0A\x01A",
        "Primitive at 0, 1: [65]\n",
        None,
    ),
    (
        b"\0\x01\0\0\x0A\x07OSMData\x18\x03\x12\xF1\xFF\x03",
        65521,
        b"\x0A\x01A",
        "",
        Some(FrameFault::HeaderLength),
    ),
    (
        b"\0\0\0\x0E\x0A\x07OSMData\x18\x80\x80\x80\x10\x0A\xFB\xFF\xFF\x0F",
        33554427,
        b"",
        "Primitive at 0, 33554427: [0, 0, 0]\n",
        None,
    ),
    (
        b"\0\0\0\x08\x0A\x01X\x18\x80\x80\x80\x10",
        33554432,
        DATA,
        "Primitive at 33554444, 1: [65]\n",
        None,
    ),
    (
        b"\0\0\0\x0E\x0A\x07OSMData\x18\x81\x80\x80\x10\x0A\xFC\xFF\xFF\x0F",
        33554428,
        b"",
        "",
        Some(FrameFault::BlobSize),
    ),
];

// What the reader gives of bytes with so many bytes of 0 between them.
fn answers_around_zeros(
    alloc: Global,
    front: &[u8],
    zeros: usize,
    rest: &[u8],
    block: &mut Block,
) -> Result<Seen, AllocError>
    requires room { 33554432 ≤ block.old.capacity }
    ensures room { block.new.capacity ≡ block.old.capacity }
{
    let zeros = vec![in alloc; 0; zeros]?;
    let mut bytes = Vec::from_slice(alloc, front)?;
    bytes.extend_from_slice(&zeros)?;
    bytes.extend_from_slice(rest)?;
    let mut source = SureSource::new(alloc, &bytes, 1000000)?;
    answers_of(alloc, &mut source, block)
}

#[test]
fn the_longest(rt: HostRuntime) -> Result<(), Fail> {
    let mut block = Block::new(rt.alloc(), ROOM)?;
    for (front, zeros, rest, want, fault) in LONGEST {
        let seen = answers_around_zeros(rt.alloc(), front, zeros, rest, &mut block)?;
        let told = fault.map(|fault| NextFault::Frame { at: 0, fault });
        assert_eq!(rt;
            (seen.blobs.as_str(), seen.fault),
            (want, told),
            "of {front:?}"
        );
    }
    Ok(())
}

// What is given of a blob of each type, in pieces of one byte, where the read of this number fails.
fn answers_to_a_failure(alloc: Global, read: u64, block: &mut Block) -> Result<Seen, AllocError>
    requires room { 33554432 ≤ block.old.capacity }
    ensures room { block.new.capacity ≡ block.old.capacity }
{
    let bytes = [OTHER, DATA, HEADER].concat(alloc)?;
    let mut source = MemSource::new(alloc, &bytes, 1, &[read])?;
    answers_of(alloc, &mut source, block)
}

// The blobs have 11, 18 and 20 bytes, each of which is one read, and the end of the input is one more.
#[test]
fn a_read_fails_in_each_place(rt: HostRuntime) -> Result<(), Fail> {
    let mut block = Block::new(rt.alloc(), ROOM)?;
    for read in 1..51 {
        let seen = answers_to_a_failure(rt.alloc(), read, &mut block)?;
        let want = match read {
            0..30 => "",
            30..50 => "Primitive at 11, 1: [65]\n",
            _ => "Primitive at 11, 1: [65]\nHeader at 29, 1: [72]\n",
        };
        assert_eq!(rt;
            (seen.blobs.as_str(), seen.fault),
            (want, Some(NextFault::Read)),
            "at {read}"
        );
    }
    Ok(())
}
