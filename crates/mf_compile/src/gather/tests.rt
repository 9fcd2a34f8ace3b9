//! What is gathered of whole inputs, by a table, and devices that fail.

ghost use Rattle.std.specs.Prelude.{◌≡◌, None};

use super::*;
use crate::job::{Job, has_ways};
use job_words::job::read_job;
use mf_edge::{MemShelf, MemSource, MemSpill};
use osm_model::faults::{FrameFault, InputCode, InputFault};
use std::alloc::{AllocError, Global};
use std::test::Fail;

// A header with a box.
const HEADER: &[u8] =
    b"\0\0\0\x0d\x0a\x09OSMHeader\x18\x38\x0a\x36\x0a\x18\x08\xff\xa7\xd6\xb9\x07\x10\x80\xa8\xd6\xb9\x07\x18\x80\xa8\xd6\xb9\x07\x20\xff\xa7\xd6\xb9\x07\x22\x0eOsmSchema-V0.6\x22\x0aDenseNodes";

const BOX: Rect = Rect {
    min_lat: -1_000_000,
    min_lon: -1_000_000,
    max_lat: 1_000_000,
    max_lon: 1_000_000,
};

// One node, which is a bench.
const BENCH: &[u8] =
    b"\0\0\0\x0b\x0a\x07OSMData\x18\x28\x0a\x26\x0a\x12\x0a\0\x0a\x07amenity\x0a\x05bench\x12\x10\x12\x0e\x0a\x01\x02\x42\x01\0\x4a\x01\0\x52\x03\x01\x02\0";

// A blob of compressed bytes.
const COMPRESSED: &[u8] = b"\0\0\0\x0B\x0A\x07OSMData\x18\x02\x1A\0";

const WORDS: &[&str] = &["--poi=amenity=bench@5", "--rows=64"];

const BOXED_WORDS: &[&str] = &["--poi=amenity=bench@5", "--rows=64", "--box=1,2,3,4"];

const BOX_OF_WORDS: Rect = Rect {
    min_lat: 1,
    min_lon: 2,
    max_lat: 3,
    max_lon: 4,
};

// How many nodes were gathered, and the box.
type Told = Result<(u64, Rect), Fault>;

// The job of words.
fn job_of(alloc: Global, words: &[&str]) -> Result<Option<Job>, AllocError> {
    let mut owned = Vec::new(alloc);
    for word in words {
        owned.push(String::from_str(alloc, word)?)?;
    }
    let mut shelf = MemShelf::new(alloc, "m.toml", b"", 1, &[])?;
    let Ok(asked) = read_job(alloc, &owned, &mut shelf, 0) else {
        return Ok(None);
    };
    if has_ways(&asked.settings.mapping) {
        return Ok(None);
    }
    Ok(Some(Job::new(alloc, asked.settings)?))
}

// What is gathered of blobs, where the read and the call of the store with these numbers fail. 0: none does.
fn told_of(
    alloc: Global,
    words: &[&str],
    blobs: &[&[u8]],
    read: u64,
    call: u64,
) -> Result<Option<Told>, AllocError> {
    let Some(job) = job_of(alloc, words)? else {
        return Ok(None);
    };
    let bytes = blobs.concat(alloc)?;
    let mut source = MemSource::new(alloc, &bytes, 7, &[read])?;
    let mut store = MemSpill::new(alloc, &[call])?;
    Ok(Some(gathered_by(job, &mut source, &mut store)))
}

// What a job gathers, to a store without a name.
fn gathered_by(job: Job, source: &mut MemSource, store: &mut MemSpill) -> Told
    requires { store.old.name ≡ None }
{
    let Job {
        settings,
        mut block,
        mut strings,
        ..
    } = job;
    let (found, bounds) = gather(&settings, &mut block, &mut strings, source, store)?;
    Ok((found.nodes, bounds))
}

const TRUNCATED: InputFault = InputFault {
    at: 73,
    code: InputCode::Frame(FrameFault::Truncated { have: 3 }),
};

const NOT_RAW: InputFault = InputFault {
    at: 128,
    code: InputCode::Frame(FrameFault::Compressed { field: 3 }),
};

const CASES: [(&[&str], &[&[u8]], Told); 8] = [
    (WORDS, &[HEADER, BENCH], Ok((1, BOX))),
    (WORDS, &[HEADER], Ok((0, BOX))),
    (WORDS, &[BENCH], Err(Fault::NoBox)),
    (WORDS, &[], Err(Fault::NoBox)),
    (BOXED_WORDS, &[HEADER, BENCH], Ok((1, BOX_OF_WORDS))),
    (BOXED_WORDS, &[BENCH], Ok((1, BOX_OF_WORDS))),
    (WORDS, &[HEADER, b"\0\0\0"], Err(Fault::Input(TRUNCATED))),
    (
        BOXED_WORDS,
        &[HEADER, BENCH, COMPRESSED],
        Err(Fault::Input(NOT_RAW)),
    ),
];

#[test]
fn what_is_gathered(rt: HostRuntime) -> Result<(), Fail> {
    for (words, blobs, told) in CASES {
        assert_eq!(rt;
            told_of(rt.alloc(), words, blobs, 0, 0)?,
            Some(told),
            "of {blobs:?} by {words:?}"
        );
    }
    Ok(())
}

// The first call of the store starts it, and six more make the parts.
#[test]
fn devices_that_fail(rt: HostRuntime) -> Result<(), Fail> {
    for call in 1..8 {
        assert_eq!(rt;
            told_of(rt.alloc(), WORDS, &[HEADER, BENCH], 0, call)?,
            Some(Err(Fault::Spill)),
            "at {call}"
        );
    }
    assert_eq!(rt;
        told_of(rt.alloc(), WORDS, &[HEADER, BENCH], 1, 0)?,
        Some(Err(Fault::Read))
    );
    Ok(())
}
