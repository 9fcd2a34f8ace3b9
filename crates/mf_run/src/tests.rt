//! A whole run over devices in memory. More runs, over the devices of the system, are in tests/cases.

ghost use Rattle.std.specs.Prelude.{◌≡◌, ◌<◌};

use crate::run::program;
use mf_edge::{MemShelf, MemSink, MemSpill, Steps, SureSource};
use std::alloc::{AllocError, Global};
use std::marker::Brand;
use std::sync::ledger::{Blank, Ledger};
use std::test::Fail;

// A box of one degree each way, and the two required features; and one bench at (0, 0).
const INPUT: &[u8] =
    b"\0\0\0\x0d\x0a\x09OSMHeader\x18\x38\x0a\x36\x0a\x18\x08\xff\xa7\xd6\xb9\x07\x10\x80\xa8\xd6\xb9\x07\x18\x80\xa8\xd6\xb9\x07\x20\xff\xa7\xd6\xb9\x07\x22\x0eOsmSchema-V0.6\x22\x0aDenseNodes\0\0\0\x0b\x0a\x07OSMData\x18\x28\x0a\x26\x0a\x12\x0a\0\x0a\x07amenity\x0a\x05bench\x12\x10\x12\x0e\x0a\x01\x02\x42\x01\0\x4a\x01\0\x52\x03\x01\x02\0";

// The map of that bench from zoom 5 on: the header, the index and the tile.
const MAP: &[u8] =
    b"mapsforge binary OSM\0\0\0\x56\0\0\0\x05\0\0\0\0\0\0\0\x90\0\0\x01\x8b\xcf\xe5\x68\0\xff\xf0\xbd\xc0\xff\xf0\xbd\xc0\0\x0f\x42\x40\0\x0f\x42\x40\x01\0\x08Mercator\0\0\x01\x0damenity=bench\0\0\x01\0\0\x07\0\0\0\0\0\0\0\x6e\0\0\0\0\0\0\0\x22\0\0\0\0\x05\0\0\0\0\0\0\0\0\0\0\x01\0\0\0\0\0\x0c\xf8\x8d\xc7\x68\x80\xaa\xea\xd5\0\x51\0\0";

const REPORT: &[u8] =
    b"nodes 1 ways 0 relations 0 features 1 skipped 0 tiles 1 water 0 bytes 144 largest 11\n";

const WORDS: [&str; 4] = [
    "--poi=amenity=bench@5",
    "--intervals=0:0:7",
    "--date=1700000000000",
    "--rows=64",
];

fn owned(alloc: Global, words: &[&str]) -> Result<Vec<String>, AllocError> {
    let mut all = Vec::new(alloc);
    for word in words {
        all.push(String::from_str(alloc, word)?)?;
    }
    Ok(all)
}

// The status of a run over that input.
fn ran<L: Ledger>(
    alloc: Global,
    output: &mut MemSink,
    say: &mut MemSink,
    blank: Blank,
) -> Result<u8, AllocError>
    requires ledger { blank.name ≡ L.name }
    requires parts { blank.parts ≡ L.parts }
    requires some { 0 < blank.parts }
{
    let words = owned(alloc, &WORDS)?;
    let mut input = SureSource::new(alloc, INPUT, 7)?;
    let mut shelf = MemShelf::new(alloc, "", b"", 1, &[])?;
    let mut spill = MemSpill::new(alloc, &[])?;
    let mut steps = Steps::<L>::new(blank);
    Ok(program(
        alloc, &words, &mut shelf, 0, &mut input, output, say, &mut spill, &mut steps,
    ))
}

#[test]
fn a_map_of_one_bench(rt: HostRuntime) -> Result<(), Fail> {
    let mut output = MemSink::new(rt.alloc(), 50, &[])?;
    let mut say = MemSink::new(rt.alloc(), 50, &[])?;
    let status = ran::<Brand>(rt.alloc(), &mut output, &mut say, Blank::new(1))?;
    assert_eq!(rt; status, 0);
    assert_eq!(rt; output.taken(), MAP);
    assert_eq!(rt; say.taken(), REPORT);
    Ok(())
}
