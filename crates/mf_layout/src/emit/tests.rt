//! Maps, whole and as far as a device comes.

ghost use Rattle.std.specs.Prelude.{◌≡◌, ◌≢◌, ◌+◌, ◌*◌, ◌<◌, ◌≤◌, true, false, IsTrue, length, codes, IfOk, OnOk};
ghost use Rattle.std.specs.List.{AllByRecursion};
ghost use Rattle.map_model.specs.Intervals.{are_intervals};
ghost use Rattle.mf_edge.specs.Spill.{IsNameOf};
ghost use Rattle.mf_rows.specs.Kinds.{index_kind};
ghost use Rattle.spill_parts.specs.Parts.{IsHeld, HasItsSize};
ghost use Rattle.mf_layout.specs.SubFiles.{IsSubFile, tiles_in, bytes_in};

use super::*;
use crate::sub_files::SubFileSize;
use arrayvec::ArrayVec;
use map_header::header::header_size;
use mf_base::tile::Interval;
use mf_edge::{Failed, MemSink, MemSpill};
use mf_rows::kinds::IndexRow;
use spill_parts::{BytePart, Part, Writer};
use std::alloc::{AllocError, Global};
use std::marker::Brand;
use std::sync::ledger::Blank;
use std::test::Fail;
use tag_mapping::mapping::Mapping;
use tag_mapping::one_poi::one_poi;

// A tile with the water bit and two bytes, and in the next interval one of three bytes behind an empty one.
const WATER_BOX: Rect = Rect {
    min_lat: -1,
    min_lon: -2,
    max_lat: 3,
    max_lon: 4,
};

const WATER_INTERVALS: [Interval; 2] = [
    Interval {
        base: 0,
        min: 0,
        max: 0,
    },
    Interval {
        base: 1,
        min: 1,
        max: 1,
    },
];

const WATER_SIZES: [SubFileSize; 2] = [
    SubFileSize { tiles: 1, bytes: 7 },
    SubFileSize {
        tiles: 2,
        bytes: 13,
    },
];

const WATER_ROWS: [IndexRow; 3] = [
    IndexRow {
        interval: 0,
        y: 0,
        x: 0,
        water: 1,
        size: 2,
    },
    IndexRow {
        interval: 1,
        y: 0,
        x: 0,
        water: 0,
        size: 0,
    },
    IndexRow {
        interval: 1,
        y: 0,
        x: 1,
        water: 0,
        size: 3,
    },
];

const WATER_TILES: &[u8] = b"abcde";

const WATER: &[u8] = &[
    0x6d, 0x61, 0x70, 0x73, 0x66, 0x6f, 0x72, 0x67, 0x65, 0x20, 0x62, 0x69, 0x6e, 0x61, 0x72, 0x79,
    0x20, 0x4f, 0x53, 0x4d, 0x00, 0x00, 0x00, 0x69, 0x00, 0x00, 0x00, 0x05, 0x00, 0x00, 0x00, 0x00,
    0x00, 0x00, 0x00, 0x95, 0x00, 0x00, 0x01, 0x8b, 0xcf, 0xe5, 0x68, 0x00, 0xff, 0xff, 0xff, 0xff,
    0xff, 0xff, 0xff, 0xfe, 0x00, 0x00, 0x00, 0x03, 0x00, 0x00, 0x00, 0x04, 0x01, 0x00, 0x08, 0x4d,
    0x65, 0x72, 0x63, 0x61, 0x74, 0x6f, 0x72, 0x00, 0x00, 0x01, 0x0d, 0x61, 0x6d, 0x65, 0x6e, 0x69,
    0x74, 0x79, 0x3d, 0x62, 0x65, 0x6e, 0x63, 0x68, 0x00, 0x00, 0x02, 0x00, 0x00, 0x00, 0x00, 0x00,
    0x00, 0x00, 0x00, 0x00, 0x00, 0x81, 0x00, 0x00, 0x00, 0x00, 0x00, 0x00, 0x00, 0x07, 0x01, 0x01,
    0x01, 0x00, 0x00, 0x00, 0x00, 0x00, 0x00, 0x00, 0x88, 0x00, 0x00, 0x00, 0x00, 0x00, 0x00, 0x00,
    0x0d, 0x80, 0x00, 0x00, 0x00, 0x05, 0x61, 0x62, 0x00, 0x00, 0x00, 0x00, 0x0a, 0x00, 0x00, 0x00,
    0x00, 0x0a, 0x63, 0x64, 0x65,
];

// Settings of these intervals, and nothing else but a date.
fn settings(intervals: &[Interval]) -> HeadSettings
    requires { length intervals.now ≤ 8 }
    ensures { result.intervals.items ≡ intervals.now }
{
    let mut all = ArrayVec::new();
    for interval in intervals {
        all.push(*interval);
    }
    HeadSettings {
        date: 1_700_000_000_000,
        start: None,
        start_zoom: None,
        language: None,
        comment: None,
        created_by: None,
        intervals: all,
    }
}

// The sizes as a layout hands them on.
fn handed(sizes: &[SubFileSize]) -> ArrayVec<SubFileSize, 8>
    requires { length sizes.now ≤ 8 }
    ensures { result.items ≡ sizes.now }
{
    let mut all = ArrayVec::new();
    for size in sizes {
        all.push(*size);
    }
    all
}

// Puts rows and bytes to two parts of a store, by five calls.
fn kept<P: Spill>(
    rows: &[IndexRow],
    tiles: &[u8],
    page: &mut Page,
    spill: &mut P,
) -> Result<(Part<IndexRow>, BytePart), Failed>
    requires name { IsNameOf (codes "map") (P.state spill.old).name }
    requires room { length rows.now ≤ page.old.room }
    ensures started { OnOk result ((P.state spill.new).is_started ≡ true) }
    ensures tells { OnOk result ((P.state spill.new).tells ≡ (P.state spill.old).tells) }
    ensures index { IfOk result (λ r. IsHeld index_kind r.0 (P.state spill.new)) }
    ensures rows { IfOk result (λ r. r.0.rows ≡ rows.now) }
    ensures tiles { IfOk result (λ r. HasItsSize r.1 (P.state spill.new)) }
    ensures size { IfOk result (λ r. r.1.size ≡ length tiles.now) }
    ensures apart { IfOk result (λ r. r.0.part ≢ r.1.part) }
{
    spill.start("map")?;
    let mut index = Writer::make(spill)?;
    index.put_all(spill, rows, page)?;
    let mut part = BytePart::make(spill)?;
    part.append(spill, tiles)?;
    Ok((index.finish(), part))
}

// Writes a map of these sub-files over these devices, through a page of two rows. The store does not tell its bytes, so
// that it may have any rows.
fn emitted<L: Ledger>(
    alloc: Global,
    bounds: &Rect,
    intervals: &[Interval],
    sizes: &[SubFileSize],
    rows: &[IndexRow],
    tiles: &[u8],
    tags: &Mapping,
    spill: &mut MemSpill,
    out: &mut MemSink,
    blank: Blank,
) -> Result<Result<(), EmitFault>, AllocError>
    requires ledger { blank.name ≡ L.name }
    requires parts { blank.parts ≡ L.parts }
    requires some { 0 < blank.parts }
    requires name { IsNameOf (codes "map") spill.old.name }
    requires untold { spill.old.tells ≡ false }
    requires intervals { IsTrue (are_intervals intervals.now) }
    requires few { length rows.now ≤ 4 }
    requires most { length intervals.now ≤ 8 }
    requires many { length sizes.now ≡ length intervals.now }
    requires each { AllByRecursion IsSubFile sizes.now }
    requires rows { tiles_in sizes.now ≡ length rows.now }
    requires bytes { bytes_in sizes.now ≡ 5 * length rows.now + length tiles.now }
{
    let set = settings(intervals);
    let mut steps = Steps::<L>::new(blank);
    let mut head = OutBuf::new(alloc, header_size(&set, tags) as usize)?;
    let mut page = Page::new(alloc, 4)?;
    let Ok((index, tiles)) = kept(rows, tiles, &mut page, spill) else {
        return Ok(Err(EmitFault::Spill));
    };
    let subs = SubFiles {
        sizes: handed(sizes),
        index,
        tiles,
        shown: 0,
        water: 0,
        largest: 0,
    };
    let mut page = Page::new(alloc, 2)?;
    Ok(emit(
        &set, bounds, tags, subs, &mut head, &mut page, spill, out, &mut steps,
    ))
}

// The map of the tile with the water bit, with these rows.
fn water(
    alloc: Global,
    rows: &[IndexRow],
    tags: &Mapping,
    spill: &mut MemSpill,
    out: &mut MemSink,
) -> Result<Result<(), EmitFault>, AllocError>
    requires name { IsNameOf (codes "map") spill.old.name }
    requires untold { spill.old.tells ≡ false }
    requires rows { length rows.now ≡ 3 }
{
    emitted::<Brand>(
        alloc,
        &WATER_BOX,
        &WATER_INTERVALS,
        &WATER_SIZES,
        rows,
        WATER_TILES,
        tags,
        spill,
        out,
        Blank::new(1),
    )
}

// Where the first rows are read as zeros, the first tile has no water bit.
#[test]
fn rows_that_are_read_as_zeros(rt: HostRuntime) -> Result<(), Fail> {
    let alloc = rt.alloc();
    let tags = one_poi(alloc, "amenity=bench@12")?;
    let mut store = MemSpill::untold(alloc, &[], 1)?;
    let mut sink = MemSink::new(alloc, 1000, &[])?;
    assert_eq!(rt;
        water(alloc, &WATER_ROWS, &tags, &mut store, &mut sink)?,
        Ok(())
    );
    assert_eq!(rt; sink.taken().len(), WATER.len());
    assert!(rt; sink.taken().len() >= 134);
    assert_eq!(rt; &sink.taken()[129..134], [0, 0, 0, 0, 5].as_slice());
    Ok(())
}
