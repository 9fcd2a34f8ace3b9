//! Whole headers.

ghost use Rattle.std.specs.Prelude.{◌≡◌, ◌≤◌, IsTrue, length};
ghost use Rattle.map_model.specs.Intervals.{are_intervals};

use crate::head_settings::HeadSettings;
use crate::header::{header_size, put_header};
use crate::sub_file::SubFile;
use crate::tag_source::TagSource;
use arrayvec::{ArrayString, ArrayVec};
use mf_base::kind::List;
use mf_base::out_buf::OutBuf;
use mf_base::place::{Place, Rect};
use mf_base::tile::Interval;
use std::test::Fail;
use tag_mapping::file::read_mapping;
use tag_mapping::one_poi::one_poi;

// Tags that are all `amenity=bench`.
#[derive(Drop)]
struct Benches {
    poi: u32,
    way: u32,
    ghost few_poi: { poi ≤ 4096 },
    ghost few_way: { way ≤ 4096 },
}

impl TagSource for Benches {
    ghost use Rattle.std.specs.Prelude.{codes, replicate};

    ghost names = { λ tags. record {
      poi = replicate tags.poi (codes "amenity=bench");
      way = replicate tags.way (codes "amenity=bench");
    } };

    fn tag_count(&self, list: List) -> u32 {
        match list {
            List::Poi => self.poi,
            List::Way => self.way,
        }
    }

    fn tag_size(&self, _list: List, _index: u32) -> u32 {
        14
    }

    fn put_tag(&self, _list: List, _index: u32, out: &mut OutBuf) {
        out.put(b"\x0damenity=bench");
    }
}

const BOX: Rect = Rect {
    min_lat: 0,
    min_lon: 0,
    max_lat: 0,
    max_lon: 0,
};

const SUBS: [SubFile; 3] = [
    SubFile {
        start: 148,
        size: 5,
    },
    SubFile {
        start: 153,
        size: 5,
    },
    SubFile {
        start: 158,
        size: 31,
    },
];

// What follows the magic bytes in the header of one bench, a box of one place and the default intervals.
const THREE_INTERVALS: [u8; 128] = [
    0x00, 0x00, 0x00, 0x7c, 0x00, 0x00, 0x00, 0x05, 0x00, 0x00, 0x00, 0x00, 0x00, 0x00, 0x00, 0xbd,
    0x00, 0x00, 0x01, 0x8b, 0xcf, 0xe5, 0x68, 0x00, 0x00, 0x00, 0x00, 0x00, 0x00, 0x00, 0x00, 0x00,
    0x00, 0x00, 0x00, 0x00, 0x00, 0x00, 0x00, 0x00, 0x01, 0x00, 0x08, 0x4d, 0x65, 0x72, 0x63, 0x61,
    0x74, 0x6f, 0x72, 0x00, 0x00, 0x01, 0x0d, 0x61, 0x6d, 0x65, 0x6e, 0x69, 0x74, 0x79, 0x3d, 0x62,
    0x65, 0x6e, 0x63, 0x68, 0x00, 0x00, 0x03, 0x05, 0x00, 0x07, 0x00, 0x00, 0x00, 0x00, 0x00, 0x00,
    0x00, 0x94, 0x00, 0x00, 0x00, 0x00, 0x00, 0x00, 0x00, 0x05, 0x0a, 0x08, 0x0b, 0x00, 0x00, 0x00,
    0x00, 0x00, 0x00, 0x00, 0x99, 0x00, 0x00, 0x00, 0x00, 0x00, 0x00, 0x00, 0x05, 0x0e, 0x0c, 0x15,
    0x00, 0x00, 0x00, 0x00, 0x00, 0x00, 0x00, 0x9e, 0x00, 0x00, 0x00, 0x00, 0x00, 0x00, 0x00, 0x1f,
];

// The default intervals, and nothing else but a date.
fn plain() -> HeadSettings
    ensures three { length result.intervals.items ≡ 3 }
    ensures intervals { IsTrue (are_intervals result.intervals.items) }
{
    let mut intervals = ArrayVec::new();
    intervals.push(Interval {
        base: 5,
        min: 0,
        max: 7,
    });
    intervals.push(Interval {
        base: 10,
        min: 8,
        max: 11,
    });
    intervals.push(Interval {
        base: 14,
        min: 12,
        max: 21,
    });
    HeadSettings {
        date: 1_700_000_000_000,
        start: None,
        start_zoom: None,
        language: None,
        comment: None,
        created_by: None,
        intervals,
    }
}

#[test]
fn three_intervals(rt: HostRuntime) -> Result<(), Fail> {
    let set = plain();
    let tags = Benches { poi: 1, way: 0 };
    assert_eq!(rt; header_size(&set, &tags), 148);
    let mut out = OutBuf::new(rt.alloc(), 148)?;
    put_header(&mut out, &set, &BOX, &tags, &SUBS);
    assert_eq!(rt; out.bytes().len(), 148);
    assert_eq!(rt; &out.bytes()[..20], b"mapsforge binary OSM".as_slice());
    assert_eq!(rt; &out.bytes()[20..], THREE_INTERVALS.as_slice());
    Ok(())
}

#[test]
fn every_option(rt: HostRuntime) -> Result<(), Fail> {
    let mut set = plain();
    set.start = Some(Place { lat: 1, lon: -1 });
    set.start_zoom = Some(12);
    set.language = ArrayString::from("en").ok();
    set.comment = ArrayString::from("c").ok();
    set.created_by = ArrayString::from("d").ok();
    let tags = Benches { poi: 1, way: 0 };
    assert_eq!(rt; header_size(&set, &tags), 164);
    let mut out = OutBuf::new(rt.alloc(), 164)?;
    put_header(&mut out, &set, &BOX, &tags, &[SUBS[0], SUBS[1], SUBS[2]]);
    assert_eq!(rt; out.bytes().len(), 164);
    assert_eq!(rt;
        &out.bytes()[69..104],
        [
            0x6f, 0x72, 0x7c, 0x00, 0x00, 0x00, 0x01, 0xff, 0xff, 0xff, 0xff, 0x0c, 0x02, 0x65,
            0x6e, 0x01, 0x63, 0x01, 0x64, 0x00, 0x01, 0x0d, 0x61, 0x6d, 0x65, 0x6e, 0x69, 0x74,
            0x79, 0x3d, 0x62, 0x65, 0x6e, 0x63, 0x68,
        ]
        .as_slice()
    );
    Ok(())
}

// As many tags as a mapping has at most.
#[test]
fn many_tags(rt: HostRuntime) -> Result<(), Fail> {
    let set = plain();
    let tags = Benches {
        poi: 4096,
        way: 4096,
    };
    assert_eq!(rt; header_size(&set, &tags), 114_822);
    let mut out = OutBuf::new(rt.alloc(), 114_822)?;
    put_header(&mut out, &set, &BOX, &tags, &SUBS);
    assert_eq!(rt; out.bytes().len(), 114_822);
    assert_eq!(rt; &out.bytes()[20..24], [0x00, 0x01, 0xc0, 0x6e].as_slice());
    assert_eq!(rt;
        &out.bytes()[57_417..57_423],
        [0x68, 0x10, 0x00, 0x0d, 0x61, 0x6d].as_slice()
    );
    Ok(())
}

// The tags of a mapping that is read from a word.
#[test]
fn tags_of_a_word(rt: HostRuntime) -> Result<(), Fail> {
    let set = plain();
    let tags = one_poi(rt.alloc(), "amenity=bench@12")?;
    assert_eq!(rt; header_size(&set, &tags), 148);
    let mut out = OutBuf::new(rt.alloc(), 148)?;
    put_header(&mut out, &set, &BOX, &tags, &SUBS);
    assert_eq!(rt; out.bytes().len(), 148);
    assert_eq!(rt; &out.bytes()[20..], THREE_INTERVALS.as_slice());
    Ok(())
}

// The tags of a mapping that is read from a file with two lists.
#[test]
fn tags_of_a_file(rt: HostRuntime) -> Result<(), Fail> {
    let set = plain();
    let file =
        b"[[poi]]\nkey = \"a\"\nvalue = \"%s\"\nzoom = 0\n[[way]]\nkey = \"b\"\nvalue = \"c\"\nzoom = 9\n";
    let tags = read_mapping(rt.alloc(), file)?;
    assert_eq!(rt; header_size(&set, &tags), 143);
    let mut out = OutBuf::new(rt.alloc(), 143)?;
    put_header(&mut out, &set, &BOX, &tags, &SUBS);
    assert_eq!(rt; out.bytes().len(), 143);
    assert_eq!(rt;
        &out.bytes()[71..86],
        b"\x00\x00\x01\x04a=%s\x00\x01\x03b=c\x03".as_slice()
    );
    Ok(())
}
