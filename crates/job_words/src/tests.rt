//! Whole jobs of words and files, by tables.

use crate::job::{JobWords, read_job};
use crate::refusal::Refusal;
use crate::usage::usage;
use crate::usage_word::UsageWord;
use crate::values::MadeInput;
use arrayvec::ArrayString;
use mf_base::kind::List;
use mf_base::place::{Place, Rect};
use mf_edge::MemShelf;
use std::alloc::{AllocError, Global};
use std::test::Fail;
use tag_mapping::MappingFault;

// What the clock shows.
const NOW: u64 = 1234567890123;

// The file on the shelf.
const NAME: &str = "m.toml";

const ONE_ENTRY: &[u8] = b"[[poi]]\nkey = \"amenity\"\nvalue = \"bench\"\nzoom = 9\n";

const TWO_EQUAL: &[u8] =
    b"[[poi]]\nkey='amenity'\nvalue='bench'\nzoom=9\n[[poi]]\nkey='amenity'\nvalue='bench'\nzoom=5\n";

// Words, the bytes of the file, the calls of the shelf that fail, and the refusal.
type Case = (
    &'static [&'static str],
    &'static [u8],
    &'static [u64],
    Option<Refusal>,
);

const CASES: [Case; 14] = [
    (&["--poi=amenity=bench@5"], b"poi", &[1], None),
    (&["--mapping=m.toml"], ONE_ENTRY, &[], None),
    (&["--mapping=m.toml"], b"", &[], None),
    (&["--mapping", "m.toml", "--"], ONE_ENTRY, &[], None),
    (&["--mapping=n.toml"], ONE_ENTRY, &[], Some(Refusal::Read)),
    (&["--mapping=m.toml"], ONE_ENTRY, &[1], Some(Refusal::Read)),
    (&["--mapping=m.toml"], ONE_ENTRY, &[2], Some(Refusal::Read)),
    (&["--mapping=m.toml"], b"poi", &[3], Some(Refusal::Read)),
    (
        &["--mapping=m.toml"],
        b"poi",
        &[4],
        Some(Refusal::Mapping(MappingFault::Toml)),
    ),
    (
        &["--mapping=m.toml"],
        b"poi",
        &[],
        Some(Refusal::Mapping(MappingFault::Toml)),
    ),
    (
        &["--mapping=m.toml"],
        b"tiles = 1\n",
        &[],
        Some(Refusal::Mapping(MappingFault::Shape)),
    ),
    (
        &["--mapping=m.toml"],
        TWO_EQUAL,
        &[],
        Some(Refusal::Mapping(MappingFault::Twice {
            list: List::Poi,
            index: 1,
        })),
    ),
    (
        &["--mapping=m.toml", "--rows=63"],
        b"poi",
        &[1],
        Some(Refusal::Usage(UsageWord::Rows)),
    ),
    (&[], b"poi", &[1], Some(Refusal::Usage(UsageWord::Mapping))),
];

fn owned(alloc: Global, words: &[&str]) -> Result<Vec<String>, AllocError> {
    let mut all = Vec::new(alloc);
    for word in words {
        all.push(String::from_str(alloc, word)?)?;
    }
    Ok(all)
}

#[test]
fn jobs_and_their_refusals(rt: HostRuntime) -> Result<(), Fail> {
    for (words, file, fails, want) in CASES {
        let words = owned(rt.alloc(), words)?;
        let mut shelf = MemShelf::new(rt.alloc(), NAME, file, 7, fails)?;
        let refusal = read_job(rt.alloc(), &words, &mut shelf, NOW).err();
        assert_eq!(rt; refusal, want, "for {words:?} and {file:?}");
    }
    Ok(())
}

// A file of TOML that is one comment of so many bytes.
fn comment(alloc: Global, size: usize) -> Result<Vec<u8>, AllocError> {
    let mut file = Vec::new(alloc);
    file.push(b'#')?;
    for _ in 1..size {
        file.push(b'a')?;
    }
    Ok(file)
}

#[test]
fn long_files(rt: HostRuntime) -> Result<(), Fail> {
    let words = owned(rt.alloc(), &["--mapping=m.toml"])?;
    let sizes = [(524288, None), (524289, Some(Refusal::MappingLong))];
    for (size, want) in sizes {
        let file = comment(rt.alloc(), size)?;
        let mut shelf = MemShelf::new(rt.alloc(), NAME, &file, 65536, &[])?;
        assert_eq!(rt; read_job(rt.alloc(), &words, &mut shelf, NOW).err(), want);
    }
    Ok(())
}

// What is told by the numbers of a job.
#[derive(Debug, Drop, PartialEq)]
struct Told {
    bounds: Option<Rect>,
    rows: u32,
    workers: u32,
    date: u64,
    start: Option<Place>,
    start_zoom: Option<u8>,
    intervals: usize,
    made: Option<MadeInput>,
}

fn numbers_of(job: &JobWords) -> Told {
    Told {
        bounds: job.settings.bounds,
        rows: job.settings.rows,
        workers: job.settings.workers,
        date: job.settings.head.date,
        start: job.settings.head.start,
        start_zoom: job.settings.head.start_zoom,
        intervals: job.settings.head.intervals.len(),
        made: job.made,
    }
}

// The same of words with one entry as their mapping.
fn told_by(alloc: Global, words: &[&str]) -> Result<Option<Told>, AllocError> {
    let words = owned(alloc, words)?;
    let mut shelf = MemShelf::new(alloc, NAME, b"", 1, &[])?;
    match read_job(alloc, &words, &mut shelf, NOW) {
        Ok(job) => Ok(Some(numbers_of(&job))),
        Err(_) => Ok(None),
    }
}

const DEFAULTS: Told = Told {
    bounds: None,
    rows: 1048576,
    workers: 4,
    date: NOW,
    start: None,
    start_zoom: None,
    intervals: 3,
    made: None,
};

// A word for each option but `--mapping`.
const EVERY: [&str; 13] = [
    "--make=18446744073709551615,1000000",
    "--spill=here",
    "--created-by=me",
    "--comment=none",
    "--language=de,en",
    "--start-zoom=21",
    "--start=-90000000,180000000",
    "--date=0",
    "--workers=64",
    "--rows=64",
    "--box=-1,-2,3,4",
    "--intervals=0:0:7",
    "--poi=amenity=bench@5",
];

const ALL_GIVEN: Told = Told {
    bounds: Some(Rect {
        min_lat: -1,
        min_lon: -2,
        max_lat: 3,
        max_lon: 4,
    }),
    rows: 64,
    workers: 64,
    date: 0,
    start: Some(Place {
        lat: -90000000,
        lon: 180000000,
    }),
    start_zoom: Some(21),
    intervals: 1,
    made: Some(MadeInput {
        seed: 18446744073709551615,
        size: 1000000,
    }),
};

#[test]
fn numbers_of_jobs(rt: HostRuntime) -> Result<(), Fail> {
    assert_eq!(rt;
        told_by(rt.alloc(), &["--poi=amenity=bench@5"])?,
        Some(DEFAULTS)
    );
    assert_eq!(rt; told_by(rt.alloc(), &EVERY)?, Some(ALL_GIVEN));
    Ok(())
}

// Words, and the texts that they give: language, comment, creator and folder.
type Texts = [Option<&'static str>; 4];

const TEXTS: [(&[&str], Texts); 3] = [
    (&["--poi=a=b@0"], [None, None, None, Some("mfwrite.spill")]),
    (
        &[
            "--created-by=Me",
            "--language=de,en",
            "--poi=a=b@0",
            "--comment=von \u{e4}",
        ],
        [
            Some("de,en"),
            Some("von \u{e4}"),
            Some("Me"),
            Some("mfwrite.spill"),
        ],
    ),
    (
        &["--poi=a=b@0", "--spill", "a/b", "--comment", "c", "--"],
        [None, Some("c"), None, Some("a/b")],
    ),
];

// Whether a text of the header is the one that is wanted.
fn is_text(text: &Option<ArrayString<255>>, want: Option<&str>) -> bool {
    match text {
        Some(text) => want == Some(text.as_str()),
        None => want.is_none(),
    }
}

// Whether the texts of a job are those that are wanted.
fn has_texts(job: &JobWords, want: Texts) -> bool {
    let head = &job.settings.head;
    is_text(&head.language, want[0])
        && is_text(&head.comment, want[1])
        && is_text(&head.created_by, want[2])
        && want[3] == Some(job.settings.folder.as_str())
}

#[test]
fn texts_of_jobs(rt: HostRuntime) -> Result<(), Fail> {
    for (words, want) in TEXTS {
        let words = owned(rt.alloc(), words)?;
        let mut shelf = MemShelf::new(rt.alloc(), NAME, b"", 1, &[])?;
        match read_job(rt.alloc(), &words, &mut shelf, NOW) {
            Ok(job) => assert!(rt; has_texts(&job, want), "of {words:?}"),
            Err(refusal) => assert!(rt; false, "{refusal:?} of {words:?}"),
        }
    }
    Ok(())
}

// A word behind `--poi=a=b@0`, and the option that refuses it: each value on both sides of its bounds.
const BOUNDS: [(&str, Option<UsageWord>); 24] = [
    ("--intervals=0:0:21", None),
    ("--intervals=0:0:22", Some(UsageWord::Intervals)),
    ("--intervals=16:16:16", None),
    ("--intervals=17:16:17", Some(UsageWord::Intervals)),
    ("--intervals=0:1:7", Some(UsageWord::Intervals)),
    ("--box=-90000000,-180000000,90000000,180000000", None),
    ("--box=-90000001,0,0,0", Some(UsageWord::Box)),
    ("--box=0,-180000001,0,0", Some(UsageWord::Box)),
    ("--box=0,0,90000001,0", Some(UsageWord::Box)),
    ("--box=0,0,0,180000001", Some(UsageWord::Box)),
    ("--box=5,7,5,7", None),
    ("--box=5,7,4,7", Some(UsageWord::Box)),
    ("--box=5,7,5,6", Some(UsageWord::Box)),
    ("--date=0", None),
    ("--date=-1", Some(UsageWord::Date)),
    ("--start=-90000000,-180000000", None),
    ("--start=-90000001,0", Some(UsageWord::Start)),
    ("--start=0,-180000001", Some(UsageWord::Start)),
    ("--start=0,180000001", Some(UsageWord::Start)),
    ("--start-zoom=0", None),
    ("--start-zoom=-1", Some(UsageWord::StartZoom)),
    ("--workers=00000000000000000064", None),
    ("--workers=000000000000000000064", Some(UsageWord::Workers)),
    ("--make=0,1", None),
];

#[test]
fn values_at_their_bounds(rt: HostRuntime) -> Result<(), Fail> {
    for (word, want) in BOUNDS {
        let words = owned(rt.alloc(), &["--poi=a=b@0", word])?;
        assert_eq!(rt; usage(&words), want, "with {word}");
    }
    Ok(())
}

// Words, the front of one more, how many bytes follow it, and the option that is refused.
type Long = (
    &'static [&'static str],
    &'static str,
    usize,
    Option<UsageWord>,
);

const LONG: [Long; 10] = [
    (&["--poi=a=b@0"], "--language=", 255, None),
    (
        &["--poi=a=b@0"],
        "--language=",
        256,
        Some(UsageWord::Language),
    ),
    (&["--poi=a=b@0"], "--comment=", 255, None),
    (
        &["--poi=a=b@0"],
        "--comment=",
        256,
        Some(UsageWord::Comment),
    ),
    (&["--poi=a=b@0"], "--created-by=", 255, None),
    (
        &["--poi=a=b@0"],
        "--created-by=",
        256,
        Some(UsageWord::CreatedBy),
    ),
    (&["--poi=a=b@0"], "--spill=", 4095, None),
    (&["--poi=a=b@0"], "--spill=", 4096, Some(UsageWord::Spill)),
    (&[], "--mapping=", 4095, None),
    (&[], "--mapping=", 4096, Some(UsageWord::Mapping)),
];

// A word with so many bytes behind its front.
fn long_word(alloc: Global, front: &str, size: usize) -> Result<String, AllocError> {
    let mut word = String::from_str(alloc, front)?;
    for _ in 0..size {
        word.push('a')?;
    }
    Ok(word)
}

#[test]
fn long_values(rt: HostRuntime) -> Result<(), Fail> {
    for (words, front, size, want) in LONG {
        let mut words = owned(rt.alloc(), words)?;
        words.push(long_word(rt.alloc(), front, size)?)?;
        assert_eq!(rt; usage(&words), want, "for {front} and {size} bytes");
    }
    Ok(())
}
