//! Texts of faults, limits and reports, and whole lines.

use crate::input::put_input;
use crate::limit::put_limit;
use crate::line::Line;
use crate::lines::{finished_line, input_line, limit_line, plain_line, refusal_line};
use crate::report::put_report;
use feature_model::fault::LimitFault;
use job_words::refusal::Refusal;
use map_model::report::Report;
use mf_base::kind::EntityKind;
use osm_model::faults::{
    BlockFault, EntityFault, FrameFault, InputCode, InputFault, MessageFault, WireFault,
};

const WIRE: MessageFault = MessageFault::Wire(WireFault::Varint);

// A fault at an offset, and what is said of it.
type Said = (u64, InputCode, &'static [u8]);

// Each code once, some with other numbers, and the longest text of all.
const INPUTS: [Said; 31] = [
    (
        4611686018427387904,
        InputCode::Frame(FrameFault::TooLong),
        b"input too-long at 4611686018427387904",
    ),
    (
        73,
        InputCode::Frame(FrameFault::Truncated { have: 3 }),
        b"input truncated at 73 have 3",
    ),
    (
        0,
        InputCode::Frame(FrameFault::HeaderLength),
        b"input header-length at 0",
    ),
    (
        0,
        InputCode::Frame(FrameFault::HeaderWire(WIRE)),
        b"input header-wire at 0",
    ),
    (
        0,
        InputCode::Frame(FrameFault::NoKind),
        b"input no-type at 0",
    ),
    (
        73,
        InputCode::Frame(FrameFault::NoSize),
        b"input no-size at 73",
    ),
    (
        0,
        InputCode::Frame(FrameFault::BlobSize),
        b"input blob-size at 0",
    ),
    (
        73,
        InputCode::Frame(FrameFault::BlobWire(WIRE)),
        b"input blob-wire at 73",
    ),
    (
        128,
        InputCode::Frame(FrameFault::Compressed { field: 3 }),
        b"input compressed at 128 field 3",
    ),
    (
        73,
        InputCode::Frame(FrameFault::NoBytes),
        b"input no-data at 73",
    ),
    (
        73,
        InputCode::Frame(FrameFault::RawSize {
            told: 39,
            found: 38,
        }),
        b"input raw-size at 73 told 39 found 38",
    ),
    (
        0,
        InputCode::Block(BlockFault::Wire(WIRE)),
        b"input wire at 0",
    ),
    (
        0,
        InputCode::Block(BlockFault::BadBox),
        b"input bad-box at 0",
    ),
    (
        0,
        InputCode::Block(BlockFault::RequiredFeature),
        b"input required-feature at 0",
    ),
    (
        73,
        InputCode::Block(BlockFault::NoStrings),
        b"input no-strings at 73",
    ),
    (
        73,
        InputCode::Block(BlockFault::TooManyStrings),
        b"input too-many-strings at 73",
    ),
    (
        73,
        InputCode::Block(BlockFault::NotText { index: 1 }),
        b"input not-text at 73 index 1",
    ),
    (
        73,
        InputCode::Entity(EntityFault::Wire(WIRE)),
        b"input wire at 73",
    ),
    (
        73,
        InputCode::Entity(EntityFault::MixedGroup),
        b"input mixed-group at 73",
    ),
    (
        73,
        InputCode::Entity(EntityFault::Columns),
        b"input columns at 73",
    ),
    (
        73,
        InputCode::Entity(EntityFault::Missing),
        b"input missing at 73",
    ),
    (
        73,
        InputCode::Entity(EntityFault::Range),
        b"input range at 73",
    ),
    (
        100,
        InputCode::Entity(EntityFault::KindOrder),
        b"input kind-order at 100",
    ),
    (
        73,
        InputCode::Entity(EntityFault::OutOfOrder { last: 5, id: 5 }),
        b"input out-of-order at 73 last 5 id 5",
    ),
    (
        73,
        InputCode::Entity(EntityFault::OutOfOrder { last: 0, id: 0 }),
        b"input out-of-order at 73 last 0 id 0",
    ),
    (
        73,
        InputCode::Entity(EntityFault::OutOfOrder { last: 0, id: -1 }),
        b"input out-of-order at 73 last 0 id -1",
    ),
    (
        u64::MAX,
        InputCode::Entity(EntityFault::OutOfOrder {
            last: u64::MAX,
            id: i64::MIN,
        }),
        b"input out-of-order at 18446744073709551615 last 18446744073709551615 id -9223372036854775808",
    ),
    (
        73,
        InputCode::Entity(EntityFault::Coordinate),
        b"input coordinate at 73",
    ),
    (
        73,
        InputCode::Entity(EntityFault::KeyWithoutValue),
        b"input key-without-value at 73",
    ),
    (
        73,
        InputCode::Entity(EntityFault::StringIndex),
        b"input string-index at 73",
    ),
    (
        73,
        InputCode::Entity(EntityFault::MemberKind),
        b"input member-kind at 73",
    ),
];

#[test]
fn faults_of_inputs(rt: HostRuntime) {
    for (at, code, text) in INPUTS {
        let mut line = Line::new();
        put_input(&mut line, &InputFault { at, code });
        assert_eq!(rt; line.bytes(), text);
    }
}

// What passes its limit, and what is said of it: each kind, and the longest text of all.
const LIMITS: [(LimitFault, &[u8]); 7] = [
    (
        LimitFault::Feature {
            kind: EntityKind::Node,
            id: 1,
            weight: 65,
        },
        b"limit node 1 weight 65",
    ),
    (
        LimitFault::Feature {
            kind: EntityKind::Way,
            id: 2,
            weight: 66,
        },
        b"limit way 2 weight 66",
    ),
    (
        LimitFault::Feature {
            kind: EntityKind::Relation,
            id: 3,
            weight: 67,
        },
        b"limit relation 3 weight 67",
    ),
    (
        LimitFault::Tile {
            index: 0,
            x: 0,
            y: 0,
            weight: 65,
        },
        b"limit tile 0 x 0 y 0 weight 65",
    ),
    (
        LimitFault::Tile {
            index: 1,
            x: 17,
            y: 15,
            weight: 1048586,
        },
        b"limit tile 1 x 17 y 15 weight 1048586",
    ),
    (
        LimitFault::Tile {
            index: 255,
            x: u32::MAX,
            y: u32::MAX,
            weight: u64::MAX,
        },
        b"limit tile 255 x 4294967295 y 4294967295 weight 18446744073709551615",
    ),
    (
        LimitFault::SubFile {
            index: 2,
            size: 549755813888,
        },
        b"limit interval 2 size 549755813888",
    ),
];

#[test]
fn limits(rt: HostRuntime) {
    for (fault, text) in LIMITS {
        let mut line = Line::new();
        put_limit(&mut line, &fault);
        assert_eq!(rt; line.bytes(), text);
    }
}

// The numbers of a report, in their order, and its line: one bench, nine different numbers, and the longest line of all.
const REPORTS: [([u64; 9], &[u8]); 3] = [
    (
        [1, 0, 0, 1, 0, 1, 0, 144, 11],
        b"nodes 1 ways 0 relations 0 features 1 skipped 0 tiles 1 water 0 bytes 144 largest 11\n",
    ),
    (
        [16000, 2000, 333, 4333, 0, 9, 8, 7, 6],
        b"nodes 16000 ways 2000 relations 333 features 4333 skipped 0 tiles 9 water 8 bytes 7 largest 6\n",
    ),
    (
        [u64::MAX; 9],
        b"nodes 18446744073709551615 ways 18446744073709551615 relations 18446744073709551615 features 18446744073709551615 skipped 18446744073709551615 tiles 18446744073709551615 water 18446744073709551615 bytes 18446744073709551615 largest 18446744073709551615\n",
    ),
];

// The report of nine numbers.
fn report_of(numbers: [u64; 9]) -> Report {
    let [
        nodes,
        ways,
        relations,
        features,
        skipped,
        tiles,
        water,
        bytes,
        largest,
    ] = numbers;
    Report {
        nodes,
        ways,
        relations,
        features,
        skipped,
        tiles,
        water,
        bytes,
        largest,
    }
}

#[test]
fn reports(rt: HostRuntime) {
    for (numbers, text) in REPORTS {
        let mut line = Line::new();
        put_report(&mut line, &report_of(numbers));
        assert_eq!(rt; line.bytes(), text);
    }
}

// A fault of an input, a limit and a refusal, a text alone, and a report.
#[test]
fn whole_lines(rt: HostRuntime) {
    let fault = InputFault {
        at: 73,
        code: InputCode::Block(BlockFault::BadBox),
    };
    let limit = LimitFault::SubFile { index: 2, size: 9 };
    assert_eq!(rt;
        input_line(&fault).bytes(),
        b"mfwrite: input bad-box at 73\n".as_slice()
    );
    assert_eq!(rt;
        limit_line(&limit).bytes(),
        b"mfwrite: limit interval 2 size 9\n".as_slice()
    );
    assert_eq!(rt;
        refusal_line(Refusal::MappingLong).bytes(),
        b"mfwrite: mapping too-long\n".as_slice()
    );
    assert_eq!(rt; plain_line("read").bytes(), b"mfwrite: read\n".as_slice());
    for (numbers, text) in REPORTS {
        assert_eq!(rt; finished_line(&report_of(numbers)).bytes(), text);
    }
}
