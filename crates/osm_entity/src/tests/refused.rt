//! Blocks with a fault, as bytes: a line for each entity before it, and the fault. Of causes that stand together the
//! one that counts.

use osm_model::faults::EntityFault::*;
use osm_model::faults::{EntityFault, MessageFault, WireFault};

const VARINT: EntityFault = Wire(MessageFault::Wire(WireFault::Varint));

const KIND: EntityFault = Wire(MessageFault::Wire(WireFault::Kind));

const LENGTH: EntityFault = Wire(MessageFault::Wire(WireFault::Length));

// Groups that are refused: what a block has behind its strings, the lines before the fault, and the fault.
pub const GROUPS: [(&[&[u8]], &[&str], EntityFault); 10] = [
    // A group: a field of another form, dense nodes that come twice, a number of no field, a length past the end.
    (
        &[b"\x12\x02\x08\x00"],
        &[],
        Wire(MessageFault::Form { field: 1 }),
    ),
    (
        &[b"\x12\x04\x12\x00\x12\x00"],
        &[],
        Wire(MessageFault::Twice { field: 2 }),
    ),
    (&[b"\x12\x01\x00"], &[], KIND),
    (&[b"\x12\x02\x0A\x05"], &[], LENGTH),
    // The same in a later group; the groups before are read.
    (
        &[
            b"\x12\x08\x0A\x06\x08\x02\x40\x00\x48\x00\x12\x08\x0A\x06\x08\x04\x40\x00\x48\x00",
            b"\x12\x02\x20\x00",
        ],
        &["node 1 at 0, 0\n", "node 2 at 0, 0\n"],
        Wire(MessageFault::Form { field: 4 }),
    ),
    // Two kinds; a fault of the group comes before, and a fault of its objects behind.
    (
        &[b"\x12\x0C\x0A\x06\x08\x02\x40\x00\x48\x00\x1A\x02\x08\x01"],
        &[],
        MixedGroup,
    ),
    (
        &[
            b"\x12\x08\x0A\x06\x08\x02\x40\x00\x48\x00\x12\x0A\x2A\x00\x0A\x06\x08\x04\x40\x00",
            b"\x48\x00",
        ],
        &["node 1 at 0, 0\n"],
        MixedGroup,
    ),
    (
        &[b"\x12\x0A\x12\x00\x0A\x06\x08\x02\x40\x00\x48\x00"],
        &[],
        MixedGroup,
    ),
    (
        &[b"\x12\x0E\x0A\x06\x08\x02\x40\x00\x48\x00\x1A\x02\x08\x01\x18\x00"],
        &[],
        Wire(MessageFault::Form { field: 3 }),
    ),
    (&[b"\x12\x06\x0A\x00\x22\x02\x08\x01"], &[], MixedGroup),
];

// Plain nodes that are refused: what a block has behind its strings, the lines before the fault, and the fault.
pub const NODES: [(&[&[u8]], &[&str], EntityFault); 28] = [
    // A node: no such message; without its id, its latitude or its longitude.
    (
        &[b"\x12\x0A\x0A\x08\x42\x00\x08\x02\x40\x00\x48\x00"],
        &[],
        Wire(MessageFault::Form { field: 8 }),
    ),
    (
        &[
            b"\x12\x19\x0A\x06\x08\x02\x40\x00\x48\x00\x0A\x0F\x08\x04\x12\x01\x01\x1A\x01\x02",
            b"\x40\x00\x48\x00\x12\x01\x01",
        ],
        &["node 1 at 0, 0\n"],
        Wire(MessageFault::Twice { field: 2 }),
    ),
    (
        &[b"\x12\x0B\x0A\x09\x08\x02\x40\x00\x48\x00\x1A\x01\x80"],
        &[],
        VARINT,
    ),
    (&[b"\x12\x06\x0A\x04\x40\x00\x48\x00"], &[], Missing),
    (&[b"\x12\x06\x0A\x04\x08\x02\x48\x00"], &[], Missing),
    (
        &[b"\x12\x0E\x0A\x06\x08\x02\x40\x00\x48\x00\x0A\x04\x08\x04\x40\x00"],
        &["node 1 at 0, 0\n"],
        Missing,
    ),
    (
        &[b"\x12\x08\x0A\x06\x40\x00\x48\x00\x10\x00"],
        &[],
        Wire(MessageFault::Form { field: 2 }),
    ),
    // A node behind a way or a relation; without its latitude; with an id below the last.
    (
        &[b"\x12\x04\x1A\x02\x08\x01\x12\x08\x0A\x06\x08\x02\x40\x00\x48\x00"],
        &["way 1:\n"],
        KindOrder,
    ),
    (
        &[b"\x12\x04\x22\x02\x08\x01\x12\x08\x0A\x06\x08\x02\x40\x00\x48\x00"],
        &["relation 1:\n"],
        KindOrder,
    ),
    (
        &[b"\x12\x04\x1A\x02\x08\x01\x12\x06\x0A\x04\x08\x02\x48\x00"],
        &["way 1:\n"],
        Missing,
    ),
    (
        &[
            b"\x12\x08\x0A\x06\x08\x0A\x40\x00\x48\x00\x12\x04\x1A\x02\x08\x01\x12\x08\x0A\x06",
            b"\x08\x0A\x40\x00\x48\x00",
        ],
        &["node 5 at 0, 0\n", "way 1:\n"],
        KindOrder,
    ),
    // An id that is not above the last; a place that is none, too.
    (
        &[b"\x12\x08\x0A\x06\x08\x00\x40\x00\x48\x00"],
        &[],
        OutOfOrder { last: 0, id: 0 },
    ),
    (
        &[b"\x12\x08\x0A\x06\x08\x09\x40\x00\x48\x00"],
        &[],
        OutOfOrder { last: 0, id: -5 },
    ),
    (
        &[b"\x12\x11\x0A\x0F\x08\xFF\xFF\xFF\xFF\xFF\xFF\xFF\xFF\xFF\x01\x40\x00\x48\x00"],
        &[],
        OutOfOrder {
            last: 0,
            id: i64::MIN,
        },
    ),
    (
        &[b"\x12\x10\x0A\x06\x08\x0A\x40\x00\x48\x00\x0A\x06\x08\x0A\x40\x00\x48\x00"],
        &["node 5 at 0, 0\n"],
        OutOfOrder { last: 5, id: 5 },
    ),
    (
        &[
            b"\x12\x08\x0A\x06\x08\x0A\x40\x00\x48\x00\x12\x0C\x0A\x0A\x08\x08",
            b"\x40\x82\xA4\xA7\xDA\x06\x48\x00",
        ],
        &["node 5 at 0, 0\n"],
        OutOfOrder { last: 5, id: 4 },
    ),
    // A place beyond each end, by one nanodegree; a key without a value, too.
    (
        &[b"\x88\x01\x01\x12\x0D\x0A\x0B\x08\x02\x40\x82\x90\xD8\xC6\x9E\x05\x48\x00"],
        &[],
        Coordinate,
    ),
    (
        &[
            b"\x88\x01\x01\x12\x15\x0A\x06\x08\x02\x40\x00\x48\x00\x0A\x0B\x08\x04",
            b"\x40\x81\x90\xD8\xC6\x9E\x05\x48\x00",
        ],
        &["node 1 at 0, 0\n"],
        Coordinate,
    ),
    (
        &[b"\x88\x01\x01\x12\x0D\x0A\x0B\x08\x02\x40\x00\x48\x82\xA0\xB0\x8D\xBD\x0A"],
        &[],
        Coordinate,
    ),
    (
        &[b"\x88\x01\x01\x12\x0D\x0A\x0B\x08\x02\x40\x00\x48\x81\xA0\xB0\x8D\xBD\x0A"],
        &[],
        Coordinate,
    ),
    (
        &[
            b"\x88\x01\x80\x80\x80\x80\x80\x80\x80\x80\x80\x01",
            b"\x98\x01\x80\x80\x80\x80\x80\x80\x80\x80\x80\x01\x12\x11\x0A\x0F\x08\x02",
            b"\x40\xFE\xFF\xFF\xFF\xFF\xFF\xFF\xFF\xFF\x01\x48\x00",
        ],
        &[],
        Coordinate,
    ),
    (
        &[b"\x12\x11\x0A\x0F\x08\x02\x12\x01\x01\x1A\x00\x40\x82\xA4\xA7\xDA\x06\x48\x00"],
        &[],
        Coordinate,
    ),
    // Keys and values that differ in number, also behind an index of no string.
    (
        &[b"\x12\x0B\x0A\x09\x08\x02\x12\x01\x01\x40\x00\x48\x00"],
        &[],
        KeyWithoutValue,
    ),
    (
        &[
            b"\x12\x17\x0A\x06\x08\x02\x40\x00\x48\x00\x0A\x0D\x08\x04\x12\x01\x01\x1A\x02\x02",
            b"\x02\x40\x00\x48\x00",
        ],
        &["node 1 at 0, 0\n"],
        KeyWithoutValue,
    ),
    (
        &[b"\x12\x0F\x0A\x0D\x08\x02\x12\x02\x05\x01\x1A\x01\x02\x40\x00\x48\x00"],
        &[],
        KeyWithoutValue,
    ),
    // An index of no string, of a key and of a value.
    (
        &[b"\x12\x0E\x0A\x0C\x08\x02\x12\x01\x05\x1A\x01\x02\x40\x00\x48\x00"],
        &[],
        StringIndex,
    ),
    (
        &[
            b"\x12\x18\x0A\x06\x08\x02\x40\x00\x48\x00\x0A\x0E\x08\x04\x12\x02\x01\x01\x1A\x02",
            b"\x02\x05\x40\x00\x48\x00",
        ],
        &["node 1 at 0, 0\n"],
        StringIndex,
    ),
    (
        &[
            b"\x12\x17\x0A\x15\x08\x02\x12\x0A\xFF\xFF\xFF\xFF\xFF\xFF\xFF\xFF\xFF\x01\x1A\x01",
            b"\x02\x40\x00\x48\x00",
        ],
        &[],
        StringIndex,
    ),
];

// Dense nodes that are refused: what a block has behind its strings, the lines before the fault, and the fault.
pub const DENSE: [(&[&[u8]], &[&str], EntityFault); 27] = [
    // Dense nodes: no such message; columns that differ in length, too.
    (
        &[b"\x12\x0D\x12\x0B\x0A\x01\x02\x42\x01\x00\x4A\x01\x00\x50\x00"],
        &[],
        Wire(MessageFault::Form { field: 10 }),
    ),
    (
        &[b"\x12\x0D\x12\x0B\x0A\x01\x02\x42\x00\x4A\x01\x00\x0A\x01\x01"],
        &[],
        Wire(MessageFault::Twice { field: 1 }),
    ),
    // Columns that differ in length; a sum out of range, too.
    (
        &[b"\x12\x0D\x12\x0B\x0A\x02\x02\x02\x42\x01\x00\x4A\x02\x00\x00"],
        &[],
        Columns,
    ),
    (
        &[b"\x12\x0C\x12\x0A\x0A\x01\x02\x42\x01\x00\x4A\x02\x00\x00"],
        &[],
        Columns,
    ),
    (
        &[b"\x12\x08\x0A\x06\x08\x02\x40\x00\x48\x00\x12\x08\x12\x06\x42\x01\x00\x4A\x01\x00"],
        &["node 1 at 0, 0\n"],
        Columns,
    ),
    (
        &[
            b"\x12\x16\x12\x14\x0A\x0B\x02\xFE\xFF\xFF\xFF\xFF\xFF\xFF\xFF\xFF\x01\x42\x02\x00",
            b"\x00\x4A\x01\x00",
        ],
        &[],
        Columns,
    ),
    // A sum out of range, of each column; an id that does not rise, too.
    (
        &[
            b"\x12\x17\x12\x15\x0A\x0B\xFE\xFF\xFF\xFF\xFF\xFF\xFF\xFF\xFF\x01\x02\x42\x02\x00",
            b"\x00\x4A\x02\x00\x00",
        ],
        &["node 9223372036854775807 at 0, 0\n"],
        Range,
    ),
    (
        &[
            b"\x12\x17\x12\x15\x0A\x02\x02\x02\x42\x0B\x00",
            b"\xFF\xFF\xFF\xFF\xFF\xFF\xFF\xFF\xFF\x01\x4A\x02\x00\x00",
        ],
        &["node 1 at 0, 0\n"],
        Coordinate,
    ),
    (
        &[
            b"\x88\x01\x00\x12\x17\x12\x15\x0A\x02\x02\x02\x42\x0B\x01",
            b"\xFF\xFF\xFF\xFF\xFF\xFF\xFF\xFF\xFF\x01\x4A\x02\x00\x00",
        ],
        &["node 1 at 0, 0\n"],
        Range,
    ),
    (
        &[
            b"\x88\x01\x00\x12\x1A\x12\x18\x0A\x03\x02\x02\x02\x42\x03\x00\x00\x00\x4A\x0C\x00",
            b"\xFE\xFF\xFF\xFF\xFF\xFF\xFF\xFF\xFF\x01\x02",
        ],
        &["node 1 at 0, 0\n", "node 2 at 0, 0\n"],
        Range,
    ),
    (
        &[
            b"\x88\x01\x00\x12\x17\x12\x15\x0A\x02\x08\x01\x42\x0B\x01",
            b"\xFF\xFF\xFF\xFF\xFF\xFF\xFF\xFF\xFF\x01\x4A\x02\x00\x00",
        ],
        &["node 4 at 0, 0\n"],
        Range,
    ),
    // The order of dense nodes; a place that is none, too.
    (
        &[b"\x12\x04\x22\x02\x08\x01\x12\x0B\x12\x09\x0A\x01\x00\x42\x01\x00\x4A\x01\x00"],
        &["relation 1:\n"],
        KindOrder,
    ),
    (
        &[b"\x12\x04\x1A\x02\x08\x01\x12\x0B\x12\x09\x0A\x01\x02\x42\x01\x00\x4A\x01\x00"],
        &["way 1:\n"],
        KindOrder,
    ),
    (
        &[b"\x12\x0B\x12\x09\x0A\x01\x00\x42\x01\x00\x4A\x01\x00"],
        &[],
        OutOfOrder { last: 0, id: 0 },
    ),
    (
        &[b"\x12\x12\x12\x10\x0A\x02\x08\x01\x42\x06\x00\x82\xA4\xA7\xDA\x06\x4A\x02\x00\x00"],
        &["node 4 at 0, 0\n"],
        OutOfOrder { last: 4, id: 3 },
    ),
    (
        &[
            b"\x12\x08\x0A\x06\x08\x08\x40\x00\x48\x00\x12\x0B\x12\x09\x0A\x01\x08\x42\x01\x00",
            b"\x4A\x01\x00",
        ],
        &["node 4 at 0, 0\n"],
        OutOfOrder { last: 4, id: 4 },
    ),
    // A place beyond an end; an index of no string, too.
    (
        &[
            b"\x12\x18\x12\x16\x0A\x02\x08\x02\x42\x06\x00\x82\xA4\xA7\xDA\x06\x4A\x02\x00\x00",
            b"\x52\x04\x00\x05\x05\x00",
        ],
        &["node 4 at 0, 0\n"],
        Coordinate,
    ),
    (
        &[b"\x12\x0F\x12\x0D\x0A\x01\x08\x42\x01\x00\x4A\x05\x81\xC8\xCE\xB4\x0D"],
        &[],
        Coordinate,
    ),
    // An index of no string, of a key and of a value.
    (
        &[b"\x12\x10\x12\x0E\x0A\x01\x08\x42\x01\x00\x4A\x01\x00\x52\x03\x05\x01\x00"],
        &[],
        StringIndex,
    ),
    (
        &[
            b"\x12\x16\x12\x14\x0A\x02\x08\x02\x42\x02\x00\x00\x4A\x02\x00\x00\x52\x06\x01\x02",
            b"\x00\x01\x05\x00",
        ],
        &["node 4 at 0, 0 name=A\n"],
        StringIndex,
    ),
    // Keys and values that end behind a key; its index, too.
    (
        &[b"\x12\x10\x12\x0E\x0A\x01\x08\x42\x01\x00\x4A\x01\x00\x52\x03\x01\x02\x01"],
        &[],
        KeyWithoutValue,
    ),
    (
        &[b"\x12\x10\x12\x0E\x0A\x01\x08\x42\x01\x00\x4A\x01\x00\x52\x03\x01\x02\x05"],
        &[],
        StringIndex,
    ),
    // Keys and values that end without a 0, behind a pair and behind the node before.
    (
        &[b"\x12\x0F\x12\x0D\x0A\x01\x08\x42\x01\x00\x4A\x01\x00\x52\x02\x01\x02"],
        &[],
        Columns,
    ),
    (
        &[
            b"\x12\x13\x12\x11\x0A\x02\x08\x02\x42\x02\x00\x00\x4A\x02\x00\x00\x52\x03\x01\x02",
            b"\x00",
        ],
        &["node 4 at 0, 0 name=A\n"],
        Columns,
    ),
    (
        &[b"\x12\x0F\x12\x0D\x0A\x01\x08\x42\x01\x00\x4A\x01\x00\x52\x02\x05\x02"],
        &[],
        StringIndex,
    ),
    // Keys and values that are left behind the last node, also where there is none.
    (
        &[b"\x12\x0F\x12\x0D\x0A\x01\x08\x42\x01\x00\x4A\x01\x00\x52\x02\x00\x00"],
        &["node 4 at 0, 0\n"],
        Columns,
    ),
    (
        &[b"\x12\x0B\x12\x09\x0A\x00\x42\x00\x4A\x00\x52\x01\x00"],
        &[],
        Columns,
    ),
];

// Ways that are refused: what a block has behind its strings, the lines before the fault, and the fault.
pub const WAYS: [(&[&[u8]], &[&str], EntityFault); 13] = [
    // A way: no such message; without its id; both.
    (
        &[b"\x12\x06\x1A\x04\x08\x01\x40\x00"],
        &[],
        Wire(MessageFault::Form { field: 8 }),
    ),
    (
        &[b"\x12\x06\x1A\x02\x08\x01\x1A\x00"],
        &["way 1:\n"],
        Missing,
    ),
    (
        &[b"\x12\x04\x1A\x02\x18\x00"],
        &[],
        Wire(MessageFault::Form { field: 3 }),
    ),
    // A way behind a relation; without its id; with an id that is none.
    (
        &[b"\x12\x04\x22\x02\x08\x01\x12\x04\x1A\x02\x08\x01"],
        &["relation 1:\n"],
        KindOrder,
    ),
    (
        &[b"\x12\x04\x22\x02\x08\x01\x12\x02\x1A\x00"],
        &["relation 1:\n"],
        Missing,
    ),
    (
        &[b"\x12\x04\x22\x02\x08\x01\x12\x04\x1A\x02\x08\x00"],
        &["relation 1:\n"],
        KindOrder,
    ),
    // An id that is not above the last; a key without a value, too.
    (
        &[b"\x12\x0D\x1A\x0B\x08\xFF\xFF\xFF\xFF\xFF\xFF\xFF\xFF\xFF\x01"],
        &[],
        OutOfOrder { last: 0, id: -1 },
    ),
    (
        &[
            b"\x12\x08\x0A\x06\x08\x12\x40\x00\x48\x00\x12\x0B\x1A\x02\x08\x03\x1A\x05\x08\x03",
            b"\x12\x01\x01",
        ],
        &["node 9 at 0, 0\n", "way 3:\n"],
        OutOfOrder { last: 3, id: 3 },
    ),
    // A key without a value, also behind an index of no string.
    (
        &[b"\x12\x0B\x1A\x02\x08\x01\x1A\x05\x08\x02\x12\x01\x01"],
        &["way 1:\n"],
        KeyWithoutValue,
    ),
    (
        &[b"\x12\x0B\x1A\x09\x08\x02\x12\x01\x05\x1A\x02\x05\x05"],
        &[],
        KeyWithoutValue,
    ),
    // An index of no string; refs out of range, too.
    (
        &[
            b"\x12\x17\x1A\x15\x08\x02\x12\x01\x01\x1A\x01\x05\x42\x0B",
            b"\xFE\xFF\xFF\xFF\xFF\xFF\xFF\xFF\xFF\x01\x02",
        ],
        &[],
        StringIndex,
    ),
    // Refs out of range, at each end.
    (
        &[b"\x12\x11\x1A\x0F\x08\x02\x42\x0B\xFE\xFF\xFF\xFF\xFF\xFF\xFF\xFF\xFF\x01\x02"],
        &[],
        Range,
    ),
    (
        &[
            b"\x12\x17\x1A\x02\x08\x01\x1A\x11\x08\x02\x42\x0D\x0A\x0B",
            b"\xFF\xFF\xFF\xFF\xFF\xFF\xFF\xFF\xFF\x01\x06",
        ],
        &["way 1:\n"],
        Range,
    ),
];

// Relations that are refused: what a block has behind its strings, the lines before the fault, and the fault.
pub const RELATIONS: [(&[&[u8]], &[&str], EntityFault); 18] = [
    // A relation: no such message; without its id; both.
    (
        &[b"\x12\x06\x22\x04\x08\x01\x50\x00"],
        &[],
        Wire(MessageFault::Form { field: 10 }),
    ),
    (
        &[b"\x12\x06\x22\x02\x08\x01\x22\x00"],
        &["relation 1:\n"],
        Missing,
    ),
    (
        &[b"\x12\x04\x22\x02\x48\x00"],
        &[],
        Wire(MessageFault::Form { field: 9 }),
    ),
    // An id that is not above the last; a key without a value, too.
    (
        &[b"\x12\x04\x22\x02\x08\x00"],
        &[],
        OutOfOrder { last: 0, id: 0 },
    ),
    (
        &[b"\x12\x04\x1A\x02\x08\x09\x12\x0B\x22\x02\x08\x03\x22\x05\x08\x02\x12\x01\x01"],
        &["way 9:\n", "relation 3:\n"],
        OutOfOrder { last: 3, id: 2 },
    ),
    // A key without a value, also behind an index of no string.
    (
        &[b"\x12\x0B\x22\x02\x08\x01\x22\x05\x08\x02\x1A\x01\x01"],
        &["relation 1:\n"],
        KeyWithoutValue,
    ),
    (
        &[b"\x12\x0B\x22\x09\x08\x02\x12\x02\x05\x05\x1A\x01\x05"],
        &[],
        KeyWithoutValue,
    ),
    // An index of no string; columns that differ in length, too.
    (
        &[b"\x12\x0D\x22\x0B\x08\x02\x12\x01\x05\x1A\x01\x01\x42\x01\x00"],
        &[],
        StringIndex,
    ),
    // Columns that differ in length, of each; a role of no string, too.
    (
        &[b"\x12\x0F\x22\x0D\x08\x02\x42\x01\x00\x4A\x02\x02\x02\x52\x02\x00\x00"],
        &[],
        Columns,
    ),
    (
        &[b"\x12\x0F\x22\x0D\x08\x02\x42\x02\x00\x00\x4A\x01\x02\x52\x02\x00\x00"],
        &[],
        Columns,
    ),
    (
        &[
            b"\x12\x13\x22\x02\x08\x01\x22\x0D\x08\x02\x42\x02\x00\x00\x4A\x02\x02\x02\x52\x01",
            b"\x00",
        ],
        &["relation 1:\n"],
        Columns,
    ),
    (
        &[b"\x12\x0A\x22\x08\x08\x02\x42\x01\x05\x4A\x01\x02"],
        &[],
        Columns,
    ),
    (&[b"\x12\x07\x22\x05\x08\x02\x52\x01\x00"], &[], Columns),
    // A role of no string; an id out of range, too.
    (
        &[
            b"\x12\x19\x22\x17\x08\x02\x42\x02\x00\x05\x4A\x0B",
            b"\xFE\xFF\xFF\xFF\xFF\xFF\xFF\xFF\xFF\x01\x02\x52\x02\x00\x00",
        ],
        &[],
        StringIndex,
    ),
    // An id out of range; a type of no kind, too.
    (
        &[
            b"\x12\x19\x22\x17\x08\x02\x42\x02\x00\x00\x4A\x0B",
            b"\xFF\xFF\xFF\xFF\xFF\xFF\xFF\xFF\xFF\x01\x01\x52\x02\x00\x03",
        ],
        &[],
        Range,
    ),
    // A type of no kind, of the first member and of a later one.
    (
        &[b"\x12\x0D\x22\x0B\x08\x02\x42\x01\x00\x4A\x01\x02\x52\x01\x03"],
        &[],
        MemberKind,
    ),
    (
        &[
            b"\x12\x1D\x22\x02\x08\x01\x22\x17\x08\x02\x42\x02\x00\x00\x4A\x02\x02\x02\x52\x0B",
            b"\x00\xFF\xFF\xFF\xFF\xFF\xFF\xFF\xFF\xFF\x01",
        ],
        &["relation 1:\n"],
        MemberKind,
    ),
    // Of two members the first counts.
    (
        &[b"\x12\x10\x22\x0E\x08\x02\x42\x02\x00\x05\x4A\x02\x02\x02\x52\x02\x03\x00"],
        &[],
        MemberKind,
    ),
];
