//! Blocks without a fault behind their strings, as bytes, and a line for each of their entities.

pub const READ: [(&[&[u8]], &[&str]); 34] = [
    // Nothing but strings.
    (&[], &[]),
    // Plain nodes; the defaults, and places cut towards zero.
    (
        &[
            b"\x12\x1E\x0A\x0C\x08\x02\x12\x01\x01\x1A\x01\x02\x40\x26\x48\x25\x0A\x0E\x08\x0E",
            b"\x12\x02\x03\x01\x1A\x02\x04\x00\x40\x11\x48\x12",
        ],
        &["node 1 at 1, -1 name=A\n", "node 7 at 0, 0 ref=B name=\n"],
    ),
    // The same nodes, dense.
    (
        &[
            b"\x12\x18\x12\x16\x0A\x02\x02\x0C\x42\x02\x26\x37\x4A\x02\x25\x38\x52\x08\x01\x02",
            b"\x00\x03\x04\x01\x00\x00",
        ],
        &["node 1 at 1, -1 name=A\n", "node 7 at 0, 0 ref=B name=\n"],
    ),
    // The same nodes, in two groups and in two forms.
    (
        &[
            b"\x12\x0E\x0A\x0C\x08\x02\x12\x01\x01\x1A\x01\x02\x40\x26\x48\x25\x12\x12\x12\x10",
            b"\x0A\x01\x0E\x42\x01\x11\x4A\x01\x12\x52\x05\x03\x04\x01\x00\x00",
        ],
        &["node 1 at 1, -1 name=A\n", "node 7 at 0, 0 ref=B name=\n"],
    ),
    // Negative places, and in granularity 1 each digit that is cut off.
    (
        &[
            b"\x88\x01\x01\x12\x24\x12\x22\x0A\x08\x02\x02\x02\x02\x02\x02\x02\x02\x42\x0A\x01",
            b"\x0F\x01\xB1\x01\x01\x85\x0E\x01\x01\x4A\x0A\x02\x10\x02\xB2\x01\x02\x86\x0E\x02",
            b"\x02",
        ],
        &[
            "node 1 at 0, 0\n",
            "node 2 at 0, 0\n",
            "node 3 at 0, 0\n",
            "node 4 at 0, 0\n",
            "node 5 at 0, 0\n",
            "node 6 at 0, 0\n",
            "node 7 at -1, 1\n",
            "node 8 at -1, 1\n",
        ],
    ),
    (
        &[
            b"\x88\x01\x01\x12\x20\x12\x1E\x0A\x06\x02\x02\x02\x02\x02\x02\x42\x09\xE1\x0F\x01",
            b"\xB1\x01\x01\x85\x0E\x01\x4A\x09\xE2\x0F\x02\xB2\x01\x02\x86\x0E\x02",
        ],
        &[
            "node 1 at -1, 1\n",
            "node 2 at -1, 1\n",
            "node 3 at -1, 1\n",
            "node 4 at -1, 1\n",
            "node 5 at -1, 1\n",
            "node 6 at -2, 2\n",
        ],
    ),
    // A granularity and offsets, behind the group; of a number that comes twice the last counts.
    (
        &[
            b"\x88\x01\x05\x12\x08\x0A\x06\x08\x02\x40\x04\x48\x03",
            b"\x98\x01\xFB\xFF\xFF\xFF\xFF\xFF\xFF\xFF\xFF\x01\xA0\x01\x07\x88\x01\xE8\x07",
        ],
        &["node 1 at 1, -1\n"],
    ),
    // A negative granularity, and none.
    (
        &[
            b"\x88\x01\xFF\xFF\xFF\xFF\xFF\xFF\xFF\xFF\xFF\x01\x12\x0A\x0A\x08\x08\x02",
            b"\x40\x90\x4E\x48\x8F\x4E",
        ],
        &["node 1 at -5, 5\n"],
    ),
    (
        &[
            b"\x88\x01\x00\x12\x1A\x0A\x18\x08\x02\x40\xFE\xFF\xFF\xFF\xFF\xFF\xFF\xFF\xFF\x01",
            b"\x48\xFF\xFF\xFF\xFF\xFF\xFF\xFF\xFF\xFF\x01",
            b"\x98\x01\x98\xF8\xFF\xFF\xFF\xFF\xFF\xFF\xFF\x01",
        ],
        &["node 1 at -1, 0\n"],
    ),
    // Nanodegrees of an offset and a product that are both far out.
    (
        &[
            b"\x88\x01\x80\x80\x80\x80\x80\x80\x80\x80\x40",
            b"\x98\x01\x80\x80\x80\x80\x80\x80\x80\x80\x80\x01\x12\x08\x0A\x06\x08\x02\x40\x04",
            b"\x48\x00",
        ],
        &["node 1 at 0, 0\n"],
    ),
    // The ends of latitude and longitude.
    (
        &[
            b"\x12\x20\x0A\x0E\x08\x02\x40\x80\xA4\xA7\xDA\x06\x48\x80\xC8\xCE\xB4\x0D\x0A\x0E",
            b"\x08\x04\x40\xFF\xA3\xA7\xDA\x06\x48\xFF\xC7\xCE\xB4\x0D",
        ],
        &[
            "node 1 at 90000000, 180000000\n",
            "node 2 at -90000000, -180000000\n",
        ],
    ),
    // The ends of ids: 1 and 2^63 - 1, also in dense columns.
    (
        &[
            b"\x12\x19\x0A\x06\x08\x02\x40\x00\x48\x00\x0A\x0F",
            b"\x08\xFE\xFF\xFF\xFF\xFF\xFF\xFF\xFF\xFF\x01\x40\x00\x48\x00",
        ],
        &["node 1 at 0, 0\n", "node 9223372036854775807 at 0, 0\n"],
    ),
    (
        &[
            b"\x12\x17\x12\x15\x0A\x0B\x02\xFC\xFF\xFF\xFF\xFF\xFF\xFF\xFF\xFF\x01\x42\x02\x00",
            b"\x00\x4A\x02\x00\x00",
        ],
        &["node 1 at 0, 0\n", "node 9223372036854775807 at 0, 0\n"],
    ),
    (
        &[
            b"\x12\x10\x1A\x02\x08\x01\x1A\x0A\x08\xFF\xFF\xFF\xFF\xFF\xFF\xFF\xFF\x7F\x12\x10",
            b"\x22\x02\x08\x01\x22\x0A\x08\xFF\xFF\xFF\xFF\xFF\xFF\xFF\xFF\x7F",
        ],
        &[
            "way 1:\n",
            "way 9223372036854775807:\n",
            "relation 1:\n",
            "relation 9223372036854775807:\n",
        ],
    ),
    // No columns, and empty ones.
    (&[b"\x12\x02\x12\x00"], &[]),
    (&[b"\x12\x0A\x12\x08\x0A\x00\x42\x00\x4A\x00\x52\x00"], &[]),
    // Empty keys and values, and nodes without tags.
    (
        &[b"\x12\x0D\x12\x0B\x0A\x01\x06\x42\x01\x00\x4A\x01\x00\x52\x00"],
        &["node 3 at 0, 0\n"],
    ),
    (
        &[b"\x12\x12\x12\x10\x0A\x02\x06\x02\x42\x02\x00\x00\x4A\x02\x00\x00\x52\x02\x00\x00"],
        &["node 3 at 0, 0\n", "node 4 at 0, 0\n"],
    ),
    // Tags before and behind a node without any; a key that comes twice.
    (
        &[
            b"\x12\x1C\x12\x1A\x0A\x03\x06\x02\x02\x42\x03\x00\x00\x00\x4A\x03\x00\x00\x00",
            b"\x52\x09\x01\x02\x01\x04\x00\x00\x03\x02\x00",
        ],
        &[
            "node 3 at 0, 0 name=A name=B\n",
            "node 4 at 0, 0\n",
            "node 5 at 0, 0 ref=A\n",
        ],
    ),
    // The first and the last string in two columns; lists of no tags.
    (
        &[
            b"\x12\x1C\x0A\x0E\x08\x02\x12\x02\x00\x04\x1A\x02\x04\x00\x40\x00\x48\x00\x0A\x0A",
            b"\x08\x04\x12\x00\x1A\x00\x40\x00\x48\x00",
        ],
        &["node 1 at 0, 0 =B B=\n", "node 2 at 0, 0\n"],
    ),
    // A way of refs and tags, and one of neither.
    (
        &[
            b"\x12\x1C\x1A\x10\x08\x05\x12\x02\x01\x03\x1A\x02\x02\x04\x42\x04\x14\x05\x00\x0A",
            b"\x1A\x08\x08\x06\x12\x00\x1A\x00\x42\x00",
        ],
        &["way 5: 10 7 7 12 name=A ref=B\n", "way 6:\n"],
    ),
    // The ends of refs, and refs that are ids of nothing.
    (
        &[
            b"\x12\x25\x1A\x23\x08\x05\x42\x1F\xFF\xFF\xFF\xFF\xFF\xFF\xFF\xFF\xFF\x01",
            b"\xFE\xFF\xFF\xFF\xFF\xFF\xFF\xFF\xFF\x01\xFE\xFF\xFF\xFF\xFF\xFF\xFF\xFF\xFF\x01",
            b"\x02",
        ],
        &["way 5: -9223372036854775808 -1 9223372036854775806 9223372036854775807\n"],
    ),
    (
        &[b"\x12\x09\x1A\x07\x08\x05\x42\x03\x00\x01\x02"],
        &["way 5: 0 -1 0\n"],
    ),
    // A relation of members of each kind, and one of none.
    (
        &[
            b"\x12\x23\x22\x17\x08\x05\x12\x01\x01\x1A\x01\x02\x42\x03\x03\x00\x04\x4A\x03\x10",
            b"\x11\x02\x52\x03\x00\x01\x02\x22\x08\x08\x06\x42\x00\x4A\x00\x52\x00",
        ],
        &[
            "relation 5: Node 8 as ref, Way -1 as , Relation 0 as B, name=A\n",
            "relation 6:\n",
        ],
    ),
    // The ends of the ids of members.
    (
        &[
            b"\x12\x31\x22\x2F\x08\x05\x42\x04\x00\x00\x00\x00\x4A\x1F",
            b"\xFF\xFF\xFF\xFF\xFF\xFF\xFF\xFF\xFF\x01\xFE\xFF\xFF\xFF\xFF\xFF\xFF\xFF\xFF\x01",
            b"\xFE\xFF\xFF\xFF\xFF\xFF\xFF\xFF\xFF\x01\x02\x52\x04\x02\x02\x01\x00",
        ],
        &[
            "relation 5: Relation -9223372036854775808 as ,",
            " Relation -1 as , Way 9223372036854775806 as , Node 9223372036854775807 as ,\n",
        ],
    ),
    // Each kind with an id of its own; groups of nothing and of changesets.
    (
        &[
            b"\x12\x08\x0A\x06\x08\x12\x40\x00\x48\x00\x12\x00\x12\x08\x1A\x02\x08\x02\x1A\x02",
            b"\x08\x09\x12\x05\x2A\x00\x2A\x01\x58\x12\x04\x22\x02\x08\x01",
        ],
        &["node 9 at 0, 0\n", "way 2:\n", "way 9:\n", "relation 1:\n"],
    ),
    // Empty groups of a kind before: no entity, and no fault.
    (
        &[b"\x12\x04\x22\x02\x08\x01\x12\x00\x12\x02\x12\x00\x12\x02\x2A\x00"],
        &["relation 1:\n"],
    ),
    // Of an id that comes twice the last counts.
    (
        &[b"\x12\x0C\x0A\x0A\x08\x0A\x40\x06\x08\x08\x40\x00\x48\x00"],
        &["node 4 at 0, 0\n"],
    ),
    // Fields of each type that are not read: of the block, and of a group.
    (
        &[
            b"\xA0\x06\x05\xA1\x06\x00\x00\x00\x00\x00\x00\x00\x00\xA2\x06\x01\x58",
            b"\xA5\x06\x00\x00\x00\x00\x12\x08\x0A\x06\x08\x02\x40\x00\x48\x00",
        ],
        &["node 1 at 0, 0\n"],
    ),
    (
        &[
            b"\x12\x1F\xA0\x06\x05\xA1\x06\x00\x00\x00\x00\x00\x00\x00\x00\xA2\x06\x01\x58",
            b"\xA5\x06\x00\x00\x00\x00\x0A\x06\x08\x02\x40\x00\x48\x00",
        ],
        &["node 1 at 0, 0\n"],
    ),
    // The same of a node, of dense nodes, of a way and of a relation.
    (
        &[
            b"\x12\x1F\x0A\x1D\xA0\x06\x05\xA1\x06\x00\x00\x00\x00\x00\x00\x00\x00",
            b"\xA2\x06\x01\x58\xA5\x06\x00\x00\x00\x00\x08\x02\x40\x00\x48\x00",
        ],
        &["node 1 at 0, 0\n"],
    ),
    (
        &[
            b"\x12\x22\x12\x20\x0A\x01\x02\x42\x01\x00\x4A\x01\x00\xA0\x06\x05",
            b"\xA1\x06\x00\x00\x00\x00\x00\x00\x00\x00\xA2\x06\x01\x58\xA5\x06\x00\x00\x00\x00",
        ],
        &["node 1 at 0, 0\n"],
    ),
    (
        &[
            b"\x12\x1E\x1A\x1C\x08\x01\x42\x01\x08\xA0\x06\x05",
            b"\xA1\x06\x00\x00\x00\x00\x00\x00\x00\x00\xA2\x06\x01\x58\xA5\x06\x00\x00\x00\x00",
        ],
        &["way 1: 4\n"],
    ),
    (
        &[
            b"\x12\x24\x22\x22\x08\x01\x42\x01\x03\x4A\x01\x08\x52\x01\x01\xA0\x06\x05",
            b"\xA1\x06\x00\x00\x00\x00\x00\x00\x00\x00\xA2\x06\x01\x58\xA5\x06\x00\x00\x00\x00",
        ],
        &["relation 1: Way 4 as ref,\n"],
    ),
];
