//! Entities of each kind as bytes, and the rows of their parts.

ghost use Rattle.std.specs.Prelude.{◌≡◌, true, length, OnOk};
ghost use Rattle.mf_rows.specs.Kinds.{feature_kind};
ghost use Rattle.spill_parts.specs.Parts.{Piece, IsThere, IsHeld, HasJust};
ghost use Rattle.spill_parts.specs.Handed.{ingested_pieces};

use mf_edge::{Failed, Spill, Steps};
use mf_rows::kind::RowKind;
use mf_rows::kinds::{FeatureRow, MemberRow, NodeRow, RefRow};
use spill_parts::{Ingested, Page, Part, Reader};
use std::sync::ledger::Ledger;

pub(crate) const MAPPING: &[u8] = b"poi = [{key = 'amenity', value = 'bench', zoom = 14}]
way = [
    {key = 'highway', value = 'path', zoom = 12},
    {key = 'building', value = 'yes', zoom = 14},
]";

/// The strings of a block: none, amenity, bench, highway, path, type, multipolygon, building, yes, outer, inner, part,
/// name and Spring.
pub(crate) const STRINGS: &[u8] =
    b"\x0Af\x0A\x00\x0A\x07amenity\x0A\x05bench\x0A\x07highway\x0A\x04path\x0A\x04type\
    \x0A\x0Cmultipolygon\x0A\x08building\x0A\x03yes\x0A\x05outer\x0A\x05inner\x0A\x04part\x0A\x04name\x0A\x06Spring";

/// Node 1 at 0.000001, -0.000002, a bench with a name, and node 2 at 1.5, 2.5, which is no candidate.
pub(crate) const NODES: &[u8] = b"\x12\x10\x0A\x0E\x08\x02\x12\x02\x01\x0C\x1A\x02\x02\x0D@\x14H'\
    \x12\x0E\x0A\x0C\x08\x04@\x80\x87\xA7\x0EH\x80\xE1\xEB\x17";

/// The same nodes, dense.
pub(crate) const DENSE_NODES: &[u8] = b"\x12\x1C\x12\x1A\x0A\x02\x02\x02B\x05\x14\xEC\x86\xA7\x0E\
    J\x05'\xA8\xE1\xEB\x17R\x06\x01\x02\x0C\x0D\x00\x00";

/// Way 5, a path, of node 2, two that are none, and node 1; and way 6, which is no candidate, of node 1.
pub(crate) const WAYS: &[u8] =
    b"\x12\x10\x1A\x0E\x08\x05\x12\x01\x03\x1A\x01\x04B\x04\x04\x03\x05\x08\
    \x12\x07\x1A\x05\x08\x06B\x01\x02";

/// Multipolygon 7 of way 5 as outer, node 6, a way that is none, way 6 as inner, way 9 without a role, and way 8 as
/// part; and relation 8, which is no multipolygon, of way 5.
pub(crate) const RELATIONS: &[u8] =
    b"\x12$\x22\x22\x08\x07\x12\x02\x05\x07\x1A\x02\x06\x08B\x06\x09\x09\x0A\x0A\x00\x0B\
    J\x06\x0A\x02\x0F\x10\x06\x01R\x06\x01\x00\x01\x01\x01\x01\
    \x12\x13\x22\x11\x08\x08\x12\x01\x07\x1A\x01\x08B\x01\x09J\x01\x0AR\x01\x01";

const PLACES: [NodeRow; 2] = [
    NodeRow {
        node: 1,
        lat: 1,
        lon: -2,
    },
    NodeRow {
        node: 2,
        lat: 1_500_000,
        lon: 2_500_000,
    },
];

const REFS: [RefRow; 3] = [
    RefRow {
        node: 2,
        way: 5,
        place: 0,
    },
    RefRow {
        node: 1,
        way: 5,
        place: 3,
    },
    RefRow {
        node: 1,
        way: 6,
        place: 0,
    },
];

const MEMBERS: [MemberRow; 3] = [
    MemberRow {
        way: 5,
        relation: 7,
        member: 0,
        role: 0,
    },
    MemberRow {
        way: 6,
        relation: 7,
        member: 3,
        role: 1,
    },
    MemberRow {
        way: 9,
        relation: 7,
        member: 4,
        role: 0,
    },
];

// The units of the node behind its head: its name, and its point.
const NODE_TAIL: [[u8; 16]; 2] = [
    *b"Spring\0\0\0\0\0\0\0\0\0\0",
    *b"\0\0\0\0\0\0\0\x01\0\0\0\x01\xFF\xFF\xFF\xFE",
];

// How many units a head has.
const HEAD: u32 = 10;

// Whether a part has just these rows.
fn are_rows<K: RowKind + PartialEq, P: Spill, L: Ledger>(
    spill: &mut P,
    part: &Part<K>,
    rows: &[K],
    page: &mut Page,
    steps: &mut Steps<L>,
) -> Result<bool, Failed>
    requires started { (P.state spill.old).is_started ≡ true }
    requires held { IsHeld K.kind part.now (P.state spill.old) }
    ensures started { (P.state spill.new).is_started ≡ true }
    ensures there { OnOk result ((p : Piece) → IsThere p (P.state spill.old) → IsThere p (P.state spill.new)) }
{
    let mut reader = Reader::start(part);
    let mut n = 0;
    while let Some(row) = reader.next(spill, page, steps)? {
        if n == rows.len() || rows[n] != row {
            return Ok(false);
        }
        n += 1;
    }
    Ok(n == rows.len())
}

// Whether a row is the unit of a candidate at this place, where these units stand behind the head.
fn is_unit(row: &FeatureRow, kind: u8, id: u64, place: u32, tail: &[[u8; 16]]) -> bool {
    if (row.kind, row.id, row.place) != (kind, id, place) {
        return false;
    }
    place < HEAD || tail.get((place - HEAD) as usize) == Some(&row.unit)
}

// Whether a part has just the units of a candidate: those of its head, and these behind them.
fn are_units<P: Spill, L: Ledger>(
    spill: &mut P,
    part: &Part<FeatureRow>,
    candidate: (u8, u64, &[[u8; 16]]),
    page: &mut Page,
    steps: &mut Steps<L>,
) -> Result<bool, Failed>
    requires started { (P.state spill.old).is_started ≡ true }
    requires held { IsHeld feature_kind part.now (P.state spill.old) }
    ensures started { (P.state spill.new).is_started ≡ true }
    ensures there { OnOk result ((p : Piece) → IsThere p (P.state spill.old) → IsThere p (P.state spill.new)) }
{
    let (kind, id, tail) = candidate;
    let mut reader = Reader::start(part);
    let mut n = 0;
    while let Some(row) = reader.next(spill, page, steps)? {
        if n == u32::MAX || !is_unit(&row, kind, id, n, tail) {
            return Ok(false);
        }
        n += 1;
    }
    Ok(u64::from(n) == u64::from(HEAD) + tail.len() as u64)
}

/// Whether parts, and the counts beside them, are those of the nodes, the ways and the relations.
pub(crate) fn are_parts<P: Spill, L: Ledger>(
    found: &Ingested,
    spill: &mut P,
    page: &mut Page,
    steps: &mut Steps<L>,
) -> Result<bool, Failed>
    requires { HasJust (ingested_pieces found.now) (P.state spill.old) }
{
    let are_counts = (found.nodes, found.ways, found.relations) == (2, 2, 2);
    let are_places = are_rows(spill, &found.places, &PLACES, page, steps)?;
    let are_refs = are_rows(spill, &found.refs, &REFS, page, steps)?;
    let are_members = are_rows(spill, &found.members, &MEMBERS, page, steps)?;
    let is_node = are_units(spill, &found.node_units, (0, 1, &NODE_TAIL), page, steps)?;
    let is_way = are_units(spill, &found.way_units, (1, 5, &[]), page, steps)?;
    let is_relation = are_units(spill, &found.relation_units, (2, 7, &[]), page, steps)?;
    Ok(are_counts && are_places && are_refs && are_members && is_node && is_way && is_relation)
}
