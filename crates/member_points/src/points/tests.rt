//! Members of two relations that share a way, through pages of two rows and records with little room, and stores of which a
//! call fails.

ghost use Rattle.std.specs.Prelude.{◌≡◌, ◌<◌, ◌≤◌, ◌+◌, [], ◌∷◌, ◌++◌, List, true, false, IfOk, OnOk, codes};
ghost use Rattle.mf_edge.specs.Spill.{SameStore, IsNameOf, most_parts};
ghost use Rattle.mf_rows.specs.Kinds.{point_kind, rel_kind};
ghost use Rattle.spill_parts.specs.Parts.{Piece, piece_of, IsHeld, HasJust};

use super::*;
use mf_edge::MemSpill;
use mf_rows::kind::RowKind;
use spill_parts::{Reader, Writer};
use std::alloc::{AllocError, Global};
use std::marker::Brand;
use std::sync::ledger::Blank;
use std::test::Fail;

// What a store tells of the rows.
#[derive(Clone, Copy, Debug, PartialEq, Eq)]
enum Told {
    Rows,
    Others,
    // A call of the store failed.
    Failed,
}

// A part of these rows, in this order, behind those that are there.
fn written<K: RowKind, P: Spill>(spill: &mut P, rows: &[K]) -> Result<Part<K>, Failed>
    requires started { (P.state spill.old).is_started ≡ true }
    requires few { (P.state spill.old).count < most_parts }
    ensures just { IfOk result (λ part. (pieces : List Piece) → HasJust pieces (P.state spill.old)
        → HasJust (pieces ++ piece_of K.kind part ∷ []) (P.state spill.new)) }
    ensures same { SameStore (P.state spill.old) (P.state spill.new) }
    ensures count { (P.state spill.new).count ≤ (P.state spill.old).count + 1 }
{
    let mut writer = Writer::make(spill)?;
    for row in rows {
        writer.put(spill, row)?;
    }
    Ok(writer.finish())
}

// Whether a part has just these rows.
fn are_rows<P: Spill, L: Ledger>(
    spill: &mut P,
    part: &Part<RelRow>,
    rows: &[RelRow],
    page: &mut Page,
    steps: &mut Steps<L>,
) -> Result<bool, Failed>
    requires started { (P.state spill.old).is_started ≡ true }
    requires held { IsHeld rel_kind part.now (P.state spill.old) }
{
    let mut reader = Reader::start(part);
    let mut n = 0;
    while let Some(row) = reader.next(spill, page, steps)? {
        if n == rows.len() || rows[n] != row {
            return Ok(false);
        }
        n += 1;
    }
    Ok(n == rows.len())
}

// Whether these members and points, with this room for points, become these rows, in a store that does not tell its
// bytes: it asks of no row of what input it is.
fn are_made<P: Spill, L: Ledger>(
    spill: &mut P,
    members: &[MemberRow],
    points: &[PointRow],
    rows: &[RelRow],
    records: &mut Records,
    first: &mut Page,
    second: &mut Page,
    blank: Blank,
) -> Result<bool, Failed>
    requires ledger { blank.name ≡ L.name }
    requires parts { blank.parts ≡ L.parts }
    requires some { 0 < blank.parts }
    requires untold { (P.state spill.old).tells ≡ false }
    requires name { IsNameOf (codes "rows") (P.state spill.old).name }
{
    let mut steps = Steps::<L>::new(blank);
    spill.start("rows")?;
    let members = written(spill, members)?;
    let points = written(spill, points)?;
    let found = points_of_members(members, &points, records, first, second, spill, &mut steps)?;
    are_rows(spill, &found, rows, first, &mut steps)
}

// What is told of these members, points and rows, where the call of the store with a number fails; 0: none does.
fn told_by(
    alloc: Global,
    call: u64,
    room: u32,
    members: &[MemberRow],
    points: &[PointRow],
    rows: &[RelRow],
) -> Result<Told, AllocError>
    requires some { 1 ≤ room }
    requires most { room ≤ 16777216 }
{
    let mut store = MemSpill::untold(alloc, &[call], 0)?;
    let mut records = Records::new(alloc, room)?;
    let mut first = Page::new(alloc, 2)?;
    let mut second = Page::new(alloc, 2)?;
    let blank = Blank::new(1);
    let found = are_made::<MemSpill, Brand>(
        &mut store,
        members,
        points,
        rows,
        &mut records,
        &mut first,
        &mut second,
        blank,
    );
    match found {
        Ok(true) => Ok(Told::Rows),
        Ok(false) => Ok(Told::Others),
        Err(Failed) => Ok(Told::Failed),
    }
}

// Way 7 is a member of two relations, and of one of them twice. Way 6 is none of the input, and way 9 has one point.
const MEMBERS: [MemberRow; 6] = [
    MemberRow {
        way: 8,
        relation: 20,
        member: 0,
        role: 0,
    },
    MemberRow {
        way: 6,
        relation: 20,
        member: 1,
        role: 0,
    },
    MemberRow {
        way: 7,
        relation: 20,
        member: 2,
        role: 1,
    },
    MemberRow {
        way: 9,
        relation: 20,
        member: 5,
        role: 0,
    },
    MemberRow {
        way: 7,
        relation: 21,
        member: 0,
        role: 0,
    },
    MemberRow {
        way: 7,
        relation: 21,
        member: 1,
        role: 1,
    },
];

// The third ref of way 7 has no node, and so have the first four of way 9.
const POINTS: [PointRow; 6] = [
    PointRow {
        way: 7,
        place: 0,
        node: 9,
        lat: -90,
        lon: -900,
    },
    PointRow {
        way: 7,
        place: 1,
        node: 5,
        lat: 90_000_000,
        lon: -180_000_000,
    },
    PointRow {
        way: 7,
        place: 3,
        node: 2,
        lat: -20,
        lon: 200,
    },
    PointRow {
        way: 8,
        place: 0,
        node: 5,
        lat: 90_000_000,
        lon: -180_000_000,
    },
    PointRow {
        way: 8,
        place: 1,
        node: 3,
        lat: 30,
        lon: 300,
    },
    PointRow {
        way: 9,
        place: 4,
        node: 1,
        lat: 10,
        lon: -100,
    },
];

const ROWS: [RelRow; 12] = [
    RelRow {
        relation: 20,
        member: 0,
        place: 0,
        role: 0,
        node: 5,
        lat: 90_000_000,
        lon: -180_000_000,
    },
    RelRow {
        relation: 20,
        member: 0,
        place: 1,
        role: 0,
        node: 3,
        lat: 30,
        lon: 300,
    },
    RelRow {
        relation: 20,
        member: 2,
        place: 0,
        role: 1,
        node: 9,
        lat: -90,
        lon: -900,
    },
    RelRow {
        relation: 20,
        member: 2,
        place: 1,
        role: 1,
        node: 5,
        lat: 90_000_000,
        lon: -180_000_000,
    },
    RelRow {
        relation: 20,
        member: 2,
        place: 2,
        role: 1,
        node: 2,
        lat: -20,
        lon: 200,
    },
    RelRow {
        relation: 20,
        member: 5,
        place: 0,
        role: 0,
        node: 1,
        lat: 10,
        lon: -100,
    },
    RelRow {
        relation: 21,
        member: 0,
        place: 0,
        role: 0,
        node: 9,
        lat: -90,
        lon: -900,
    },
    RelRow {
        relation: 21,
        member: 0,
        place: 1,
        role: 0,
        node: 5,
        lat: 90_000_000,
        lon: -180_000_000,
    },
    RelRow {
        relation: 21,
        member: 0,
        place: 2,
        role: 0,
        node: 2,
        lat: -20,
        lon: 200,
    },
    RelRow {
        relation: 21,
        member: 1,
        place: 0,
        role: 1,
        node: 9,
        lat: -90,
        lon: -900,
    },
    RelRow {
        relation: 21,
        member: 1,
        place: 1,
        role: 1,
        node: 5,
        lat: 90_000_000,
        lon: -180_000_000,
    },
    RelRow {
        relation: 21,
        member: 1,
        place: 2,
        role: 1,
        node: 2,
        lat: -20,
        lon: 200,
    },
];

// Two points of a way are held, and of way 7 the third is only counted.
const ROWS_OF_TWO: [RelRow; 12] = [
    RelRow {
        relation: 20,
        member: 0,
        place: 0,
        role: 0,
        node: 5,
        lat: 90_000_000,
        lon: -180_000_000,
    },
    RelRow {
        relation: 20,
        member: 0,
        place: 1,
        role: 0,
        node: 3,
        lat: 30,
        lon: 300,
    },
    RelRow {
        relation: 20,
        member: 2,
        place: 0,
        role: 1,
        node: 9,
        lat: -90,
        lon: -900,
    },
    RelRow {
        relation: 20,
        member: 2,
        place: 1,
        role: 1,
        node: 5,
        lat: 90_000_000,
        lon: -180_000_000,
    },
    RelRow {
        relation: 20,
        member: 2,
        place: 2,
        role: 1,
        node: 0,
        lat: 0,
        lon: 0,
    },
    RelRow {
        relation: 20,
        member: 5,
        place: 0,
        role: 0,
        node: 1,
        lat: 10,
        lon: -100,
    },
    RelRow {
        relation: 21,
        member: 0,
        place: 0,
        role: 0,
        node: 9,
        lat: -90,
        lon: -900,
    },
    RelRow {
        relation: 21,
        member: 0,
        place: 1,
        role: 0,
        node: 5,
        lat: 90_000_000,
        lon: -180_000_000,
    },
    RelRow {
        relation: 21,
        member: 0,
        place: 2,
        role: 0,
        node: 0,
        lat: 0,
        lon: 0,
    },
    RelRow {
        relation: 21,
        member: 1,
        place: 0,
        role: 1,
        node: 9,
        lat: -90,
        lon: -900,
    },
    RelRow {
        relation: 21,
        member: 1,
        place: 1,
        role: 1,
        node: 5,
        lat: 90_000_000,
        lon: -180_000_000,
    },
    RelRow {
        relation: 21,
        member: 1,
        place: 2,
        role: 1,
        node: 0,
        lat: 0,
        lon: 0,
    },
];

#[test]
fn points_of_two_relations(rt: HostRuntime) -> Result<(), Fail> {
    let alloc = rt.alloc();
    assert_eq!(rt; told_by(alloc, 0, 3, &MEMBERS, &POINTS, &ROWS)?, Told::Rows);
    assert_eq!(rt;
        told_by(alloc, 0, 2, &MEMBERS, &POINTS, &ROWS_OF_TWO)?,
        Told::Rows
    );
    assert_eq!(rt;
        told_by(alloc, 0, 2, &MEMBERS, &POINTS, &ROWS)?,
        Told::Others
    );
    assert_eq!(rt;
        told_by(alloc, 0, 3, &MEMBERS, &POINTS, &ROWS[..11])?,
        Told::Others
    );
    Ok(())
}

// No member, no point, and no member that is a way with points.
#[test]
fn no_rows(rt: HostRuntime) -> Result<(), Fail> {
    let alloc = rt.alloc();
    assert_eq!(rt; told_by(alloc, 0, 3, &[], &POINTS, &[])?, Told::Rows);
    assert_eq!(rt; told_by(alloc, 0, 3, &MEMBERS, &[], &[])?, Told::Rows);
    assert_eq!(rt;
        told_by(alloc, 0, 3, &MEMBERS[1..2], &POINTS, &[])?,
        Told::Rows
    );
    Ok(())
}

// The store is started, makes two parts and puts 12 rows, and orders the members. A part is made, all members and points
// are read by pages, 12 rows are put, and these are ordered and read again by six pages.
#[test]
fn each_call_of_the_store_fails(rt: HostRuntime) -> Result<(), Fail> {
    let alloc = rt.alloc();
    for call in 1..43 {
        assert_eq!(rt;
            told_by(alloc, call, 2, &MEMBERS, &POINTS, &ROWS_OF_TWO)?,
            Told::Failed,
            "at {call}"
        );
    }
    assert_eq!(rt;
        told_by(alloc, 43, 2, &MEMBERS, &POINTS, &ROWS_OF_TWO)?,
        Told::Rows
    );
    Ok(())
}

// The greatest numbers.
#[test]
fn last_row(rt: HostRuntime) -> Result<(), Fail> {
    let member = MemberRow {
        way: u64::MAX,
        relation: u64::MAX,
        member: u32::MAX,
        role: u8::MAX,
    };
    let point = PointRow {
        way: u64::MAX,
        place: u32::MAX,
        node: u64::MAX,
        lat: i32::MIN,
        lon: i32::MAX,
    };
    let row = RelRow {
        relation: u64::MAX,
        member: u32::MAX,
        place: 0,
        role: u8::MAX,
        node: u64::MAX,
        lat: i32::MIN,
        lon: i32::MAX,
    };
    assert_eq!(rt;
        told_by(rt.alloc(), 0, 1, &[member], &[point], &[row])?,
        Told::Rows
    );
    Ok(())
}
