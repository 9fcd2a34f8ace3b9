//! Two tiles, loaded one after the other at desks of some sizes, in a store that does not tell its bytes.

ghost use Rattle.std.specs.Prelude.{◌≡◌, ◌<◌, ◌≤◌, true, false, IfOk, codes};
ghost use Rattle.mf_edge.specs.Spill.{IsNameOf, most_parts};
ghost use Rattle.mf_rows.specs.Kinds.{tile_kind};
ghost use Rattle.spill_parts.specs.Parts.{IsHeld};

use super::*;
use arrayvec::ArrayVec;
use mf_base::kind::EntityKind;
use mf_base::place::Place;
use mf_base::tile::Interval;
use mf_edge::MemSpill;
use mf_rows::head::Head;
use mf_rows::head_units::{TextLengths, head_unit};
use mf_rows::units::point_unit;
use spill_parts::{Part, Writer};
use std::alloc::{AllocError, Global};
use std::marker::Brand;
use std::sync::ledger::Blank;
use std::test::Fail;
use unit_rows::give::put_units;

// What was loaded of two tiles: for each its weight, and how many records the desk has.
#[derive(Clone, Copy, Debug, PartialEq, Eq)]
enum Told {
    Tiles((u64, u32), (u64, u32)),
    Failed,
}

// The ten units of a head with this number, and a point.
fn units(number: u64) -> [[u8; 16]; 11] {
    let head = Head {
        kind: EntityKind::Node,
        id: 7,
        number,
        weight: 11,
        zoom: 14,
        layer: 5,
        water: false,
        label: false,
        coast: false,
        height: None,
        tags: ArrayVec::new(),
    };
    let lengths = TextLengths {
        name: 0,
        house: 0,
        reference: 0,
    };
    let mut units = [point_unit(7, Place { lat: 1, lon: -2 }); 11];
    for i in 0..10 {
        units[i] = head_unit(&head, lengths, i);
    }
    units
}

// The first row of a member in a column.
fn row(x: u32, number: u64) -> TileRow {
    TileRow {
        interval: 1,
        y: 9,
        x,
        class: 0,
        zoom: 14,
        number,
        place: 0,
        unit: [0; 16],
    }
}

// The tile in a column.
fn tile(x: u32) -> TilePlace {
    TilePlace {
        index: 1,
        interval: Interval {
            base: 14,
            min: 12,
            max: 21,
        },
        x,
        y: 9,
    }
}

// The rows of two members in a column, and of one in the next.
fn part_of<P: Spill>(spill: &mut P) -> Result<Part<TileRow>, Failed>
    requires started { (P.state spill.old).is_started ≡ true }
    requires few { (P.state spill.old).count < most_parts }
    ensures held { IfOk result (λ part. IsHeld tile_kind part (P.state spill.new)) }
    ensures started { (P.state spill.new).is_started ≡ true }
    ensures tells { (P.state spill.new).tells ≡ (P.state spill.old).tells }
{
    let mut writer = Writer::make(spill)?;
    put_units(&row(4, 0), &units(0), &mut writer, spill)?;
    put_units(&row(4, 1), &units(1), &mut writer, spill)?;
    put_units(&row(5, 2), &units(2), &mut writer, spill)?;
    Ok(writer.finish())
}

// What is loaded of both tiles.
fn told_of<P: Spill, L: Ledger>(
    part: &Part<TileRow>,
    records: &mut Records,
    page: &mut Page,
    spill: &mut P,
    steps: &mut Steps<L>,
) -> Result<Told, Failed>
    requires started { (P.state spill.old).is_started ≡ true }
    requires tells { (P.state spill.old).tells ≡ false }
    requires held { IsHeld tile_kind part.now (P.state spill.old) }
{
    let mut reader = Reader::start(part);
    let held = reader.next(spill, page, steps)?;
    let first = load_tile(&tile(4), held, &mut reader, records, page, spill, steps)?;
    let many = records.len();
    let second = load_tile(
        &tile(5),
        first.next,
        &mut reader,
        records,
        page,
        spill,
        steps,
    )?;
    Ok(Told::Tiles((first.weight, many), (second.weight, records.len())))
}

// The same, in a store that is started first.
fn told_by<P: Spill, L: Ledger>(
    records: &mut Records,
    page: &mut Page,
    spill: &mut P,
    blank: Blank,
) -> Result<Told, Failed>
    requires ledger { blank.name ≡ L.name }
    requires parts { blank.parts ≡ L.parts }
    requires some { 0 < blank.parts }
    requires name { IsNameOf (codes "rows") (P.state spill.old).name }
    requires tells { (P.state spill.old).tells ≡ false }
{
    let mut steps = Steps::<L>::new(blank);
    spill.start("rows")?;
    let part = part_of(spill)?;
    told_of(&part, records, page, spill, &mut steps)
}

// The same at a desk of so many rows, where the read with a number answers zeros; 0: none does.
fn loaded_at(alloc: Global, rows: u32, zeros: u64) -> Result<Told, AllocError>
    requires { (1 ≤ rows) × (rows ≤ 16777216) }
{
    let mut store = MemSpill::untold(alloc, &[], zeros)?;
    let mut records = Records::new(alloc, rows)?;
    let mut page = Page::new(alloc, 3)?;
    match told_by::<MemSpill, Brand>(&mut records, &mut page, &mut store, Blank::new(1)) {
        Ok(told) => Ok(told),
        Err(Failed) => Ok(Told::Failed),
    }
}

#[test]
fn members_of_two_tiles(rt: HostRuntime) -> Result<(), Fail> {
    let alloc = rt.alloc();
    assert_eq!(rt; loaded_at(alloc, 22, 0)?, Told::Tiles((22, 2), (11, 1)));
    assert_eq!(rt; loaded_at(alloc, 21, 0)?, Told::Tiles((22, 1), (11, 1)));
    assert_eq!(rt; loaded_at(alloc, 10, 0)?, Told::Tiles((22, 0), (11, 0)));
    assert_eq!(rt; loaded_at(alloc, 22, 3)?, Told::Failed);
    Ok(())
}
