//! A record, loaded from its rows into a desk.

ghost use Rattle.std.specs.Prelude.{◌≡◌, ◌+◌, ◌-◌, ◌*◌, ◌≤◌, ◌<◌, ◌^◌, true, [], ◌∷◌, ◌++◌, map, take, length};
ghost use Rattle.std.specs.Prelude.{IfOk, OnOk, OnErr};
ghost use Rattle.mf_edge.specs.Device.{CountsOne};
ghost use Rattle.mf_edge.specs.Spill.{SameParts};
ghost use Rattle.mf_rows.specs.Desks.{units_in};
ghost use Rattle.spill_parts.specs.Parts.{IsReading};
ghost use Rattle.spill_parts.specs.Join.{rest_of};
ghost use Rattle.unit_rows.specs.Runs.{going_on, next_on, goes_on as goes_on_told, held_units};

use crate::row::UnitRow;
use mf_edge::{Failed, Spill, Steps};
use mf_rows::records::Records;
use spill_parts::{Page, Reader};
use std::sync::ledger::Ledger;

/// A record that was loaded: how many units it has, and the first row of the next record, where there is one.
#[derive(Drop)]
pub struct Loaded<K: UnitRow> {
    pub units: u64,
    pub next: Option<K>,
}

/// Loads the units of the record that begins with a row to the loose units of a desk, as far as there is room for them.
/// The record goes on with each row of a reader whose place is not 0.
pub fn load_record<K: UnitRow, P: Spill, L: Ledger>(
    first: &K,
    reader: &mut Reader<K>,
    records: &mut Records,
    spill: &mut P,
    page: &mut Page,
    steps: &mut Steps<L>,
) -> Result<Loaded<K>, Failed>
    requires started { (P.state spill.old).is_started ≡ true }
    requires reading { IsReading K.kind reader.old page.old (P.state spill.old) }
    requires few { length reader.old.left < 2 ^ 63 }
    requires none { records.old.loose ≡ [] }

    // Where the store tells its bytes, these are the units of the record, and its number of units.
    ensures loose { IfOk result (λ _. (P.state spill.old).tells ≡ true → records.new.loose
        ≡ take (records.old.capacity - units_in records.old.records)
        (map K.unit_of (first.now ∷ going_on K.place_of reader.old.left))) }
    ensures units { IfOk result (λ l. (P.state spill.old).tells ≡ true
        → l.units ≡ 1 + length (going_on K.place_of reader.old.left)) }
    ensures rest { IfOk result (λ l. (P.state spill.old).tells ≡ true
        → rest_of l.next reader.new.left ≡ next_on K.place_of reader.old.left) }

    // Over every store each row that was read is a unit, and no more units are loose.
    ensures counted { IfOk result (λ l. l.units + length (rest_of l.next reader.new.left) ≡ 1 + length reader.old.left) }
    ensures within_units { IfOk result (λ l. length records.new.loose ≤ l.units) }
    ensures some { IfOk result (λ l. 1 ≤ l.units) }
    ensures records { records.new.records ≡ records.old.records }
    ensures capacity { records.new.capacity ≡ records.old.capacity }

    ensures reading { OnOk result (IsReading K.kind reader.new page.new (P.state spill.new)) }
    ensures same_faults { OnOk result ((P.state spill.new).faults ≡ (P.state spill.old).faults) }
    ensures failed { OnErr result (CountsOne (P.state spill.old).faults (P.state spill.new).faults) }
    ensures steps { OnOk result
        (steps.new + K.kind.width * reader.old.loaded ≡ steps.old + K.kind.width * reader.new.loaded) }
    ensures within { OnOk result (K.kind.width * reader.new.loaded ≤ K.kind.width * length reader.new.source.rows) }
    ensures steps_failed { OnErr result
        (steps.new + K.kind.width * reader.old.loaded ≤ steps.old + K.kind.width * length reader.old.source.rows) }
    ensures same_source { reader.new.source ≡ reader.old.source }
    ensures same_room { page.new.room ≡ page.old.room }
    ensures same { SameParts (P.state spill.old) (P.state spill.new) }
    ensures counts { (P.state spill.old).faults ≤ (P.state spill.new).faults }
{
    add_if_room(records, first.unit());
    let mut units = 1;
    let mut next = reader.next(spill, page, steps)?;
    while goes_on(&next) {
        add_held(records, &next);
        units += 1;
        next = reader.next(spill, page, steps)?;
    }
    Ok(Loaded { units, next })
}

// Whether a row is held that goes on with a record.
fn goes_on<K: UnitRow>(held: &Option<K>) -> bool
    ensures { result ≡ goes_on_told K.place_of held.now }
{
    match held {
        Some(row) => row.place() != 0,
        None => false,
    }
}

// Puts the unit of a row that is held to the loose ones, where there is room.
fn add_held<K: UnitRow>(records: &mut Records, held: &Option<K>)
    ensures loose { records.new.loose ≡ take (records.old.capacity - units_in records.old.records)
        (records.old.loose ++ held_units K.unit_of held.now) }
    ensures longer { length records.new.loose ≤ length records.old.loose + 1 }
    ensures records { records.new.records ≡ records.old.records }
    ensures capacity { records.new.capacity ≡ records.old.capacity }
{
    match held {
        Some(row) => add_if_room(records, row.unit()),
        None => prove!(records.spare() <= records.spare()),
    }
}

// Puts a unit to the loose ones, where there is room.
fn add_if_room(records: &mut Records, unit: &[u8; 16])
    ensures loose { records.new.loose ≡ take (records.old.capacity - units_in records.old.records)
        (records.old.loose ++ unit.now ∷ []) }
    ensures longer { length records.new.loose ≤ length records.old.loose + 1 }
    ensures records { records.new.records ≡ records.old.records }
    ensures capacity { records.new.capacity ≡ records.old.capacity }
{
    if records.spare() > 0 {
        records.add_unit(unit);
    }
}
