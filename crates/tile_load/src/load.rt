//! A tile, loaded from its rows.

ghost use Rattle.std.specs.Prelude.{◌≡◌, ◌+◌, ◌*◌, ◌≤◌, ◌<◌, ◌^◌, true, List, [], ◌∷◌, length, Some, IfOk, OnOk, OnErr};
ghost use Rattle.mf_base.specs.declared.tile.TilePlace.{TilePlace as Place};
ghost use Rattle.mf_edge.specs.Device.{CountsOne};
ghost use Rattle.mf_edge.specs.Spill.{SameParts};
ghost use Rattle.mf_rows.specs.Kinds.{tile_kind};
ghost use Rattle.spill_parts.specs.Join.{rest_of};
ghost use Rattle.spill_parts.specs.Parts.{IsReading};
ghost use Rattle.spill_parts.specs.Shaped.{Spelled};
ghost use Rattle.tile_load.specs.Loading.{AreLeft, AreRead, IsLoaded, holds_row_of};

use crate::member::{add_member, make_room};
use mf_base::tile::TilePlace;
use mf_edge::{Failed, Spill, Steps};
use mf_rows::kinds::TileRow;
use mf_rows::records::Records;
use spill_parts::{Page, Reader};
use std::sync::ledger::Ledger;
use unit_rows::load::load_record;

/// The members of a tile that were loaded: their weights together, and the first row of a later tile, where there is
/// one.
#[derive(Drop)]
pub struct LoadedTile {
    pub weight: u64,
    pub next: Option<TileRow>,
}

/// Loads the members of a tile to the records of a desk, which are cleared before. The tile's rows begin with the row
/// that is held, and go on with those of a reader. Where the members weigh more than there is room for, only their
/// weight counts.
///
/// `Failed` is answered where a call of the store fails, and where a store that does not tell its bytes gives units
/// that are no members; then it counts a fault.
pub fn load_tile<P: Spill, L: Ledger>(
    tile: &TilePlace,
    held: Option<TileRow>,
    reader: &mut Reader<TileRow>,
    records: &mut Records,
    page: &mut Page,
    spill: &mut P,
    steps: &mut Steps<L>,
) -> Result<LoadedTile, Failed>
    requires started { (P.state spill.old).is_started ≡ true }
    requires reading { IsReading tile_kind reader.old page.old (P.state spill.old) }
    requires few { length (rest_of held reader.old.left) < 2 ^ 63 }
    requires found { (P.state spill.old).tells ≡ true → (list : List Spelled) × (later : List Place)
        × AreLeft records.old.capacity list (tile.now ∷ later) (rest_of held reader.old.left) }

    // Where the store tells its bytes.
    ensures loaded { IfOk result (λ l. (P.state spill.old).tells ≡ true → (list : List Spelled) (later : List Place)
        → AreLeft records.old.capacity list (tile.now ∷ later) (rest_of held reader.old.left)
        → IsLoaded list tile.now later l (rest_of l.next reader.new.left) records.new) }

    // Over every store.
    ensures loose { OnOk result (records.new.loose ≡ []) }
    ensures fewer { IfOk result
        (λ l. length (rest_of l.next reader.new.left) ≤ length (rest_of held reader.old.left)) }
    ensures reading { OnOk result (IsReading tile_kind reader.new page.new (P.state spill.new)) }
    ensures same_source { reader.new.source ≡ reader.old.source }
    ensures same_faults { OnOk result ((P.state spill.new).faults ≡ (P.state spill.old).faults) }
    ensures failed { OnErr result (CountsOne (P.state spill.old).faults (P.state spill.new).faults) }
    ensures same { SameParts (P.state spill.old) (P.state spill.new) }
    ensures steps { OnOk result (steps.new + 39 * reader.old.loaded ≡ steps.old + 39 * reader.new.loaded) }
    ensures steps_most { steps.new + 39 * reader.old.loaded ≤ steps.old + 39 * length reader.old.source.rows }
    ensures capacity { records.new.capacity ≡ records.old.capacity }
    ensures same_room { page.new.room ≡ page.old.room }
{
    records.clear();
    let room = records.spare();
    let mut loaded = LoadedTile {
        weight: 0,
        next: held,
    };
    while is_of_tile(tile, &loaded.next) {
        loaded = load_next(tile, room, loaded, reader, records, page, spill, steps)?;
    }
    Ok(loaded)
}

// Whether a row is held that is of this tile.
fn is_of_tile(tile: &TilePlace, held: &Option<TileRow>) -> bool
    ensures { result ≡ holds_row_of tile.now held.now }
{
    match held {
        Some(row) => row.interval == tile.index && row.y == tile.y && row.x == tile.x,
        None => false,
    }
}

// The row that is held, which is of this tile.
fn row_held(tile: &TilePlace, held: &Option<TileRow>) -> TileRow
    requires { holds_row_of tile.now held.now ≡ true }
    ensures { held.now ≡ Some result }
{
    held.unwrap()
}

// Loads the next member of a tile, which begins with the row that is held, behind those that were loaded. There is room
// for so many units.
fn load_next<P: Spill, L: Ledger>(
    tile: &TilePlace,
    room: u32,
    before: LoadedTile,
    reader: &mut Reader<TileRow>,
    records: &mut Records,
    page: &mut Page,
    spill: &mut P,
    steps: &mut Steps<L>,
) -> Result<LoadedTile, Failed>
    requires started { (P.state spill.old).is_started ≡ true }
    requires reading { IsReading tile_kind reader.old page.old (P.state spill.old) }
    requires few { length (rest_of before.next reader.old.left) < 2 ^ 63 }
    requires room { room ≡ records.old.capacity }
    requires none { records.old.loose ≡ [] }
    requires of_tile { holds_row_of tile.now before.next ≡ true }
    requires found { (P.state spill.old).tells ≡ true → (list : List Spelled) × (later : List Place)
        × AreRead records.old.capacity list tile.now later before.weight (rest_of before.next reader.old.left)
        records.old.records }
    ensures read { IfOk result (λ l. (P.state spill.old).tells ≡ true → (list : List Spelled) (later : List Place)
        → AreRead records.old.capacity list tile.now later before.weight (rest_of before.next reader.old.left)
        records.old.records
        → AreRead records.old.capacity list tile.now later l.weight (rest_of l.next reader.new.left)
        records.new.records) }
    ensures loose { OnOk result (records.new.loose ≡ []) }
    ensures shorter { IfOk result
        (λ l. length (rest_of l.next reader.new.left) + 1 ≤ length (rest_of before.next reader.old.left)) }
    ensures reading { OnOk result (IsReading tile_kind reader.new page.new (P.state spill.new)) }
    ensures same_source { reader.new.source ≡ reader.old.source }
    ensures same_faults { OnOk result ((P.state spill.new).faults ≡ (P.state spill.old).faults) }
    ensures failed { OnErr result (CountsOne (P.state spill.old).faults (P.state spill.new).faults) }
    ensures same { SameParts (P.state spill.old) (P.state spill.new) }
    ensures steps { OnOk result (steps.new + 39 * reader.old.loaded ≡ steps.old + 39 * reader.new.loaded) }
    ensures steps_most { steps.new + 39 * reader.old.loaded ≤ steps.old + 39 * length reader.old.source.rows }
    ensures capacity { records.new.capacity ≡ records.old.capacity }
    ensures same_room { page.new.room ≡ page.old.room }
{
    let first = row_held(tile, &before.next);
    make_room(records, room, before.weight);
    let spare = records.spare();
    let member = load_record(&first, reader, records, spill, page, steps)?;
    let whole = member.units <= u64::from(spare);
    match add_member(records, before.weight, whole) {
        Some(weight) => Ok(LoadedTile {
            weight,
            next: member.next,
        }),
        None => Err(spill.damaged()),
    }
}

#[cfg(test)]
mod tests;
