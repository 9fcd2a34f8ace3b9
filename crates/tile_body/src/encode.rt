//! A tile, encoded from a desk.

ghost use Rattle.std.specs.Prelude.{◌≡◌, ◌+◌, ◌*◌, ◌≤◌, ◌==◌, length, map, Ok};
ghost use Rattle.std.specs.List.{AllByRecursion};
ghost use Rattle.feature_model.specs.Mapping.{Mapping};
ghost use Rattle.feature_model.specs.Entries.{IsMapping};
ghost use Rattle.map_model.specs.Room.{IsWritten};
ghost use Rattle.map_model.specs.TileBytes.{tile_bytes};
ghost use Rattle.map_model.specs.TileReading.{read_tile};
ghost use Rattle.map_model.specs.TagLists.{tag_lists};
ghost use Rattle.map_model.specs.Listed.{listed};
ghost use Rattle.mf_rows.specs.Desks.{used, units_in};
ghost use Rattle.tile_body.specs.Members.{IsTile, HoldsMembers};
ghost use Rattle.tile_body.specs.Tiles.{features_told};

use crate::members::{put_pois, put_ways, size_pois};
use crate::table::put_table;
use mercator_rows::rows::Rows;
use mf_base::out_buf::OutBuf;
use mf_base::tile::TilePlace;
use mf_base::vbe::put_vbe_u;
use mf_rows::desk::Desk;
use mf_rows::records::Records;

/// Leaves in the desk's output the bytes of a tile whose members are the desk's records, in their order. Records and
/// water answer stay as they were. What was in the output before is forgotten. At most 16 bytes for each unit of the
/// records and 246 more are put, so there is always room.
pub fn encode(desk: &mut Desk, place: &TilePlace, rows: &Rows)
    requires tile { IsTile place.now }
    requires members { HoldsMembers place.now desk.old.records }
    ensures bytes { desk.new.out.bytes ≡ tile_bytes place.now (features_told desk.old.records.records) }
    ensures read { (mapping : Mapping) → IsMapping mapping
        → AllByRecursion (IsWritten mapping) (features_told desk.old.records.records)
        → read_tile (tag_lists mapping) place.now desk.new.out.bytes
        ≡ Ok (map (listed (tag_lists mapping) place.now) (features_told desk.old.records.records)) }
    ensures most { length desk.new.out.bytes ≤ 16 * units_in desk.old.records.records + 246 }
    ensures records { desk.new.records ≡ desk.old.records }
    ensures water { desk.new.water ≡ desk.old.water }
{
    prove!(desk.records.spare() <= 16_777_216);
    put_tile(&mut desk.out, &desk.records, place, rows);
}

// Puts a tile into a buffer that is emptied before.
fn put_tile(out: &mut OutBuf, records: &Records, tile: &TilePlace, rows: &Rows)
    requires tile { IsTile tile.now }
    requires members { HoldsMembers tile.now records.now }
    requires within { used records.now ≤ records.now.capacity }
    requires room { length (tile_bytes tile.now (features_told records.now.records)) + 10 ≤ out.old.capacity }
    ensures { out.new
        ≡ record { bytes = tile_bytes tile.now (features_told records.now.records); capacity = out.old.capacity } }
{
    out.clear();
    if is_empty(records) {
        return;
    }
    let corner = rows.corner(tile.interval.base, tile.x, tile.y);
    put_table(out, records, &tile.interval);
    put_vbe_u(out, size_pois(records, corner));
    put_pois(out, records, corner);
    put_ways(out, records, tile, corner, rows);
}

// Whether there is no record.
fn is_empty(records: &Records) -> bool
    ensures { result ≡ (length records.now.records == 0) }
{
    records.len() == 0
}

#[cfg(test)]
mod tests;
