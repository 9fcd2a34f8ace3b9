//! Tiles are laid out one behind another.

ghost use Rattle.std.specs.Prelude.{◌≡◌, ◌≢◌, ◌+◌, ◌*◌, ◌^◌, ◌<◌, ◌≤◌, ◌++◌, nat_lt, max, true, if◌then◌else◌};
ghost use Rattle.std.specs.Prelude.{[], ◌∷◌, length, OnOk, OnErr};
ghost use Rattle.mf_edge.specs.Device.{CountsOne};
ghost use Rattle.mf_edge.specs.Spill.{part_limit};
ghost use Rattle.map_model.specs.SubFile.{content_of, water};
ghost use Rattle.mf_rows.specs.Desks.{Desktop};
ghost use Rattle.tile_body.specs.Members.{IsTile, HoldsMembers};
ghost use Rattle.tile_body.specs.Tiles.{features_told};
ghost use Rattle.mf_layout.specs.Laid.{AreLaid, ArePut, AreThere, HasRoom, TouchesTwo};

use crate::index_out::ENTRY_SIZE;
use crate::sub_files::SubFileSize;
use mercator_rows::rows::Rows;
use mf_base::tile::TilePlace;
use mf_edge::{Failed, Spill};
use mf_rows::desk::Desk;
use mf_rows::kinds::IndexRow;
use spill_parts::{BytePart, Writer};
use tile_body::encode::encode;
use tile_index::water::is_water;

// A sub-file has fewer bytes.
pub(crate) const SUB_FILE_LIMIT: u64 = 1 << 39;

/// The tiles that were laid out so far: a part with a row for each, and one with their bytes.
///
/// `shown` and `water` count those with members and those with the water bit; `largest` is the greatest weight.
#[derive(Drop)]
pub(crate) struct Laid {
    pub(crate) index: Writer<IndexRow>,
    pub(crate) tiles: BytePart,
    pub(crate) shown: u64,
    pub(crate) water: u64,
    pub(crate) largest: u64,
}

/// Lays out the tile whose members a desk holds, behind those of its sub-file whose size is counted. A sub-file of 2^39
/// bytes or more is counted on, and no more of it is put. After `Failed` the parts are not used again.
pub(crate) fn put_tile<P: Spill>(
    tile: &TilePlace,
    weight: u64,
    desk: &mut Desk,
    rows: &Rows,
    size: &mut SubFileSize,
    laid: &mut Laid,
    spill: &mut P,
) -> Result<(), Failed>
    requires started { (P.state spill.old).is_started ≡ true }
    requires tile { IsTile tile.now }
    requires members { HoldsMembers tile.now desk.old.records }
    requires there { AreThere laid.old.index laid.old.tiles (P.state spill.old) }
    requires room { HasRoom 0 laid.old }
    requires few { size.old.tiles < 2 ^ 32 }
    requires small { size.old.bytes ≤ 2 ^ 29 * size.old.tiles }
    ensures laid { OnOk result (AreLaid (record {
      place = tile.now;
      weight = weight;
      members = features_told desk.old.records.records;
    } ∷ []) size.old size.new laid.old laid.new
        (P.state spill.old) (P.state spill.new)) }
    ensures there { OnOk result (AreThere laid.new.index laid.new.tiles (P.state spill.new)) }
    ensures same_faults { OnOk result ((P.state spill.new).faults ≡ (P.state spill.old).faults) }
    ensures failed { OnErr result (CountsOne (P.state spill.old).faults (P.state spill.new).faults) }
    ensures small { size.new.bytes ≤ 2 ^ 29 * size.new.tiles }
    ensures same_index { laid.new.index.part ≡ laid.old.index.part }
    ensures same_tiles { laid.new.tiles.part ≡ laid.old.tiles.part }
    ensures only { TouchesTwo laid.old.index.part laid.old.tiles.part (P.state spill.old) (P.state spill.new) }
    ensures same_records { desk.new.records ≡ desk.old.records }
{
    encode_tile(tile, desk, rows);
    count_tile(weight, desk, size, laid);
    if size.bytes >= SUB_FILE_LIMIT {
        return Ok(());
    }
    let row = index_row(tile, desk);
    put_content(
        &row,
        desk.out.bytes(),
        &mut laid.index,
        &mut laid.tiles,
        spill,
    )
}

// Leaves the bytes of a tile in a desk, and whether it is covered by water.
fn encode_tile(tile: &TilePlace, desk: &mut Desk, rows: &Rows)
    requires tile { IsTile tile.now }
    requires members { HoldsMembers tile.now desk.old.records }
    ensures bytes { desk.new.out.bytes ≡ (content_of tile.now (features_told desk.old.records.records)).bytes }
    ensures water { desk.new.water ≡ water tile.now (features_told desk.old.records.records) }
    ensures most { 5 + length desk.new.out.bytes ≤ 2 ^ 29 }
    ensures same_records { desk.new.records ≡ desk.old.records }
{
    prove!(desk.records.spare() <= 16_777_216);
    let covered = is_water(desk, tile, rows);
    encode(desk, tile, rows);
    desk.water = covered;
}

// Counts the tile that a desk has.
fn count_tile(weight: u64, desk: &Desk, size: &mut SubFileSize, laid: &mut Laid)
    requires tiles { size.old.tiles < 2 ^ 32 }
    requires bytes { size.old.bytes ≤ 2 ^ 61 }
    requires more { length desk.now.out.bytes ≤ 2 ^ 29 }
    requires shown { laid.old.shown ≤ 2 ^ 63 }
    requires water { laid.old.water ≤ 2 ^ 63 }
    ensures tiles { size.new.tiles ≡ size.old.tiles + 1 }
    ensures bytes { size.new.bytes ≡ size.old.bytes + (5 + length desk.now.out.bytes) }
    ensures shown { laid.new.shown ≡ laid.old.shown
        + (if nat_lt 0 (length desk.now.records.records) then 1 else 0) }
    ensures water { laid.new.water ≡ laid.old.water + (if desk.now.water then 1 else 0) }
    ensures largest { laid.new.largest ≡ max laid.old.largest weight }
    ensures index { laid.new.index ≡ laid.old.index }
    ensures tiles_same { laid.new.tiles ≡ laid.old.tiles }
{
    size.tiles += 1;
    size.bytes += ENTRY_SIZE + desk.out.bytes().len() as u64;
    laid.shown += u64::from(desk.records.len() > 0);
    laid.water += u64::from(desk.water);
    laid.largest = laid.largest.max(weight);
}

// The row of the tile that a desk has in the index.
fn index_row(tile: &TilePlace, desk: &Desk) -> IndexRow
    ensures { result ≡ record {
      interval = tile.now.index;
      y = tile.now.y;
      x = tile.now.x;
      water = if desk.now.water then 1 else 0;
      size = length desk.now.out.bytes;
    } }
{
    IndexRow {
        interval: tile.index,
        y: tile.y,
        x: tile.x,
        water: u8::from(desk.water),
        size: desk.out.bytes().len() as u64,
    }
}

// Puts the row and the bytes of a tile behind those of others. After `Failed` the parts are not used again.
fn put_content<P: Spill>(
    row: &IndexRow,
    bytes: &[u8],
    index: &mut Writer<IndexRow>,
    tiles: &mut BytePart,
    spill: &mut P,
) -> Result<(), Failed>
    requires started { (P.state spill.old).is_started ≡ true }
    requires there { AreThere index.old tiles.old (P.state spill.old) }
    requires few { 18 * length index.old.rows + 18 ≤ part_limit }
    requires room { tiles.old.size + length bytes.now ≤ part_limit }
    ensures put { OnOk result (ArePut row.now bytes.now index.old index.new tiles.old tiles.new
        (P.state spill.old) (P.state spill.new)) }
    ensures there { OnOk result (AreThere index.new tiles.new (P.state spill.new)) }
    ensures same_faults { OnOk result ((P.state spill.new).faults ≡ (P.state spill.old).faults) }
    ensures failed { OnErr result (CountsOne (P.state spill.old).faults (P.state spill.new).faults) }
    ensures same_index { index.new.part ≡ index.old.part }
    ensures same_tiles { tiles.new.part ≡ tiles.old.part }
    ensures only { TouchesTwo index.old.part tiles.old.part (P.state spill.old) (P.state spill.new) }
{
    tiles.append(spill, bytes)?;
    index.put(spill, row)
}
