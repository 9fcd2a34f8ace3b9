//! The members of a tile, one after another: first the POIs, then the ways.

ghost use Rattle.std.specs.Prelude.{◌≡◌, ◌+◌, ◌≤◌, ◌<◌, ◌^◌, length};
ghost use Rattle.std.specs.List.{AllByRecursion};
ghost use Rattle.mf_base.specs.Buffer.{HasRoom, AppendsTo};
ghost use Rattle.map_model.specs.Room.{rows_limit};
ghost use Rattle.map_model.specs.TileBytes.{tile_corner};
ghost use Rattle.mf_rows.specs.Desks.{units_in};
ghost use Rattle.tile_body.specs.Members.{IsTile, IsMember};
ghost use Rattle.tile_body.specs.Tiles.{features_told, pois_bytes, ways_bytes};

use crate::class::is_poi;
use crate::poi::{put_poi, size_poi};
use crate::way::put_way;
use mercator_rows::rows::Rows;
use mf_base::out_buf::OutBuf;
use mf_base::place::Place;
use mf_base::tile::TilePlace;
use mf_rows::records::Records;

/// How many bytes the POIs take.
pub(crate) fn size_pois(records: &Records, corner: Place) -> u64
    requires members { AllByRecursion IsMember records.now.records }
    requires few { length (pois_bytes corner (features_told records.now.records)) < 2 ^ 32 }
    ensures size { result ≡ length (pois_bytes corner (features_told records.now.records)) }
{
    let mut size = 0;
    let mut i = 0;
    while i < records.len() {
        if is_poi(records.head(i)) {
            size += size_poi(&records.view(i), corner);
        }
        i += 1;
    }
    size
}

/// Puts the POIs, in their order.
pub(crate) fn put_pois(out: &mut OutBuf, records: &Records, corner: Place)
    requires members { AllByRecursion IsMember records.now.records }
    requires room { HasRoom out.old (length (pois_bytes corner (features_told records.now.records)) + 10) }
    ensures appends { AppendsTo out.old out.new (pois_bytes corner (features_told records.now.records)) }
{
    let mut i = 0;
    while i < records.len() {
        if is_poi(records.head(i)) {
            put_poi(out, &records.view(i), corner);
        }
        i += 1;
    }
}

/// Puts the ways and relations, in their order.
pub(crate) fn put_ways(
    out: &mut OutBuf,
    records: &Records,
    tile: &TilePlace,
    corner: Place,
    rows: &Rows,
)
    requires tile { IsTile tile.now }
    requires members { AllByRecursion IsMember records.now.records }
    requires corner { corner ≡ tile_corner tile.now }
    requires light { units_in records.now.records ≤ rows_limit }
    requires room { HasRoom out.old (length (ways_bytes tile.now (features_told records.now.records)) + 10) }
    ensures appends { AppendsTo out.old out.new (ways_bytes tile.now (features_told records.now.records)) }
{
    let mut i = 0;
    while i < records.len() {
        if !is_poi(records.head(i)) {
            put_way(out, &records.view(i), tile, corner, rows);
        }
        i += 1;
    }
}
