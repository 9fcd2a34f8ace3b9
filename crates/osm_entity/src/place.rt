//! The place of a node: the OpenStreetMap wiki, "PBF Format", on granularity and offsets.

ghost use Rattle.std.specs.Prelude.{◌≡◌, ◌<◌, ◌^◌};
ghost use Rattle.osm_model.specs.Blocks as blocks;
ghost use Rattle.pbf_block.specs.Head.{head_told};
ghost use Rattle.osm_entity.specs.Place.{checked_place, checked_nano};

use mf_base::place::Place;
use osm_model::faults::EntityFault;
use osm_model::limits::{LATITUDE_LIMIT, LONGITUDE_LIMIT};
use pbf_block::head::BlockHead;
use pbf_block::micro::micro;

// The place of a stored latitude and longitude, in microdegrees, where it is on the earth.
pub(crate) fn place_at(lat: i64, lon: i64, head: BlockHead) -> Result<Place, EntityFault>
    ensures { result ≡ checked_place (head_told head) lat lon }
{
    let lat = nano_at(head.lat_offset, head.granularity, lat, LATITUDE_LIMIT)?;
    let lon = nano_at(head.lon_offset, head.granularity, lon, LONGITUDE_LIMIT)?;
    Ok(Place {
        lat: micro(lat),
        lon: micro(lon),
    })
}

// The nanodegrees of a stored number, where they lie within the limit on both sides of 0.
fn nano_at(offset: i64, granularity: i64, stored: i64, limit: u64) -> Result<i64, EntityFault>
    requires { limit < 2 ^ 63 }
    ensures { result ≡ checked_nano limit (blocks.nano offset granularity stored) }
{
    let nano = nano_of(offset, granularity, stored);
    if nano.unsigned_abs() <= u128::from(limit) {
        Ok(nano as i64)
    } else {
        Err(EntityFault::Coordinate)
    }
}

// The nanodegrees of a stored number.
fn nano_of(offset: i64, granularity: i64, stored: i64) -> i128
    ensures { result ≡ blocks.nano offset granularity stored }
{
    i128::from(offset) + i128::from(granularity) * i128::from(stored)
}
