//! The HeaderBlock: the OpenStreetMap wiki, "PBF Format", on its file format.

ghost use Rattle.std.specs.Prelude.{◌≡◌, option_map, int_le};
ghost use Rattle.std.specs.List.{list_all};
ghost use Rattle.osm_model.specs.Wire.{fields};
ghost use Rattle.osm_model.specs.Tables.{bytes_of};
ghost use Rattle.osm_model.specs.Blocks as blocks;
ghost use Rattle.osm_model.specs.Blocks.{header_box, box_where, is_known_feature};
ghost use Rattle.pbf_block.specs.Header.{sides_box, box_of, are_kept};

use crate::micro::{is_within, micro};
use mf_base::place::Rect;
use mf_base::zigzag::unzigzag;
use osm_model::faults::BlockFault;
use osm_model::limits::{LATITUDE_LIMIT, LONGITUDE_LIMIT};
use osm_model::numbers::HEADER_BLOCK_REQUIRED_FEATURES;
use osm_model::tables::{HEADER_BBOX, HEADER_BLOCK};
use pbf_wire::fields::Fields;
use pbf_wire::message::read_message;
use pbf_wire::walk::next_bytes;

/// The box of a HeaderBlock, in microdegrees, where it has one, or its first fault.
pub fn read_header(bytes: &[u8]) -> Result<Option<Rect>, BlockFault>
    ensures { result ≡ header_box bytes.now }
{
    match read_message(bytes, &HEADER_BLOCK) {
        Err(fault) => Err(BlockFault::Wire(fault)),
        Ok(all) => {
            let rect = read_bbox(all[0].bytes(bytes))?;
            if knows_features(bytes) {
                Ok(rect)
            } else {
                Err(BlockFault::RequiredFeature)
            }
        }
    }
}

// The box of a bbox, where there is one, or its first fault.
fn read_bbox(bytes: Option<&[u8]>) -> Result<Option<Rect>, BlockFault>
    ensures { result ≡ box_where (option_map (λ b. b.now) bytes.entry) }
{
    match bytes {
        None => Ok(None),
        Some(bytes) => Ok(Some(box_in(bytes)?)),
    }
}

// The box of a HeaderBBox, or its first fault.
fn box_in(bytes: &[u8]) -> Result<Rect, BlockFault>
    ensures { result ≡ blocks.box_in bytes.now }
{
    match read_message(bytes, &HEADER_BBOX) {
        Err(fault) => Err(BlockFault::Wire(fault)),
        Ok(all) => box_of_sides(all[0].number, all[1].number, all[2].number, all[3].number),
    }
}

// The box of sides as they are stored.
fn box_of_sides(
    left: Option<u64>,
    right: Option<u64>,
    top: Option<u64>,
    bottom: Option<u64>,
) -> Result<Rect, BlockFault>
    ensures { result ≡ sides_box left right top bottom }
{
    let (Some(left), Some(right), Some(top), Some(bottom)) = (left, right, top, bottom) else {
        return Err(BlockFault::BadBox);
    };
    checked_box(
        unzigzag(left),
        unzigzag(right),
        unzigzag(top),
        unzigzag(bottom),
    )
}

// The box of sides in nanodegrees, where they are sides of one on the earth.
fn checked_box(left: i64, right: i64, top: i64, bottom: i64) -> Result<Rect, BlockFault>
    ensures { result ≡ box_of left right top bottom }
{
    if !are_on_earth(left, right, top, bottom) {
        return Err(BlockFault::BadBox);
    }
    if !is_at_most(left, right) {
        return Err(BlockFault::BadBox);
    }
    if !is_at_most(bottom, top) {
        return Err(BlockFault::BadBox);
    }
    Ok(Rect {
        min_lat: micro(bottom),
        min_lon: micro(left),
        max_lat: micro(top),
        max_lon: micro(right),
    })
}

// The sides are on the earth.
fn are_on_earth(left: i64, right: i64, top: i64, bottom: i64) -> bool
    ensures { result ≡ are_kept left right top bottom }
{
    is_within(LONGITUDE_LIMIT, left)
        && is_within(LONGITUDE_LIMIT, right)
        && is_within(LATITUDE_LIMIT, top)
        && is_within(LATITUDE_LIMIT, bottom)
}

// The first is not above the second.
fn is_at_most(one: i64, other: i64) -> bool
    ensures { result ≡ int_le one other }
{
    one <= other
}

// Whether this project knows each required feature of a HeaderBlock.
fn knows_features(bytes: &[u8]) -> bool
    ensures { result ≡ list_all is_known_feature (bytes_of HEADER_BLOCK_REQUIRED_FEATURES (fields bytes.now).items) }
{
    let mut fields = Fields::new(bytes);
    while let Some(feature) = next_bytes(&mut fields, HEADER_BLOCK_REQUIRED_FEATURES) {
        if !is_known(feature) {
            return false;
        }
    }
    true
}

// Whether this project knows a feature.
fn is_known(feature: &[u8]) -> bool
    ensures { result ≡ is_known_feature feature.now }
{
    feature == b"OsmSchema-V0.6".as_slice() || feature == b"DenseNodes".as_slice()
}

#[cfg(test)]
mod tests {
    use super::read_header;
    use mf_base::place::Rect;
    use osm_model::faults::{BlockFault, MessageFault};

    // A HeaderBlock, and its box or its fault.
    const HEADERS: [(&[u8], Result<Option<Rect>, BlockFault>); 19] = [
        // No bbox, and both features.
        (b"\x22\x0EOsmSchema-V0.6\x22\x0ADenseNodes", Ok(None)),
        // Nothing at all.
        (b"", Ok(None)),
        // Sides are cut towards zero.
        (
            b"\x0A\x0D\x08\x9D\x1F\x10\x9E\x1F\x18\xCF\x0F \xFD\x88z",
            Ok(Some(Rect {
                min_lat: -999,
                min_lon: -1,
                max_lat: -1,
                max_lon: 1,
            })),
        ),
        // The whole earth.
        (
            b"\x0A\x1C\x08\xFF\x9F\xB0\x8D\xBD\x0A\x10\x80\xA0\xB0\x8D\xBD\x0A\x18\x80\x90\xD8\xC6\x9E\x05 \xFF\x8F\xD8\xC6\x9E\x05",
            Ok(Some(Rect {
                min_lat: -90000000,
                min_lon: -180000000,
                max_lat: 90000000,
                max_lon: 180000000,
            })),
        ),
        // One nanodegree beyond, on each side.
        (
            b"\x0A\x0D\x08\x81\xA0\xB0\x8D\xBD\x0A\x10\x00\x18\x00 \x00",
            Err(BlockFault::BadBox),
        ),
        (
            b"\x0A\x0D\x08\x00\x10\x82\xA0\xB0\x8D\xBD\x0A\x18\x00 \x00",
            Err(BlockFault::BadBox),
        ),
        (
            b"\x0A\x0D\x08\x00\x10\x00\x18\x82\x90\xD8\xC6\x9E\x05 \x00",
            Err(BlockFault::BadBox),
        ),
        (
            b"\x0A\x0D\x08\x00\x10\x00\x18\x00 \x81\x90\xD8\xC6\x9E\x05",
            Err(BlockFault::BadBox),
        ),
        // Sides that cross.
        (
            b"\x0A\x08\x08\x02\x10\x00\x18\x00 \x00",
            Err(BlockFault::BadBox),
        ),
        (
            b"\x0A\x08\x08\x00\x10\x00\x18\x00 \x02",
            Err(BlockFault::BadBox),
        ),
        // A side is wanting.
        (b"\x0A\x06\x08\x00\x10\x00\x18\x00", Err(BlockFault::BadBox)),
        // Of a side that comes twice the last counts.
        (
            b"\x0A\x0D\x08\x90N\x10\x90N\x18\x00 \x00\x08\xA0\x1F",
            Ok(Some(Rect {
                min_lat: 0,
                min_lon: 2,
                max_lat: 0,
                max_lon: 5,
            })),
        ),
        // A feature that is not known; a bad box comes before.
        (
            b"\x22\x15HistoricalInformation",
            Err(BlockFault::RequiredFeature),
        ),
        (
            b"\x22\x0ADenseNodes\x22\x09DenseNode",
            Err(BlockFault::RequiredFeature),
        ),
        (
            b"\x22\x01X\x0A\x08\x08\x02\x10\x00\x18\x00 \x00",
            Err(BlockFault::BadBox),
        ),
        // A fault of the bbox as a message comes before.
        (
            b"\x22\x01X\x0A\x02\x0A\x00",
            Err(BlockFault::Wire(MessageFault::Form { field: 1 })),
        ),
        // A fault of the HeaderBlock comes first.
        (
            b"\x0A\x02\x0A\x00\x0A\x00",
            Err(BlockFault::Wire(MessageFault::Twice { field: 1 })),
        ),
        // Fields that are not read, of each type.
        (
            b"H\x05Q\x00\x00\x00\x00\x00\x00\x00\x00\x82\x01\x06writer]\x00\x00\x00\x00",
            Ok(None),
        ),
        // The same in a bbox.
        (
            b"\x0A\x1B(\x05\x08\x00\x10\x00)\x00\x00\x00\x00\x00\x00\x00\x00\x18\x00 \x00*\x01X-\x00\x00\x00\x00",
            Ok(Some(Rect {
                min_lat: 0,
                min_lon: 0,
                max_lat: 0,
                max_lon: 0,
            })),
        ),
    ];

    #[test]
    fn headers(rt: HostRuntime) {
        for (bytes, want) in HEADERS {
            assert_eq!(rt; read_header(bytes), want, "of {bytes:?}");
        }
    }
}
