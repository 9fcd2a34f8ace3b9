//! The head of a PrimitiveBlock: the OpenStreetMap wiki, "PBF Format", on PrimitiveBlock.

ghost use Rattle.std.specs.Prelude.{◌≡◌};
ghost use Rattle.osm_model.specs.Blocks as blocks;
ghost use Rattle.pbf_block.specs.Head.{answer_told};

use osm_model::faults::BlockFault;
use osm_model::tables::PRIMITIVE_BLOCK;
use pbf_wire::message::read_message;

/// What a PrimitiveBlock says of its coordinates, in nanodegrees: a stored number counts so many, and the offsets are
/// added.
#[derive(Clone, Copy, Debug, PartialEq, Eq)]
pub struct BlockHead {
    pub granularity: i64,
    pub lat_offset: i64,
    pub lon_offset: i64,
}

/// The head of a PrimitiveBlock, or the first fault of its message.
pub fn block_head(bytes: &[u8]) -> Result<BlockHead, BlockFault>
    ensures { answer_told result ≡ blocks.block_head bytes.now }
{
    match read_message(bytes, &PRIMITIVE_BLOCK) {
        Err(fault) => Err(BlockFault::Wire(fault)),
        Ok(all) => Ok(BlockHead {
            granularity: all[2].number.unwrap_or(100).cast_signed(),
            lat_offset: all[3].number.unwrap_or(0).cast_signed(),
            lon_offset: all[4].number.unwrap_or(0).cast_signed(),
        }),
    }
}

#[cfg(test)]
mod tests {
    use super::{BlockHead, block_head};
    use osm_model::faults::{BlockFault, MessageFault};

    // A PrimitiveBlock, and its granularity, its offset in latitude and that in longitude.
    const HEADS: [(&[u8], i64, i64, i64); 4] = [
        // The defaults.
        (b"", 100, 0, 0),
        // Negative offsets in ten bytes, and a granularity.
        (
            b"\x88\x01\xE8\x07\x98\x01\xFB\xFF\xFF\xFF\xFF\xFF\xFF\xFF\xFF\x01\xA0\x01\x80\x80\x80\x80\x80\x80\x80\x80\x80\x01",
            1000,
            -5,
            i64::MIN,
        ),
        // Of a number that comes twice the last counts; other fields are passed over.
        (
            b"\x88\x01\x01\x0A\x00\x12\x00\x90\x01\xE8\x07\x88\x01\x00",
            0,
            0,
            0,
        ),
        // Fields of each type that are not read.
        (
            b"\xA8\x01\x05\xA9\x01\x00\x00\x00\x00\x00\x00\x00\x00\x98\x01\x07\xAA\x01\x01X\xAD\x01\x00\x00\x00\x00",
            100,
            7,
            0,
        ),
    ];

    #[test]
    fn heads(rt: HostRuntime) {
        for (bytes, granularity, lat_offset, lon_offset) in HEADS {
            let want = BlockHead {
                granularity,
                lat_offset,
                lon_offset,
            };
            assert_eq!(rt; block_head(bytes), Ok(want), "of {bytes:?}");
        }
        let twice = MessageFault::Twice { field: 1 };
        assert_eq!(rt;
            block_head(b"\x0A\x00\x0A\x00"),
            Err(BlockFault::Wire(twice))
        );
    }
}
