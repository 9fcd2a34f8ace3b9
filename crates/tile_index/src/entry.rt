//! Entries of the index, written and counted.

ghost use Rattle.std.specs.Prelude.{◌≡◌, ◌+◌, ◌≤◌, ◌<◌, ◌^◌, IsTrue, slice_get, Some, length};
ghost use Rattle.mf_base.specs.Buffer.{HasRoom, AppendsTo};
ghost use Rattle.map_model.specs.TileRects.{IsTileRect, has_tile, tiles_of, tile_count, entry_place};
ghost use Rattle.map_model.specs.SubFile.{entry_bytes};

use mf_base::fixed::put_be;
use mf_base::out_buf::OutBuf;
use mf_base::tile::TileRect;

/// Puts an entry of five bytes: the top bit is the water bit, the other 39 are the offset of the tile from the start of
/// the sub-file.
pub fn put_entry(out: &mut OutBuf, water: bool, offset: u64)
    requires offset { offset < 2 ^ 39 }
    requires room { HasRoom out.old 5 }
    ensures appends { AppendsTo out.old out.new (entry_bytes water offset) }
    ensures most { length out.new.bytes ≤ length out.old.bytes + 5 }
{
    let water_bit = if water { 1 << 39 } else { 0 };
    put_be(out, water_bit + offset, 5);
}

/// How many entries an index has: one for each tile.
pub fn entry_count(span: &TileRect) -> u64
    requires zoom { span.now.z ≤ 18 }
    requires span { IsTileRect span.now }
    ensures count { result ≡ tile_count span.now }
    ensures each { result ≡ length (tiles_of span.now) }
{
    let columns = u64::from(span.last_x - span.first_x) + 1;
    let rows = u64::from(span.last_y - span.first_y) + 1;
    columns * rows
}

/// The place of the entry of tile (x, y), from 0: row by row from the north and west to east.
pub fn entry_place(span: &TileRect, x: u32, y: u32) -> u64
    requires zoom { span.now.z ≤ 18 }
    requires span { IsTileRect span.now }
    requires inside { IsTrue (has_tile span.now x y) }
    ensures place { result ≡ entry_place span.now x y }
    ensures tile { slice_get (tiles_of span.now) result ≡ Some (x, y) }
{
    let columns = u64::from(span.last_x - span.first_x) + 1;
    u64::from(y - span.first_y) * columns + u64::from(x - span.first_x)
}

#[cfg(test)]
mod tests {
    use super::*;
    use std::test::Fail;

    #[test]
    fn entries(rt: HostRuntime) -> Result<(), Fail> {
        let mut out = OutBuf::new(rt.alloc(), 15)?;
        assert!(rt; out.spare() >= 15);
        put_entry(&mut out, false, 5);
        put_entry(&mut out, true, 5);
        put_entry(&mut out, true, (1 << 39) - 1);
        assert_eq!(rt;
            out.bytes(),
            [0, 0, 0, 0, 5, 0x80, 0, 0, 0, 5, 255, 255, 255, 255, 255].as_slice()
        );
        Ok(())
    }

    #[test]
    fn places(rt: HostRuntime) {
        let span = TileRect {
            z: 5,
            first_x: 16,
            last_x: 18,
            first_y: 14,
            last_y: 15,
        };
        assert_eq!(rt; entry_count(&span), 6);
        assert_eq!(rt; entry_place(&span, 16, 14), 0);
        assert_eq!(rt; entry_place(&span, 18, 14), 2);
        assert_eq!(rt; entry_place(&span, 17, 15), 4);
    }
}
