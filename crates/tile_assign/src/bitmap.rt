//! The bitmap of the sixteen sub-tiles of a tile.

ghost use Rattle.std.specs.Prelude.{◌≡◌, ◌≤◌, ◌<◌, ◌^◌, IsTrue};
ghost use Rattle.mf_base.specs.Ranges.{is_rect};
ghost use Rattle.map_model.specs.Bitmap.{rect_bits};

use crate::tile_rect::{has_tile, tiles};
use mercator_rows::rows::Rows;
use mf_base::place::Rect;

/// The sub-tiles of tile (x, y) at zoom `z` that a rectangle meets, the one in the north-west being the highest bit:
/// four rows of four, from west to east.
pub fn bitmap(rect: &Rect, z: u8, x: u32, y: u32, rows: &Rows) -> u16
    requires zoom { z ≤ 16 }
    requires x { x < 2 ^ z }
    requires y { y < 2 ^ z }
    requires rect { IsTrue (is_rect rect.now) }
    ensures { result ≡ rect_bits rect.now z x y }
{
    let met = tiles(rect, z + 2, rows);
    let mut bits = 0;
    for n in 0..16 {
        let is_met = has_tile(&met, 4 * x + n % 4, 4 * y + n / 4);
        bits = 2 * bits + u16::from(is_met);
    }
    bits
}

#[cfg(test)]
mod tests {
    use super::*;
    use std::test::Fail;

    // In one sub-tile, across four, along an edge, larger than the tile, in the far south-west, and beside the tile.
    #[test]
    fn sub_tiles(rt: HostRuntime) -> Result<(), Fail> {
        let rows = Rows::new(rt.alloc())?;
        let mut rect = Rect {
            min_lat: 1,
            min_lon: 1,
            max_lat: 10,
            max_lon: 20,
        };
        assert_eq!(rt; bitmap(&rect, 0, 0, 0, &rows), 0x0200);
        rect.min_lat = 0;
        assert_eq!(rt; bitmap(&rect, 0, 0, 0, &rows), 0x0220);
        rect.min_lat = -10;
        rect.min_lon = -10;
        assert_eq!(rt; bitmap(&rect, 0, 0, 0, &rows), 0x0660);
        rect.max_lat = 90_000_000;
        rect.max_lon = 180_000_000;
        assert_eq!(rt; bitmap(&rect, 14, 8192, 8191, &rows), 0xffff);
        assert_eq!(rt; bitmap(&rect, 14, 8190, 8191, &rows), 0);
        rect.min_lat = -89_000_000;
        rect.min_lon = -180_000_000;
        rect.max_lat = -89_000_000;
        rect.max_lon = 0;
        assert_eq!(rt; bitmap(&rect, 0, 0, 0, &rows), 0x000e);
        Ok(())
    }
}
