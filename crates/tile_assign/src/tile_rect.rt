//! The tiles that a rectangle meets.

ghost use Rattle.std.specs.Prelude.{◌≡◌, ℕ, ◌≤◌, ◌↔◌, IsTrue, IfSome};
ghost use Rattle.mf_base.specs.Ranges.{is_rect};
ghost use Rattle.map_model.specs.TileRects.{tile_rect, common, meets, has_tile, IsTileRect};

use mercator_rows::rows::Rows;
use mf_base::place::Rect;
use mf_base::tile::TileRect;

/// The tiles at zoom `z` that a rectangle meets. They make a rectangle of tiles.
#[tactic(auto, using(map_model::proofs::RowLaws::row_laws), unfolding(map_model::specs::TileRects::tile_rect, map_model::specs::TileRects::meets))]
pub fn tiles(rect: &Rect, z: u8, rows: &Rows) -> TileRect
    requires zoom { z ≤ 18 }
    requires rect { IsTrue (is_rect rect.now) }
    ensures tiles { result ≡ tile_rect rect.now z }
    ensures proper { IsTileRect result }
    ensures meets { (x y : ℕ) → has_tile result x y ≡ meets rect.now z x y }
{
    TileRect {
        z,
        first_x: rows.column(z, rect.min_lon),
        last_x: rows.column(z, rect.max_lon),
        first_y: rows.row(z, rect.max_lat),
        last_y: rows.row(z, rect.min_lat),
    }
}

/// The tiles that are in both of two rectangles of one zoom. None comes where no tile is.
pub fn common(a: &TileRect, b: &TileRect) -> Option<TileRect>
    requires zoom { a.now.z ≡ b.now.z }
    requires a { IsTileRect a.now }
    requires b { IsTileRect b.now }
    ensures common { result ≡ common a.now b.now }
    ensures proper { IfSome result IsTileRect }
{
    let both = TileRect {
        z: a.z,
        first_x: a.first_x.max(b.first_x),
        last_x: a.last_x.min(b.last_x),
        first_y: a.first_y.max(b.first_y),
        last_y: a.last_y.min(b.last_y),
    };
    if both.first_x <= both.last_x && both.first_y <= both.last_y {
        Some(both)
    } else {
        None
    }
}

// Whether column x and row y lie in a rectangle of tiles.
pub(crate) fn has_tile(tiles: &TileRect, x: u32, y: u32) -> bool
    ensures { result ≡ has_tile tiles.now x y }
{
    tiles.first_x <= x && x <= tiles.last_x && tiles.first_y <= y && y <= tiles.last_y
}

#[cfg(test)]
mod tests {
    use super::*;
    use std::test::Fail;

    const fn rect(min_lat: i32, min_lon: i32, max_lat: i32, max_lon: i32) -> Rect
        ensures { result ≡ record { min_lat = min_lat; min_lon = min_lon; max_lat = max_lat; max_lon = max_lon } }
    {
        Rect {
            min_lat,
            min_lon,
            max_lat,
            max_lon,
        }
    }

    fn span(z: u8, first_x: u32, last_x: u32, first_y: u32, last_y: u32) -> TileRect
        ensures { result ≡ record { z = z; first_x = first_x; last_x = last_x; first_y = first_y; last_y = last_y } }
    {
        TileRect {
            z,
            first_x,
            last_x,
            first_y,
            last_y,
        }
    }

    // One place, the whole world, and rectangles that end at an edge between two tiles or one microdegree before it.
    #[test]
    fn tiles_met(rt: HostRuntime) -> Result<(), Fail> {
        let rows = Rows::new(rt.alloc())?;
        let place = rect(0, 0, 0, 0);
        assert_eq!(rt; tiles(&place, 14, &rows), span(14, 8192, 8192, 8192, 8192));
        let world = rect(-90_000_000, -180_000_000, 90_000_000, 180_000_000);
        assert_eq!(rt; tiles(&world, 1, &rows), span(1, 0, 1, 0, 1));
        let to_the_edge = rect(0, -10, 10, 0);
        assert_eq!(rt; tiles(&to_the_edge, 1, &rows), span(1, 0, 1, 0, 1));
        let before_the_edge = rect(1, -10, 10, -1);
        assert_eq!(rt; tiles(&before_the_edge, 1, &rows), span(1, 0, 0, 0, 0));
        let north = rect(66_513_261, 179_999_999, 66_513_262, 180_000_000);
        assert_eq!(rt; tiles(&north, 2, &rows), span(2, 3, 3, 0, 0));
        Ok(())
    }

    #[test]
    fn tiles_of_both(rt: HostRuntime) {
        let north_west = span(2, 0, 2, 0, 2);
        assert_eq!(rt;
            common(&north_west, &span(2, 1, 3, 1, 3)),
            Some(span(2, 1, 2, 1, 2))
        );
        assert_eq!(rt;
            common(&north_west, &span(2, 2, 3, 0, 0)),
            Some(span(2, 2, 2, 0, 0))
        );
        assert_eq!(rt; common(&north_west, &span(2, 3, 3, 0, 2)), None);
        assert_eq!(rt; common(&north_west, &span(2, 0, 2, 3, 3)), None);
    }
}
