//! The tiles of a rectangle of tiles, one after another.

ghost use Rattle.std.specs.Prelude.{◌≡◌, ℕ, ◌≤◌, [], ◌∷◌, Some, None};
ghost use Rattle.map_model.specs.TileRects.{IsTileRect, tiles_of};
ghost use Rattle.mf_layout.specs.TileWalk.{walk_from, LiesBefore};

use mf_base::tile::TileRect;
use std::marker::Model;

/// Gives the tiles of a rectangle, row by row from the north and west to east. Contracts see the columns and rows of
/// those that are left.
#[derive(Drop)]
pub(crate) struct TileWalk {
    tiles: TileRect,
    next: Option<(u32, u32)>,
}

impl Model for TileWalk {
    ghost use Rattle.std.specs.Prelude.{ℕ, ◌≤◌, List};
    ghost use Rattle.mf_layout.specs.TileWalk.{walk_from, LiesBefore};

    ghost Value = { List (ℕ × ℕ) };

    ghost view = { λ w. walk_from w.tiles w.next };

    ghost invariant = { λ w. (w.tiles.first_x ≤ w.tiles.last_x) × LiesBefore w.tiles w.next };
}

impl TileWalk {
    /// Begins with the first tile.
    pub(crate) fn of(tiles: &TileRect) -> TileWalk
        requires { IsTileRect tiles.now }
        ensures { result ≡ tiles_of tiles.now }
    {
        TileWalk {
            tiles: *tiles,
            next: Some((tiles.first_x, tiles.first_y)),
        }
    }

    /// The column and row of the next tile, and then none.
    pub(crate) fn next(&mut self) -> Option<(u32, u32)>
        ensures some { (at : ℕ × ℕ) → result ≡ Some at → self.old ≡ at ∷ self.new }
        ensures none { result ≡ None → self.old ≡ [] }
    {
        let here = self.next;
        if let Some((x, y)) = here {
            self.next = behind(&self.tiles, x, y);
        }
        here
    }
}

// The tile behind one of a rectangle.
fn behind(tiles: &TileRect, x: u32, y: u32) -> Option<(u32, u32)>
    requires columns { tiles.now.first_x ≤ tiles.now.last_x }
    requires x { x ≤ tiles.now.last_x }
    requires y { y ≤ tiles.now.last_y }
    ensures next { walk_from tiles.now (Some (x, y)) ≡ (x, y) ∷ walk_from tiles.now result }
    ensures before { LiesBefore tiles.now result }
{
    if x < tiles.last_x {
        Some((x + 1, y))
    } else if y < tiles.last_y {
        Some((tiles.first_x, y + 1))
    } else {
        None
    }
}
