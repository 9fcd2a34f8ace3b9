//! Laws of tiles, each on a function that does nothing.

ghost use Rattle.std.specs.Prelude.{◌≡◌, ◌↔◌, ℕ, IsTrue, Some, None};
ghost use Rattle.mf_base.specs.declared.place.Rect.{Rect};
ghost use Rattle.mf_base.specs.declared.tile.TileRect.{TileRect};
ghost use Rattle.map_model.specs.TileRects.{tile_rect, common, meets, has_tile};

/// A tile meets a rectangle exactly where it lies in its tiles; and it meets a box and the rectangle of a feature
/// exactly where it lies in the tiles common to both, of which there are none where no tile meets both.
pub fn tiles_of_box_and_feature()
    ensures one { (rect : Rect) (z x y : ℕ) → IsTrue (meets rect z x y) ↔ IsTrue (has_tile (tile_rect rect z) x y) }
    ensures both { (box rect : Rect) (z : ℕ) (t : TileRect) → common (tile_rect box z) (tile_rect rect z) ≡ Some t
        → (x y : ℕ) → IsTrue (has_tile t x y) ↔ (IsTrue (meets box z x y) × IsTrue (meets rect z x y)) }
    ensures none { (box rect : Rect) (z : ℕ) → common (tile_rect box z) (tile_rect rect z) ≡ None
        → (x y : ℕ) → IsTrue (meets box z x y) → IsTrue (meets rect z x y) → ⊥ }
{}
