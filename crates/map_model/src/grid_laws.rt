//! Laws of rows, columns and rectangles of tiles.

ghost use Rattle.std.specs.Prelude.{◌≡◌, ℕ, ℤ, ◌≤◌, ◌<◌, ◌^◌, int_le, true, IsTrue};
ghost use Rattle.mf_base.specs.declared.place.Rect.{Rect};
ghost use Rattle.mf_base.specs.Ranges.{is_rect};
ghost use Rattle.map_model.specs.Mercator.{row, column};
ghost use Rattle.map_model.specs.TileRects.{tile_rect, IsTileRect};

/// The further north, the smaller the row; the further east, the greater the column. Both lie below 2^z, and so do the
/// tiles of a rectangle on the earth.
#[tactic(auto, using(crate::proofs::RowLaws::row_laws))]
pub fn rows_and_columns()
    ensures row { (z : ℕ) (a b : ℤ) → int_le a b ≡ true → row z b ≤ row z a }
    ensures row_below { (z : ℕ) (lat : ℤ) → z ≤ 18 → row z lat < 2 ^ z }
    ensures column { (z : ℕ) (a b : ℤ) → int_le a b ≡ true → column z a ≤ column z b }
    ensures column_below { (z : ℕ) (lon : ℤ) → column z lon < 2 ^ z }
    ensures rectangle { (rect : Rect) (z : ℕ) → IsTrue (is_rect rect) → z ≤ 18 → IsTileRect (tile_rect rect z) }
{}
