//! Laws of weights and counts over all tiles.

ghost use Rattle.std.specs.Prelude.{◌≡◌, ℕ, ◌≤◌, nat_lt, Bool, List, if◌then◌else◌, true, false, flat_map, length};
ghost use Rattle.std.specs.Prelude.{count_by, sum_by, IsTrue};
ghost use Rattle.std.specs.List.{enumerate_from};
ghost use Rattle.mf_base.specs.declared.place.Rect.{Rect};
ghost use Rattle.mf_base.specs.declared.tile.Interval.{Interval};
ghost use Rattle.mf_base.specs.declared.tile.TilePlace.{TilePlace};
ghost use Rattle.feature_model.specs.Features.{Feature};
ghost use Rattle.map_model.specs.Intervals.{are_intervals};
ghost use Rattle.map_model.specs.TileBytes.{tile_bytes};
ghost use Rattle.map_model.specs.SubFile.{TileContent};
ghost use Rattle.map_model.specs.Header.{HeadSettings};
ghost use Rattle.map_model.specs.MapFile.{all_tiles, all_contents, tile_weight, shown_tiles, water_tiles};
ghost use Rattle.map_model.specs.NumberedMembers.{is_in_tile, spread_weight};

/// A tile weighs what the features in it weigh, and all tiles weigh what each feature weighs in each tile that the box
/// shares with it.
#[tactic(auto, using(crate::proofs::Counts::count_laws))]
pub fn weights_of_tiles()
    ensures tile { (features : List Feature) (tile : TilePlace) → tile.interval.min ≤ tile.interval.max
        → tile_weight features tile ≡ sum_by (λ (f : Feature). if is_in_tile tile f then f.weight else 0) features }
    ensures all { (set : HeadSettings) (box : Rect) (features : List Feature) → IsTrue (are_intervals set.intervals)
        → sum_by (tile_weight features) (all_tiles set box)
        ≡ sum_by (λ (i : ℕ × Interval). sum_by (spread_weight box i.1) features) (enumerate_from 0 set.intervals) }
{}

/// A tile has bytes exactly where it has members. So the tiles with members, and those with the water bit, are counted
/// over the contents.
#[tactic(auto, using(crate::proofs::Counts::count_laws))]
pub fn counts_of_tiles()
    ensures bytes { (tile : TilePlace) (fs : List Feature)
        → nat_lt 0 (length (tile_bytes tile fs)) ≡ nat_lt 0 (length fs) }
    ensures shown { (set : HeadSettings) (box : Rect) (features : List Feature)
        → shown_tiles set box features ≡ count_by (λ (t : TileContent). nat_lt 0 (length t.bytes))
        (flat_map (λ (tiles : List TileContent). tiles) (all_contents set box features)) }
    ensures water { (set : HeadSettings) (box : Rect) (features : List Feature)
        → water_tiles set box features ≡ count_by (λ (t : TileContent). t.water)
        (flat_map (λ (tiles : List TileContent). tiles) (all_contents set box features)) }
{}
