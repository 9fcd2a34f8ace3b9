//! Laws of the members of tiles.

ghost use Rattle.std.specs.Prelude.{◌≡◌, ℕ, ◌≤◌, List, map, sum_by, IsTrue, AllPairs};
ghost use Rattle.mf_base.specs.declared.tile.Interval.{Interval};
ghost use Rattle.feature_model.specs.Features.{Feature};
ghost use Rattle.mf_base.specs.declared.tile.TilePlace.{TilePlace};
ghost use Rattle.map_model.specs.Members.{in_tile_order, members, StandInOrder};
ghost use Rattle.map_model.specs.NumberedMembers.{numbered_members, TileBelow, IsKeyBelow, put_keys, all_keys};
ghost use Rattle.map_model.specs.declared.tile_key.TileKey.{TileKey};
ghost use Rattle.mf_base.specs.declared.place.Rect.{Rect};
ghost use Rattle.map_model.specs.Header.{HeadSettings};
ghost use Rattle.map_model.specs.Intervals.{are_intervals};
ghost use Rattle.map_model.specs.MapFile.{all_tiles};

/// Features that stand in the order of a tile are in that order.
#[tactic(auto, using(crate::proofs::TileOrder::order_laws))]
pub fn standing_in_order()
    ensures same { (interval : Interval) (fs : List Feature) → interval.min ≤ interval.max → StandInOrder interval fs
        → fs ≡ in_tile_order interval fs }
{}

/// Without their numbers the numbered members of a tile are its members.
#[tactic(auto, using(crate::proofs::NumberedMembers::number_laws))]
pub fn members_by_number()
    ensures shown { (features : List Feature) (tile : TilePlace)
        → map (λ (p : ℕ × Feature). p.1) (numbered_members features tile) ≡ members features tile }
{}

/// The keys that are put are those of the members of all tiles, each as often; in ascending order they stand tile after
/// tile, and tiles ascend by interval, y and x.
#[tactic(auto, using(crate::proofs::TileKeys::key_laws))]
pub fn keys_in_order()
    ensures as_often { (f : TileKey → ℕ) (set : HeadSettings) (box : Rect) (features : List Feature)
        → IsTrue (are_intervals set.intervals)
        → sum_by f (put_keys set box features) ≡ sum_by f (all_keys set box features) }
    ensures only { (set : HeadSettings) (box : Rect) (features : List Feature) (ks : List TileKey)
        → IsTrue (are_intervals set.intervals) → AllPairs IsKeyBelow ks
        → ((f : TileKey → ℕ) → sum_by f ks ≡ sum_by f (put_keys set box features)) → ks ≡ all_keys set box features }
    ensures tiles { (set : HeadSettings) (box : Rect) → AllPairs TileBelow (all_tiles set box) }
    ensures rise { (set : HeadSettings) (box : Rect) (features : List Feature)
        → AllPairs IsKeyBelow (all_keys set box features) }
{}
