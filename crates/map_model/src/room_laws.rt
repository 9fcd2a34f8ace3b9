//! Laws of the room that a tile takes, by its parts.

ghost use Rattle.std.specs.Prelude.{◌≡◌, ℕ, ℤ, ◌+◌, ◌*◌, ◌^◌, ◌<◌, ◌≤◌, Bool, List, map, length, Ok};
ghost use Rattle.std.specs.List.{AllByRecursion};
ghost use Rattle.mf_base.specs.declared.place.Place.{Place};
ghost use Rattle.mf_base.specs.declared.tile.TilePlace.{TilePlace};
ghost use Rattle.map_model.specs.Members.{in_tile_order, weight_of_tile};
ghost use Rattle.feature_model.specs.Inside.{Ring};
ghost use Rattle.feature_model.specs.Mapping.{Mapping};
ghost use Rattle.feature_model.specs.Entries.{IsMapping};
ghost use Rattle.feature_model.specs.Choice.{Kept};
ghost use Rattle.feature_model.specs.Descriptions.{kept_size};
ghost use Rattle.feature_model.specs.Features.{Feature};
ghost use Rattle.map_model.specs.Layout.{step, step_bytes, coordinate_bytes, ring_bytes, tag_bytes};
ghost use Rattle.map_model.specs.TileBytes.{poi_bytes, way_bytes, tile_bytes, written_levels};
ghost use Rattle.map_model.specs.Room.{rows_limit, IsKeptShort, IsWritable, IsWritten};
ghost use Rattle.map_model.specs.TileReading.{IsPlaceOf32Bits, IsLevel, read_tile};
ghost use Rattle.map_model.specs.TagLists.{tag_lists};
ghost use Rattle.map_model.specs.Listed.{listed};

/// A place takes at most ten bytes, under either delta kind, and so do the counts of a ring and of its block.
#[tactic(auto, using(crate::proofs::Widths::ring_laws))]
pub fn room_of_rings()
    ensures place { (a b : Place) → IsPlaceOf32Bits a → IsPlaceOf32Bits b → length (step_bytes (step a b)) ≤ 10 }
    ensures places { (corner : Place) (double : Bool) (ring : Ring) → IsPlaceOf32Bits corner
        → AllByRecursion IsPlaceOf32Bits ring → length (coordinate_bytes corner double ring) ≤ 10 * length ring }
    ensures ring { (corner : Place) (double : Bool) (ring : Ring) → IsPlaceOf32Bits corner
        → AllByRecursion IsPlaceOf32Bits ring → length ring < 2 ^ 35
        → length (ring_bytes corner double ring) ≤ 5 + 10 * length ring }
{}

/// Beside the bytes of its texts the tags of a feature take at most 91 bytes, and a POI takes at most 16 bytes for each
/// row that it weighs.
#[tactic(auto, using(crate::proofs::FeatureRoom::feature_laws))]
pub fn room_of_features()
    ensures tags { (layer : ℤ) (tags : List Kept) → length tags ≤ 15 → AllByRecursion IsKeptShort tags
        → length (tag_bytes layer tags) ≤ 91 + kept_size tags }
    ensures poi { (corner : Place) (f : Feature) → IsPlaceOf32Bits corner → IsWritable f
        → length (poi_bytes corner f) ≤ 16 * f.weight }
{}

/// A way takes at most 16 bytes for each row that it weighs, whatever its bitmap.
#[tactic(auto, using(crate::proofs::WayRoom::way_laws))]
pub fn room_of_ways()
    ensures { (corner : Place) (bits : ℕ) (f : Feature) → IsPlaceOf32Bits corner → IsWritable f
        → length (way_bytes corner bits f) ≤ 16 * f.weight }
{}

/// A tile whose members weigh at most 16,777,216 rows takes at most 16 bytes for each row and 256.
#[tactic(auto, using(crate::proofs::TileRoom::tile_laws))]
pub fn room_of_a_tile()
    ensures { (tile : TilePlace) (fs : List Feature) → tile.x < 2 ^ tile.interval.base → tile.interval.max ≤ 21
        → fs ≡ in_tile_order tile.interval fs → AllByRecursion IsWritable fs → weight_of_tile fs ≤ rows_limit
        → length (tile_bytes tile fs) ≤ 16 * weight_of_tile fs + 256 }
{}

/// A feature of an accepted input that weighs at most as many rows as a desk holds may be written, what is written of
/// such features is what a tile can tell, and their tile is read again as what is listed of them.
#[tactic(auto, using(crate::proofs::WrittenLevels::writing_laws))]
pub fn features_may_be_written()
    ensures writable { (mapping : Mapping) (f : Feature) → IsMapping mapping → IsWritten mapping f → IsWritable f }
    ensures levels { (mapping : Mapping) (tile : TilePlace) (fs : List Feature) → IsMapping mapping
        → AllByRecursion (IsWritten mapping) fs → length fs < 2 ^ 63
        → AllByRecursion (IsLevel (tag_lists mapping)) (written_levels tile fs) }
    ensures read { (mapping : Mapping) (tile : TilePlace) (fs : List Feature) → IsMapping mapping
        → AllByRecursion (IsWritten mapping) fs → weight_of_tile fs ≤ rows_limit → tile.x < 2 ^ tile.interval.base
        → tile.interval.max ≤ 21 → fs ≡ in_tile_order tile.interval fs
        → read_tile (tag_lists mapping) tile (tile_bytes tile fs) ≡ Ok (map (listed (tag_lists mapping) tile) fs) }
{}
