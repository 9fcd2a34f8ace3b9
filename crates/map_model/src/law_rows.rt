//! The premises of the laws are met, by computed rows: a law that nothing meets would say nothing.

ghost use Rattle.std.specs.Prelude.{◌≡◌, ◌<◌, ◌≤◌, ◌+◌, ◌^◌, ℕ, pos, int_le, true, [], ◌∷◌, length, sum, IsTrue};
ghost use Rattle.std.specs.Prelude.{AllPairs};
ghost use Rattle.std.specs.List.{AllByRecursion};
ghost use Rattle.mf_base.specs.Ranges.{is_rect};
ghost use Rattle.feature_model.specs.Entries.{IsMapping};
ghost use Rattle.feature_model.specs.Samples.{benches};
ghost use Rattle.map_model.specs.Header.{IsHeadSettings, header_size};
ghost use Rattle.map_model.specs.Intervals.{are_intervals};
ghost use Rattle.map_model.specs.MapFile.{all_contents};
ghost use Rattle.map_model.specs.Members.{StandInOrder, in_tile_order, weight_of_tile};
ghost use Rattle.map_model.specs.NumberedMembers.{TileBelow};
ghost use Rattle.map_model.specs.Room.{rows_limit, IsKeptShort, IsWritable, IsWritten};
ghost use Rattle.map_model.specs.TagLists.{tag_lists};
ghost use Rattle.map_model.specs.TileReading.{IsPlaceOf32Bits};
ghost use Rattle.map_model.specs.Samples.{settings_to, degree_box, bench, lake_tile, zoom_range, world_corner};
ghost use Rattle.map_model.specs.Samples.{world_tile, garden_ring};

/// A mapping of benches, settings of one interval, a box, a bench and tiles that follow each other are what the laws
/// ask for.
pub fn premises_are_met()
    ensures settings { IsHeadSettings (settings_to 7) }
    ensures mapping { IsMapping benches }
    ensures box_of_one_degree { IsTrue (is_rect degree_box) }
    ensures written { IsWritten benches bench }
    ensures writable { IsWritable bench }
    ensures stands { StandInOrder (zoom_range 0 0 7) (bench ∷ []) }
    ensures tiles { AllPairs TileBelow (lake_tile 16 14 ∷ lake_tile 17 14 ∷ lake_tile 16 15 ∷ []) }
{}

/// Numbers within the bounds that the laws ask for: of zoom levels, sub-files, places, tags and the tile of a bench.
#[tactic(auto, unfolding(crate::proofs::Compute::compute))]
pub fn premises_on_numbers_are_met()
    ensures north { int_le (pos 0) (pos 1) ≡ true }
    ensures zooms { (zoom_range 0 0 7).min ≤ (zoom_range 0 0 7).max }
    ensures intervals { IsTrue (are_intervals (settings_to 7).intervals) }
    ensures contents { length (all_contents (settings_to 7) degree_box (bench ∷ []))
        ≡ length (settings_to 7).intervals }
    ensures sizes { length {A = ℕ} (34 ∷ []) ≡ length (settings_to 7).intervals }
    ensures whole { header_size (settings_to 7) (tag_lists benches) + sum (34 ∷ []) < 2 ^ 64 }
    ensures place { IsPlaceOf32Bits world_corner }
    ensures places { AllByRecursion IsPlaceOf32Bits garden_ring }
    ensures few_places { length garden_ring < 2 ^ 35 }
    ensures few_tags { length bench.tags ≤ 15 }
    ensures short { AllByRecursion IsKeptShort bench.tags }
    ensures column { (world_tile 7).x < 2 ^ (world_tile 7).interval.base }
    ensures highest { (world_tile 7).interval.max ≤ 21 }
    ensures in_order { bench ∷ [] ≡ in_tile_order (world_tile 7).interval (bench ∷ []) }
    ensures light { weight_of_tile (bench ∷ []) ≤ rows_limit }
{}
