//! Laws on the ranges of what is accepted, for the passes behind the reader; each on a function that does nothing.

ghost use Rattle.std.specs.Prelude.{◌≡◌, true, ℕ, ℤ, List, Ok, Some};
ghost use Rattle.std.specs.List.{All};
ghost use Rattle.mf_base.specs.Ranges.{is_on_earth, is_rect};
ghost use Rattle.mf_base.specs.declared.place.Rect.{Rect};
ghost use Rattle.osm_model.specs.Blocks.{BlockHead, is_coordinate, place_of, header_box};
ghost use Rattle.osm_model.specs.Input.{input_entities, input_box};
ghost use Rattle.osm_model.specs.Accepted.{IsAccepted};

/// A coordinate in range in nanodegrees is on the earth in microdegrees.
pub fn places_on_the_earth()
    ensures { (head : BlockHead) (lat lon : ℤ)
        → is_coordinate head lat lon ≡ true → is_on_earth (place_of head lat lon) ≡ true }
{}

/// The box of a header is a rectangle on the earth, each least side at most its greatest; and so is that of an input.
pub fn boxes_on_the_earth()
    ensures header { (raw : List ℕ) (box : Rect) → header_box raw ≡ Ok (Some box) → is_rect box ≡ true }
    ensures input { (bytes : List ℕ) (box : Rect) → input_box bytes ≡ Some box → is_rect box ≡ true }
{}

/// Each entity of an input has an id in 1 to 2^63 - 1, places on the earth, refs and ids of members of signed 64 bits,
/// and texts that are UTF-8.
pub fn accepted_entities()
    ensures { (bytes : List ℕ) → All IsAccepted (input_entities bytes) }
{}
