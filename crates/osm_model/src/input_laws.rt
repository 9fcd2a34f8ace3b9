//! Laws of whole inputs, for a pass that goes over their blobs; each on a function that does nothing.

ghost use Rattle.std.specs.Prelude.{◌≡◌, ℕ, List, [], ◌∷◌, ◌++◌, ◌+◌, length, Option, Some, None};
ghost use Rattle.std.specs.Option.{option_or};
ghost use Rattle.mf_base.specs.declared.place.Rect.{Rect};
ghost use Rattle.osm_model.specs.Reading.{Reading, all_read, stops_at, then_reads, with_front};
ghost use Rattle.osm_model.specs.Frames.{Frame, FrameFaultAt, AreFrames, known_at, PassesOver, LeadsTo};
ghost use Rattle.osm_model.specs.Entities.{Entity};
ghost use Rattle.osm_model.specs.Input.{content_fault, content_entities, content_box, entities_of, sound_frames};
ghost use Rattle.osm_model.specs.Input.{as_input_fault, input_fault, good_frames, AreSound, ReadsInput};
ghost use Rattle.osm_model.specs.Outcome.{input_outcome, outcome_behind, all_accepted, refused_for, with_blob};
ghost use Rattle.osm_model.specs.Outcome.{AreSoundBlobs};

use crate::faults::InputCode;

/// The fault, the entities and the box of an input are told by its blobs of known types: those that are passed over
/// change nothing.
pub fn input_of_known_blobs()
    ensures { (bytes : List ℕ) → input_outcome bytes ≡ outcome_behind [] (known_at 0 bytes) }
{}

/// What blobs come to, from the first of them and what is behind it.
pub fn outcome_of_blobs()
    // One more blob without a fault.
    ensures blob { (before : List Entity) (f : Frame) (rest : Reading Frame FrameFaultAt)
        → content_fault before f.content ≡ None → outcome_behind before (then_reads f rest)
        ≡ with_blob f.content (outcome_behind (before ++ content_entities f.content) rest) }

    // The first blob with a fault, and bytes that begin with no blob.
    ensures fault { (before : List Entity) (f : Frame) (rest : Reading Frame FrameFaultAt) (code : InputCode)
        → content_fault before f.content ≡ Some code
        → outcome_behind before (then_reads f rest) ≡ refused_for (record { at = f.at; code = code }) }
    ensures no_blob { (before : List Entity) (told : FrameFaultAt)
        → outcome_behind before (stops_at told) ≡ refused_for (as_input_fault told) }
    ensures end { (before : List Entity) → outcome_behind before all_read ≡ all_accepted }
{}

/// Bytes that are taken blob by blob, each without a fault behind those before it, are an accepted input at their end.
/// Nothing is asked of the bytes.
pub fn blobs_so_far()
    ensures none { AreSoundBlobs [] [] None }
    ensures blob { (front more : List ℕ) (entities : List Entity) (bounds : Option Rect) (f : Frame)
        → AreSoundBlobs front entities bounds → LeadsTo (length front) more f
        → content_fault entities f.content ≡ None
        → AreSoundBlobs (front ++ more) (entities ++ content_entities f.content)
        (option_or bounds (content_box f.content)) }
    ensures passed { (front more : List ℕ) (entities : List Entity) (bounds : Option Rect)
        → AreSoundBlobs front entities bounds → PassesOver (length front) more
        → AreSoundBlobs (front ++ more) entities bounds }
    ensures whole { (bytes : List ℕ) (entities : List Entity) (bounds : Option Rect)
        → AreSoundBlobs bytes entities bounds
        → input_outcome bytes ≡ record { fault = None; entities = entities; bounds = bounds } }
{}

/// Lists of blobs one behind another.
pub fn blobs_behind_blobs()
    ensures frames { (at : ℕ) (fs gs : List Frame) (x y : List ℕ)
        → AreFrames at x fs → AreFrames (at + length x) y gs → AreFrames at (x ++ y) (fs ++ gs) }
    ensures sound { (before : List Entity) (good fs : List Frame) → AreSound before good
        → sound_frames before (good ++ fs) ≡ with_front good (sound_frames (before ++ entities_of good) fs) }
{}

/// An input that is read to its end is accepted, whatever its bytes are.
pub fn whole_reading_of_input()
    ensures { (bytes : List ℕ) (good : List Frame) → ReadsInput bytes good None
        → (good_frames bytes ≡ good) × (input_fault bytes ≡ None) }
{}
