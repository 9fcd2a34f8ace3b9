//! Laws of the definitions, each on a function that does nothing.

ghost use Rattle.std.specs.Prelude.{◌≡◌, ◌||◌, ◌==◌, if◌then◌else◌, nat_lt, ◌≤◌, ◌+◌, ◌↔◌, Err, ℕ, List, [], ◌∷◌, ◌++◌};
ghost use Rattle.std.specs.Prelude.{take, length, pos, ◌+ℤ◌, ◌<◌, suc, ℤ, true, Option, Result, filter_map};
ghost use Rattle.std.specs.Prelude.{slice_index_or};
ghost use Rattle.mf_base.specs.Spelling.{IsBytes};
ghost use Rattle.mf_base.specs.declared.kind.EntityKind.{EntityKind};
ghost use Rattle.osm_model.specs.declared.limits.TheConstants.{FRAME_LIMIT, STRINGS_LIMIT};
ghost use Rattle.osm_model.specs.declared.numbers.TheConstants.{STRINGTABLE_S};
ghost use Rattle.osm_model.specs.declared.tables.TheConstants.{STRING_TABLE};
ghost use Rattle.osm_model.specs.declared.faults.WireFault.{WireFault};
ghost use Rattle.osm_model.specs.declared.faults.EntityFault.{EntityFault};
ghost use Rattle.osm_model.specs.declared.faults.InputFault.{InputFault};
ghost use Rattle.osm_model.specs.declared.faults.BlockFault.TheVariants as block_faults;
ghost use Rattle.mf_base.specs.Packed.{are_varints, packed_numbers};
ghost use Rattle.osm_model.specs.Wire.{Field, IsMessage, ReadsFields, fields, IsPacked};
ghost use Rattle.osm_model.specs.Tables.{Table, FitsTable, message, bytes_of};
ghost use Rattle.osm_model.specs.Frames.{Content, SpellsFrame, LeadsTo, PassesOver, frames_at, next_known, Frame};
ghost use Rattle.osm_model.specs.Frames.{FrameFaultAt, ReadsFrames, frames};
ghost use Rattle.osm_model.specs.Blocks.{PrimitiveBlock, block, strings_in};
ghost use Rattle.osm_model.specs.Objects.{running_sums, running_sums_from, block_objects, int_sum, Object, told_entity};
ghost use Rattle.osm_model.specs.Objects.{tag_runs, pairs_spelled, HasKeys, by_zero, with_list, behind_key};
ghost use Rattle.osm_model.specs.Input.{input_fault, input_entities, block_fault, entities_in, ReadsInput, good_frames};
ghost use Rattle.osm_model.specs.Reading.{Reading, with_front};
ghost use Rattle.osm_model.specs.Order.{IsRising, in_order, rank, last_id, has_later_kind};
ghost use Rattle.osm_model.specs.Entities.{Entity, kind_of, id_of};

/// What is read of bytes is a message in front and the first fault behind it, and nothing else is.
pub fn one_reading_of_fields()
    ensures reads { (bytes : List ℕ) → ReadsFields bytes (fields bytes) }
    ensures only { (bytes : List ℕ) (read : Reading Field WireFault) → ReadsFields bytes read → fields bytes ≡ read }
{}

/// Whole varints are a packed list of their numbers, and of no others.
pub fn one_packed_list()
    ensures reads { (b : List ℕ) → are_varints b ≡ true → IsPacked b (packed_numbers b) }
    ensures only { (b ns : List ℕ) → IsPacked b ns → (are_varints b ≡ true) × (packed_numbers b ≡ ns) }
{}

/// Bytes are a message of a table exactly where they spell fields that fit it.
pub fn one_message_of_a_table()
    ensures spelled { (table : Table) (bytes : List ℕ) (fs : List Field) → message table bytes ≡ Ok fs
        → IsMessage bytes fs × FitsTable table fs }
    ensures reads { (table : Table) (bytes : List ℕ) (fs : List Field) → IsMessage bytes fs → FitsTable table fs
        → message table bytes ≡ Ok fs }
{}

/// A string table is refused for the number of its entries exactly where they are more than the limit.
pub fn strings_over_the_limit()
    ensures { (table : List ℕ) (fs : List Field) → message STRING_TABLE table ≡ Ok fs
        → ((strings_in table ≡ Err block_faults.TooManyStrings)
        ↔ (STRINGS_LIMIT < length (bytes_of STRINGTABLE_S fs))) }
{}

/// What is read of an input is blobs in front and the first fault behind them, and nothing else is.
pub fn one_reading_of_frames()
    ensures reads { (bytes : List ℕ) → IsBytes bytes → ReadsFrames 0 bytes (frames bytes) }
    ensures only { (bytes : List ℕ) (read : Reading Frame FrameFaultAt) → ReadsFrames 0 bytes read
        → frames bytes ≡ read }
{}

/// The bytes that lead to a blob of a known type are those up to its end. A blob takes at most 4 bytes of length, the
/// longest BlobHeader and the longest Blob.
pub fn next_blob()
    ensures leads { (at : ℕ) (front rest : List ℕ) (f : Frame) → LeadsTo at front f
        → next_known (frames_at at (front ++ rest)) ≡ Ok (Some f) }
    ensures led { (at : ℕ) (bytes : List ℕ) (f : Frame) → IsBytes bytes
        → next_known (frames_at at bytes) ≡ Ok (Some f)
        → (front : List ℕ) × (rest : List ℕ) × LeadsTo at front f × (bytes ≡ front ++ rest) }
    ensures passes { (at : ℕ) (front rest : List ℕ) → PassesOver at front
        → next_known (frames_at at (front ++ rest)) ≡ next_known (frames_at (at + length front) rest) }
    ensures passed { (at : ℕ) (bytes : List ℕ) → IsBytes bytes → next_known (frames_at at bytes) ≡ Ok None
        → PassesOver at bytes }
    ensures size { (content : Content) (bytes : List ℕ) → SpellsFrame content bytes → length bytes ≤ FRAME_LIMIT }
{}

/// A number of a delta column is the sum of the differences up to it.
pub fn column_of_sums()
    ensures length { (ds : List ℤ) → length (running_sums ds) ≡ length ds }
    ensures sums { (ds : List ℤ) (i : ℕ) (d : ℤ) → i < length ds
        → slice_index_or (running_sums ds) i d ≡ int_sum (take (suc i) ds) }
    ensures begins { (ds : List ℤ) → running_sums_from (pos 0) ds ≡ running_sums ds }
    ensures runs_on { (base d : ℤ) (ds : List ℤ)
        → running_sums_from base (d ∷ ds) ≡ (base +ℤ d) ∷ running_sums_from (base +ℤ d) ds }
{}

/// Where objects stand in order, the order changes nothing of what they are, and what follows is in order behind them.
pub fn objects_in_order()
    ensures same { (before : List Entity) (objects : List (Result Object EntityFault))
        → (in_order before objects).fault ≡ None → filter_map told_entity objects ≡ (in_order before objects).items }
    ensures parts { (before : List Entity) (objects others : List (Result Object EntityFault))
        → (in_order before objects).fault ≡ None
        → in_order before (objects ++ others)
        ≡ with_front (in_order before objects).items (in_order (before ++ (in_order before objects).items) others) }
{}

/// One more entity is the last of its kind, and changes nothing else of the order.
pub fn one_more_object()
    ensures last { (kind : EntityKind) (before : List Entity) (e : Entity)
        → last_id kind (before ++ e ∷ []) ≡ (if rank (kind_of e) == rank kind then id_of e else last_id kind before) }
    ensures later { (kind : EntityKind) (before : List Entity) (e : Entity)
        → has_later_kind kind (before ++ e ∷ [])
        ≡ (has_later_kind kind before || nat_lt (rank kind) (rank (kind_of e))) }
{}

/// An input is blobs without a fault, and then nothing or the first step that is broken; and that is what is told of
/// it.
pub fn one_reading_of_input()
    ensures reads { (bytes : List ℕ) → IsBytes bytes → ReadsInput bytes (good_frames bytes) (input_fault bytes) }
    ensures only { (bytes : List ℕ) (good : List Frame) (fault : Option InputFault) → IsBytes bytes
        → ReadsInput bytes good fault → (good_frames bytes ≡ good) × (input_fault bytes ≡ fault) }
{}

/// The pairs of a dense node stand before its 0; the last may want it, or end behind a key.
pub fn one_run_of_tags()
    ensures closed { (pairs : List (ℕ × ℕ)) (rest : List ℕ) → HasKeys pairs
        → tag_runs (pairs_spelled pairs ++ (0 ∷ rest)) ≡ record { pairs = pairs; ends = by_zero } ∷ tag_runs rest }
    ensures open_end { (pairs : List (ℕ × ℕ)) (p : ℕ × ℕ) → HasKeys (p ∷ pairs)
        → tag_runs (pairs_spelled (p ∷ pairs)) ≡ record { pairs = p ∷ pairs; ends = with_list } ∷ [] }
    ensures cut { (pairs : List (ℕ × ℕ)) (k : ℕ) → HasKeys pairs → 0 < k
        → tag_runs (pairs_spelled pairs ++ (k ∷ [])) ≡ record { pairs = pairs; ends = behind_key k } ∷ [] }
{}

/// The entities of a block without a fault are those that are read in order.
pub fn entities_of_a_block()
    ensures { (before : List Entity) (raw : List ℕ) (b : PrimitiveBlock) → block raw ≡ Ok b
        → block_fault before raw ≡ None → entities_in raw ≡ (in_order before (block_objects b)).items }
{}

/// In the whole input, and in a block behind entities that rise, kinds do not go back, and the ids of each kind rise.
pub fn objects_rise()
    ensures in_a_block { (before : List Entity) (b : PrimitiveBlock) → IsRising before
        → IsRising (before ++ (in_order before (block_objects b)).items) }
    ensures in_the_input { (bytes : List ℕ) → IsRising (input_entities bytes) }
{}
