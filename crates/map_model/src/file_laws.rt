//! Laws of indexes, sub-files and whole maps by running sizes.

ghost use Rattle.std.specs.Prelude.{◌≡◌, ℕ, ◌+◌, ◌*◌, ◌^◌, ◌<◌, IsTrue, Bool, false, List, [], ◌∷◌, ◌++◌, map};
ghost use Rattle.std.specs.Prelude.{flat_map, length, sum, sum_by, replicate};
ghost use Rattle.map_model.specs.SubFile.{TileContent, entry_bytes, index_bytes, sub_file_size, entries_from, entry_of};
ghost use Rattle.mf_base.specs.declared.place.Rect.{Rect};
ghost use Rattle.mf_base.specs.Ranges.{is_rect};
ghost use Rattle.map_model.specs.HeaderReading.{ReadsHeader, shown_header};
ghost use Rattle.feature_model.specs.Features.{Feature};
ghost use Rattle.feature_model.specs.Mapping.{Mapping};
ghost use Rattle.feature_model.specs.Entries.{IsMapping};
ghost use Rattle.map_model.specs.TagLists.{TagLists, tag_lists};
ghost use Rattle.map_model.specs.Header.{HeadSettings, IsHeadSettings, header_size, header_bytes, written_header};
ghost use Rattle.map_model.specs.Header.{sub_files, file_size};
ghost use Rattle.map_model.specs.MapFile.{map_of_contents, map_of, sub_file_sizes};

/// An index from the water bits and sizes of its tiles alone: the offset begins behind the index and grows by each
/// size.
#[tactic(auto, using(crate::proofs::FileLaws::file_laws))]
pub fn running_offsets()
    ensures index { (tiles : List TileContent)
        → index_bytes tiles ≡ entries_from (5 * length tiles) (map entry_of tiles) }
    ensures parts { (offset : ℕ) (before behind : List (Bool × ℕ))
        → entries_from offset (before ++ behind) ≡ entries_from offset before ++ entries_from (offset
        + sum_by (λ (p : Bool × ℕ). p.1) before) behind }
    ensures empty { (offset n : ℕ)
        → entries_from offset (replicate n (false, 0)) ≡ flat_map (λ (water : Bool).
        entry_bytes water offset) (replicate n false) }
    ensures size { (tiles : List TileContent)
        → sub_file_size tiles ≡ 5 * length tiles + sum_by (λ (p : Bool × ℕ). p.1) (map entry_of tiles) }
    ensures sub_files { (head size : ℕ) (sizes : List ℕ)
        → sub_files head (size ∷ sizes) ≡ record { start = head; size = size } ∷ sub_files (head + size) sizes }
{}

/// A map has as many bytes as its header and its sub-files, which is what its size field tells.
#[tactic(auto, using(crate::proofs::FileLaws::size_of_map))]
pub fn size_of_a_map()
    ensures field { (set : HeadSettings) (names : TagLists) (head : ℕ) (sizes : List ℕ)
        → file_size set names (sub_files head sizes) ≡ header_size set names + sum sizes }
    ensures contents { (set : HeadSettings) (names : TagLists) (box : Rect) (all : List (List TileContent))
        → length all ≡ length set.intervals
        → length (map_of_contents set names box all) ≡ header_size set names + sum (map sub_file_size all) }
    ensures map { (set : HeadSettings) (names : TagLists) (box : Rect) (features : List Feature)
        → length (map_of set names box features) ≡ header_size set names + sum (sub_file_sizes set box features) }
{}

/// The header of an accepted mapping, of settings and of a box on the earth is read again, and has fewer than 4,210,000
/// bytes.
#[tactic(auto, using(crate::proofs::HeaderOfMapping::header_laws))]
pub fn header_of_a_mapping()
    ensures size { (set : HeadSettings) (mapping : Mapping) → IsHeadSettings set → IsMapping mapping
        → header_size set (tag_lists mapping) < 4210000 }
    ensures read { (set : HeadSettings) (mapping : Mapping) (box : Rect) (sizes : List ℕ) → IsHeadSettings set
        → IsMapping mapping → IsTrue (is_rect box) → length sizes ≡ length set.intervals
        → header_size set (tag_lists mapping) + sum sizes < 2 ^ 64
        → let subs = sub_files (header_size set (tag_lists mapping)) sizes in
        ReadsHeader (header_size set (tag_lists mapping) + sum sizes) (header_bytes set box (tag_lists mapping) subs)
        (shown_header (written_header set box (tag_lists mapping) subs)) }
{}
