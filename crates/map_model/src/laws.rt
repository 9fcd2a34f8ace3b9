//! Laws of the definitions.

ghost use Rattle.std.specs.Prelude.{◌≡◌, ◌↔◌, IsTrue, not, slice_get, Some, None, ◌==◌, flat_map, count_by, filter, ℕ};
ghost use Rattle.std.specs.Prelude.{ℤ, Bool, ◌≤◌, ◌<◌, ◌*◌, ◌^◌, ◌≤ℤ◌, int_le, true, false, pos, negsuc, List, [], ◌∷◌};
ghost use Rattle.std.specs.Prelude.{◌++◌, length, map, Ok};
ghost use Rattle.std.specs.List.{AllByRecursion};
ghost use Rattle.byteorder.specs.Endian.{big_number};
ghost use Rattle.mf_base.specs.declared.place.Rect.{Rect};
ghost use Rattle.mf_base.specs.declared.tile.TilePlace.{TilePlace};
ghost use Rattle.mf_base.specs.Spelling.{vbe_unsigned};
ghost use Rattle.mf_base.specs.declared.tile.TileRect.{TileRect};
ghost use Rattle.mf_base.specs.Texts.{has_byte};
ghost use Rattle.feature_model.specs.Mapping.{Entry};
ghost use Rattle.feature_model.specs.Features.{Feature};
ghost use Rattle.map_model.specs.Mercator.{edge_lat, fine_row, IsFineRow, row, column, corner};
ghost use Rattle.map_model.specs.TileRects.{has_tile, common, tile_rect, meets, tiles_of, tile_count, entry_place};
ghost use Rattle.map_model.specs.Members.{in_tile_order, members, is_poi, is_way};
ghost use Rattle.map_model.specs.Intervals.{raised_zoom, zooms};
ghost use Rattle.map_model.specs.Bitmap.{sub_tile_bits};
ghost use Rattle.map_model.specs.Layout.{sized};
ghost use Rattle.map_model.specs.TileBytes.{tile_corner, tile_bytes, written_levels, poi_bytes, way_bytes};
ghost use Rattle.map_model.specs.Listed.{Listed, shown_levels, listed};
ghost use Rattle.map_model.specs.TagLists.{entry_text, tag_key, tag_value, TagLists};
ghost use Rattle.map_model.specs.TileReading.{IsLevel, ReadsTile, read_tile};
ghost use Rattle.map_model.specs.SubFile.{TileContent, entry_bytes, index_bytes, sub_file_of, sub_file_size};
ghost use Rattle.map_model.specs.Header.{HeadSettings, SubFile, header_size, header_bytes};
ghost use Rattle.map_model.specs.Listing.{index_entry_of};

/// The edges of the rows never rise, so a row is found between two of them.
#[tactic(auto, using(crate::proofs::MercatorLemmas::row_laws))]
pub fn row_between_edges()
    ensures falls { (j k : ℕ) → j ≤ k → edge_lat k ≤ℤ edge_lat j }
    ensures found { (lat : ℤ) (k : ℕ) → IsFineRow lat k → fine_row lat ≡ k }
    ensures none { (lat : ℤ) → int_le lat (edge_lat 0) ≡ false → fine_row lat ≡ 0 }
{}

/// At zoom 0 there is one tile, whose corner is in the far north-west; each place and each box is in it.
pub fn one_tile_of_zoom_0()
    ensures row { (lat : ℤ) → row 0 lat ≡ 0 }
    ensures column { (lon : ℤ) → column 0 lon ≡ 0 }
    ensures corner { corner 0 0 0 ≡ record { lat = pos 85051128; lon = negsuc 179999999 } }
    ensures tiles { (box : Rect) → tiles_of (tile_rect box 0) ≡ (0, 0) ∷ [] }
    ensures meets { (rect : Rect) → meets rect 0 0 0 ≡ true }
{}

/// The bytes of a tile whose members stand in order are the zoom table, the first-way offset, the POIs and the ways,
/// and tell each member.
#[tactic(auto, using(crate::proofs::LevelLemmas::level_laws))]
pub fn tile_tells_its_members()
    ensures flat { (tile : TilePlace) (f : Feature) (fs : List Feature) → f ∷ fs ≡ in_tile_order tile.interval (f ∷ fs)
        → tile_bytes tile (f ∷ fs)
        ≡ flat_map (λ zoom.
        vbe_unsigned (count_by (λ g. raised_zoom tile.interval g.zoom == zoom) (filter is_poi (f ∷ fs)))
        ++ vbe_unsigned (count_by (λ g. raised_zoom tile.interval g.zoom == zoom) (filter is_way (f ∷ fs))))
        (zooms tile.interval)
        ++ sized (flat_map (poi_bytes (tile_corner tile)) (filter is_poi (f ∷ fs)))
        ++ flat_map (λ g. way_bytes (tile_corner tile) (sub_tile_bits g tile) g) (filter is_way (f ∷ fs)) }
    ensures shown { (tags : TagLists) (tile : TilePlace) (fs : List Feature) → fs ≡ in_tile_order tile.interval fs
        → shown_levels tags tile.interval (written_levels tile fs) ≡ map (listed tags tile) fs }
    ensures in_tile_order { (features : List Feature) (tile : TilePlace)
        → members features tile ≡ in_tile_order tile.interval (members features tile) }
{}

/// The tiles of a rectangle stand at their places in its list, and a tile is common to two rectangles exactly where it
/// is in both.
#[tactic(auto, using(crate::proofs::TileLaws::tile_laws))]
pub fn tiles_in_order()
    ensures count { (t : TileRect) → length (tiles_of t) ≡ tile_count t }
    ensures place { (t : TileRect) (x y : ℕ) → IsTrue (has_tile t x y)
        → slice_get (tiles_of t) (entry_place t x y) ≡ Some (x, y) }
    ensures common { (a b t : TileRect) → common a b ≡ Some t → (x y : ℕ) → IsTrue (has_tile t x y)
        ↔ (IsTrue (has_tile a x y) × IsTrue (has_tile b x y)) }
    ensures some { (a b t : TileRect) → common a b ≡ Some t → IsTrue (has_tile t t.first_x t.first_y) }
    ensures none { (a b : TileRect) → common a b ≡ None → (x y : ℕ) → IsTrue (has_tile a x y) → IsTrue (has_tile b x y)
        → ⊥ }
{}

/// An entry's key and value are read again from its text in the header.
#[tactic(auto, using(crate::proofs::TileLaws::entry_laws))]
pub fn entry_is_read_again()
    ensures key { (e : Entry) → IsTrue (not (has_byte 61 e.key)) → tag_key (entry_text e) ≡ e.key }
    ensures value { (e : Entry) → IsTrue (not (has_byte 61 e.key)) → tag_value (entry_text e) ≡ e.value }
{}

/// The sizes that offsets and starts are counted with are those of the bytes, and an entry of the index is read again.
#[tactic(auto, using(crate::proofs::SizeLemmas::size_laws))]
pub fn sizes()
    ensures header { (set : HeadSettings) (box : Rect) (names : TagLists) (subs : List SubFile)
        → length subs ≡ length set.intervals
        → length (header_bytes set box names subs) ≡ header_size set names }
    ensures sub_file { (tiles : List TileContent) → length (sub_file_of tiles) ≡ sub_file_size tiles }
    ensures index { (tiles : List TileContent) → length (index_bytes tiles) ≡ 5 * length tiles }
    ensures entry { (water : Bool) (offset : ℕ) (rest : List ℕ) → offset < 2 ^ 39
        → index_entry_of (big_number 5 (entry_bytes water offset ++ rest)) ≡ record { water = water; offset = offset } }
{}

/// A tile that spells some records is read as these, so it spells no others; and a tile of members is read as what is
/// listed of them.
#[tactic(auto, using(crate::proofs::RecordsAgain::reading_laws))]
pub fn tile_is_read_again()
    ensures read { (names : TagLists) (tile : TilePlace) (bytes : List ℕ) (shown : List Listed)
        → tile.x < 2 ^ tile.interval.base
        → ReadsTile names tile bytes shown → read_tile names tile bytes ≡ Ok shown }
    ensures members { (names : TagLists) (tile : TilePlace) (f : Feature) (fs : List Feature)
        → tile.x < 2 ^ tile.interval.base
        → f ∷ fs ≡ in_tile_order tile.interval (f ∷ fs)
        → AllByRecursion (IsLevel names) (written_levels tile (f ∷ fs)) → length (tile_bytes tile (f ∷ fs)) < 2 ^ 63
        → read_tile names tile (tile_bytes tile (f ∷ fs)) ≡ Ok (map (listed names tile) (f ∷ fs)) }
{}
