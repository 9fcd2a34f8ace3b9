//! Laws of reading, beside that of a tile in `laws`: what is spelled is read, and what is read is spelled so.

ghost use Rattle.std.specs.Prelude.{◌≡◌, ℕ, ◌+◌, ◌-◌, ◌<◌, ◌≤◌, ◌^◌, List, ◌++◌, length, take, Ok};
ghost use Rattle.mf_base.specs.Spelling.{IsBytes};
ghost use Rattle.mf_base.specs.declared.tile.TilePlace.{TilePlace};
ghost use Rattle.map_model.specs.Listed.{Listed};
ghost use Rattle.map_model.specs.TagLists.{TagLists};
ghost use Rattle.map_model.specs.TileReading.{ReadsTile, read_tile};
ghost use Rattle.map_model.specs.HeaderReading.{Header, ReadsHeader, ReadsMapHeader, header_length, read_header};

/// What is read of a tile is what its bytes spell, each of them.
#[tactic(auto, using(crate::proofs::TilesFound::tile_laws))]
pub fn tile_is_spelled()
    ensures spelled { (names : TagLists) (tile : TilePlace) (bytes : List ℕ) (shown : List Listed)
        → tile.x < 2 ^ tile.interval.base
        → IsBytes bytes → length bytes < 2 ^ 63 → read_tile names tile bytes ≡ Ok shown
        → ReadsTile names tile bytes shown }
{}

/// A header that is spelled is read as what it tells, whatever follows it, and its size with it. So it tells nothing
/// else.
pub fn header_is_read_again()
    ensures read { (total : ℕ) (bytes rest : List ℕ) (header : Header) → ReadsHeader total bytes header
        → read_header total (bytes ++ rest) ≡ Ok header }
    ensures length { (total : ℕ) (bytes rest : List ℕ) (header : Header) → ReadsHeader total bytes header
        → header_length total (bytes ++ rest) ≡ Ok (length bytes - 24) }
    ensures file { (file : List ℕ) (header : Header) → ReadsMapHeader file header
        → read_header (length file) file ≡ Ok header }
{}

/// What is read of a header is what its bytes spell, each of them. The bytes are the first of a file of `total` bytes,
/// at least to the header's end.
#[tactic(auto, using(crate::proofs::HeaderFound::header_laws))]
pub fn header_is_spelled()
    ensures spelled { (total n : ℕ) (bytes : List ℕ) (header : Header) → IsBytes bytes
        → header_length total bytes ≡ Ok n → 24 + n ≤ length bytes
        → read_header total bytes ≡ Ok header → ReadsHeader total (take (24 + n) bytes) header }
    ensures file { (file : List ℕ) (header : Header) → IsBytes file → read_header (length file) file ≡ Ok header
        → ReadsMapHeader file header }
{}
