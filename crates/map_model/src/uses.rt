//! Two loops as passes have them, each resting on the laws: the entries of an index from running sizes, and the keys of
//! one tile.

ghost use Rattle.std.specs.Prelude.{◌≡◌, ℕ, ◌+◌, ◌^◌, ◌<◌, Bool, List, ◌∷◌, ◌++◌, take, drop, sum_by, AllPairs};
ghost use Rattle.mf_base.specs.declared.tile.TilePlace.{TilePlace};
ghost use Rattle.feature_model.specs.Features.{Feature};
ghost use Rattle.map_model.specs.SubFile.{entry_bytes, entries_from};
ghost use Rattle.map_model.specs.NumberedMembers.{TileBelow, is_key_of, tile_keys, keys_of_tiles};

use crate::tile_key::TileKey;
use mf_base::tile::TilePlace;

/// What takes the entries of an index.
pub trait EntryTaker {
    /// The bytes that were taken.
    ghost taken: { Self → List ℕ };

    /// Takes an entry.
    fn entry(&mut self, water: bool, offset: u64)
        requires { offset < 2 ^ 39 }
        ensures { taken self.new ≡ taken self.old ++ entry_bytes water offset };
}

/// Puts the entries of tiles with these water bits and sizes, the first at an offset.
pub fn put_entries<E: EntryTaker>(out: &mut E, first: u64, tiles: &[(bool, u32)])
    requires { first + sum_by (λ (p : Bool × ℕ). p.1) tiles.now < 2 ^ 39 }
    ensures { E.taken out.new ≡ E.taken out.old ++ entries_from first tiles.now }
{
    let mut offset = first;
    let mut i = 0;
    while i < tiles.len() {
        out.entry(tiles[i].0, offset);
        offset += u64::from(tiles[i].1);
        i += 1;
    }
}

/// How many of the keys in front are of the tile: in the keys of all tiles, those of its members in order.
pub fn count_of_tile(keys: &[TileKey], tile: &TilePlace) -> usize
    ensures members { (features : List Feature) (later : List TilePlace) → AllPairs TileBelow (tile.now ∷ later)
        → keys.now ≡ keys_of_tiles features (tile.now ∷ later)
        → (take result keys.now ≡ tile_keys features tile.now) × (drop result keys.now ≡ keys_of_tiles features later) }
{
    let mut n = 0;
    while n < keys.len() && is_of_tile(&keys[n], tile) {
        n += 1;
    }
    n
}

// Whether a key is of the tile.
fn is_of_tile(key: &TileKey, tile: &TilePlace) -> bool
    ensures { result ≡ is_key_of tile.now key.now }
{
    key.index == tile.index && key.y == tile.y && key.x == tile.x
}
