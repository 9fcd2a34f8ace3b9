//! What a layout hands on.

use arrayvec::ArrayVec;
use mf_rows::kinds::IndexRow;
use spill_parts::{BytePart, Part};

/// How many tiles a sub-file has, and its size in bytes.
#[derive(Clone, Copy, Debug, Default, PartialEq, Eq)]
pub struct SubFileSize {
    pub tiles: u64,
    pub bytes: u64,
}

/// The sub-files of a map, one for each interval: their sizes, and two parts, in which those of an interval stand
/// behind those of the one before: a row for each tile of the index, and the bytes of the tiles.
///
/// `shown` and `water` count tiles with members and those with the water bit; `largest` is the greatest weight of a
/// candidate or a tile.
#[derive(Drop)]
pub struct SubFiles {
    pub sizes: ArrayVec<SubFileSize, 8>,
    pub index: Part<IndexRow>,
    pub tiles: BytePart,
    pub shown: u64,
    pub water: u64,
    pub largest: u64,
}
