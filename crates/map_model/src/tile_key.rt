//! What orders the members of all tiles.

/// A feature in a tile: interval, row and column of the tile, 0 for a POI and 1 for a way, the effective zoom level,
/// and the feature's number.
#[derive(Clone, Copy, Debug, PartialEq, Eq)]
pub struct TileKey {
    pub index: u8,
    pub y: u32,
    pub x: u32,
    pub class: u8,
    pub zoom: u8,
    pub number: u64,
}
