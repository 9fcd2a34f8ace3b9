//! What a finished run tells.

/// The entities of the input by kind, features and skipped candidates, tiles with members and with the water bit, the
/// bytes of the map, and the greatest weight of a candidate or a tile, in rows.
#[derive(Clone, Copy, Debug, PartialEq, Eq)]
pub struct Report {
    pub nodes: u64,
    pub ways: u64,
    pub relations: u64,
    pub features: u64,
    pub skipped: u64,
    pub tiles: u64,
    pub water: u64,
    pub bytes: u64,
    pub largest: u64,
}
