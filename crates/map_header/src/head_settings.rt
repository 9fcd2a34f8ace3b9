//! What the header of a map tells beside its tags.

use arrayvec::{ArrayString, ArrayVec};
use mf_base::place::Place;
use mf_base::tile::Interval;

/// What the words of the command line say of the header.
#[derive(Debug, Drop)]
pub struct HeadSettings {
    /// When the map was made, in milliseconds since 1970.
    pub date: u64,
    /// The place that a reader shows first.
    pub start: Option<Place>,
    /// The zoom level that a reader shows first.
    pub start_zoom: Option<u8>,
    /// Language tags of two letters, with commas between them.
    pub language: Option<ArrayString<255>>,
    pub comment: Option<ArrayString<255>>,
    pub created_by: Option<ArrayString<255>>,
    pub intervals: ArrayVec<Interval, 8>,
}
