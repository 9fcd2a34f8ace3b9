//! Features, spread over the tiles of a map: each unit of a feature becomes a row in each tile that has the feature.
//!
//! `spread` is the pass over the features of a part, `feature` puts one in all intervals, `interval` in the tiles of one
//! interval, and `tiles` in a rectangle of tiles.
#![tactic(auto)]

mod feature;
mod interval;
pub mod spread;
mod tiles;
