//! The index of a sub-file: one entry for each tile, which has the place of the tile and whether it is water.
//!
//! `entry` puts and counts entries, `water` tells the water bit of a tile.
#![tactic(auto)]

pub mod entry;
pub mod water;
