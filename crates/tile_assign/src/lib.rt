//! Where a feature lies: in which tiles of an interval, in which sub-tiles of a tile, and at which zoom level.
//!
//! `rect` has the rectangle of a feature, `tile_rect` the tiles of a rectangle and those common to two, `bitmap` the
//! sub-tiles, `zoom` the effective zoom; `interval_words` reads intervals of words, and `laws` has the tiles of a box
//! and a feature. The definitions are those of `map_model`; `Shapes` of `mf_rows` says which feature a record
//! is.
#![tactic(auto)]

pub mod bitmap;
pub mod interval_words;
pub mod laws;
pub mod rect;
pub mod tile_rect;
pub mod zoom;

pub use mf_base::tile::{Interval, TilePlace, TileRect};
