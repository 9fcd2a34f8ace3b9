//! Rows, columns and corners of the tiles of a map, in whole numbers.
//!
//! `latitude` has the arithmetic of one edge, `rows` the table of all edges and the calls. The definitions stand in
//! `Mercator` of `map_model`.
#![tactic(auto)]

pub mod latitude;
pub mod rows;
