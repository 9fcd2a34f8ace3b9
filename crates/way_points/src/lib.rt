//! The points of the ways of an input: each ref that is the id of a node, with the place of that node.
//!
//! `points` makes the points of all ways, and `laws` says that they are those of the definitions, way after way.
#![tactic(auto)]

pub mod laws;
pub mod points;
