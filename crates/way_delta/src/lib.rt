//! The data blocks of a way: the places of its rings as steps, under single or double delta.
//!
//! `steps` tells how far places are from one another, `measure` the bytes of all
//! coordinates under both delta kinds, `counts` those of the numbers of rings and places, and `put` writes the blocks.
//! What the bytes are stands in `map_model`, which feature a record is, and whether it is one, in `mf_rows`.
#![tactic(auto)]

pub mod counts;
pub mod measure;
pub mod put;
pub mod steps;
#[cfg(test)]
mod tests;
