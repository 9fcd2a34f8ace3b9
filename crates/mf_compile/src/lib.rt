//! An input becomes a map, or the first of its faults is told.
//!
//! `job` has all the memory of a run, and `fault` why there is no map. `gather` reads the input into the parts that the
//! later passes read, and knows its box; `lay_out` makes the sub-files of a map of them, and `compile` does all of it and
//! writes the map. `laws` tells how many rows a job can hold at one time.
#![tactic(auto)]

pub mod compile;
pub mod fault;
mod gather;
pub mod job;
pub mod laws;
mod lay_out;
