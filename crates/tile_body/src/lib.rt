//! The bytes of a tile.
//!
//! `encode` spells a tile of any members from a desk: `table` has the zoom table, `poi` and `way` the members, `tags`
//! and `texts` what both have, and `label` where a label stands. The bytes are defined in `map_model`, `specs/Members`
//! says what a desk has to hold, and `holding` tests whether it does.
#![tactic(auto)]

mod class;
pub mod encode;
pub mod holding;
mod label;
pub mod laws;
mod members;
mod poi;
mod spelled;
mod table;
mod tags;
mod texts;
mod way;
