//! The members of a tile, loaded from the ordered rows into a desk.
//!
//! `load` reads the rows of a tile member by member, and `member` makes a record of the units of one.
#![tactic(auto)]

pub mod load;
mod member;
