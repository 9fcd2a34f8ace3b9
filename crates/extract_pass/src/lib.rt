//! Goes over the entities of a whole extract.
//!
//! `pass` hands the entities of an extract to a reader, one after another: `reader` says what a reader is, `behind` goes
//! over one blob and `block_pass` over the objects of one block. `count` is a pass whose reader is `counts`.
#![tactic(auto)]

mod behind;
mod block_pass;
pub mod count;
pub mod counts;
pub mod fault;
pub mod pass;
pub mod reader;
