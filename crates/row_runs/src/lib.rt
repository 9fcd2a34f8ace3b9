//! Parts that are read beside candidates: run after run, a run being the rows of one key.
//!
//! `runs` reads a part so, `laws` says what the runs of rows are whose keys climb, and `uses` counts the rows of a key or
//! puts them to another part.
#![tactic(auto)]

pub mod laws;
pub mod runs;
mod uses;

pub use runs::Runs;
pub use uses::{MadeOf, count_of, put_run};
