//! What the entities of an input become: rows of the parts that the next pass reads.
//!
//! `lent` is what an entity tells of itself. `candidate` gives the head and the texts of one that is a candidate, by
//! `heads` and `texts`; nothing is copied out of its block. `gathering` puts the rows of each entity to six parts, one
//! behind another as `refs`, `members` and `units` give them. `ingest` does so with all entities of an input, by
//! `ingester`, the reader of a pass over them. `laws` tells how much the parts of an input can come to.
#![tactic(auto)]

mod candidate;
mod front;
mod gathering;
mod heads;
pub mod ingest;
mod ingester;
pub mod laws;
mod lent;
mod members;
mod refs;
#[cfg(test)]
mod sample;
mod texts;
mod units;

pub use candidate::describe;
pub use front::Described;
pub use gathering::Gathering;
