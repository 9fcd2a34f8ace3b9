//! What a mapping is, read from a file or from one word, and what it says of tags.
//!
//! Read `told` first: what a table or a word tells of an entry. `entries` is a list of a `mapping`, in order and found
//! by
//! `KEY=VALUE`. `file` reads a mapping from TOML and `one_poi` from a word.
//! `choice` is what a mapping says of tags: `lookup` and `values` read tags, `matched` is the match of one entry, and
//! `choosing` goes over the tags.
#![tactic(auto)]

pub mod choice;
mod choosing;
pub mod entries;
pub mod file;
mod lookup;
pub mod mapping;
mod matched;
pub mod one_poi;
mod rules;
pub mod told;
mod values;

pub use feature_model::fault::MappingFault;
