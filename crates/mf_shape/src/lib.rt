//! The candidates of an input become features: the rows of one part, in the order of the features, with their numbers
//! and weights.
//!
//! `shape` is the pass, `nodes` goes over the candidates that are nodes, and `fault` says why there are no features.
#![tactic(auto)]

pub mod fault;
mod nodes;
pub mod shape;
