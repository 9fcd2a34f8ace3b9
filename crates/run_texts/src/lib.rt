//! What a run says of its faults and of what it made, without memory.
//!
//! A `line` has the bytes, on the stack. `worded` puts a number behind a word. With it, `input` puts the fault of an
//! input, `limit` what passes its limit, `refusal` why words are no job, and `report` the line of a finished run.
//! `lines` makes whole lines of them.
#![tactic(auto)]

pub mod input;
pub mod limit;
pub mod line;
pub mod lines;
pub mod refusal;
pub mod report;
#[cfg(test)]
mod tests;
mod worded;
