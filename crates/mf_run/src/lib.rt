//! The map writer over any devices: what the program `mfwrite` does with those of the system.
//!
//! Read `run` first: its contract is what the program promises, and `laws` says what follows of it. `prepare` makes a job
//! of the words and of the mapping that they name; `status` has the statuses and `say` what is said under each.
#![tactic(auto)]

pub mod laws;
pub mod prepare;
pub mod run;
pub mod say;
pub mod status;
#[cfg(test)]
mod tests;
