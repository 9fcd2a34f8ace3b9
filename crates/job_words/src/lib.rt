//! The words of `mfwrite`: which are right, and what they set.
//!
//! `usage_word` names the options, and `values` reads their values. `usage` tells the first option that breaks its
//! rule, and `settings` what the words set. `mapping_file` reads the file of a mapping from a shelf. `job` puts all
//! together, and `refusal` tells why words are no job. The table of the options is in `specs/OptionTable.antt`.
#![tactic(auto)]

pub mod job;
mod mapping_file;
pub mod refusal;
pub mod settings;
#[cfg(test)]
mod tests;
pub mod usage;
pub mod usage_word;
pub mod values;
