//! Messages of the wire format: fields, packed lists, and the check of a message against a table of field rules.
//!
//! Read `fields` first, then `packed`, `rules`, `check` and `tables`; `laws` has what
//! follows for whoever goes over the fields.
#![tactic(auto)]

pub mod check;
pub mod fields;
pub mod laws;
pub mod lookup;
pub mod message;
pub mod packed;
pub mod rules;
pub mod tables;
pub mod walk;
