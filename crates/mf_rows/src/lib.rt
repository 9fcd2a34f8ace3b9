//! The rows of parts, and the units of records.
//!
//! Rows first: `kinds` has the nine structs, `kind` what each keeps, and `row_kinds` how each is put and read. A field
//! is spelled as `specs/Fields` says, a kind as `specs/Kinds`, and `specs/RowKinds` has the laws.
//!
//! Then records. A `view` lends one: its `head`, its texts, and its parts, over which `cursors` go. Its points and
//! parts are `units` of 16 bytes, `first_units` has those of its head and texts, and `numbers` those of kinds and roles.
//! `features` tells which records are features.
#![tactic(auto)]

mod changes;
pub mod cursors;
pub mod desk;
pub mod features;
mod fields;
pub mod first_units;
pub mod head;
pub mod head_units;
mod heads;
pub mod kind;
pub mod kinds;
pub mod laws;
pub mod numbers;
pub mod records;
mod row_kinds;
pub mod rows;
mod told;
pub mod units;
pub mod view;

pub use feature_model::fault::LimitFault;
