//! Rules of the fields of a message, as the definitions have them.

pub use osm_model::rules::{FieldRule, Form};
