//! Records in the rows of a part: each row has one unit of a record, with its place among the record's units.
//!
//! `row` says what such rows are, `load` reads a record into a desk, and `give` gives units as rows to put.
#![tactic(auto)]

pub mod give;
pub mod load;
pub mod row;
