//! A store of parts over a folder: a file for each part, whose rows are put in order in bounded memory, by a table of a
//! SQLite database.
//!
//! Read `file_spill` first, then `folder` and `open_part`, which have the files, and `lengths`. A row of the table is a
//! run of many rows of a part: read `row_key` and `row_file`, then `run_table`, which has the calls of SQL, and `runs`,
//! which has the way.
#![tactic(auto)]

mod file_spill;
mod folder;
mod lengths;
mod open_part;
mod row_file;
mod row_key;
mod run_table;
mod runs;

pub use file_spill::FileSpill;
pub use runs::{SIZES, Sizes};

/// A call was refused, whatever the cause.
#[derive(Clone, Copy, Debug, PartialEq, Eq)]
pub(crate) struct Refused;
