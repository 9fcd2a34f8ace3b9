//! The job.

use mf_compile::job::Job;
use mf_edge::MemShelf;
use mf_run::prepare::{Prepared, prepare};
use std::alloc::{AllocError, Global};

// Three intervals, and few rows.
const WORDS: [&str; 4] = [
    "--mapping=mapping.toml",
    "--intervals=5:0:7,10:8:11,14:12:21",
    "--rows=128",
    "--date=1700000000000",
];

/// The job of the words with this mapping, where they are right.
pub fn job_of(alloc: Global, mapping: &[u8]) -> Result<Option<Job>, AllocError> {
    let mut words = Vec::new(alloc);
    for word in WORDS {
        words.push(String::from_str(alloc, word)?)?;
    }
    let mut shelf = MemShelf::new(alloc, "mapping.toml", mapping, 100, &[])?;
    match prepare(alloc, &words, &mut shelf, 0) {
        Prepared::Ready(job) => Ok(Some(job)),
        Prepared::NotBuilt | Prepared::Refused(_) => Ok(None),
    }
}
