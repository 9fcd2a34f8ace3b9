//! What is done before a run: the words and the mapping are read, and all memory is taken.

ghost use Rattle.std.specs.Prelude.{◌≡◌, ◌≢◌, ◌<◌, ◌⊎◌, ◌^◌, None, Ok, Err, map, string_bytes};
ghost use Rattle.job_words.specs.Settings.{IsJob};
ghost use Rattle.job_words.specs.Shown.{settings_of, asked_of};
ghost use Rattle.mf_run.specs.Prepared as spec;
ghost use Rattle.mf_run.specs.Prepared.{IsPrepared, told_of};

use job_words::job::{JobWords, read_job};
use job_words::refusal::Refusal;
use mf_compile::job::{Job, has_ways};
use mf_edge::Shelf;
use std::alloc::Global;

/// What a run begins with.
#[derive(Drop)]
pub enum Prepared {
    Ready(Job),
    /// The words and the mapping are right, but the mapping has entries for ways, or the input is to be generated.
    NotBuilt,
    Refused(Refusal),
}

/// Reads the words of the command line, and the mapping that they name from the shelf, and takes all the memory that the
/// run will take. `now` is what the clock shows, in milliseconds since 1970.
pub fn prepare<H: Shelf>(alloc: Global, words: &[String], shelf: &mut H, now: u64) -> Prepared
    requires now { now < 2 ^ 63 }
    requires unnamed { (H.state shelf.old).name ≡ None }
    ensures prepared { IsPrepared (map string_bytes words.now) now (H.state shelf.old) result (H.state shelf.new) }
{
    match read_job(alloc, words, shelf, now) {
        Ok(asked) => job_of(alloc, asked),
        Err(refusal) => Prepared::Refused(refusal),
    }
}

// The job that is asked for, with its memory.
fn job_of(alloc: Global, asked: JobWords) -> Prepared
    requires said { IsJob (settings_of asked.settings) }
    ensures told { (result ≡ Prepared.Refused Refusal.Memory)
        ⊎ (told_of result ≡ spec.job_or (Ok (asked_of asked))) }
{
    if asked.made.is_some() || has_ways(&asked.settings.mapping) {
        return Prepared::NotBuilt;
    }
    match Job::new(alloc, asked.settings) {
        Ok(job) => Prepared::Ready(job),
        Err(_) => Prepared::Refused(Refusal::Memory),
    }
}
