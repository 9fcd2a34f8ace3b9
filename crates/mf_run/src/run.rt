//! The top calls: what the program does, over any devices.

ghost use Rattle.std.specs.Prelude.{◌≡◌, ◌<◌, ◌^◌, None, map, string_bytes};
ghost use Rattle.mf_edge.specs.Spill.{IsNameOf};
ghost use Rattle.mf_run.specs.Prepared.{IsPrepared};
ghost use Rattle.mf_run.specs.Run.{seen, RunsJob, Ran, FitsStore};
ghost use Rattle.mf_run.specs.declared.prepare.Prepared.{Prepared};

use crate::prepare::{Prepared, prepare};
use crate::say::{line_for, say_line};
use crate::status::{NOT_BUILT, refusal_status, status_of};
use mf_compile::compile::compile;
use mf_compile::job::Job;
use mf_edge::{Shelf, Sink, Source, Spill, Steps};
use run_texts::lines::{plain_line, refusal_line};
use std::alloc::Global;
use std::sync::ledger::Ledger;

/// Runs what was prepared, and answers the status.
pub fn run<S: Source, K: Sink, E: Sink, P: Spill, L: Ledger>(
    prepared: Prepared,
    input: &mut S,
    output: &mut K,
    say: &mut E,
    spill: &mut P,
    steps: &mut Steps<L>,
) -> u8
    requires store { FitsStore prepared (P.state spill.old).name }
    ensures ran { let old = seen (S.state input.old) (K.state output.old) (E.state say.old) (P.state spill.old) steps.old in
        let new = seen (S.state input.new) (K.state output.new) (E.state say.new) (P.state spill.new) steps.new in
        Ran prepared old new result }
{
    match prepared {
        Prepared::Ready(mut job) => run_job(&mut job, input, output, say, spill, steps),
        Prepared::NotBuilt => {
            say_line(say, &plain_line("not built"));
            NOT_BUILT
        }
        Prepared::Refused(refusal) => {
            say_line(say, &refusal_line(refusal));
            refusal_status(refusal)
        }
    }
}

// Runs a job, and answers the status.
fn run_job<S: Source, K: Sink, E: Sink, P: Spill, L: Ledger>(
    job: &mut Job,
    input: &mut S,
    output: &mut K,
    say: &mut E,
    spill: &mut P,
    steps: &mut Steps<L>,
) -> u8
    requires store { IsNameOf job.old.folder (P.state spill.old).name }
    ensures ran { let old = seen (S.state input.old) (K.state output.old) (E.state say.old) (P.state spill.old) steps.old in
        let new = seen (S.state input.new) (K.state output.new) (E.state say.new) (P.state spill.new) steps.new in
        RunsJob job.old old new result }
{
    let answer = compile(job, input, spill, output, steps);
    say_line(say, &line_for(&answer));
    status_of(&answer)
}

/// Prepares by the words of the command line and runs, and answers the status. `now` is what the clock shows, in
/// milliseconds since 1970. Neither shelf nor store has a name yet.
pub fn program<H: Shelf, S: Source, K: Sink, E: Sink, P: Spill, L: Ledger>(
    alloc: Global,
    words: &[String],
    shelf: &mut H,
    now: u64,
    input: &mut S,
    output: &mut K,
    say: &mut E,
    spill: &mut P,
    steps: &mut Steps<L>,
) -> u8
    requires now { now < 2 ^ 63 }
    requires unnamed { (H.state shelf.old).name ≡ None }
    requires no_store { (P.state spill.old).name ≡ None }
    ensures as_run { let old = seen (S.state input.old) (K.state output.old) (E.state say.old) (P.state spill.old) steps.old in
        let new = seen (S.state input.new) (K.state output.new) (E.state say.new) (P.state spill.new) steps.new in
        (p : Prepared) × IsPrepared (map string_bytes words.now) now (H.state shelf.old) p (H.state shelf.new)
        × Ran p old new result }
{
    run(
        prepare(alloc, words, shelf, now),
        input,
        output,
        say,
        spill,
        steps,
    )
}
