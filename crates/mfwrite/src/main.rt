//! The map writer: compiles an extract of OpenStreetMap on standard input into a map on standard output.
//!
//! What it does is `program` of the crate `mf_run`, over the devices of the system. `arguments`, `clock` and `standard`
//! ask the system.
#![tactic(auto)]

ghost use Rattle.std.specs.Prelude.{◌≡◌, ◌<◌};

mod arguments;
mod clock;
mod standard;

use arguments::{all_words, behind_the_name};
use clock::milliseconds_now;
use mf_edge::{FileShelf, ReadSource, Steps, WriteSink};
use mf_run::prepare::Prepared;
use mf_run::run::{program, run};
use spill_files::FileSpill;
use standard::hold_standard;
use std::marker::Brand;
use std::process::ExitCode;
use std::sync::ledger::{Blank, Ledger};

fn main(rt: HostRuntime) -> ExitCode {
    let _held = hold_standard(&rt);
    ExitCode::from(status_of_run::<Brand>(&rt, Blank::new(1)))
}

// Runs over the devices of the system, and answers the status.
fn status_of_run<L: Ledger>(rt: &HostRuntime, blank: Blank) -> u8
    requires ledger { blank.name ≡ L.name }
    requires parts { blank.parts ≡ L.parts }
    requires some { 0 < blank.parts }
{
    let mut steps = Steps::<L>::new(blank);
    let mut input = ReadSource::new(rt.stdin());
    let mut output = WriteSink::new(rt.stdout());
    let mut say = WriteSink::new(rt.stderr());
    let mut spill = FileSpill::new(*rt);
    let status = match all_words(rt) {
        Ok(all) => program(
            rt.alloc(),
            behind_the_name(&all),
            &mut FileShelf::new(*rt),
            milliseconds_now(rt),
            &mut input,
            &mut output,
            &mut say,
            &mut spill,
            &mut steps,
        ),
        Err(refusal) => run(
            Prepared::Refused(refusal),
            &mut input,
            &mut output,
            &mut say,
            &mut spill,
            &mut steps,
        ),
    };
    spill.finish();
    status
}
