//! Tries runs in which each call of each device fails in turn, and in which the store answers zeros, over an extract with
//! tiles in three intervals and parts of more rows than a page has.
//!
//! It reads the files `input.osm.pbf` and `mapping.toml`. `prepared` makes the job, and `trial` runs it with a device of
//! which one call fails. `judged` tells whether the status, the text and what was written are right, and `sweep` goes over
//! the calls of a device.
#![tactic(auto)]

ghost use Rattle.std.specs.Prelude.{◌≡◌, ◌<◌};

mod judged;
mod prepared;
mod sweep;
mod trial;

use mf_compile::job::Job;
use mf_edge::Steps;
use prepared::job_of;
use std::marker::Brand;
use std::process::ExitCode;
use std::rt::HostRuntime;
use std::sync::ledger::{Blank, Ledger};
use std::{fs, io};
use sweep::sweep;
use trial::{Device, Failing, run_with};

fn main(rt: HostRuntime) -> io::Result<ExitCode> {
    let input = fs::read(&rt, "input.osm.pbf")?;
    let mapping = fs::read(&rt, "mapping.toml")?;
    match job_of(rt.alloc(), &mapping)? {
        Some(mut job) => try_all::<Brand>(&rt, &mut job, &input, Blank::new(1)),
        None => {
            println!(rt; "the job is refused")?;
            Ok(ExitCode::from(1))
        }
    }
}

// Says what the map has, and of each device whether all its failures are told. The status is 0 only where all are.
fn try_all<L: Ledger>(
    rt: &HostRuntime,
    job: &mut Job,
    input: &[u8],
    blank: Blank,
) -> io::Result<ExitCode>
    requires ledger { blank.name ≡ L.name }
    requires parts { blank.parts ≡ L.parts }
    requires some { 0 < blank.parts }
{
    let mut steps = Steps::<L>::new(blank);
    let nothing = Failing::nothing();
    let whole = run_with(rt.alloc(), job, input, nothing, &mut steps)?;
    let Ok(report) = whole.answer else {
        println!(rt; "there is no map")?;
        return Ok(ExitCode::from(1));
    };
    println!(rt; "{} features in {} tiles", report.features, report.tiles)?;
    let map = whole.output.taken();
    let mut wrong = false;
    for device in Device::ALL {
        let found = sweep(rt.alloc(), job, input, device, map, &mut steps)?;
        println!(rt; "{}: {}", device.name(), found.text())?;
        wrong = wrong || found.is_wrong();
    }
    Ok(ExitCode::from(u8::from(wrong)))
}
