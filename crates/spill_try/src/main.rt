//! Tries the store over a folder, of whose files no contract can tell anything.
//!
//! With no words: a part of each width is put in order in small chunks and compared with std's sort (`widths`). With
//! the words `FOLDER PATTERN WIDTH ROWS`: one part of many rows is written, put in order and read (`one_part`); its
//! rows are made by `row_maker`. It says the outcome, and ends with status 0 only where the part is in order.
#![tactic(auto)]

mod one_part;
mod row_maker;
mod trial;
mod widths;

use std::marker::Brand;
use std::process::ExitCode;
use std::sync::ledger::Blank;
use std::{env, io};
use trial::{Trial, is_width_sorted, outcome_of, trial_of};

fn main(rt: HostRuntime) -> io::Result<ExitCode> {
    let words: Vec<String> = env::args(&rt)?.collect(rt.alloc())?;
    if words.len() <= 1 {
        return try_widths(&rt);
    }
    let Some(trial) = trial_of(&words) else {
        println!(rt; "the words are FOLDER PATTERN WIDTH ROWS")?;
        return Ok(ExitCode::from(2));
    };
    try_folder(&rt, &trial)
}

// Says how many widths are put in order as std's sort does.
fn try_widths(rt: &HostRuntime) -> io::Result<ExitCode> {
    let mut sorted = 0u32;
    for width in 1..40usize {
        if is_width_sorted::<Brand>(rt, width, Blank::new(1))? {
            sorted = sorted.saturating_add(1);
        } else {
            println!(rt; "rows of {width} bytes differ")?;
        }
    }
    println!(rt; "{sorted} of 39 widths are in order")?;
    Ok(ExitCode::from(u8::from(sorted != 39)))
}

// Says what became of one part.
fn try_folder(rt: &HostRuntime, trial: &Trial<'_>) -> io::Result<ExitCode> {
    let outcome = outcome_of::<Brand>(rt, trial, Blank::new(1))?;
    println!(rt; "{}", outcome.text())?;
    Ok(ExitCode::from(outcome.status()))
}
