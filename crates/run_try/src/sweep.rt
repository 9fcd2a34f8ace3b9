//! Runs in which each call of a device fails in turn.

use crate::judged::{is_made, is_right};
use crate::trial::{Device, Failing, run_with};
use mf_compile::job::Job;
use mf_edge::Steps;
use std::alloc::{AllocError, Global};
use std::sync::ledger::Ledger;

// No device has as many calls in a run.
const MOST_CALLS: u64 = 100_000;

// How many reads of the store are answered by zeros: more than there are.
const ZEROS: u64 = 300;

/// What was found of a device.
#[derive(Clone, Copy, Debug, PartialEq, Eq)]
pub enum Found {
    /// Each run ended as it has to, and then, with no call left to fail, with the map.
    Right,
    /// One did not.
    Wrong,
    /// There were fewer calls than a run needs.
    Few,
}

impl Found {
    /// Its text.
    pub fn text(self) -> &'static str {
        match self {
            Found::Right => "each run ends as it has to",
            Found::Wrong => "a run ends otherwise",
            Found::Few => "it has hardly a call",
        }
    }

    /// Whether it is not right.
    pub fn is_wrong(self) -> bool {
        self != Found::Right
    }
}

/// Has each call of a device fail in turn, where this is the map that is made when none does.
pub fn sweep<L: Ledger>(
    alloc: Global,
    job: &mut Job,
    input: &[u8],
    device: Device,
    map: &[u8],
    steps: &mut Steps<L>,
) -> Result<Found, AllocError> {
    for call in 1..MOST_CALLS {
        let failing = Failing { device, call };
        let seen = run_with(alloc, job, input, failing, steps)?;
        if is_made(&seen, map) && is_last(failing) {
            return Ok(if call < 4 { Found::Few } else { Found::Right });
        }
        if !is_right(device, &seen, map) {
            return Ok(Found::Wrong);
        }
    }
    Ok(Found::Wrong)
}

// Whether a run that makes the map may be the last one: there is no such call. A read of zeros may do no harm.
fn is_last(failing: Failing) -> bool {
    failing.device != Device::Zeros || failing.call > ZEROS
}
