//! One run, over devices in memory.

ghost use Rattle.std.specs.Prelude.{◌≡◌, None, IfOk};

use map_model::report::Report;
use mf_compile::compile::compile;
use mf_compile::fault::Fault;
use mf_compile::job::Job;
use mf_edge::{MemSink, MemSource, MemSpill, Steps};
use std::alloc::{AllocError, Global};
use std::sync::ledger::Ledger;

/// What can fail in a run.
#[derive(Clone, Copy, Debug, PartialEq, Eq)]
pub enum Device {
    Input,
    Output,
    Store,
    /// The store answers a read by zeros, and does not fail.
    Zeros,
}

impl Device {
    /// All of them.
    pub const ALL: [Device; 4] = [Device::Input, Device::Output, Device::Store, Device::Zeros];

    /// Its name.
    pub fn name(self) -> &'static str {
        match self {
            Device::Input => "input",
            Device::Output => "output",
            Device::Store => "store",
            Device::Zeros => "zeros",
        }
    }
}

/// A device, and which of its calls fails, counted from 1; with 0 none does.
#[derive(Clone, Copy, Debug, PartialEq, Eq)]
pub struct Failing {
    pub device: Device,
    pub call: u64,
}

impl Failing {
    /// Nothing fails.
    pub fn nothing() -> Failing {
        Failing {
            device: Device::Input,
            call: 0,
        }
    }

    // The call of this device that fails.
    fn call_of(self, device: Device) -> u64 {
        if self.device == device { self.call } else { 0 }
    }

    // The store.
    fn store(self, alloc: Global) -> Result<MemSpill, AllocError>
        ensures { IfOk result (λ s. s.name ≡ None) }
    {
        match self.device {
            Device::Zeros => MemSpill::untold(alloc, &[], self.call),
            _ => MemSpill::new(alloc, &[self.call_of(Device::Store)]),
        }
    }
}

/// What a run answered, and what it wrote.
#[derive(Drop)]
pub struct Seen {
    pub answer: Result<Report, Fault>,
    pub output: MemSink,
}

/// Runs a job. The input comes in pieces of at most 500 bytes, and a write takes at most 100.
pub fn run_with<L: Ledger>(
    alloc: Global,
    job: &mut Job,
    input: &[u8],
    failing: Failing,
    steps: &mut Steps<L>,
) -> Result<Seen, AllocError> {
    let mut source = MemSource::new(alloc, input, 500, &[failing.call_of(Device::Input)])?;
    let mut output = MemSink::new(alloc, 100, &[failing.call_of(Device::Output)])?;
    let mut store = failing.store(alloc)?;
    let answer = compile(job, &mut source, &mut store, &mut output, steps);
    Ok(Seen { answer, output })
}
