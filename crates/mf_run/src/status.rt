//! The statuses that a run ends with.

ghost use Rattle.std.specs.Prelude.{◌≡◌};
ghost use Rattle.mf_run.specs.Statuses as spec;

use job_words::refusal::Refusal;
use map_model::report::Report;
use mf_compile::fault::Fault;

/// The map was written.
pub const WRITTEN: u8 = 0;

/// The words are not right.
pub const USAGE: u8 = 2;

/// The mapping is refused.
pub const MAPPING: u8 = 3;

/// The input has a fault.
pub const INPUT: u8 = 4;

/// A candidate, a tile or a sub-file passes its limit.
pub const LIMIT: u8 = 5;

/// The input or the file of the mapping could not be read.
pub const READ: u8 = 6;

/// The map could not be written.
pub const WRITE: u8 = 7;

/// The store of parts failed.
pub const SPILL: u8 = 8;

/// There is not enough memory.
pub const MEMORY: u8 = 9;

/// Neither the words nor the input tell a box.
pub const NO_BOX: u8 = 10;

/// What is asked for can't be done so far.
pub const NOT_BUILT: u8 = 11;

/// The status of what a compilation answered.
pub fn status_of(answer: &Result<Report, Fault>) -> u8
    ensures { result ≡ spec.status_of answer.now }
{
    match answer {
        Ok(_) => WRITTEN,
        Err(fault) => fault_status(*fault),
    }
}

// The status of a fault.
fn fault_status(fault: Fault) -> u8
    ensures { result ≡ spec.fault_status fault }
{
    match fault {
        Fault::Input(_) => INPUT,
        Fault::Limit(_) => LIMIT,
        Fault::NoBox => NO_BOX,
        Fault::Read => READ,
        Fault::Write => WRITE,
        Fault::Spill => SPILL,
    }
}

/// The status of a refusal.
pub fn refusal_status(refusal: Refusal) -> u8
    ensures { result ≡ spec.refusal_status refusal }
{
    match refusal {
        Refusal::Usage(_) => USAGE,
        Refusal::Mapping(_) | Refusal::MappingLong => MAPPING,
        Refusal::Read => READ,
        Refusal::Memory => MEMORY,
    }
}
