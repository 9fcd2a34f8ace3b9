//! Why words are no job.

use crate::usage_word::UsageWord;
use feature_model::fault::MappingFault;

/// Why words are no job.
#[derive(Clone, Copy, Debug, PartialEq, Eq)]
pub enum Refusal {
    /// The words are not right.
    Usage(UsageWord),
    /// The mapping is refused, by another fault than want of memory.
    Mapping(MappingFault),
    /// The file of the mapping has more than 524,288 bytes.
    MappingLong,
    /// The file of the mapping could not be read.
    Read,
    /// There is not enough memory.
    Memory,
}
