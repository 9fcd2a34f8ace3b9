//! Why a pass ended before the end of the input.

use osm_model::faults::{InputCode, InputFault};
use thiserror::Error;

/// Why a pass ended before the end of the input.
#[derive(Clone, Copy, Debug, PartialEq, Eq, Error)]
pub enum PassFault {
    /// The source failed.
    #[error("the input could not be read")]
    Read,
    /// The first fault of the input.
    #[error("{0}")]
    Input(InputFault),
    /// The reader stopped.
    #[error("the entities were not read to the end")]
    Stopped,
}

// Why the reading of a blob ended: its first fault, or the reader stopped.
#[derive(Clone, Copy, Debug, PartialEq, Eq)]
pub(crate) enum BlobStop {
    Fault(InputCode),
    Reader,
}
