//! Why an input has no further blob: the OpenStreetMap wiki, "PBF Format", on its file format.

pub use osm_model::faults::FrameFault;
use thiserror::Error;

/// Why no next blob was given.
#[derive(Clone, Copy, Debug, PartialEq, Eq, Error)]
pub enum NextFault {
    /// The source failed.
    #[error("the input could not be read")]
    Read,
    /// At this offset in the input begins no blob. Offsets are in bytes, and are those of a blob's length.
    #[error("at {at}: {fault}")]
    Frame { at: u64, fault: FrameFault },
}
