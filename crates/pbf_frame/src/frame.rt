//! A blob that was read into a block.

/// The types of blobs that are read.
#[derive(Clone, Copy, Debug, PartialEq, Eq)]
pub enum BlobKind {
    /// `OSMHeader`, whose raw bytes are a HeaderBlock.
    Header,
    /// `OSMData`, whose raw bytes are a PrimitiveBlock.
    Primitive,
}

/// A blob whose raw bytes are those of a block from `start` to before `end`. `at` is the offset of its length in the
/// input, in bytes.
#[derive(Clone, Copy, Debug, PartialEq, Eq)]
pub struct Frame {
    pub kind: BlobKind,
    pub at: u64,
    pub start: usize,
    pub end: usize,
}
