//! Why a header or a tile of a map is refused. (Mapsforge Specification, Binary Map File Format, version 5; the causes
//! are this project's profile.)

use thiserror::Error;

/// Why a field of a header is refused.
#[derive(Clone, Copy, Debug, PartialEq, Eq, Error)]
pub enum HeaderKind {
    /// The bytes end in the field.
    #[error("short")]
    Short,
    /// The file does not begin with the word of a map.
    #[error("magic")]
    Magic,
    /// The header is longer than 5,000,000 bytes behind its size field, or than the file.
    #[error("size")]
    Size,
    /// The version is not 5.
    #[error("version")]
    Version,
    /// The told size is not that of the file.
    #[error("filesize")]
    FileSize,
    /// The box is not on the earth, or a least side is above its greatest.
    #[error("bounds")]
    Bounds,
    /// The projection is not Mercator.
    #[error("projection")]
    Projection,
    /// The map has debug information.
    #[error("debug")]
    Debug,
    /// A string is misspelt, or no UTF-8.
    #[error("text")]
    Text,
    /// A tag's value is `%f`.
    #[error("kind")]
    Kind,
    /// There is no interval, a minimum is above its maximum, a base is above 16, or a sub-file does not lie in the file
    /// behind the header.
    #[error("interval")]
    Interval,
}

/// Why a header is refused.
#[derive(Clone, Copy, Debug, PartialEq, Eq, Error)]
pub enum HeaderFault {
    /// There is not enough memory.
    #[error("not enough memory")]
    Memory,
    /// The first field that is refused, by its place in the file, in bytes.
    #[error("{kind} at {at}")]
    At { at: u64, kind: HeaderKind },
}

/// Why a field of a tile has no spelling.
#[derive(Clone, Copy, Debug, PartialEq, Eq, Error)]
pub enum TileKind {
    /// A VBE number is misspelt or too wide.
    #[error("vbe")]
    Vbe,
    /// The bytes end in a field of fixed width.
    #[error("short")]
    Short,
    /// A tag id is not below the list's count.
    #[error("tag")]
    Tag,
    /// A string goes past the end, or is no UTF-8.
    #[error("text")]
    Text,
    /// A coordinate or an elevation is outside 32 bits, or a layer is above 5.
    #[error("range")]
    Range,
    /// There is no data block, no ring, or a ring of fewer than two places.
    #[error("points")]
    Points,
    /// A way's fields do not take its data size.
    #[error("size")]
    Size,
    /// The POIs do not take the first-way offset.
    #[error("offset")]
    Offset,
    /// Bytes stand behind the last way.
    #[error("left")]
    Left,
}

/// The first field of a tile without a spelling, by its place in the tile, in bytes.
#[derive(Clone, Copy, Debug, PartialEq, Eq, Error)]
#[error("{kind} at {at}")]
pub struct TileFault {
    pub at: usize,
    pub kind: TileKind,
}

/// Why a field of data blocks has no spelling: the causes of a tile that such fields have.
#[derive(Clone, Copy, Debug, PartialEq, Eq, Error)]
pub enum DeltaKind {
    /// A VBE number is misspelt or too wide.
    #[error("vbe")]
    Vbe,
    /// A coordinate is outside 32 bits.
    #[error("range")]
    Range,
    /// There is no data block, no ring, or a ring of fewer than two places.
    #[error("points")]
    Points,
}

/// The first field of data blocks without a spelling, by its place in the bytes.
#[derive(Clone, Copy, Debug, PartialEq, Eq, Error)]
#[error("{kind} at {at}")]
pub struct DeltaFault {
    pub at: usize,
    pub kind: DeltaKind,
}
