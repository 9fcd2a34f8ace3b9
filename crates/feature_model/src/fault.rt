//! Why a mapping is refused, why a relation has no rings, and what weighs too much.

use mf_base::kind::{EntityKind, List};
use thiserror::Error;

/// Why a file or a word is no mapping. An entry is told by its list and its place there, from 0.
#[derive(Clone, Copy, Debug, PartialEq, Eq, Error)]
pub enum MappingFault {
    /// There is not enough memory.
    #[error("not enough memory")]
    Memory,
    /// The file is no TOML.
    #[error("no TOML")]
    Toml,
    /// The top has another key than `poi` and `way`, or one of the two is no array of tables.
    #[error("not two lists of entries")]
    Shape,
    /// The list has more than 4,096 entries.
    #[error("too many entries")]
    TooMany { list: List },
    /// The entry breaks the entry rule.
    #[error("entry {index} is none")]
    Entry { list: List, index: u32 },
    /// The entry breaks the kind rule.
    #[error("entry {index} has no kind of value")]
    Kind { list: List, index: u32 },
    /// An earlier entry of the list has the same key and value.
    #[error("entry {index} comes twice")]
    Twice { list: List, index: u32 },
}

/// Why the parts of a relation make no blocks.
#[derive(Clone, Copy, Debug, PartialEq, Eq, Error)]
pub enum RingFault {
    /// There is no outer part.
    #[error("no outer part")]
    NoOuter,
    /// A ring stays open, which starts with the part of this place among all parts, from 0.
    #[error("the ring of part {part} is open")]
    OpenRing { part: u32 },
}

/// What passes its limit: a candidate, else a tile, else a sub-file. A weight is in rows, and a size in bytes.
#[derive(Clone, Copy, Debug, PartialEq, Eq, Error)]
pub enum LimitFault {
    /// A candidate that weighs more than the limit.
    #[error("feature {id} weighs {weight}")]
    Feature {
        kind: EntityKind,
        id: u64,
        weight: u64,
    },
    /// A tile that weighs more than the limit; `index` is the place of its interval.
    #[error("tile {index} {x} {y} weighs {weight}")]
    Tile {
        index: u8,
        x: u32,
        y: u32,
        weight: u64,
    },
    /// A sub-file of 2^39 bytes or more; `index` is the place of its interval.
    #[error("sub-file {index} has {size} bytes")]
    SubFile {
        index: u8,
        size: u64,
    },
}
