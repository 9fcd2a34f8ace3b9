//! Why an input is refused, from a varint up to the input: the OpenStreetMap wiki, "PBF Format"; Protocol Buffers,
//! "Encoding". The definitions of `specs/` say when each comes, and in which order they are looked for.

use thiserror::Error;

/// Why bytes begin with no field: the first cause.
#[derive(Clone, Copy, Debug, PartialEq, Eq, Error)]
pub enum WireFault {
    /// A varint is cut by the end, or is no number below 2^64 in ten bytes.
    #[error("a varint is cut short or too long")]
    Varint,
    /// The field number is 0 or above 2^29 - 1, or the wire type is 3, 4, 6 or 7.
    #[error("a field number or wire type that does not exist")]
    Kind,
    /// The bytes end within a value.
    #[error("a value is cut short")]
    Length,
}

/// Why bytes are no message of a table: the first fault, field by field.
#[derive(Clone, Copy, Debug, PartialEq, Eq, Error)]
pub enum MessageFault {
    /// A field has no spelling, or a packed list is no list of whole varints.
    #[error("{0}")]
    Wire(WireFault),
    /// The field is not of its form's wire type.
    #[error("field {field} has another wire type")]
    Form { field: u32 },
    /// The field stands at most once, and comes again.
    #[error("field {field} comes twice")]
    Twice { field: u32 },
}

/// Why the bytes begin with no blob, in the order in which the causes are looked for.
#[derive(Clone, Copy, Debug, PartialEq, Eq, Error)]
pub enum FrameFault {
    /// The blob begins at 2^62 or later.
    #[error("the input is too long")]
    TooLong,
    /// The input ends after `have` bytes of the length, of the BlobHeader or of the Blob.
    #[error("the input is cut short, have {have}")]
    Truncated { have: u64 },
    /// The length of the BlobHeader is above 65,535.
    #[error("a BlobHeader is too long")]
    HeaderLength,
    /// The BlobHeader is no such message.
    #[error("a BlobHeader: {0}")]
    HeaderWire(MessageFault),
    /// The BlobHeader has no type.
    #[error("a BlobHeader without a type")]
    NoKind,
    /// The BlobHeader has no datasize.
    #[error("a BlobHeader without a datasize")]
    NoSize,
    /// The datasize is above 33,554,432.
    #[error("a Blob is too long")]
    BlobSize,
    /// The Blob is no such message.
    #[error("a Blob: {0}")]
    BlobWire(MessageFault),
    /// The Blob has compressed data, first in this field.
    #[error("a Blob is compressed, field {field}")]
    Compressed { field: u32 },
    /// The Blob has no raw data.
    #[error("a Blob without raw data")]
    NoBytes,
    /// raw_size is `told`, and there are `found` raw bytes.
    #[error("raw_size {told} of {found} raw bytes")]
    RawSize { told: u64, found: u64 },
}

/// Why a HeaderBlock is refused, or a PrimitiveBlock before its groups, in the order in which the causes are looked
/// for.
#[derive(Clone, Copy, Debug, PartialEq, Eq, Error)]
pub enum BlockFault {
    /// The HeaderBlock, its bbox, the PrimitiveBlock or its StringTable is no such message.
    #[error("a block: {0}")]
    Wire(MessageFault),
    /// The bbox lacks a side, a side is not on the earth, left is above right, or bottom above top.
    #[error("a box that is none on the earth")]
    BadBox,
    /// A required feature that this project does not know.
    #[error("a required feature that is not known")]
    RequiredFeature,
    /// The PrimitiveBlock has no StringTable.
    #[error("a block without a string table")]
    NoStrings,
    /// The StringTable has more than 4,194,304 entries.
    #[error("a string table of too many entries")]
    TooManyStrings,
    /// The entry with this index is the first that is no UTF-8.
    #[error("string {index} is no UTF-8")]
    NotText { index: u64 },
}

/// Why an entity is refused, or the group or the DenseNodes that it stands in.
#[derive(Clone, Copy, Debug, PartialEq, Eq, Error)]
pub enum EntityFault {
    /// The group, the DenseNodes or the entity is no such message.
    #[error("an entity: {0}")]
    Wire(MessageFault),
    /// The group has two different fields among nodes, dense, ways, relations and changesets.
    #[error("a group of two kinds")]
    MixedGroup,
    /// Columns that belong together differ in length, or keys_vals has no 0 behind a node's tags, or numbers behind
    /// the last node.
    #[error("columns that differ in length")]
    Columns,
    /// The entity has no id, or a node no latitude or no longitude.
    #[error("an entity without its id or place")]
    Missing,
    /// A sum of differences is outside signed 64 bits.
    #[error("a sum of differences is too large")]
    Range,
    /// A node behind a way or a relation, or a way behind a relation.
    #[error("an entity behind those of a later kind")]
    KindOrder,
    /// `last` is the last id of the kind, and `id`, that of the entity, is not above it.
    #[error("id {id} behind {last}")]
    OutOfOrder { last: u64, id: i64 },
    /// A latitude beyond 90 or a longitude beyond 180 degrees.
    #[error("a node that is not on the earth")]
    Coordinate,
    /// The keys and the values differ in number, or keys_vals ends behind a key.
    #[error("a key without a value")]
    KeyWithoutValue,
    /// An index is not below the number of strings.
    #[error("an index of no string")]
    StringIndex,
    /// A member is neither node, way nor relation.
    #[error("a member of no known kind")]
    MemberKind,
}

/// Why an input is refused: a blob, what a block has before its groups, or an entity.
#[derive(Clone, Copy, Debug, PartialEq, Eq, Error)]
pub enum InputCode {
    #[error("{0}")]
    Frame(FrameFault),
    #[error("{0}")]
    Block(BlockFault),
    #[error("{0}")]
    Entity(EntityFault),
}

/// The first fault of an input. `at` is the offset in the input, in bytes, of the blob that has it.
#[derive(Clone, Copy, Debug, PartialEq, Eq, Error)]
#[error("at {at}: {code}")]
pub struct InputFault {
    pub at: u64,
    pub code: InputCode,
}
