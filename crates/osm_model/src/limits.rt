//! The limits of an extract, by name. Sizes and offsets are in bytes, coordinates in nanodegrees.

/// Field numbers are below this: Protocol Buffers, "Encoding", on message structure.
pub const FIELD_NUMBER_LIMIT: u64 = 1 << 29;

/// A BlobHeader has at most this many bytes: the OpenStreetMap wiki, "PBF Format", on its file format.
pub const HEADER_LIMIT: u32 = 65_535;

/// A Blob has at most this many bytes. The wiki limits the raw bytes; that the whole message counts is this project's
/// profile.
pub const BLOB_LIMIT: u64 = 33_554_432;

/// How many bytes tell the length of a BlobHeader.
pub const LENGTH_SIZE: u32 = 4;

/// A frame has at most this many bytes: those of the length, of the longest BlobHeader and of the longest Blob.
pub const FRAME_LIMIT: u64 = LENGTH_SIZE as u64 + HEADER_LIMIT as u64 + BLOB_LIMIT;

/// Each frame begins before this offset in the input: this project's profile.
pub const OFFSET_LIMIT: u64 = 1 << 62;

/// A string table has at most this many entries: this project's profile.
pub const STRINGS_LIMIT: u64 = 4_194_304;

/// The greatest latitude, 90 degrees.
pub const LATITUDE_LIMIT: u64 = 90_000_000_000;

/// The greatest longitude, 180 degrees.
pub const LONGITUDE_LIMIT: u64 = 180_000_000_000;
