//! What is kept of a tag.

/// What is kept of a tag's value, by the kind of the entry that it matches.
#[derive(Clone, Copy, Debug, Default, PartialEq, Eq)]
pub enum KeptValue {
    /// The value is the entry's own.
    #[default]
    Plain,
    /// A number of one signed byte.
    Byte(i8),
    /// A number of two signed bytes.
    Short(i16),
    /// A number of four signed bytes.
    Int(i32),
    /// A text, by its length in bytes.
    Text { len: u16 },
}

/// A tag that is kept: the entry that it matches, by its place in its list, and the value.
#[derive(Clone, Copy, Debug, Default, PartialEq, Eq)]
pub struct Kept {
    pub tag: u16,
    pub value: KeptValue,
}
