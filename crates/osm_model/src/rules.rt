//! Rules of the fields of a message.

/// How a field stands in its message.
#[derive(Clone, Copy, Debug, PartialEq, Eq)]
pub enum Form {
    /// A varint. Of several the last counts.
    Number,
    /// Bytes, at most once.
    Once,
    /// Bytes, as often as it likes.
    Many,
    /// A packed list of varints, at most once.
    Packed,
}

/// The number of a field, and its form.
#[derive(Clone, Copy, Debug, PartialEq, Eq)]
pub struct FieldRule {
    pub number: u32,
    pub form: Form,
}
