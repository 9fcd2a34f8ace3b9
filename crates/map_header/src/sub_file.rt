//! Sub-files, as the header tells them.

/// Where a sub-file starts in the file, and how many bytes it has.
#[derive(Clone, Copy, Debug, PartialEq, Eq)]
pub struct SubFile {
    pub start: u64,
    pub size: u64,
}
