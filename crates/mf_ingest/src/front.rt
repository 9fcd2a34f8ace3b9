//! What is known of a candidate by its tags.

use mf_rows::head::{Head, Texts};

/// The head of a candidate, with no number and no weight yet, and its texts in the block from which it is lent.
#[derive(Drop)]
pub struct Described<'a> {
    pub head: Head,
    pub texts: Texts<'a>,
}
