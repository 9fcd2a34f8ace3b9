//! Texts that stand in bytes, each behind its length.

ghost use Rattle.std.specs.Prelude.{◌≡◌, ◌≤◌, ℕ, List, true, is_some, Some, length, slice_range};
ghost use Rattle.mf_base.specs.Texts.{Text};
ghost use Rattle.mf_base.specs.Entries.{HasText, text_at};

use crate::varint_front::front_varint;

/// Where the text begins and ends whose length stands at `at`.
pub fn text_place(bytes: &[u8], at: usize) -> (usize, usize)
    requires { is_some (text_at bytes.now at) ≡ true }
    ensures text { text_at bytes.now at ≡ Some (slice_range bytes.now result.0 result.1) }
    ensures within { (at ≤ result.0) × (result.0 ≤ result.1) × (result.1 ≤ length bytes.now) }
{
    match front_varint(&bytes[at..]) {
        Ok((count, size)) => {
            let start = at + size;
            (start, start + count as usize)
        }
        Err(_) => unreachable!(),
    }
}

/// At a place bytes have at most one text, and it is the one that is read there.
pub fn one_text_at_a_place()
    ensures reads { (bytes : List ℕ) (at : ℕ) (text : Text) → HasText bytes at text → text_at bytes at ≡ Some text }
    ensures only { (bytes : List ℕ) (at : ℕ) (text : Text) → text_at bytes at ≡ Some text → HasText bytes at text }
{}
