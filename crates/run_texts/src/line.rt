//! A line on the stack.

ghost use Rattle.std.specs.Prelude.{◌≡◌, ◌+◌, ◌≤◌, [], ◌++◌, length};

use arrayvec::ArrayVec;
use std::marker::Model;

/// Bytes that are said together, at most 320. No memory is asked for them.
#[derive(Drop)]
pub struct Line {
    text: ArrayVec<u8, 320>,
}

impl Model for Line {
    ghost use Rattle.std.specs.Prelude.{ℕ, List};

    ghost Value = { List ℕ };

    ghost view = { λ l. l.text.items };
}

impl Line {
    /// A line without a byte.
    pub fn new() -> Line
        ensures { result ≡ [] }
    {
        Line {
            text: ArrayVec::new(),
        }
    }

    /// The bytes.
    pub fn bytes(&self) -> &[u8]
        ensures bytes { result.now ≡ self.now }
        ensures short { length result.now ≤ 320 }
    {
        self.text.as_slice()
    }

    /// Puts bytes to the end. There must be room for them.
    pub fn put(&mut self, bytes: &[u8])
        requires room { length self.old + length bytes.now ≤ 320 }
        ensures { self.new ≡ self.old ++ bytes.now }
    {
        self.text.try_extend_from_slice(bytes).unwrap();
    }
}
