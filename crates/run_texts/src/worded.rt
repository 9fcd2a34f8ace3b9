//! A number behind a word.

ghost use Rattle.std.specs.Prelude.{◌≡◌, ◌+◌, ◌≤◌, ◌∷◌, ◌++◌, length};

use crate::line::Line;
use itoa::{Buffer, Integer};

/// Puts a word, a blank and a number in decimal.
pub(crate) fn put_worded<I: Integer>(line: &mut Line, word: &str, n: I)
    requires room { length line.old + length word.now + 1 + I.MAX_STR_LEN ≤ 320 }
    ensures appends { line.new ≡ line.old ++ (word.now ++ 32 ∷ I.text n) }
    ensures most { length line.new ≤ length line.old + length word.now + 1 + I.MAX_STR_LEN }
{
    line.put(word.as_bytes());
    line.put(b" ");
    line.put(Buffer::new().format(n).as_bytes());
}
