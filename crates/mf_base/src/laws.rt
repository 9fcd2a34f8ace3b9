//! Laws of the definitions, each on a function that does nothing.

ghost use Rattle.std.specs.Prelude.{◌≡◌, ◌↔◌, ℕ, ◌^◌, ◌<◌, ◌≤◌, Ok, List, ◌++◌, length, take, ℤ, nat_abs, Some, IsTrue};
ghost use Rattle.mf_base.specs.Spelling.{IsBytes, IsVbeUnsigned, IsVbeSigned, IsVarint, vbe_unsigned, vbe_signed};
ghost use Rattle.mf_base.specs.Spelling.{zigzag_of, unzigzag_of};
ghost use Rattle.mf_base.specs.NumberReading.{varint_front, unsigned_front, signed_front};
ghost use Rattle.mf_base.specs.Texts.{Text};
ghost use Rattle.mf_base.specs.Words.{Given, Spells, KeepRules, words_keep, word_of, options_of, given_value};
ghost use Rattle.mf_base.specs.Root.{isqrt, IsRoot};

/// A number has just one unsigned spelling, and it is `vbe_unsigned`.
pub fn one_unsigned_spelling()
    ensures only { (n : ℕ) (b : List ℕ) → IsVbeUnsigned n b → b ≡ vbe_unsigned n }
    ensures some { (n : ℕ) → IsVbeUnsigned n (vbe_unsigned n) }
{}

/// A number has just one signed spelling, and it is `vbe_signed`.
pub fn one_signed_spelling()
    ensures only { (z : ℤ) (b : List ℕ) → IsVbeSigned z b → b ≡ vbe_signed z }
    ensures some { (z : ℤ) → IsVbeSigned z (vbe_signed z) }
{}

/// Bytes begin with an unsigned number exactly where they begin with its spelling.
pub fn one_front_unsigned()
    ensures reads { (n : ℕ) (b rest : List ℕ) → n < 2 ^ 63 → IsVbeUnsigned n b
        → unsigned_front (b ++ rest) ≡ Ok (n, length b) }
    ensures spelled { (bytes : List ℕ) (n size : ℕ) → IsBytes bytes → unsigned_front bytes ≡ Ok (n, size)
        → (size ≤ length bytes) × (n < 2 ^ 63) × IsVbeUnsigned n (take size bytes) }
{}

/// Bytes begin with a signed number exactly where they begin with its spelling.
pub fn one_front_signed()
    ensures reads { (z : ℤ) (b rest : List ℕ) → nat_abs z < 2 ^ 63 → IsVbeSigned z b
        → signed_front (b ++ rest) ≡ Ok (z, length b) }
    ensures spelled { (bytes : List ℕ) (z : ℤ) (size : ℕ) → IsBytes bytes → signed_front bytes ≡ Ok (z, size)
        → (size ≤ length bytes) × (nat_abs z < 2 ^ 63) × IsVbeSigned z (take size bytes) }
{}

/// Bytes begin with a varint exactly where they begin with a spelling of one.
pub fn one_front_varint()
    ensures reads { (n : ℕ) (b rest : List ℕ) → IsVarint n b → varint_front (b ++ rest) ≡ Ok (n, length b) }
    ensures spelled { (bytes : List ℕ) (n size : ℕ) → varint_front bytes ≡ Ok (n, size)
        → (size ≤ length bytes) × IsVarint n (take size bytes) }
{}

/// Each signed number is told by one number, and each number tells one.
pub fn zigzag_both_ways()
    ensures there { (z : ℤ) → unzigzag_of (zigzag_of z) ≡ z }
    ensures back { (n : ℕ) → zigzag_of (unzigzag_of n) ≡ n }
{}

/// The whole root is the greatest number whose square is at most the given one.
pub fn greatest_root()
    ensures some { (v : ℕ) → IsRoot (isqrt v) v }
    ensures only { (n m v : ℕ) → IsRoot n v → IsRoot m v → n ≡ m }
{}

/// Words keep the rules where they are a list of options that does, and an option's value is the one that stands there.
pub fn words_as_options()
    ensures keep { (names words : List Text) → IsTrue (words_keep names words) ↔ KeepRules names words }
    ensures value { (words : List Text) (options : Given) (name : Text) → Spells words options
        → word_of words name ≡ given_value name options }
    ensures one { (words : List Text) (options : Given) → Spells words options → options_of words ≡ Some options }
{}
