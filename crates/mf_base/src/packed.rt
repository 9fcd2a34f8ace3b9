//! Packed lists of varints, read from the front: Protocol Buffers, "Encoding", packed repeated fields.

ghost use Rattle.std.specs.Prelude.{◌≡◌, [], ◌∷◌, true, MatchOption};
ghost use Rattle.mf_base.specs.Packed.{are_varints, packed_numbers};

use crate::varint_front::front_varint;

/// The first number of whole varints and the bytes behind it, or None where there are none.
pub fn first_packed(bytes: &[u8]) -> Option<(u64, &[u8])>
    requires { are_varints bytes.now ≡ true }
    ensures numbers { MatchOption result (packed_numbers bytes.now ≡ []) (λ first. packed_numbers bytes.now
        ≡ first.0 ∷ packed_numbers first.1.now) }
    ensures whole { MatchOption result (bytes.now ≡ []) (λ first. are_varints first.1.now ≡ true) }
{
    match front_varint(bytes) {
        Ok((number, size)) => Some((number, &bytes[size..])),
        Err(_) => None,
    }
}
