//! Packed lists of varints: Protocol Buffers, "Encoding", packed fields.

ghost use Rattle.std.specs.Prelude.{◌≡◌, true, drop, length, slice_get, option_map, count_by, nat_lt};
ghost use Rattle.mf_base.specs.Spelling.{unzigzag_of};
ghost use Rattle.mf_base.specs.Packed.{are_varints, packed_numbers};

use mf_base::varint::first_varint;
use mf_base::zigzag::unzigzag;
use std::marker::Model;

/// Goes over the numbers of a packed list. Contracts see the numbers that are left.
#[derive(Drop)]
pub struct Packed<'a> {
    rest: &'a [u8],
}

impl<'a> Model for Packed<'a> {
    ghost use Rattle.std.specs.Prelude.{List, ℕ, ◌≡◌, true};
    ghost use Rattle.mf_base.specs.Packed.{are_varints, packed_numbers};

    ghost Value = { List ℕ };

    ghost view = { λ s. packed_numbers s.rest.now };

    ghost invariant = { λ s. are_varints s.rest.now ≡ true };
}

impl<'a> Packed<'a> {
    /// The numbers that `bytes` spell, which are whole varints: `check_message` sees to it.
    pub fn new(bytes: &'a [u8]) -> Packed<'a>
        requires whole { are_varints bytes.now ≡ true }
        ensures { result ≡ packed_numbers bytes.now }
    {
        Packed { rest: bytes }
    }

    /// The next number, or None after the last.
    pub fn next_u64(&mut self) -> Option<u64>
        ensures first { result ≡ slice_get self.old 0 }
        ensures rest { self.new ≡ drop 1 self.old }
    {
        match first_varint(self.rest) {
            Ok((number, size)) => {
                self.rest = &self.rest[size..];
                Some(number)
            }
            Err(_) => None,
        }
    }

    /// The next number as a sint64, or None after the last.
    pub fn next_s64(&mut self) -> Option<i64>
        ensures first { result ≡ option_map unzigzag_of (slice_get self.old 0) }
        ensures rest { self.new ≡ drop 1 self.old }
    {
        match self.next_u64() {
            Some(number) => Some(unzigzag(number)),
            None => None,
        }
    }

    /// How many numbers are left. It goes over all bytes that are left.
    pub fn count(&self) -> u64
        ensures { result ≡ length self.now }
    {
        low_bytes(self.rest)
    }
}

// How many bytes have no top bit.
fn low_bytes(bytes: &[u8]) -> u64
    ensures { result ≡ count_by (λ byte. nat_lt byte 128) bytes.now }
{
    let mut count = 0;
    for byte in bytes {
        if *byte < 128 {
            count += 1;
        }
    }
    count
}

// Whether bytes are whole varints: of at most ten bytes, of which the tenth is 0 or 1.
pub(crate) fn is_whole(bytes: &[u8]) -> bool
    ensures { result ≡ are_varints bytes.now }
{
    // How many bytes with the top bit stand before.
    let mut run = 0u32;
    for byte in bytes {
        if run == 9 && *byte > 1 {
            return false;
        }
        run = if *byte < 128 { 0 } else { run + 1 };
    }
    run == 0
}

#[cfg(test)]
mod tests {
    use super::{Packed, is_whole};

    const MOST: u64 = 18446744073709551615;

    const LEAST: i64 = -9223372036854775808;

    // A list, and its numbers as uint64 and as sint64.
    const LISTS: [(&[u8], &[(u64, i64)]); 4] = [
        (b"", &[]),
        (b"\x00\x01\x02\x03", &[(0, 0), (1, -1), (2, 1), (3, -2)]),
        (b"\x80\x00\xAC\x02", &[(0, 0), (300, 150)]),
        (
            b"\xFF\xFF\xFF\xFF\xFF\xFF\xFF\xFF\xFF\x01\x7F",
            &[(MOST, LEAST), (127, -64)],
        ),
    ];

    #[test]
    fn numbers(rt: HostRuntime) {
        for (bytes, want) in LISTS {
            assert!(rt; is_whole(bytes));
            let mut list = Packed::new(bytes);
            let mut signed = Packed::new(bytes);
            assert_eq!(rt; list.count(), want.len() as u64);
            for (number, value) in want {
                assert_eq!(rt; list.next_u64(), Some(*number));
                assert_eq!(rt; signed.next_s64(), Some(*value));
            }
            assert_eq!(rt; list.count(), 0);
            assert_eq!(rt; list.next_u64(), None);
            assert_eq!(rt; signed.next_s64(), None);
        }
    }

    // Bytes, and whether they are whole varints.
    const WHOLE: [(&[u8], bool); 9] = [
        (b"", true),
        (b"\x00\x80\x01", true),
        (b"\x80", false),
        (b"\x00\x80", false),
        (b"\x80\x80\x80\x80\x80\x80\x80\x80\x80\x00", true),
        (b"\x80\x80\x80\x80\x80\x80\x80\x80\x80\x01\x00", true),
        (b"\x80\x80\x80\x80\x80\x80\x80\x80\x80\x02", false),
        (b"\x80\x80\x80\x80\x80\x80\x80\x80\x80\x80", false),
        (b"\x80\x80\x80\x80\x80\x80\x80\x80\x80\x80\x00", false),
    ];

    #[test]
    fn whole_varints(rt: HostRuntime) {
        for (bytes, want) in WHOLE {
            assert_eq!(rt; is_whole(bytes), want, "of {bytes:?}");
        }
    }
}
