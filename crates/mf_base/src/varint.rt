//! Varints, read: Protocol Buffers, "Encoding", base 128 varints.

ghost use Rattle.std.specs.Prelude.{◌≡◌, ℕ, List, ◌+◌, ◌≤◌, ◌<◌, ◌++◌, length, drop, slice_range, IfOk, Ok};
ghost use Rattle.mf_base.specs.Spelling.{IsVarint};
ghost use Rattle.mf_base.specs.NumberReading.{varint_front, read_at};

use crate::number::VarintFault;

/// Reads the varint at `at`, and gives the next place. At the end of the bytes and beyond there is none: `Short`.
pub fn get_varint(bytes: &[u8], at: usize) -> Result<(u64, usize), VarintFault>
    // What is read is spelled so, and what is spelled so is read, whatever follows.
    ensures found { IfOk result (λ r. (at < r.1) × (r.1 ≤ length bytes.now)
        × IsVarint r.0 (slice_range bytes.now at r.1)) }
    ensures only { (n : ℕ) (b rest : List ℕ) → IsVarint n b → drop at bytes.now ≡ b ++ rest
        → result ≡ Ok (n, at + length b) }

    // Which fault it is.
    ensures exact { result ≡ read_at at (varint_front (drop at bytes.now)) }
{
    if at >= bytes.len() {
        return Err(VarintFault::Short);
    }
    let (value, size) = first_varint(&bytes[at..])?;
    Ok((value, at + size))
}

/// The varint that the bytes begin with, and how many bytes it takes.
pub fn first_varint(bytes: &[u8]) -> Result<(u64, usize), VarintFault>
    ensures exact { result ≡ varint_front bytes.now }
    ensures within { IfOk result (λ found. (0 < found.1) × (found.1 ≤ length bytes.now)) }
{
    if bytes.is_empty() {
        return Err(VarintFault::Short);
    }
    // Most numbers take one byte or two.
    if bytes[0] < 128 {
        return Ok((u64::from(bytes[0]), 1));
    }
    if bytes.len() > 1 && bytes[1] < 128 {
        return Ok((u64::from(bytes[0] % 128) + 128 * u64::from(bytes[1]), 2));
    }
    long_varint(bytes)
}

// The same, byte by byte.
fn long_varint(bytes: &[u8]) -> Result<(u64, usize), VarintFault>
    ensures exact { result ≡ varint_front bytes.now }
    ensures within { IfOk result (λ found. (0 < found.1) × (found.1 ≤ length bytes.now)) }
{
    let mut value: u64 = 0;
    let mut scale: u64 = 1;
    let mut run = 0;
    while run < bytes.len() {
        let byte = u64::from(bytes[run]);
        if run == 9 {
            return if byte < 2 {
                Ok((value + scale * byte, 10))
            } else {
                Err(VarintFault::Long)
            };
        }
        if byte < 128 {
            return Ok((value + scale * byte, run + 1));
        }
        value += scale * (byte - 128);
        scale *= 128;
        run += 1;
    }
    Err(VarintFault::Short)
}

#[cfg(test)]
mod tests {
    use super::*;
    use std::test::Fail;

    // Bytes, a place, and the varint there with the place behind it.
    const FOUND: [(&[u8], usize, u64, usize); 6] = [
        (&[0], 0, 0, 1),
        (&[9, 0x96, 0x01, 7], 1, 150, 3),
        (&[0x80, 0x80, 0], 0, 0, 3),
        (
            &[255, 255, 255, 255, 255, 255, 255, 255, 255, 1],
            0,
            u64::MAX,
            10,
        ),
        (
            &[128, 128, 128, 128, 128, 128, 128, 128, 128, 1],
            0,
            1 << 63,
            10,
        ),
        (
            &[5, 255, 255, 255, 255, 255, 255, 255, 255, 255, 0, 5],
            1,
            u64::MAX >> 1,
            11,
        ),
    ];

    // Bytes, a place, and why there is no varint.
    const FAULTS: [(&[u8], usize, VarintFault); 6] = [
        (&[], 0, VarintFault::Short),
        (&[1], 1, VarintFault::Short),
        (&[1], 2, VarintFault::Short),
        (
            &[255, 255, 255, 255, 255, 255, 255, 255, 255],
            0,
            VarintFault::Short,
        ),
        (
            &[255, 255, 255, 255, 255, 255, 255, 255, 255, 2],
            0,
            VarintFault::Long,
        ),
        (
            &[255, 255, 255, 255, 255, 255, 255, 255, 255, 128, 1],
            0,
            VarintFault::Long,
        ),
    ];

    #[test]
    fn found_and_refused(rt: HostRuntime) -> Result<(), Fail> {
        for (bytes, at, value, next) in FOUND {
            assert_eq!(rt; get_varint(bytes, at), Ok((value, next)), "in {bytes:?}");
        }
        for (bytes, at, fault) in FAULTS {
            assert_eq!(rt; get_varint(bytes, at), Err(fault), "in {bytes:?}");
        }
        assert_eq!(rt; first_varint(b"\x96\x01\x07"), Ok((150, 2)));
        assert_eq!(rt; first_varint(b"\x80\x80\x01"), Ok((16_384, 3)));
        assert_eq!(rt; first_varint(b"\x96"), Err(VarintFault::Short));
        Ok(())
    }
}
