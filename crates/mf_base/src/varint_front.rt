//! The varint in front of bytes: Protocol Buffers, "Encoding", base 128 varints.

ghost use Rattle.std.specs.Prelude.{◌≡◌, ◌<◌, ◌≤◌, length, IfOk};
ghost use Rattle.mf_base.specs.NumberReading.{varint_front};

use crate::number::VarintFault;
use crate::varint::get_varint;

/// The varint that the bytes begin with, and how many bytes it takes.
pub fn front_varint(bytes: &[u8]) -> Result<(u64, usize), VarintFault>
    ensures exact { result ≡ varint_front bytes.now }
    ensures within { IfOk result (λ found. (0 < found.1) × (found.1 ≤ length bytes.now)) }
{
    // Most numbers take one byte.
    if !bytes.is_empty() && bytes[0] < 128 {
        return Ok((u64::from(bytes[0]), 1));
    }
    get_varint(bytes, 0)
}
