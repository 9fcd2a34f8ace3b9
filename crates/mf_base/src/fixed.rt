//! Numbers of a fixed width, written.

ghost use Rattle.std.specs.Prelude.{◌≡◌, ◌⊎◌, ◌+◌, ◌≤◌, ◌<◌, ◌^◌, length};
ghost use Rattle.mf_base.specs.Buffer.{HasRoom, AppendsTo};
ghost use Rattle.mf_base.specs.Spelling.{big_endian};

use crate::out_buf::OutBuf;
use byteorder::{BigEndian, ByteOrder};

/// Puts `v` in `width` bytes (1, 2, 4, 5 or 8), the highest first.
#[tactic(auto, using(crate::proofs::Written::be_front), unfolding(crate::specs::Spelling::big_endian))]
pub fn put_be(out: &mut OutBuf, v: u64, width: u8)
    requires width { (width ≡ 1) ⊎ ((width ≡ 2) ⊎ ((width ≡ 4) ⊎ ((width ≡ 5) ⊎ (width ≡ 8)))) }
    requires fits { v < 256 ^ width }
    requires room { HasRoom out.old width }
    ensures appends { AppendsTo out.old out.new (big_endian width v) }
    ensures most { length out.new.bytes ≤ length out.old.bytes + width }
{
    let width = usize::from(width);
    let mut bytes = [0; 8];
    BigEndian::write_uint(&mut bytes, v, width);
    out.put(&bytes[..width]);
}

#[cfg(test)]
mod tests {
    use super::*;
    use std::test::Fail;

    #[test]
    fn widths(rt: HostRuntime) -> Result<(), Fail> {
        let mut out = OutBuf::new(rt.alloc(), 20)?;
        assert!(rt; out.spare() >= 1);
        put_be(&mut out, 0xfe, 1);
        assert!(rt; out.spare() >= 2);
        put_be(&mut out, 0x0102, 2);
        assert!(rt; out.spare() >= 4);
        put_be(&mut out, 0x0304_0506, 4);
        assert!(rt; out.spare() >= 5);
        put_be(&mut out, 0x07_0809_0a0b, 5);
        assert!(rt; out.spare() >= 8);
        put_be(&mut out, 0xffff_ffff_ffff_fffe, 8);
        assert_eq!(rt;
            out.bytes(),
            [
                0xfe, 1, 2, 3, 4, 5, 6, 7, 8, 9, 10, 11, 255, 255, 255, 255, 255, 255, 255, 254
            ]
            .as_slice()
        );
        Ok(())
    }
}
