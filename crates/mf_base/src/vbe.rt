//! Numbers in variable byte encoding, written: Mapsforge Specification, Binary Map File Format, version 5.

ghost use Rattle.std.specs.Prelude.{◌≡◌, ℕ, ◌+◌, ◌≤◌, ◌<◌, ◌^◌, length, take, nat_abs};
ghost use Rattle.mf_base.specs.Buffer.{HasRoom, AppendsTo};
ghost use Rattle.mf_base.specs.Spelling.{vbe, vbe_unsigned, vbe_signed};

use crate::out_buf::OutBuf;

/// Puts the unsigned spelling of `v`, at most nine bytes.
#[tactic(auto, using(crate::proofs::Written::vbe_sizes))]
pub fn put_vbe_u(out: &mut OutBuf, v: u64)
    requires room { HasRoom out.old 10 }
    requires fits { v < 2 ^ 63 }
    ensures appends { AppendsTo out.old out.new (vbe_unsigned v) }
    ensures most { length out.new.bytes ≤ length out.old.bytes + 10 }
{
    put_groups(out, 128, 0, v);
}

/// Puts the signed spelling of `v`, at most ten bytes.
#[tactic(auto, using(crate::proofs::Written::vbe_sizes))]
pub fn put_vbe_s(out: &mut OutBuf, v: i64)
    requires room { HasRoom out.old 10 }
    requires fits { nat_abs v < 2 ^ 63 }
    ensures appends { AppendsTo out.old out.new (vbe_signed v) }
    ensures most { length out.new.bytes ≤ length out.old.bytes + 10 }
{
    put_groups(out, 64, if v < 0 { 64 } else { 0 }, v.unsigned_abs());
}

/// How many bytes `put_vbe_u` puts.
#[tactic(auto, using(crate::proofs::Written::vbe_sizes))]
pub fn size_vbe_u(v: u64) -> u32
    requires fits { v < 2 ^ 63 }
    ensures size { result ≡ length (vbe_unsigned v) }
    ensures most { result ≤ 10 }
{
    size_groups(128, v)
}

/// How many bytes `put_vbe_s` puts.
#[tactic(auto, using(crate::proofs::Written::vbe_sizes))]
pub fn size_vbe_s(v: i64) -> u32
    requires fits { nat_abs v < 2 ^ 63 }
    ensures size { result ≡ length (vbe_signed v) }
    ensures most { result ≤ 10 }
{
    size_groups(64, v.unsigned_abs())
}

// Puts the spelling of a magnitude under a sign's bit.
fn put_groups(out: &mut OutBuf, last: u8, sign: u8, magnitude: u64)
    requires some { 0 < last }
    requires byte { last + sign ≤ 128 }
    requires short { length (vbe last sign magnitude) ≤ 10 }
    requires room { HasRoom out.old 10 }
    ensures appends { AppendsTo out.old out.new (vbe last sign magnitude) }
    ensures most { length out.new.bytes ≤ length out.old.bytes + 10 }
{
    if magnitude < u64::from(last) {
        out.put(&[magnitude as u8 + sign]);
    } else if magnitude / 128 < u64::from(last) {
        out.put(&[
            128 + (magnitude % 128) as u8,
            (magnitude / 128) as u8 + sign,
        ]);
    } else {
        put_longer(out, last, sign, magnitude);
    }
}

// The same of any magnitude, byte by byte.
fn put_longer(out: &mut OutBuf, last: u8, sign: u8, magnitude: u64)
    requires some { 0 < last }
    requires byte { last + sign ≤ 128 }
    requires short { length (vbe last sign magnitude) ≤ 10 }
    requires room { HasRoom out.old 10 }
    ensures appends { AppendsTo out.old out.new (vbe last sign magnitude) }
{
    let mut bytes = [0; 10];
    let size = spell_groups(&mut bytes, last, sign, magnitude);
    out.put(&bytes[..size]);
}

// Spells at the front of bytes, and answers how many it takes: seven bits a byte while the rest is not below `last`,
// then the rest with the sign's bit.
fn spell_groups(bytes: &mut [u8; 10], last: u8, sign: u8, magnitude: u64) -> usize
    requires some { 0 < last }
    requires byte { last + sign ≤ 128 }
    requires short { length (vbe last sign magnitude) ≤ 10 }
    ensures size { result ≡ length (vbe last sign magnitude) }
    ensures spelled { take result bytes.new ≡ vbe last sign magnitude }
{
    let mut rest = magnitude;
    let mut at = 0;
    while rest >= u64::from(last) {
        bytes[at] = 128 + (rest % 128) as u8;
        rest /= 128;
        at += 1;
    }
    bytes[at] = rest as u8 + sign;
    at + 1
}

// How many bytes `spell_groups` takes, whatever the sign.
fn size_groups(last: u8, magnitude: u64) -> u32
    requires some { 0 < last }
    requires short { length (vbe last 0 magnitude) ≤ 10 }
    ensures size { (sign : ℕ) → result ≡ length (vbe last sign magnitude) }
    ensures most { result ≤ 10 }
{
    let mut rest = magnitude;
    let mut size = 1;
    while rest >= u64::from(last) {
        rest /= 128;
        size += 1;
    }
    size
}

#[cfg(test)]
mod tests {
    use super::*;
    use std::test::Fail;

    // A signed number and its spelling, from the format.
    const SIGNED: [(i64, &[u8]); 6] = [
        (0, &[0x00]),
        (63, &[0x3f]),
        (64, &[0xc0, 0x00]),
        (-1, &[0x41]),
        (-64, &[0xc0, 0x40]),
        (180000000, &[0x80, 0xaa, 0xea, 0xd5, 0x00]),
    ];

    // An unsigned number and its spelling, from the format.
    const UNSIGNED: [(u64, &[u8]); 4] = [
        (0, &[0x00]),
        (127, &[0x7f]),
        (128, &[0x80, 0x01]),
        (
            (1 << 63) - 1,
            &[0xff, 0xff, 0xff, 0xff, 0xff, 0xff, 0xff, 0xff, 0x7f],
        ),
    ];

    #[test]
    fn spellings(rt: HostRuntime) -> Result<(), Fail> {
        let mut out = OutBuf::new(rt.alloc(), 10)?;
        for (v, want) in SIGNED {
            out.clear();
            assert!(rt; out.spare() >= 10);
            assert!(rt; v > i64::MIN);
            put_vbe_s(&mut out, v);
            assert_eq!(rt; out.bytes(), want, "at {v}");
            assert_eq!(rt; size_vbe_s(v) as usize, want.len(), "at {v}");
        }
        for (v, want) in UNSIGNED {
            out.clear();
            assert!(rt; out.spare() >= 10);
            assert!(rt; v < 1 << 63);
            put_vbe_u(&mut out, v);
            assert_eq!(rt; out.bytes(), want, "at {v}");
            assert_eq!(rt; size_vbe_u(v) as usize, want.len(), "at {v}");
        }
        Ok(())
    }
}
