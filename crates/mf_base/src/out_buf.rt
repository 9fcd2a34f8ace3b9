//! Bytes that are written into a fixed room.

ghost use Rattle.std.specs.Prelude.{◌≡◌, ◌+◌, ◌-◌, ◌≤◌, ◌<◌, ◌^◌, ◌++◌, [], length, replicate, vec_capacity, IfOk};
ghost use Rattle.mf_base.specs.Buffer.{HasRoom, AppendsTo};

use std::alloc::{AllocError, Global};
use std::marker::Model;

/// Bytes with a fixed capacity, to whose end others are put.
///
/// All its memory is taken when it is made, and touched only as far as it was used.
#[derive(Drop)]
pub struct OutBuf {
    // What stands behind the bytes that were put is left from before.
    opened: Vec<u8>,
    len: usize,
}

impl Model for OutBuf {
    ghost use Rattle.std.specs.Prelude.{◌≤◌, take, vec_len, vec_capacity};
    ghost use Rattle.mf_base.specs.Buffer.{Buffer};

    ghost Value = { Buffer };

    ghost view = { λ b. record { bytes = take b.len b.opened.items; capacity = vec_capacity b.opened } };

    ghost invariant = { λ b. b.len ≤ vec_len b.opened };
}

impl OutBuf {
    /// An empty buffer with room for `cap` bytes.
    pub fn new(alloc: Global, cap: usize) -> Result<OutBuf, AllocError>
        ensures { IfOk result (λ b. b ≡ record { bytes = []; capacity = cap }) }
    {
        Ok(OutBuf {
            opened: Vec::with_capacity(alloc, cap)?,
            len: 0,
        })
    }

    /// How many more bytes can be put.
    pub fn spare(&self) -> usize
        ensures left { result + length self.now.bytes ≡ self.now.capacity }
        ensures bounded { self.now.capacity < 2 ^ 63 }
    {
        self.opened.capacity() - self.len
    }

    /// The bytes that were put.
    pub fn bytes(&self) -> &[u8]
        ensures bytes { result.now ≡ self.now.bytes }
        ensures fits { length result.now ≤ self.now.capacity }
    {
        &self.opened[..self.len]
    }

    /// Forgets the bytes that were put.
    pub fn clear(&mut self)
        ensures { self.new ≡ record { bytes = []; capacity = self.old.capacity } }
    {
        self.len = 0;
    }

    /// Puts bytes to the end. There must be room for them.
    pub fn put(&mut self, bytes: &[u8])
        requires { HasRoom self.old (length bytes.now) }
        ensures { AppendsTo self.old self.new bytes.now }
    {
        let end = self.len + bytes.len();
        open(&mut self.opened, end);
        self.opened[self.len..end].copy_from_slice(bytes);
        self.len = end;
    }
}

#[tactic(auto, using(crate::proofs::Opened::opening))]
/// Lengthens bytes to `n` by zeros, where they are fewer, within the memory that was taken for them.
pub fn open(bytes: &mut Vec<u8>, n: usize)
    requires { n ≤ vec_capacity bytes.old }
    ensures items { bytes.new.items ≡ bytes.old.items ++ replicate (n - length bytes.old.items) 0 }
    ensures capacity { vec_capacity bytes.new ≡ vec_capacity bytes.old }
{
    while bytes.len() < n {
        bytes.push_reserved(0);
    }
}

#[cfg(test)]
mod tests {
    use super::*;
    use std::test::Fail;

    #[test]
    fn put_and_cleared(rt: HostRuntime) -> Result<(), Fail> {
        let mut out = OutBuf::new(rt.alloc(), 5)?;
        assert_eq!(rt; out.spare(), 5);
        assert!(rt; out.bytes().is_empty());
        assert!(rt; out.spare() >= 2);
        out.put(&[7, 0]);
        out.put(&[]);
        assert!(rt; out.spare() >= 3);
        out.put(&[9, 8, 255]);
        assert_eq!(rt; out.bytes(), [7, 0, 9, 8, 255].as_slice());
        assert_eq!(rt; out.spare(), 0);
        out.clear();
        assert_eq!(rt; out.spare(), 5);
        assert!(rt; out.bytes().is_empty());
        Ok(())
    }
}
