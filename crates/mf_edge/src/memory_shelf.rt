//! A file in memory, that is opened by its name.

ghost use Rattle.std.specs.Prelude.{◌≡◌, ◌⊎◌, ◌+◌, ◌<◌, ◌≤◌, ◌↔◌, ◌++◌, ◌≢◌, [], None, Some, false, true, min, length};
ghost use Rattle.std.specs.Prelude.{take, Contains, IsErr, IfOk, OnErr, OnOk, Ok};
ghost use Rattle.mf_edge.specs.Device.{CountsOne};
ghost use Rattle.mf_edge.specs.Shelves.{CanOpen, IsNamed, IsOpened, KeepsName};
ghost use Rattle.mf_edge.specs.MemoryShelf.{MemoryFile, KeepsFile, told_of};

use crate::calls::Calls;
use crate::pieces::copy_front;
use crate::{Failed, Shelf};
use arrayvec::ArrayString;
use std::alloc::{AllocError, Global};
use std::marker::Model;

/// A file in memory, which is read in pieces. Listed calls fail, and each that opens another name.
#[derive(Drop)]
pub struct MemShelf {
    held: Vec<u8>,
    bytes: Vec<u8>,
    at: usize,
    piece: usize,
    name: Option<ArrayString<4095>>,
    is_open: bool,
    calls: Calls,
}

impl Model for MemShelf {
    ghost use Rattle.std.specs.Prelude.{◌<◌, ◌≤◌, drop, vec_len, option_map};
    ghost use Rattle.mf_edge.specs.MemoryShelf.{MemoryFile};

    ghost Value = { MemoryFile };

    ghost view = { λ s. record {
      held = s.held.items;
      bytes = s.bytes.items;
      left = drop s.at s.bytes.items;
      piece = s.piece;
      name = option_map (λ t. t.bytes) s.name;
      is_open = s.is_open;
      calls = s.calls;
    } };

    ghost invariant = { λ s. (s.at ≤ vec_len s.bytes) × (0 < s.piece) };
}

impl MemShelf {
    /// `name` is that of the file that is held. `piece` is the most bytes that one read gives. `fails` has the numbers
    /// of the calls that fail, counted from 1.
    pub fn new(
        alloc: Global,
        name: &str,
        bytes: &[u8],
        piece: usize,
        fails: &[u64],
    ) -> Result<MemShelf, AllocError>
        requires { 0 < piece }
        ensures { IfOk result
            (λ s. s ≡ record {
              held = name.now;
              bytes = bytes.now;
              left = bytes.now;
              piece = piece;
              name = None;
              is_open = false;
              calls = record { made = 0; listed = fails.now; faults = 0 };
            }) }
    {
        Ok(MemShelf {
            held: Vec::from_slice(alloc, name.as_bytes())?,
            bytes: Vec::from_slice(alloc, bytes)?,
            at: 0,
            piece,
            name: None,
            is_open: false,
            calls: Calls::new(alloc, fails)?,
        })
    }
}

impl Shelf for MemShelf {
    ghost state = { told_of };

    fn open_name(&mut self, name: &str) -> Result<(), Failed>
        requires { CanOpen (told_of self.old) name.now }
        ensures named { IsNamed (told_of self.old) name.now (told_of self.new) }
        ensures opened { OnOk result (IsOpened (told_of self.new)) }

        // Just the listed calls fail, and those that open another name.
        ensures listed { IsErr result
            ↔ (Contains self.old.calls.listed (self.old.calls.made + 1) ⊎ (self.old.held ≢ name.now)) }
        ensures failed { OnErr result (CountsOne self.old.calls.faults self.new.calls.faults) }
        ensures closed { OnErr result (self.new.is_open ≡ false) }
        ensures same_faults { OnOk result (self.new.calls.faults ≡ self.old.calls.faults) }
        ensures counts { self.old.calls.faults ≤ self.new.calls.faults }
        ensures made { self.new.calls.made ≡ self.old.calls.made + 1 }
        ensures same { KeepsFile self.old self.new }
    {
        self.name = ArrayString::from(name).ok();
        self.is_open = false;
        if self.calls.fails_now() {
            return Err(Failed);
        }
        if self.held.as_slice() != name.as_bytes() {
            self.calls.count_fault();
            return Err(Failed);
        }
        self.at = 0;
        self.is_open = true;
        Ok(())
    }

    fn read(&mut self, out: &mut [u8]) -> Result<usize, Failed>
        requires { self.old.is_open ≡ true }
        ensures many { IfOk result (λ n. n ≡ min (length out.new) (min self.old.piece (length self.old.left))) }
        ensures takes { IfOk result (λ n. self.old.left ≡ take n out.new ++ self.new.left) }
        ensures end { result ≡ Ok 0 → 0 < length out.old → self.new.left ≡ [] }

        // Just the listed calls fail, and they take nothing.
        ensures listed { IsErr result ↔ Contains self.old.calls.listed (self.old.calls.made + 1) }
        ensures failed { OnErr result (CountsOne self.old.calls.faults self.new.calls.faults) }
        ensures kept { OnErr result ((self.new.left ≡ self.old.left) × (out.new ≡ out.old)) }
        ensures same_faults { OnOk result (self.new.calls.faults ≡ self.old.calls.faults) }
        ensures counts { self.old.calls.faults ≤ self.new.calls.faults }
        ensures made { self.new.calls.made ≡ self.old.calls.made + 1 }

        ensures keeps { KeepsName (told_of self.old) (told_of self.new) }
        ensures same { KeepsFile self.old self.new }
    {
        if self.calls.fails_now() {
            return Err(Failed);
        }
        let n = copy_front(&self.bytes, self.at, self.piece, out);
        self.at += n;
        Ok(n)
    }
}

#[cfg(test)]
mod tests {
    use super::*;
    use std::test::Fail;

    #[test]
    fn opened_and_read(rt: HostRuntime) -> Result<(), Fail> {
        let mut shelf = MemShelf::new(rt.alloc(), "m.toml", b"abc", 2, &[3])?;
        assert_eq!(rt; shelf.open_name("m.toml"), Ok(()));
        let mut out = [b'.'; 4];
        assert_eq!(rt; shelf.read(&mut out), Ok(2));
        assert_eq!(rt; shelf.read(&mut out), Err(Failed));
        assert_eq!(rt; shelf.read(&mut out), Ok(1));
        assert_eq!(rt; shelf.read(&mut out), Ok(0));
        assert_eq!(rt; out, *b"cb..");
        Ok(())
    }

    #[test]
    fn another_name(rt: HostRuntime) -> Result<(), Fail> {
        let mut shelf = MemShelf::new(rt.alloc(), "m.toml", b"abc", 2, &[])?;
        assert_eq!(rt; shelf.open_name("n.toml"), Err(Failed));
        assert_eq!(rt; shelf.open_name("n.toml"), Err(Failed));
        Ok(())
    }
}
