//! A store in memory.

ghost use Rattle.std.specs.Prelude.{◌≡◌, ◌≢◌, ℕ, ◌+◌, ◌*◌, ◌<◌, ◌≤◌, true, false, length, Some, None, IfOk, OnOk};
ghost use Rattle.std.specs.Prelude.{OnErr, IsErr, IsSome, ◌↔◌, ◌++◌, ◌||◌, nat_lt, option_map};
ghost use Rattle.mf_base.specs.Ascending.{cut_rows, joined, ascending};
ghost use Rattle.mf_edge.specs.Device.{CountsOne};
ghost use Rattle.mf_edge.specs.Spill.{IsNameOf, HasBytes, most_parts, part_limit};
ghost use Rattle.mf_edge.specs.MemoryStore.{new_store, held, held_count, held_bytes, told, FailsNext, with_answer};
ghost use Rattle.mf_edge.specs.MemoryStore.{with_failure, restarted, after_read, read_bytes};
ghost use Rattle.mf_edge.specs.MemoryStore.{IsMadeIn, IsSetIn, IsGoneFrom};

use crate::calls::Calls;
use crate::memory_order::ordered;
use crate::memory_parts::Parts;
use crate::{Failed, Spill, Steps};
use mf_base::out_buf::OutBuf;
use std::alloc::{AllocError, Global};
use std::marker::Model;
use std::sync::ledger::Ledger;

const PART_LIMIT: usize = 1 << 62;

const LONGEST_NAME: usize = 4095;

/// Parts in memory. Listed calls fail, and those for which no memory is found.
#[derive(Drop)]
pub struct MemSpill {
    alloc: Global,
    parts: Parts,
    calls: Calls,
    name: OutBuf,
    is_named: bool,
    is_started: bool,
    is_overrun: bool,
    // Whether it tells its bytes.
    tells: bool,
    // The read that answers zeros is so many reads ahead. 0: none is.
    until_zeros: u64,
}

impl Model for MemSpill {
    ghost use Rattle.std.specs.Prelude.{◌≡◌, if◌then◌else◌, Some, None};
    ghost use Rattle.mf_edge.specs.MemoryStore.{MemoryStore};

    ghost Value = { MemoryStore };

    ghost view = { λ s. record {
      name = if s.is_named then Some s.name.bytes else None;
      is_started = s.is_started;
      tells = s.tells;
      is_overrun = s.is_overrun;
      parts = s.parts;
      calls = s.calls;
      until_zeros = s.until_zeros;
    } };

    ghost invariant = { λ s. s.name.capacity ≡ 4095 };
}

impl MemSpill {
    /// A store that tells its bytes. `fails` has the numbers of the calls that fail, counted from 1; calls of `forget`
    /// and `damaged` have no number.
    pub fn new(alloc: Global, fails: &[u64]) -> Result<MemSpill, AllocError>
        ensures { IfOk result (λ s. s ≡ new_store true fails.now 0) }
    {
        MemSpill::with(alloc, fails, true, 0)
    }

    /// A store that does not tell its bytes. Its read with number `zeros`, counted from 1, answers zeros; 0: none does.
    pub fn untold(alloc: Global, fails: &[u64], zeros: u64) -> Result<MemSpill, AllocError>
        ensures { IfOk result (λ s. s ≡ new_store false fails.now zeros) }
    {
        MemSpill::with(alloc, fails, false, zeros)
    }

    fn with(alloc: Global, fails: &[u64], tells: bool, zeros: u64) -> Result<MemSpill, AllocError>
        ensures { IfOk result (λ s. s ≡ new_store tells fails.now zeros) }
    {
        Ok(MemSpill {
            alloc,
            parts: Parts::new(alloc),
            calls: Calls::new(alloc, fails)?,
            name: OutBuf::new(alloc, LONGEST_NAME)?,
            is_named: false,
            is_started: false,
            is_overrun: false,
            tells,
            until_zeros: zeros,
        })
    }
}

impl Spill for MemSpill {
    ghost use Rattle.mf_edge.specs.MemoryStore.{told};

    ghost state = { told };

    fn start(&mut self, dir: &str) -> Result<(), Failed>
        requires short { length dir.now ≤ 4095 }
        requires name { IsNameOf dir.now self.old.name }
        ensures listed { IsErr result ↔ FailsNext self.old.calls }
        ensures answered { OnOk result (self.new ≡ restarted dir.now true (with_answer self.old.calls) self.old) }
        ensures refused { OnErr result (self.new ≡ restarted dir.now false (with_failure self.old.calls) self.old) }

        ensures counts { self.old.calls.faults ≤ self.new.calls.faults }
    {
        self.name.clear();
        self.name.put(dir.as_bytes());
        self.is_named = true;
        self.is_overrun = false;
        self.is_started = false;
        self.parts.clear();
        if self.calls.fails_now() {
            return Err(Failed);
        }
        self.is_started = true;
        Ok(())
    }

    fn make(&mut self) -> Result<u32, Failed>
        requires started { self.old.is_started ≡ true }
        requires few { held_count self.old.parts < most_parts }
        ensures made { IfOk result (λ part. IsMadeIn part self.old.parts self.new.parts) }
        ensures answered { OnOk result
            (self.new ≡ record self.old { parts = self.new.parts; calls = with_answer self.old.calls }) }

        // The listed calls fail. Want of memory is the only other cause.
        ensures listed { FailsNext self.old.calls → IsErr result }
        ensures refused { OnErr result (self.new ≡ record self.old { calls = with_failure self.old.calls }) }

        ensures counts { self.old.calls.faults ≤ self.new.calls.faults }
    {
        if self.calls.fails_now() {
            return Err(Failed);
        }
        match self.parts.make(self.alloc) {
            Some(part) => Ok(part),
            None => {
                self.calls.count_fault();
                Err(Failed)
            }
        }
    }

    fn append(&mut self, part: u32, bytes: &[u8]) -> Result<(), Failed>
        requires started { self.old.is_started ≡ true }
        requires there { IsSome (held self.old.parts part) }
        ensures put { OnOk result
            (IsSetIn part (held_bytes self.old.parts part ++ bytes.now) self.old.parts self.new.parts) }
        ensures answered { OnOk result
            (self.new ≡ record self.old { parts = self.new.parts; calls = with_answer self.old.calls }) }

        // The listed calls fail, and those past the limit. Want of memory is the only other cause.
        ensures listed { FailsNext self.old.calls → IsErr result }
        ensures past { part_limit < length (held_bytes self.old.parts part) + length bytes.now → IsErr result }
        ensures same_bytes { OnErr result
            (IsSetIn part (held_bytes self.old.parts part) self.old.parts self.new.parts) }
        ensures refused { OnErr result
            (self.new ≡ record self.old {
              parts = self.new.parts;
              calls = with_failure self.old.calls;
              is_overrun = self.old.is_overrun
                  || nat_lt part_limit (length (held_bytes self.old.parts part) + length bytes.now);
            }) }

        ensures counts { self.old.calls.faults ≤ self.new.calls.faults }
    {
        let is_past = self.parts.bytes(part).len() + bytes.len() > PART_LIMIT;
        self.is_overrun = self.is_overrun || is_past;
        if self.calls.fails_now() {
            return Err(Failed);
        }
        if !is_past && self.parts.append(part, bytes) {
            Ok(())
        } else {
            self.calls.count_fault();
            Err(Failed)
        }
    }

    fn read<L: Ledger>(
        &mut self,
        part: u32,
        at: u64,
        out: &mut [u8],
        steps: &mut Steps<L>,
    ) -> Result<(), Failed>
        requires started { self.old.is_started ≡ true }
        requires range { HasBytes (told self.old) part (at + length out.old) }
        ensures read { OnOk result (out.new ≡ read_bytes self.old part at (length out.old)) }
        ensures answered { OnOk result (self.new ≡ after_read (with_answer self.old.calls) self.old) }

        // Just the listed calls fail.
        ensures listed { IsErr result ↔ FailsNext self.old.calls }
        ensures same_bytes { OnErr result (out.new ≡ out.old) }
        ensures refused { OnErr result (self.new ≡ after_read (with_failure self.old.calls) self.old) }

        ensures steps { steps.new ≡ steps.old + length out.old }
        ensures counts { self.old.calls.faults ≤ self.new.calls.faults }
    {
        steps.ticks(out.len() as u64);
        let zeros = !self.tells && self.until_zeros == 1;
        self.until_zeros = self.until_zeros.saturating_sub(1);
        if self.calls.fails_now() {
            return Err(Failed);
        }
        if zeros {
            out.fill(0);
            return Ok(());
        }
        let start = at as usize;
        let bytes = self.parts.bytes(part);
        out.copy_from_slice(&bytes[start..start + out.len()]);
        Ok(())
    }

    fn order(&mut self, part: u32, width: u32) -> Result<(), Failed>
        requires started { self.old.is_started ≡ true }
        requires width { (1 ≤ width) × (width ≤ 39) }
        requires rows { (n : ℕ) × ((told self.old).size part ≡ Some (width * n)) }
        ensures ordered { OnOk result ((n : ℕ) → (told self.old).size part ≡ Some (width * n)
            → IsSetIn part (joined (ascending (cut_rows width n (held_bytes self.old.parts part))))
            self.old.parts self.new.parts) }
        ensures answered { OnOk result
            (self.new ≡ record self.old { parts = self.new.parts; calls = with_answer self.old.calls }) }

        // The listed calls fail. Want of memory is the only other cause.
        ensures listed { FailsNext self.old.calls → IsErr result }
        ensures refused { OnErr result (self.new ≡ record self.old { calls = with_failure self.old.calls }) }

        ensures same_size { option_map length (held self.new.parts part) ≡ option_map length (held self.old.parts part) }
        ensures counts { self.old.calls.faults ≤ self.new.calls.faults }
    {
        if self.calls.fails_now() {
            return Err(Failed);
        }
        match ordered(self.alloc, self.parts.bytes(part), width as usize) {
            Ok(bytes) => {
                self.parts.set(part, bytes);
                Ok(())
            }
            Err(_) => {
                self.calls.count_fault();
                Err(Failed)
            }
        }
    }

    fn forget(&mut self, part: u32)
        requires started { self.old.is_started ≡ true }
        requires there { IsSome (held self.old.parts part) }
        ensures gone { IsGoneFrom part self.old.parts self.new.parts }
        ensures same { self.new ≡ record self.old { parts = self.new.parts } }
    {
        self.parts.forget(part);
    }

    fn damaged(&mut self) -> Failed
        requires started { self.old.is_started ≡ true }
        requires untold { self.old.tells ≡ false }
        ensures failed { CountsOne self.old.calls.faults self.new.calls.faults }
        ensures same { self.new ≡ record self.old { calls = record self.old.calls { faults = self.new.calls.faults } } }
        ensures counts { self.old.calls.faults ≤ self.new.calls.faults }
    {
        self.calls.count_fault();
        Failed
    }
}

#[cfg(test)]
mod tests;
