//! Parts in memory.

ghost use Rattle.std.specs.Prelude.{◌≡◌, ◌+◌, ◌≤◌, ◌<◌, ◌++◌, true, false, [], length, Some, None, IfSome, IsSome};
ghost use Rattle.std.specs.Prelude.{is_some, IsNone, unwrap_or, option_map};
ghost use Rattle.mf_edge.specs.MemoryStore.{held, held_count, bytes_in, IsMadeIn, IsGoneFrom, IsSetIn};

use std::alloc::Global;
use std::marker::Model;

/// Parts by their numbers. A number without a part has None.
#[derive(Drop)]
pub(crate) struct Parts {
    list: Vec<Option<Vec<u8>>>,
}

impl Model for Parts {
    ghost use Rattle.std.specs.Prelude.{List, ℕ, Option};
    ghost use Rattle.mf_edge.specs.MemoryStore.{bytes_in};

    ghost Value = { List (Option (List ℕ)) };

    ghost view = { λ p. bytes_in p.list.items };
}

#[tactic(auto, using(crate::proofs::MemoryParts::parts_in))]
impl Parts {
    /// No part.
    pub(crate) fn new(alloc: Global) -> Parts
        ensures { result ≡ [] }
    {
        Parts {
            list: Vec::new(alloc),
        }
    }

    /// Lets all parts go.
    pub(crate) fn clear(&mut self)
        ensures { self.new ≡ [] }
    {
        self.list.clear();
    }

    /// Adds an empty part, and answers its number. None where no memory is found.
    pub(crate) fn make(&mut self, alloc: Global) -> Option<u32>
        requires { held_count self.old < 4096 }
        ensures made { IfSome result (λ n. IsMadeIn n self.old self.new) }
        ensures none { IsNone result → self.new ≡ self.old }
    {
        let place = free_place(&self.list);
        if place < self.list.len() {
            self.list[place] = Some(Vec::new(alloc));
            return Some(place as u32);
        }
        match self.list.push(Some(Vec::new(alloc))) {
            Ok(()) => Some(place as u32),
            Err(_) => None,
        }
    }

    /// Lets a part go.
    pub(crate) fn forget(&mut self, part: u32)
        requires { IsSome (held self.old part) }
        ensures { IsGoneFrom part self.old self.new }
    {
        self.list[part as usize] = None;
    }

    /// Puts bytes to the end of a part, and answers whether there was memory for them.
    pub(crate) fn append(&mut self, part: u32, bytes: &[u8]) -> bool
        requires { IsSome (held self.old part) }
        ensures put { result ≡ true → IsSetIn part (unwrap_or (held self.old part) [] ++ bytes.now) self.old self.new }
        ensures none { result ≡ false → IsSetIn part (unwrap_or (held self.old part) []) self.old self.new }
    {
        append_to(&mut self.list[part as usize], bytes)
    }

    /// Gives a part other bytes.
    pub(crate) fn set(&mut self, part: u32, bytes: Vec<u8>)
        requires { IsSome (held self.old part) }
        ensures { IsSetIn part bytes.items self.old self.new }
    {
        self.list[part as usize] = Some(bytes);
    }

    /// The bytes of a part.
    pub(crate) fn bytes(&self, part: u32) -> &[u8]
        requires { IsSome (held self.now part) }
        ensures { held self.now part ≡ Some result.now }
    {
        match &self.list[part as usize] {
            Some(bytes) => bytes,
            None => &[],
        }
    }
}

// The first number that no part has.
#[tactic(auto, using(crate::proofs::MemoryParts::parts_in))]
fn free_place(parts: &[Option<Vec<u8>>]) -> usize
    ensures within { result ≤ length parts.now }
    ensures free { held (bytes_in parts.now) result ≡ None }
    ensures few { result ≤ held_count (bytes_in parts.now) }
{
    let mut i = 0;
    while i < parts.len() {
        if parts[i].is_none() {
            return i;
        }
        i += 1;
    }
    i
}

fn append_to(part: &mut Option<Vec<u8>>, bytes: &[u8]) -> bool
    requires { IsSome part.old }
    ensures there { IsSome part.new }
    ensures put { result ≡ true
        → option_map (λ v. v.items) part.new ≡ Some (unwrap_or (option_map (λ v. v.items) part.old) [] ++ bytes.now) }
    ensures none { result ≡ false → option_map (λ v. v.items) part.new ≡ option_map (λ v. v.items) part.old }
{
    match part {
        Some(held) => held.extend_from_slice(bytes).is_ok(),
        None => false,
    }
}
