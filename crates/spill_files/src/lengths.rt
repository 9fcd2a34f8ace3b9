//! The lengths of parts.

ghost use Rattle.std.specs.Prelude.{◌≡◌, ◌≤◌, ◌<◌, [], length, true, false, Some, None, IsSome};
ghost use Rattle.spill_files.specs.FolderStore.{length_in, part_count, IsMadeIn, IsGoneFrom, IsSetIn};

use std::alloc::Global;
use std::marker::Model;

/// The lengths of parts by their numbers, in bytes. A number without a part has None.
#[derive(Drop)]
pub(crate) struct Lengths {
    list: Vec<Option<u64>>,
}

impl Model for Lengths {
    ghost use Rattle.std.specs.Prelude.{List, ℕ, Option};

    ghost Value = { List (Option ℕ) };

    ghost view = { λ l. l.list.items };
}

#[tactic(auto, using(crate::proofs::PartLengths::kept_lengths))]
impl Lengths {
    /// No part.
    pub(crate) fn new(alloc: Global) -> Lengths
        ensures { result ≡ [] }
    {
        Lengths {
            list: Vec::new(alloc),
        }
    }

    /// Lets all parts go.
    pub(crate) fn clear(&mut self)
        ensures { self.new ≡ [] }
    {
        self.list.clear();
    }

    /// The first number that no part has.
    pub(crate) fn free(&self) -> u32
        requires { part_count self.now < 4096 }
        ensures free { length_in self.now result ≡ None }
        ensures next { result ≤ length self.now }
        ensures below { result < 4096 }
    {
        free_place(&self.list) as u32
    }

    /// Adds an empty part under a number, and answers whether there was memory for it.
    pub(crate) fn add(&mut self, part: u32) -> bool
        requires free { length_in self.old part ≡ None }
        requires next { part ≤ length self.old }
        ensures made { result ≡ true → IsMadeIn part self.old self.new }
        ensures none { result ≡ false → self.new ≡ self.old }
    {
        let place = part as usize;
        if place < self.list.len() {
            self.list[place] = Some(0);
            return true;
        }
        self.list.push(Some(0)).is_ok()
    }

    /// Lets a part go.
    pub(crate) fn forget(&mut self, part: u32)
        requires { IsSome (length_in self.old part) }
        ensures { IsGoneFrom part self.old self.new }
    {
        self.list[part as usize] = None;
    }

    /// Gives a part another length.
    pub(crate) fn set(&mut self, part: u32, bytes: u64)
        requires { IsSome (length_in self.old part) }
        ensures { IsSetIn part bytes self.old self.new }
    {
        self.list[part as usize] = Some(bytes);
    }

    /// The length of a part.
    pub(crate) fn get(&self, part: u32) -> u64
        requires { IsSome (length_in self.now part) }
        ensures { length_in self.now part ≡ Some result }
    {
        match self.list[part as usize] {
            Some(bytes) => bytes,
            None => 0,
        }
    }
}

// The first number that no part has.
fn free_place(list: &[Option<u64>]) -> usize
    ensures within { result ≤ length list.now }
    ensures free { length_in list.now result ≡ None }
    ensures few { result ≤ part_count list.now }
{
    let mut i = 0;
    while i < list.len() {
        if list[i].is_none() {
            return i;
        }
        i += 1;
    }
    i
}
