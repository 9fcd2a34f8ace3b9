//! The store over a folder.

ghost use Rattle.std.specs.Prelude.{◌≡◌, ◌<◌, ◌+◌, ◌≤◌, false, [], OnOk, OnErr, IfOk};
ghost use Rattle.mf_edge.specs.Device.{CountsOne};
ghost use Rattle.spill_files.specs.FolderStore.{new_store};

use crate::Refused;
use crate::folder::Folder;
use crate::lengths::Lengths;
use crate::runs::{SIZES, Sizes};
use arrayvec::ArrayString;
use mf_edge::{Failed, Spill, Steps};
use std::marker::Model;
use std::rt::HostRuntime;
use std::sync::ledger::Ledger;

const PART_LIMIT: u64 = 1 << 62;

/// Parts as files in a folder. It does not tell their bytes, and takes memory as it needs it.
#[derive(Drop)]
pub struct FileSpill {
    folder: Folder,
    sizes: Sizes,
    lengths: Lengths,
    name: Option<ArrayString<4095>>,
    is_started: bool,
    is_overrun: bool,
    faults: u64,
}

impl Model for FileSpill {
    ghost use Rattle.std.specs.Prelude.{option_map};
    ghost use Rattle.spill_files.specs.FolderStore.{FolderStore};

    ghost Value = { FolderStore };

    ghost view = { λ s. record {
      name = option_map (λ n. n.bytes) s.name;
      is_started = s.is_started;
      is_overrun = s.is_overrun;
      lengths = s.lengths;
      faults = s.faults;
    } };
}

impl FileSpill {
    /// A store that is not started, and has no folder yet.
    pub fn new(rt: HostRuntime) -> FileSpill
        ensures { result ≡ new_store }
    {
        FileSpill::with_sizes(rt, SIZES)
    }

    /// A store that orders by chunks and runs of these sizes.
    pub fn with_sizes(rt: HostRuntime, sizes: Sizes) -> FileSpill
        requires { 0 < sizes.chunk }
        ensures { result ≡ new_store }
    {
        let alloc = rt.alloc();
        FileSpill {
            folder: Folder::new(rt),
            sizes,
            lengths: Lengths::new(alloc),
            name: None,
            is_started: false,
            is_overrun: false,
            faults: 0,
        }
    }

    /// Removes the files of the store, and its folder where it made it and nothing else is in it. Then it is not
    /// started, and no part is there.
    pub fn finish(&mut self)
        ensures { self.new ≡ record self.old { is_started = false; lengths = [] } }
    {
        let _ = self.folder.remove();
        self.is_started = false;
        self.lengths.clear();
    }
}

// Counts a fault where a call was refused.
fn counted(answer: Result<(), Refused>, faults: &mut u64) -> Result<(), Failed>
    ensures ok { OnOk result (faults.new ≡ faults.old) }
    ensures failed { OnErr result (CountsOne faults.old faults.new) }
    ensures counts { faults.old ≤ faults.new }
{
    match answer {
        Ok(()) => Ok(()),
        Err(Refused) => {
            *faults = faults.saturating_add(1);
            Err(Failed)
        }
    }
}

impl Spill for FileSpill {
    ghost use Rattle.spill_files.specs.FolderStore.{told};

    ghost state = { told };

    fn start(&mut self, dir: &str) -> Result<(), Failed> {
        self.name = ArrayString::from(dir).ok();
        self.is_started = false;
        self.is_overrun = false;
        self.lengths.clear();
        let answer = self.folder.open(dir);
        counted(answer, &mut self.faults)?;
        self.is_started = true;
        Ok(())
    }

    fn make(&mut self) -> Result<u32, Failed> {
        let part = self.lengths.free();
        let answer = self.folder.make(part);
        counted(answer, &mut self.faults)?;
        if self.lengths.add(part) {
            return Ok(part);
        }
        self.folder.forget(part);
        self.faults = self.faults.saturating_add(1);
        Err(Failed)
    }

    fn append(&mut self, part: u32, bytes: &[u8]) -> Result<(), Failed> {
        let size = self.lengths.get(part);
        let size_now = size.saturating_add(bytes.len() as u64);
        if size_now > PART_LIMIT {
            self.is_overrun = true;
            self.faults = self.faults.saturating_add(1);
            return Err(Failed);
        }
        let answer = self.folder.append(part, size, bytes);
        counted(answer, &mut self.faults)?;
        self.lengths.set(part, size_now);
        Ok(())
    }

    fn read<L: Ledger>(
        &mut self,
        part: u32,
        at: u64,
        out: &mut [u8],
        steps: &mut Steps<L>,
    ) -> Result<(), Failed> {
        steps.ticks(out.len() as u64);
        let size = self.lengths.get(part);
        let answer = self.folder.read(part, size, at, out);
        counted(answer, &mut self.faults)
    }

    fn order(&mut self, part: u32, width: u32) -> Result<(), Failed> {
        let answer = self.folder.order(part, width as usize, self.sizes);
        counted(answer, &mut self.faults)
    }

    fn forget(&mut self, part: u32) {
        self.lengths.forget(part);
        self.folder.forget(part);
    }

    fn damaged(&mut self) -> Failed {
        self.faults = self.faults.saturating_add(1);
        Failed
    }
}
