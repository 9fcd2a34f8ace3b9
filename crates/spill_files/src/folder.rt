//! The folder of a store.
//!
//! Its files are `mfspill.N.rows`, the rows of part N; `mfspill.runs` with `mfspill.runs-wal`, the database while a
//! part is put in order; and `mfspill.lock`, which the run that works there has locked. No other file is ever removed.

ghost use Rattle.std.specs.Prelude.{◌<◌};

use crate::Refused;
use crate::open_part::OpenPart;
use crate::runs::{Sizes, order_file, remove_database};
use std::fs;
use std::fs::{File, OpenOptions};
use std::os::unix::fs::MetadataExt;
use std::rt::HostRuntime;

/// How many files are open at a time.
const OPEN_FILES: usize = 16;

/// The numbers of parts are below this.
const MOST_PARTS: u32 = 4096;

/// A folder with the files of parts. It is closed, and no file is touched, until it is opened.
#[derive(Drop)]
pub(crate) struct Folder {
    rt: HostRuntime,
    path: String,
    // It is locked while the folder is open.
    lock: Option<File>,
    // Whether this run made the folder.
    is_made: bool,
    // An open file stands at the part's number modulo their count.
    open: Vec<Option<OpenPart>>,
}

impl Folder {
    /// A folder that is closed.
    pub(crate) fn new(rt: HostRuntime) -> Folder {
        let alloc = rt.alloc();
        Folder {
            rt,
            path: String::new(alloc),
            lock: None,
            is_made: false,
            open: Vec::new(alloc),
        }
    }

    /// Opens the folder, which is made where it is missing, and removes all parts. It fails where another run has it
    /// open.
    pub(crate) fn open(&mut self, path: &str) -> Result<(), Refused> {
        if self.lock.is_none() {
            self.path.clear();
            if self.path.push_str(path).is_err() {
                return Err(Refused);
            }
            let is_made = fs::create_dir(&self.rt, path).is_ok();
            self.is_made = self.is_made || is_made;
            self.lock = Some(locked(&self.rt, path)?);
        }
        self.clear()
    }

    // Closes and removes the files of all parts, and the database.
    fn clear(&mut self) -> Result<(), Refused> {
        self.open.clear();
        for _ in 0..OPEN_FILES {
            if self.open.push(None).is_err() {
                return Err(Refused);
            }
        }
        for part in 0..MOST_PARTS {
            let path = part_path(&self.rt, self.path.as_str(), part)?;
            let _ = fs::remove_file(&self.rt, path.as_str());
        }
        let database = runs_path(&self.rt, self.path.as_str())?;
        remove_database(&self.rt, database.as_str())
    }

    /// Makes an empty file for a part.
    pub(crate) fn make(&mut self, part: u32) -> Result<(), Refused> {
        let path = part_path(&self.rt, self.path.as_str(), part)?;
        let file = match File::create_new(&self.rt, path.as_str()) {
            Ok(file) => file,
            Err(_) => return Err(Refused),
        };
        let Some(place) = self.open.get_mut(part as usize % OPEN_FILES) else {
            return Err(Refused);
        };
        flush(place)?;
        *place = Some(OpenPart::new(self.rt.alloc(), part, file, 0));
        Ok(())
    }

    // The open file of a part of `size` bytes.
    fn opened(&mut self, part: u32, size: u64) -> Result<&mut OpenPart, Refused> {
        let Some(place) = self.open.get_mut(part as usize % OPEN_FILES) else {
            return Err(Refused);
        };
        turn_to(&self.rt, self.path.as_str(), place, part, size)?;
        match place {
            Some(file) => Ok(file),
            None => Err(Refused),
        }
    }

    /// Puts bytes to the end of a part of `size` bytes.
    pub(crate) fn append(&mut self, part: u32, size: u64, bytes: &[u8]) -> Result<(), Refused> {
        self.opened(part, size)?.append(bytes)
    }

    /// Reads bytes of a part of `size` bytes from a place on.
    pub(crate) fn read(
        &mut self,
        part: u32,
        size: u64,
        at: u64,
        out: &mut [u8],
    ) -> Result<(), Refused> {
        self.opened(part, size)?.read(at, out)
    }

    /// Puts the rows of a part in order.
    pub(crate) fn order(&mut self, part: u32, width: usize, sizes: Sizes) -> Result<(), Refused>
        requires { 0 < width }
    {
        let Some(place) = self.open.get_mut(part as usize % OPEN_FILES) else {
            return Err(Refused);
        };
        flush(place)?;
        *place = None;
        let rows = part_path(&self.rt, self.path.as_str(), part)?;
        let runs = runs_path(&self.rt, self.path.as_str())?;
        order_file(&self.rt, runs.as_str(), rows.as_str(), width, sizes)
    }

    /// Closes and removes the file of a part.
    pub(crate) fn forget(&mut self, part: u32) {
        if let Some(place) = self.open.get_mut(part as usize % OPEN_FILES) {
            if is_of(place, part) {
                *place = None;
            }
        }
        if let Ok(path) = part_path(&self.rt, self.path.as_str(), part) {
            let _ = fs::remove_file(&self.rt, path.as_str());
        }
    }

    /// Removes all files of the store, and the folder where this run made it and nothing else is in it.
    pub(crate) fn remove(&mut self) -> Result<(), Refused> {
        if self.lock.is_none() {
            return Ok(());
        }
        self.clear()?;
        self.open.clear();
        let lock = lock_path(&self.rt, self.path.as_str())?;
        let _ = fs::remove_file(&self.rt, lock.as_str());
        self.lock = None;
        if self.is_made {
            let _ = fs::remove_dir(&self.rt, self.path.as_str());
        }
        self.is_made = false;
        Ok(())
    }
}

fn is_of(place: &Option<OpenPart>, part: u32) -> bool {
    match place {
        Some(open) => open.part == part,
        None => false,
    }
}

// Writes what waits.
fn flush(place: &mut Option<OpenPart>) -> Result<(), Refused> {
    match place {
        Some(open) => open.flush(),
        None => Ok(()),
    }
}

// Has the file of a part stand in a place, and writes what waits of the one that stood there.
fn turn_to(
    rt: &HostRuntime,
    folder: &str,
    place: &mut Option<OpenPart>,
    part: u32,
    size: u64,
) -> Result<(), Refused> {
    if is_of(place, part) {
        return Ok(());
    }
    flush(place)?;
    let path = part_path(rt, folder, part)?;
    let mut options = OpenOptions::new();
    options.read(true).write(true);
    match options.open(rt, path.as_str()) {
        Ok(file) => {
            *place = Some(OpenPart::new(rt.alloc(), part, file, size));
            Ok(())
        }
        Err(_) => Err(Refused),
    }
}

fn part_path(rt: &HostRuntime, folder: &str, part: u32) -> Result<String, Refused> {
    match format!(in rt.alloc(); "{folder}/mfspill.{part}.rows") {
        Ok(path) => Ok(path),
        Err(_) => Err(Refused),
    }
}

fn runs_path(rt: &HostRuntime, folder: &str) -> Result<String, Refused> {
    match format!(in rt.alloc(); "{folder}/mfspill.runs") {
        Ok(path) => Ok(path),
        Err(_) => Err(Refused),
    }
}

fn lock_path(rt: &HostRuntime, folder: &str) -> Result<String, Refused> {
    match format!(in rt.alloc(); "{folder}/mfspill.lock") {
        Ok(path) => Ok(path),
        Err(_) => Err(Refused),
    }
}

// Locks the folder. The lock goes with the run that has it, also where that is killed. Where the run that had it
// removed its file meanwhile, what was locked is no longer in the folder, and the folder is not locked.
fn locked(rt: &HostRuntime, folder: &str) -> Result<File, Refused> {
    let path = lock_path(rt, folder)?;
    let mut options = OpenOptions::new();
    options.read(true).write(true).create(true);
    let Ok(file) = options.open(rt, path.as_str()) else {
        return Err(Refused);
    };
    if file.try_lock().is_ok() && is_at(rt, &file, path.as_str()) {
        Ok(file)
    } else {
        Err(Refused)
    }
}

// Whether a file is the one at a path.
fn is_at(rt: &HostRuntime, file: &File, path: &str) -> bool {
    match (file.metadata(), fs::metadata(rt, path)) {
        (Ok(one), Ok(other)) => one.dev() == other.dev() && one.ino() == other.ino(),
        _ => false,
    }
}
