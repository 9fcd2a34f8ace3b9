//! The open file of a part.

use crate::Refused;
use std::alloc::Global;
use std::fs::File;
use std::os::unix::fs::FileExt;

/// How many bytes wait at most until they are written.
const BUFFER: usize = 1 << 16;

/// The open file of a part, and the bytes behind it that are not written yet.
#[derive(Drop)]
pub(crate) struct OpenPart {
    /// The number of the part.
    pub(crate) part: u32,
    file: File,
    written: u64,
    waiting: Vec<u8>,
}

impl OpenPart {
    /// The file of a part that has so many bytes.
    pub(crate) fn new(alloc: Global, part: u32, file: File, written: u64) -> OpenPart {
        OpenPart {
            part,
            file,
            written,
            waiting: Vec::new(alloc),
        }
    }

    /// Puts bytes to the end.
    pub(crate) fn append(&mut self, bytes: &[u8]) -> Result<(), Refused> {
        if self.waiting.len().saturating_add(bytes.len()) > BUFFER {
            self.flush()?;
        }
        if bytes.len() > BUFFER {
            return self.write(bytes);
        }
        match self.waiting.extend_from_slice(bytes) {
            Ok(()) => Ok(()),
            Err(_) => Err(Refused),
        }
    }

    /// Reads bytes from a place on.
    pub(crate) fn read(&mut self, at: u64, out: &mut [u8]) -> Result<(), Refused> {
        self.flush()?;
        match self.file.read_exact_at(out, at) {
            Ok(()) => Ok(()),
            Err(_) => Err(Refused),
        }
    }

    /// Writes what waits. After a failure it waits still.
    pub(crate) fn flush(&mut self) -> Result<(), Refused> {
        if self.waiting.is_empty() {
            return Ok(());
        }
        match self
            .file
            .write_all_at(self.waiting.as_slice(), self.written)
        {
            Ok(()) => {
                self.written = self.written.saturating_add(self.waiting.len() as u64);
                self.waiting.clear();
                Ok(())
            }
            Err(_) => Err(Refused),
        }
    }

    // Writes bytes where none wait.
    fn write(&mut self, bytes: &[u8]) -> Result<(), Refused> {
        match self.file.write_all_at(bytes, self.written) {
            Ok(()) => {
                self.written = self.written.saturating_add(bytes.len() as u64);
                Ok(())
            }
            Err(_) => Err(Refused),
        }
    }
}
