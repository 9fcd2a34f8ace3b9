//! The file of a part: rows of one width, one after another.

ghost use Rattle.std.specs.Prelude.{◌<◌};

use crate::Refused;
use crate::row_key::{RowKey, put_rows, take_rows};
use std::fs::{File, OpenOptions};
use std::os::unix::fs::FileExt;
use std::rt::HostRuntime;

/// How many rows are read or written in one call.
pub(crate) const PAGE: usize = 1_600;

/// An open file of rows, with a page of its bytes.
#[derive(Drop)]
pub(crate) struct RowFile {
    file: File,
    /// The bytes of a row.
    pub(crate) width: usize,
    /// How many rows it has.
    pub(crate) rows: u64,
    page: Vec<u8>,
}

fn open_file(rt: &HostRuntime, path: &str) -> Result<File, Refused> {
    let mut options = OpenOptions::new();
    options.read(true).write(true);
    match options.open(rt, path) {
        Ok(file) => Ok(file),
        Err(_) => Err(Refused),
    }
}

fn length_of(file: &File) -> Result<u64, Refused> {
    match file.metadata() {
        Ok(metadata) => Ok(metadata.len()),
        Err(_) => Err(Refused),
    }
}

impl RowFile {
    /// Opens the file at a path. Its length has to be a multiple of the width.
    pub(crate) fn open(rt: &HostRuntime, path: &str, width: usize) -> Result<RowFile, Refused>
        requires { 0 < width }
    {
        let file = open_file(rt, path)?;
        let bytes = length_of(&file)?;
        if bytes % (width as u64) != 0 {
            return Err(Refused);
        }
        Ok(RowFile {
            file,
            width,
            rows: bytes / (width as u64),
            page: Vec::new(rt.alloc()),
        })
    }

    /// How many rows stand from the row `at` on, but at most `most`.
    pub(crate) fn count_from(&self, at: u64, most: usize) -> usize {
        self.rows.saturating_sub(at).min(most as u64) as usize
    }

    /// Appends the keys of `count` rows from the row `at` on.
    pub(crate) fn read(
        &mut self,
        keys: &mut Vec<RowKey>,
        at: u64,
        count: usize,
    ) -> Result<(), Refused> {
        let mut left = count;
        let mut place = at;
        for _ in 0..u64::MAX {
            if left == 0 {
                return Ok(());
            }
            let rows = left.min(PAGE);
            self.read_page(keys, place, rows)?;
            left -= rows;
            place = place.saturating_add(rows as u64);
        }
        Err(Refused)
    }

    fn read_page(&mut self, keys: &mut Vec<RowKey>, at: u64, rows: usize) -> Result<(), Refused> {
        let bytes = rows.saturating_mul(self.width);
        if self.width == 0 || self.page.resize(bytes, 0).is_err() {
            return Err(Refused);
        }
        let place = at.saturating_mul(self.width as u64);
        match self.file.read_exact_at(self.page.as_mut_slice(), place) {
            Ok(()) => take_rows(keys, self.page.as_slice(), self.width),
            Err(_) => Err(Refused),
        }
    }

    /// Writes the rows of some keys from the row `at` on, and answers the row after them.
    pub(crate) fn write(&mut self, keys: &[RowKey], at: u64) -> Result<u64, Refused> {
        let mut place = at;
        for rows in keys.chunks(PAGE) {
            self.write_page(rows, place)?;
            place = place.saturating_add(rows.len() as u64);
        }
        Ok(place)
    }

    fn write_page(&mut self, rows: &[RowKey], at: u64) -> Result<(), Refused> {
        self.page.clear();
        put_rows(&mut self.page, rows, self.width)?;
        let place = at.saturating_mul(self.width as u64);
        match self.file.write_all_at(self.page.as_slice(), place) {
            Ok(()) => Ok(()),
            Err(_) => Err(Refused),
        }
    }

    /// Whether the rows ascend. It ends with the first page that has a row less than the one before.
    pub(crate) fn is_ascending(&mut self, keys: &mut Vec<RowKey>) -> Result<bool, Refused> {
        let mut at = 0u64;
        for _ in 0..u64::MAX {
            if at >= self.rows {
                return Ok(true);
            }
            let last = keys.last().copied();
            keys.clear();
            put_last(keys, last)?;
            let count = self.count_from(at, PAGE);
            self.read(keys, at, count)?;
            if !keys.as_slice().is_sorted() {
                return Ok(false);
            }
            at = at.saturating_add(count as u64);
        }
        Err(Refused)
    }
}

// Puts the last key of a page before the next page.
fn put_last(keys: &mut Vec<RowKey>, last: Option<RowKey>) -> Result<(), Refused> {
    let Some(key) = last else {
        return Ok(());
    };
    match keys.push(key) {
        Ok(()) => Ok(()),
        Err(_) => Err(Refused),
    }
}
