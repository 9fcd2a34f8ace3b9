//! Rows as keys, which std's sort puts in the order of their bytes.

ghost use Rattle.std.specs.Prelude.{◌<◌, ◌≤◌};

use crate::Refused;
use std::alloc::Global;

/// The bytes of a key.
pub(crate) const KEY_BYTES: usize = 40;

/// A row's bytes, eight to a number with the highest first, and zeros after them. The keys of rows of one width, which
/// is at most `KEY_BYTES`, stand in the order of the rows.
#[derive(Clone, Copy, Debug, PartialEq, Eq, PartialOrd, Ord)]
pub(crate) struct RowKey {
    a: u64,
    b: u64,
    c: u64,
    d: u64,
    e: u64,
}

// The number that the eight bytes from a place on spell, the highest first.
fn word(bytes: &[u8; KEY_BYTES], at: usize) -> u64
    requires { at ≤ 32 }
{
    match bytes[at..].first_chunk::<8>() {
        Some(word) => u64::from_be_bytes(*word),
        None => 0,
    }
}

impl RowKey {
    /// The key of a row of at most `KEY_BYTES` bytes.
    pub(crate) fn of(row: &[u8]) -> RowKey {
        let width = row.len().min(KEY_BYTES);
        let mut bytes = [0; KEY_BYTES];
        bytes[..width].copy_from_slice(&row[..width]);
        RowKey {
            a: word(&bytes, 0),
            b: word(&bytes, 8),
            c: word(&bytes, 16),
            d: word(&bytes, 24),
            e: word(&bytes, 32),
        }
    }

    // The row, with zeros after it.
    fn bytes(&self) -> [u8; KEY_BYTES] {
        let mut bytes = [0; KEY_BYTES];
        bytes[..8].copy_from_slice(&self.a.to_be_bytes());
        bytes[8..16].copy_from_slice(&self.b.to_be_bytes());
        bytes[16..24].copy_from_slice(&self.c.to_be_bytes());
        bytes[24..32].copy_from_slice(&self.d.to_be_bytes());
        bytes[32..].copy_from_slice(&self.e.to_be_bytes());
        bytes
    }
}

/// Appends the keys of the rows that stand in some bytes, `width` bytes each.
pub(crate) fn take_rows(keys: &mut Vec<RowKey>, bytes: &[u8], width: usize) -> Result<(), Refused>
    requires { 0 < width }
{
    for row in bytes.chunks_exact(width) {
        if keys.push(RowKey::of(row)).is_err() {
            return Err(Refused);
        }
    }
    Ok(())
}

/// Appends the rows of some keys, `width` bytes each.
pub(crate) fn put_rows(bytes: &mut Vec<u8>, keys: &[RowKey], width: usize) -> Result<(), Refused> {
    for key in keys {
        let whole = key.bytes();
        let row = &whole[..width.min(KEY_BYTES)];
        if bytes.extend_from_slice(row).is_err() {
            return Err(Refused);
        }
    }
    Ok(())
}

/// Room for so many keys.
pub(crate) fn room_for(alloc: Global, count: usize) -> Result<Vec<RowKey>, Refused> {
    match Vec::with_capacity(alloc, count) {
        Ok(keys) => Ok(keys),
        Err(_) => Err(Refused),
    }
}

/// Sorts keys that are ascending runs one after another. A stable sort merges them.
pub(crate) fn merge_runs(keys: &mut Vec<RowKey>) -> Result<(), Refused> {
    match keys.sort() {
        Ok(()) => Ok(()),
        Err(_) => Err(Refused),
    }
}
