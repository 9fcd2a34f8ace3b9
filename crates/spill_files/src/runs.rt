//! The way of a file of rows through the table of runs.
//!
//! The file is read in chunks. Each is sorted and cut into runs, and these are inserted. The query gives the runs in
//! the order of their first rows, and their rows are gathered until there is no room for the next run. No row that is
//! yet to come is less than the first of that run. So what was gathered is sorted and written up to that row, and the
//! rest is kept: rows of at most one run of each chunk.

ghost use Rattle.std.specs.Prelude.{◌<◌};

use crate::Refused;
use crate::row_file::{PAGE, RowFile};
use crate::row_key::{RowKey, merge_runs, put_rows, room_for, take_rows};
use crate::run_table::{Files, bytes_of, in_order, insert, insertion, make, next, open};
use sqlite::{Rows, Statement, Transaction};
use std::fs;
use std::rt::HostRuntime;

/// How many rows are held at a time, and how many stand in a run at most.
#[derive(Clone, Copy, Debug, PartialEq, Eq)]
pub struct Sizes {
    pub chunk: usize,
    pub run: usize,
}

/// The sizes for parts of any length. Smaller ones show a test what large parts meet.
pub const SIZES: Sizes = Sizes {
    chunk: 400_000,
    run: PAGE,
};

// What is gathered, the run that came last, and its bytes.
#[derive(Drop)]
struct Room {
    keys: Vec<RowKey>,
    run: Vec<RowKey>,
    bytes: Vec<u8>,
}

// How many rows a run has, so that one run of each chunk takes half of the room.
fn run_rows(rows: u64, sizes: Sizes) -> usize {
    let chunks = (rows / (sizes.chunk.max(1) as u64)).saturating_add(1);
    let most = sizes.chunk as u64 / chunks / 2;
    (sizes.run as u64).min(most).max(1) as usize
}

fn insert_runs(
    transaction: &mut Transaction<'_, Files>,
    statement: &Statement,
    room: &mut Room,
    width: usize,
    run: usize,
) -> Result<(), Refused> {
    for rows in room.keys.as_slice().chunks(run.max(1)) {
        room.bytes.clear();
        put_rows(&mut room.bytes, rows, width)?;
        let Some(first) = room.bytes.as_slice().get(..width) else {
            return Err(Refused);
        };
        insert(transaction, statement, first, room.bytes.as_slice())?;
    }
    Ok(())
}

// Reads and sorts the chunk from the row `at` on, and answers the row after it.
fn sorted_chunk(
    file: &mut RowFile,
    keys: &mut Vec<RowKey>,
    at: u64,
    chunk: usize,
) -> Result<u64, Refused> {
    let count = file.count_from(at, chunk);
    keys.clear();
    file.read(keys, at, count)?;
    keys.sort_unstable();
    Ok(at.saturating_add(count as u64))
}

fn insert_chunks(
    transaction: &mut Transaction<'_, Files>,
    file: &mut RowFile,
    room: &mut Room,
    sizes: Sizes,
) -> Result<(), Refused> {
    let statement = insertion(transaction)?;
    let run = run_rows(file.rows, sizes);
    let mut at = 0u64;
    for _ in 0..u64::MAX {
        if at >= file.rows {
            return Ok(());
        }
        at = sorted_chunk(file, &mut room.keys, at, sizes.chunk)?;
        insert_runs(transaction, &statement, room, file.width, run)?;
    }
    Err(Refused)
}

// Writes what was gathered and is at most `bound` from the row `at` on, and answers the row after it.
fn write_up_to(
    keys: &mut Vec<RowKey>,
    bound: &RowKey,
    file: &mut RowFile,
    at: u64,
) -> Result<u64, Refused> {
    merge_runs(keys)?;
    let done = keys.partition_point(|key| *key <= *bound);
    let end = file.write(&keys.as_slice()[..done], at)?;
    let left = keys.len() - done;
    keys.copy_within(done.., 0);
    keys.truncate(left);
    Ok(end)
}

// Gathers the run that stands in `bytes`. Where there is no room for it, what can be written is written before.
fn gather(
    room: &mut Room,
    bytes: &[u8],
    file: &mut RowFile,
    at: u64,
    chunk: usize,
) -> Result<u64, Refused> {
    room.run.clear();
    if file.width == 0 {
        return Err(Refused);
    }
    take_rows(&mut room.run, bytes, file.width)?;
    let Some(first) = room.run.first() else {
        return Err(Refused);
    };
    let is_full = room.keys.len().saturating_add(room.run.len()) > chunk;
    let end = if is_full {
        write_up_to(&mut room.keys, first, file, at)?
    } else {
        at
    };
    match room.keys.extend_from_slice(room.run.as_slice()) {
        Ok(()) => Ok(end),
        Err(_) => Err(Refused),
    }
}

fn gather_all(
    rows: &mut Rows<'_, Files>,
    room: &mut Room,
    file: &mut RowFile,
    chunk: usize,
) -> Result<u64, Refused> {
    let mut at = 0u64;
    for _ in 0..u64::MAX {
        let Some(row) = next(rows)? else {
            return Ok(at);
        };
        at = gather(room, bytes_of(row)?, file, at, chunk)?;
    }
    Err(Refused)
}

fn write_in_order(
    transaction: &mut Transaction<'_, Files>,
    file: &mut RowFile,
    room: &mut Room,
    chunk: usize,
) -> Result<(), Refused> {
    let mut rows = in_order(transaction)?;
    room.keys.clear();
    let at = gather_all(&mut rows, room, file, chunk)?;
    merge_runs(&mut room.keys)?;
    let end = file.write(room.keys.as_slice(), at)?;
    if end == file.rows {
        Ok(())
    } else {
        Err(Refused)
    }
}

// One transaction, which is never committed: what spills goes to the log, once and with no sync.
fn order_within(
    transaction: &mut Transaction<'_, Files>,
    file: &mut RowFile,
    room: &mut Room,
    sizes: Sizes,
) -> Result<(), Refused> {
    make(transaction)?;
    insert_chunks(transaction, file, room, sizes)?;
    write_in_order(transaction, file, room, sizes.chunk)
}

fn order_by_table(
    rt: &HostRuntime,
    path: &str,
    file: &mut RowFile,
    keys: Vec<RowKey>,
    sizes: Sizes,
) -> Result<(), Refused> {
    let mut room = Room {
        keys,
        run: room_for(rt.alloc(), sizes.run)?,
        bytes: Vec::new(rt.alloc()),
    };
    let mut database = open(rt, path)?;
    if !database.is_autocommit() {
        return Err(Refused);
    }
    let mut transaction = database.transaction();
    order_within(&mut transaction, file, &mut room, sizes)
}

/// Removes a database and its log.
pub(crate) fn remove_database(rt: &HostRuntime, path: &str) -> Result<(), Refused> {
    let Ok(log) = format!(in rt.alloc(); "{path}-wal") else {
        return Err(Refused);
    };
    let _ = fs::remove_file(rt, path);
    let _ = fs::remove_file(rt, log.as_str());
    Ok(())
}

/// Puts the rows of a file, each of `width` bytes, in ascending order of their bytes. Rows that ascend are left as they
/// are. One chunk is sorted at once, and more by a database at `path`, which is removed before and after.
pub(crate) fn order_file(
    rt: &HostRuntime,
    path: &str,
    name: &str,
    width: usize,
    sizes: Sizes,
) -> Result<(), Refused>
    requires { 0 < width }
{
    let mut file = RowFile::open(rt, name, width)?;
    let mut keys = room_for(rt.alloc(), file.count_from(0, sizes.chunk))?;
    if file.is_ascending(&mut keys)? {
        return Ok(());
    }
    if file.rows <= sizes.chunk as u64 {
        sorted_chunk(&mut file, &mut keys, 0, sizes.chunk)?;
        file.write(keys.as_slice(), 0)?;
        return Ok(());
    }
    remove_database(rt, path)?;
    let answer = order_by_table(rt, path, &mut file, keys, sizes);
    remove_database(rt, path)?;
    answer
}
