//! A part of many rows through a store: written, ordered, and read page by page.

ghost use Rattle.std.specs.Prelude.{◌≡◌, ◌<◌, ◌≤◌, ◌*◌, ◌^◌, length, true, Some, OnOk};
ghost use Rattle.mf_edge.specs.Spill.{most_parts};

use crate::row_maker::{RowMaker, rows_sum};
use mf_edge::{Failed, Spill, Steps};
use std::sync::ledger::Ledger;

/// How many rows a page has at most.
pub const PAGE_ROWS: usize = 4_096;

/// How far a part has come, and what was found.
#[derive(Clone, Copy, Debug, PartialEq, Eq)]
pub enum Outcome {
    /// The rows are the same, and ascend.
    Ordered,
    /// They are not the same, or do not ascend.
    Differs,
    /// The store takes no such part.
    NotTaken,
    /// The store counted a fault at its start.
    NotStarted,
    /// The store counted a fault when the part was made or appended to.
    NotWritten,
    /// It counted a fault when the part was put in order.
    NotOrdered,
    /// It counted a fault when the part was read.
    NotRead,
}

impl Outcome {
    /// Its text.
    pub fn text(self) -> &'static str {
        match self {
            Outcome::Ordered => "in order",
            Outcome::Differs => "not in order",
            Outcome::NotTaken => "no store takes it",
            Outcome::NotStarted => "a fault at the start",
            Outcome::NotWritten => "a fault in writing",
            Outcome::NotOrdered => "a fault in ordering",
            Outcome::NotRead => "a fault in reading",
        }
    }

    /// The status that a run ends with: 2 for words that are not taken, 8 for a fault of the store.
    pub fn status(self) -> u8 {
        match self {
            Outcome::Ordered => 0,
            Outcome::Differs => 1,
            Outcome::NotTaken => 2,
            _ => 8,
        }
    }
}

/// How many rows of how many bytes.
#[derive(Clone, Copy, Debug, PartialEq, Eq)]
pub struct Shape {
    pub rows: u64,
    pub width: usize,
}

/// Appends rows to a part, and answers their sum.
pub fn append_rows<P: Spill>(
    spill: &mut P,
    part: u32,
    shape: Shape,
    maker: &mut RowMaker,
    page: &mut [u8],
) -> Result<u64, Failed>
    requires started { (P.state spill.old).is_started ≡ true }
    requires empty { (P.state spill.old).size part ≡ Some 0 }
    requires width { (1 ≤ shape.width) × (shape.width ≤ 39) }
    requires page { shape.width * 4096 ≤ length page.old }
    ensures size { OnOk result ((P.state spill.new).size part ≡ Some (shape.width * shape.rows)) }
    ensures started { (P.state spill.new).is_started ≡ true }
    ensures same_length { length page.new ≡ length page.old }
{
    let mut sum = 0u64;
    let mut done = 0u64;
    while done < shape.rows {
        let rows = (shape.rows - done).min(PAGE_ROWS as u64);
        let bytes = &mut page[..shape.width * rows as usize];
        maker.fill(bytes, shape.width);
        spill.append(part, bytes)?;
        sum = sum.wrapping_add(rows_sum(bytes, shape.width));
        done += rows;
    }
    Ok(sum)
}

/// Whether the rows of a part of `size` bytes ascend and have this sum.
pub fn is_ordered<P: Spill, L: Ledger>(
    spill: &mut P,
    part: u32,
    size: u64,
    width: usize,
    sum: u64,
    page: &mut [u8],
    steps: &mut Steps<L>,
) -> Result<bool, Failed>
    requires started { (P.state spill.old).is_started ≡ true }
    requires size { (P.state spill.old).size part ≡ Some size }
    requires width { (1 ≤ width) × (width ≤ 39) }
    requires page { width * 4096 ≤ length page.old }
{
    let page_bytes = (width * PAGE_ROWS) as u64;
    let mut last = [0u8; 39];
    let mut found = 0u64;
    let mut ascends = true;
    let mut at = 0u64;
    while at < size {
        let bytes = &mut page[..(size - at).min(page_bytes) as usize];
        spill.read(part, at, bytes, steps)?;
        ascends = ascends && ascends_from(&mut last, bytes, width);
        found = found.wrapping_add(rows_sum(bytes, width));
        at += bytes.len() as u64;
    }
    Ok(ascends && found == sum)
}

// Whether rows ascend from the one before them, which becomes their last.
fn ascends_from(last: &mut [u8; 39], page: &[u8], width: usize) -> bool
    requires { (1 ≤ width) × (width ≤ 39) }
{
    let mut ascends = true;
    for row in page.chunks_exact(width) {
        if row < &last[..width] {
            ascends = false;
        }
        if row.len() == width {
            last[..width].copy_from_slice(row);
        }
    }
    ascends
}

/// Makes a part, puts it in order and reads it.
pub fn try_part<P: Spill, L: Ledger>(
    spill: &mut P,
    shape: Shape,
    maker: &mut RowMaker,
    page: &mut [u8],
    steps: &mut Steps<L>,
) -> Outcome
    requires started { (P.state spill.old).is_started ≡ true }
    requires few { (P.state spill.old).count < most_parts }
    requires width { (1 ≤ shape.width) × (shape.width ≤ 39) }
    requires small { shape.width * shape.rows ≤ 2 ^ 62 }
    requires page { shape.width * 4096 ≤ length page.old }
{
    let Ok(part) = spill.make() else {
        return Outcome::NotWritten;
    };
    let Ok(sum) = append_rows(spill, part, shape, maker, page) else {
        return Outcome::NotWritten;
    };
    if spill.order(part, shape.width as u32).is_err() {
        return Outcome::NotOrdered;
    }
    let size = shape.width as u64 * shape.rows;
    match is_ordered(spill, part, size, shape.width, sum, page, steps) {
        Ok(true) => Outcome::Ordered,
        Ok(false) => Outcome::Differs,
        Err(Failed) => Outcome::NotRead,
    }
}
