//! Parts of each width, compared with std's sort.

ghost use Rattle.std.specs.Prelude.{◌≡◌, ◌<◌, ◌≤◌, ◌*◌, length, true, Some};
ghost use Rattle.mf_edge.specs.Spill.{most_parts};

use crate::one_part::{PAGE_ROWS, Shape, append_rows};
use crate::row_maker::{Pattern, RowMaker};
use mf_edge::{Failed, Spill, Steps};
use std::alloc::{AllocError, Global};
use std::sync::ledger::Ledger;

/// How many rows a part has. Chunks of 100 rows, and runs of 8, show it what large parts meet.
const ROWS: usize = 350;

/// The bytes of the widest part.
pub const ROOM: usize = 39 * PAGE_ROWS;

// Rows as std's sort puts them in order, one after another.
fn sorted(alloc: Global, bytes: &[u8], width: usize) -> Result<Vec<u8>, AllocError>
    requires { 0 < width }
{
    let mut rows = Vec::new(alloc);
    for row in bytes.chunks_exact(width) {
        rows.push(Vec::from_slice(alloc, row)?)?;
    }
    rows.sort()?;
    let mut all = Vec::new(alloc);
    for row in rows.iter() {
        all.extend_from_slice(row.as_slice())?;
    }
    Ok(all)
}

// The rows of a part, as the store puts them in order. They are left where they were made, as they were.
fn ordered<P: Spill, L: Ledger>(
    spill: &mut P,
    width: usize,
    made: &mut [u8],
    out: &mut [u8],
    steps: &mut Steps<L>,
) -> Result<(), Failed>
    requires started { (P.state spill.old).is_started ≡ true }
    requires few { (P.state spill.old).count < most_parts }
    requires width { (1 ≤ width) × (width ≤ 39) }
    requires made { length made.old ≡ 159744 }
    requires out { length out.old ≡ 159744 }
{
    let shape = Shape {
        rows: ROWS as u64,
        width,
    };
    let part = spill.make()?;
    append_rows(
        spill,
        part,
        shape,
        &mut RowMaker::new(Pattern::Random),
        made,
    )?;
    spill.order(part, width as u32)?;
    spill.read(part, 0, &mut out[..ROWS * width], steps)?;
    spill.forget(part);
    Ok(())
}

/// Whether a part of random rows is put in order as std's sort does. Narrow rows are often equal.
pub fn is_sorted<P: Spill, L: Ledger>(
    alloc: Global,
    spill: &mut P,
    width: usize,
    made: &mut [u8],
    out: &mut [u8],
    steps: &mut Steps<L>,
) -> Result<bool, AllocError>
    requires started { (P.state spill.old).is_started ≡ true }
    requires few { (P.state spill.old).count < most_parts }
    requires width { (1 ≤ width) × (width ≤ 39) }
    requires made { length made.old ≡ 159744 }
    requires out { length out.old ≡ 159744 }
{
    if ordered(spill, width, made, out, steps).is_err() {
        return Ok(false);
    }
    let wanted = sorted(alloc, &made[..ROWS * width], width)?;
    Ok(wanted.as_slice() == &out[..ROWS * width])
}
