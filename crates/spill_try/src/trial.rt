//! One store over a folder, from its start to its end.

ghost use Rattle.std.specs.Prelude.{◌≡◌, ◌<◌, ◌≤◌, ◌*◌, ◌^◌, true};

use crate::one_part::{Outcome, PAGE_ROWS, Shape, try_part};
use crate::row_maker::{Pattern, RowMaker};
use crate::widths::{ROOM, is_sorted};
use mf_edge::{Spill, Steps};
use spill_files::{FileSpill, Sizes};
use std::alloc::AllocError;
use std::rt::HostRuntime;
use std::sync::ledger::{Blank, Ledger};

/// A part of many rows in a folder.
#[derive(Drop)]
pub struct Trial<'a> {
    pub folder: &'a str,
    pub pattern: Pattern,
    pub shape: Shape,
}

/// The trial that the words after the program's name tell, where they tell one.
pub fn trial_of(words: &[String]) -> Option<Trial<'_>> {
    let [_, folder, pattern, width, rows] = words else {
        return None;
    };
    let shape = Shape {
        rows: rows.as_str().parse::<u64>().ok()?,
        width: width.as_str().parse::<usize>().ok()?,
    };
    Some(Trial {
        folder: folder.as_str(),
        pattern: Pattern::of(pattern.as_str())?,
        shape,
    })
}

// Whether the store takes a part of this shape.
fn is_taken(shape: &Shape) -> bool
    ensures width { result ≡ true → (1 ≤ shape.now.width) × (shape.now.width ≤ 39) }
    ensures small { result ≡ true → shape.now.width * shape.now.rows ≤ 2 ^ 62 }
{
    if shape.width < 1 || shape.width > 39 {
        return false;
    }
    match (shape.width as u64).checked_mul(shape.rows) {
        Some(size) => size <= 1 << 62,
        None => false,
    }
}

/// What becomes of one part in a folder. The store's files are removed.
pub fn outcome_of<L: Ledger>(
    rt: &HostRuntime,
    trial: &Trial<'_>,
    blank: Blank,
) -> Result<Outcome, AllocError>
    requires ledger { blank.name ≡ L.name }
    requires parts { blank.parts ≡ L.parts }
    requires some { 0 < blank.parts }
{
    if trial.folder.len() > 4095 || !is_taken(&trial.shape) {
        return Ok(Outcome::NotTaken);
    }
    let mut steps = Steps::<L>::new(blank);
    let mut page = vec![in rt.alloc(); 0u8; ROOM]?;
    let mut store = FileSpill::new(*rt);
    let mut maker = RowMaker::new(trial.pattern);
    let outcome = match store.start(trial.folder) {
        Ok(()) => try_part(&mut store, trial.shape, &mut maker, &mut page, &mut steps),
        Err(_) => Outcome::NotStarted,
    };
    store.finish();
    Ok(outcome)
}

/// Whether a part of some width is put in order as std's sort does, in chunks of 100 rows and runs of 8.
pub fn is_width_sorted<L: Ledger>(
    rt: &HostRuntime,
    width: usize,
    blank: Blank,
) -> Result<bool, AllocError>
    requires width { (1 ≤ width) × (width ≤ 39) }
    requires ledger { blank.name ≡ L.name }
    requires parts { blank.parts ≡ L.parts }
    requires some { 0 < blank.parts }
{
    let mut steps = Steps::<L>::new(blank);
    let mut made = vec![in rt.alloc(); 0u8; ROOM]?;
    let mut out = vec![in rt.alloc(); 0u8; ROOM]?;
    let sizes = Sizes { chunk: 100, run: 8 };
    let mut store = FileSpill::with_sizes(*rt, sizes);
    let answer = match store.start("spill_try.folder") {
        Ok(()) => is_sorted(
            rt.alloc(),
            &mut store,
            width,
            &mut made,
            &mut out,
            &mut steps,
        ),
        Err(_) => Ok(false),
    };
    store.finish();
    answer
}
