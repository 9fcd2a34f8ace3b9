//! Ordered rows in memory.

ghost use Rattle.std.specs.Prelude.{◌≡◌, ℕ, ◌*◌, ◌≤◌, map, length, IfOk};
ghost use Rattle.mf_base.specs.Ascending.{cut_rows, joined, ascending};

use std::alloc::{AllocError, Global};

/// The bytes, as rows of so many bytes each, in ascending order.
pub(crate) fn ordered(alloc: Global, bytes: &[u8], width: usize) -> Result<Vec<u8>, AllocError>
    requires width { 1 ≤ width }
    ensures ordered { IfOk result (λ v. (n : ℕ) → length bytes.now ≡ width * n
        → v.items ≡ joined (ascending (cut_rows width n bytes.now))) }
{
    let mut rows = cut(alloc, bytes, width)?;
    rows.sort()?;
    let all = join(alloc, &rows)?;
    Ok(all)
}

// The rows of the bytes.
fn cut(alloc: Global, bytes: &[u8], width: usize) -> Result<Vec<Vec<u8>>, AllocError>
    requires { 1 ≤ width }
    ensures { IfOk result (λ v. (n : ℕ) → length bytes.now ≡ width * n
        → map (λ r. r.items) v.items ≡ cut_rows width n bytes.now) }
{
    let mut rows = Vec::new(alloc);
    let mut rest = bytes;
    while rest.len() >= width {
        let (row, more) = rest.split_at(width);
        rows.push(Vec::from_slice(alloc, row)?)?;
        rest = more;
    }
    Ok(rows)
}

// Rows one after another.
fn join(alloc: Global, rows: &[Vec<u8>]) -> Result<Vec<u8>, AllocError>
    ensures { IfOk result (λ v. v.items ≡ joined (map (λ r. r.items) rows.now)) }
{
    let mut all = Vec::new(alloc);
    for row in rows {
        all.extend_from_slice(row)?;
    }
    Ok(all)
}
