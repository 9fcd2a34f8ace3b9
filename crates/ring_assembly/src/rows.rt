//! Units that are laid into an output, row by row.

ghost use Rattle.std.specs.Prelude.{◌≡◌, ◌+◌, ◌*◌, ◌≤◌, ◌∷◌, [], length, reverse};
ghost use Rattle.mf_rows.specs.RecordUnits.{AreWide};
ghost use Rattle.ring_assembly.specs.Rows.{rows_in, row_total, IsInRows, LaysRows};

use mf_base::out_buf::OutBuf;

/// The rows that are laid.
#[tactic(auto, unfolding(crate::specs::Rows::rows_in))]
pub fn rows_of(out: &OutBuf) -> &[[u8; 16]]
    ensures { result.now ≡ rows_in out.now.bytes }
{
    out.bytes().as_chunks::<16>().0
}

/// Lays units.
pub fn lay(out: &mut OutBuf, units: &[[u8; 16]])
    requires whole { IsInRows out.old.bytes }
    requires room { 16 * (row_total out.old.bytes + length units.now) ≤ out.old.capacity }
    ensures { LaysRows out.old out.new units.now }
{
    are_wide(units);
    out.put(units.as_flattened());
}

/// Units have sixteen bytes.
pub fn are_wide(units: &[[u8; 16]])
    ensures { AreWide units.now }
{}

/// Lays one unit.
pub fn lay_one(out: &mut OutBuf, unit: &[u8; 16])
    requires whole { IsInRows out.old.bytes }
    requires room { 16 * (row_total out.old.bytes + 1) ≤ out.old.capacity }
    ensures { LaysRows out.old out.new (unit.now ∷ []) }
{
    out.put(unit);
}

/// Lays units, the last first.
pub fn lay_reversed(out: &mut OutBuf, units: &[[u8; 16]])
    requires whole { IsInRows out.old.bytes }
    requires room { 16 * (row_total out.old.bytes + length units.now) ≤ out.old.capacity }
    ensures { LaysRows out.old out.new (reverse units.now) }
{
    let mut left = units;
    while let Some((last, before)) = left.split_last() {
        lay_one(out, last);
        left = before;
    }
}
