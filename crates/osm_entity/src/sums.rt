//! Sums of differences.

ghost use Rattle.std.specs.Prelude.{◌≡◌, ◌+ℤ◌, if◌then◌else◌, Some, None};
ghost use Rattle.mf_base.specs.Ranges.{is_signed_64};

// The sum of two numbers, where it is one of signed 64 bits.
pub(crate) fn checked_sum(sum: i64, difference: i64) -> Option<i64>
    ensures { result ≡ (if is_signed_64 (sum +ℤ difference) then Some (sum +ℤ difference) else None) }
{
    sum.checked_add(difference)
}
