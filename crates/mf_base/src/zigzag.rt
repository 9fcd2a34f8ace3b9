//! Signed numbers of an extract: Protocol Buffers, "Encoding", signed integers.

ghost use Rattle.std.specs.Prelude.{◌≡◌};
ghost use Rattle.mf_base.specs.Spelling.{zigzag_of, unzigzag_of};

/// The number that tells `v`: 0, -1, 1, -2 are told by 0, 1, 2, 3.
pub fn zigzag(v: i64) -> u64
    ensures { result ≡ zigzag_of v }
{
    if v < 0 {
        2 * (v.unsigned_abs() - 1) + 1
    } else {
        2 * v.unsigned_abs()
    }
}

/// The number that `v` tells.
pub fn unzigzag(v: u64) -> i64
    ensures { result ≡ unzigzag_of v }
{
    let half = (v / 2) as i64;
    if v % 2 == 0 { half } else { -1 - half }
}

#[cfg(test)]
mod tests {
    use super::*;
    use std::test::Fail;

    // A number, and the one that tells it.
    const TOLD: [(i64, u64); 7] = [
        (0, 0),
        (-1, 1),
        (1, 2),
        (-2, 3),
        (1_000_000_000, 2_000_000_000),
        (i64::MAX, u64::MAX - 1),
        (i64::MIN, u64::MAX),
    ];

    #[test]
    fn told_and_read(rt: HostRuntime) -> Result<(), Fail> {
        for (v, told) in TOLD {
            assert_eq!(rt; zigzag(v), told, "at {v}");
            assert_eq!(rt; unzigzag(told), v, "at {v}");
        }
        Ok(())
    }
}
