//! Whole roots.

ghost use Rattle.std.specs.Prelude.{◌≡◌, ◌*◌, ◌^◌, ◌<◌, ◌≤◌};
ghost use Rattle.mf_base.specs.Root.{isqrt as root_of};

/// The whole root: the greatest number whose square is at most `v`. It is found by Newton's method.
pub fn isqrt(v: u128) -> u64
    ensures { result ≡ root_of v }
{
    if v == 0 {
        return 0;
    }
    let mut root = first_guess(v);
    loop {
        let next = (root + v / root) / 2;
        if next >= root {
            return root as u64;
        }
        root = next;
    }
}

// A power of two above the root.
fn first_guess(v: u128) -> u128
    requires { 0 < v }
    ensures above { v < result * result }
    ensures bound { result ≤ 2 ^ 64 }
{
    1 << (v.ilog2() / 2 + 1)
}

#[cfg(test)]
mod tests {
    use super::*;

    #[test]
    fn roots(rt: HostRuntime) {
        let all_bits = u128::from(u64::MAX);
        for (v, root) in [
            (0, 0),
            (1, 1),
            (3, 1),
            (4, 2),
            (8, 2),
            (9, 3),
            (
                10_000_000_000_000_000_000_000_000_000_000_000_000,
                3_162_277_660_168_379_331,
            ),
            (all_bits * all_bits - 1, u64::MAX - 1),
            (all_bits * all_bits, u64::MAX),
            (u128::MAX, u64::MAX),
        ] {
            assert_eq!(rt; isqrt(v), root, "of {v}");
        }
    }
}
