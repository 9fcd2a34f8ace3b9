//! The latitude of one edge of the finest rows, in whole numbers.

ghost use Rattle.std.specs.Prelude.{◌≡◌, ◌+◌, ◌-◌, ◌*◌, ◌/◌, ◌<◌, ◌≤◌};
ghost use Rattle.map_model.specs.Mercator.{unit, scale_at, half_tangent, tangent_at, arc_tangent, raw_lat};
ghost use Rattle.mercator_rows.specs.Edges.{AreRoots};

use mf_base::isqrt::isqrt;

// Fixed-point numbers are multiples of 1 / UNIT.
const UNIT: u64 = 1_000_000_000_000_000_000;

// The first root, e^(-pi) itself.
const SCALE_OF_THE_POLE: u64 = 43_213_918_263_772_250;

// The degrees of one radian are this times 10^-18.
const RADIAN: u128 = 57_295_779_513_082_320_877;

/// The roots of e^(-pi) that the scales of all latitudes are products of.
#[derive(Drop)]
pub struct Roots {
    // The root of order 2^i at place i.
    roots: [u64; 18],
    ghost each: { AreRoots roots },
}

impl Roots {
    /// Computes the roots.
    pub fn new() -> Roots {
        let mut roots = [SCALE_OF_THE_POLE; 18];
        for i in 1..18 {
            roots[i] = isqrt(u128::from(roots[i - 1]) * u128::from(UNIT));
        }
        Roots { roots }
    }

    /// The latitude `a` finest rows north of the equator, in microdegrees.
    pub fn latitude(&self, a: u32) -> u32
        ensures { result ≡ raw_lat a }
    {
        let angle = arc_tangent(tangent(self.scale(a)));
        (16 * u128::from(angle) * RADIAN / 1_000_000_000_000_000_000_000_000_000_000) as u32
    }

    // e to the power -pi * a / 131072.
    fn scale(&self, a: u32) -> u64
        ensures value { result ≡ scale_at a }
        ensures bound { result ≤ unit }
    {
        let mut scale = UNIT;
        for i in 0..18 {
            if (a >> (17 - i)) % 2 == 1 {
                scale = product(scale, self.roots[i]);
            }
        }
        scale
    }
}

// The tangent of one sixteenth of the latitude at a scale.
fn tangent(scale: u64) -> u64
    requires { scale ≤ unit }
    ensures value { result ≡ half_tangent (half_tangent (half_tangent ((unit - scale) * unit / (unit + scale)))) }
    ensures bound { 8 * result ≤ unit }
{
    let whole = quotient(UNIT - scale, UNIT + scale);
    half_tangent(half_tangent(half_tangent(whole)))
}

// The tangent of half the angle whose tangent is `t`.
fn half_tangent(t: u64) -> u64
    requires { t ≤ unit }
    ensures value { result ≡ half_tangent t }
    ensures bound { 2 * result ≤ t }
{
    let unit = u128::from(UNIT);
    let t_wide = u128::from(t);
    quotient(t, UNIT + isqrt(unit * unit + t_wide * t_wide))
}

// The arc tangent of `t`: eight terms of its series.
fn arc_tangent(t: u64) -> u64
    requires { 8 * t ≤ unit }
    ensures value { result ≡ arc_tangent t }
    ensures bound { result ≤ 2 * t }
{
    let square = product(t, t);
    let mut power = t;
    let mut added = 0;
    let mut subtracted = 0;
    for i in 0..4 {
        added += power / (4 * i + 1);
        power = product(power, square);
        subtracted += power / (4 * i + 3);
        power = product(power, square);
    }
    added - subtracted
}

// The product of two fixed-point numbers.
fn product(a: u64, b: u64) -> u64
    requires { b ≤ unit }
    ensures value { result ≡ a * b / unit }
    ensures bound { result ≤ a }
{
    (u128::from(a) * u128::from(b) / u128::from(UNIT)) as u64
}

// The quotient of two fixed-point numbers.
fn quotient(a: u64, b: u64) -> u64
    requires some { 0 < b }
    requires small { a ≤ b }
    ensures value { result ≡ a * unit / b }
    ensures bound { result ≤ unit }
{
    (u128::from(a) * u128::from(UNIT) / u128::from(b)) as u64
}
