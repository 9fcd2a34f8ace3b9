//! Whether a place is inside rings, by the even-odd rule.

ghost use Rattle.std.specs.Prelude.{◌≡◌, ◌-ℤ◌, ◌*ℤ◌, int_lt, [], ◌∷◌};
ghost use Rattle.feature_model.specs.Blocks.{places};
ghost use Rattle.feature_model.specs.Inside as spec;
ghost use Rattle.feature_model.specs.Inside.{inside as is_within, crosses, is_one_of};
ghost use Rattle.ring_assembly.specs.Edges.{part_rings, step_crosses};

use mf_base::place::Place;
use mf_rows::cursors::{PointCursor, RingCursor};

/// Whether a place is inside rings: an odd number of their edges is crossed from it. Whatever the places are, no number
/// is too large.
pub fn inside(mut rings: RingCursor<'_>, p: Place) -> bool
    ensures { result ≡ is_within (part_rings rings.entry) p }
{
    let mut odd = false;
    while let Some((_, points)) = rings.next() {
        odd = odd != is_in_ring(points, p);
    }
    odd
}

// Whether a place is inside the ring of these points.
fn is_in_ring(mut points: PointCursor<'_>, p: Place) -> bool
    ensures { result ≡ is_within (places points.entry ∷ []) p }
{
    let mut odd = false;
    let mut last = None;
    while let Some((_, place)) = points.next() {
        odd = odd != crosses_step(p, last, place);
        last = Some(place);
    }
    odd
}

/// Whether the edge to the next place of a ring is crossed. None leads to the first.
pub(crate) fn crosses_step(p: Place, last: Option<Place>, next: Place) -> bool
    ensures { result ≡ step_crosses p last next }
{
    match last {
        Some(last) => crosses_edge(p, last, next),
        None => false,
    }
}

// Whether an edge is crossed.
fn crosses_edge(p: Place, a: Place, b: Place) -> bool
    ensures { result ≡ crosses p (a, b) }
{
    if a.lat <= b.lat {
        crosses_up(p, a, b)
    } else {
        crosses_up(p, b, a)
    }
}

// The same of an edge from the lower place to the other.
fn crosses_up(p: Place, a: Place, b: Place) -> bool
    ensures { result ≡ spec.crosses_up p a b }
{
    let between = is_between(p.lat, a.lat, b.lat);
    let west = product(difference(p.lon, a.lon), difference(b.lat, a.lat));
    let edge = product(difference(b.lon, a.lon), difference(p.lat, a.lat));
    between && west < edge
}

// Whether just one of two latitudes is above that of a place.
fn is_between(lat: i32, a: i32, b: i32) -> bool
    ensures { result ≡ is_one_of (int_lt lat a) (int_lt lat b) }
{
    (lat < a) != (lat < b)
}

// The difference of two coordinates.
fn difference(a: i32, b: i32) -> i64
    ensures { result ≡ a -ℤ b }
{
    i64::from(a) - i64::from(b)
}

// The product of two differences.
fn product(a: i64, b: i64) -> i128
    ensures { result ≡ a *ℤ b }
{
    i128::from(a) * i128::from(b)
}

#[cfg(test)]
mod tests;
