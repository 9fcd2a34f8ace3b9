//! Rings that are laid into the output, row by row: the points of each, and then a row that tells its home and how many
//! points it has.

ghost use Rattle.std.specs.Prelude.{◌≡◌, ◌+◌, ◌*◌, ◌≤◌, ◌<◌, ◌^◌, ◌∷◌, ◌++◌, [], ℕ, List, Option, length, IfSome};
ghost use Rattle.std.specs.Prelude.{IsNone, Some, if◌then◌else◌};
ghost use Rattle.std.specs.List.{position_from as first_with};
ghost use Rattle.feature_model.specs.Blocks.{places, home as home_among};
ghost use Rattle.feature_model.specs.Inside.{inside as is_within};
ghost use Rattle.ring_assembly.specs.Marked.{points_in};
ghost use Rattle.ring_assembly.specs.Rows.{row_total, IsInRows, LaysRows};
ghost use Rattle.ring_assembly.specs.Laid.{LaidRing, foot_row, AreRowsOf, AreRings, points_of, IsLast, home_number};

use crate::inside::crosses_step;
use crate::rows::lay_one;
use byteorder::{BigEndian, ByteOrder};
use mf_base::out_buf::OutBuf;
use mf_base::place::Place;
use mf_rows::units::read_point_unit;

/// The last row of a ring. The home of an inner ring is the place of its outer ring among all of these.
#[derive(Clone, Copy)]
pub struct Foot {
    pub home: Option<u32>,
    pub points: usize,
}

/// Rings that are laid: how many, how many rows there are then, and how many of these are of rings with a home.
#[derive(Clone, Copy)]
pub struct Laid {
    pub rings: u32,
    pub rows: usize,
    pub housed: usize,
}

/// The last of rings that are laid: its home, the units of its points, and the rows before them.
#[derive(Drop)]
pub struct LastRing<'a> {
    pub home: Option<u32>,
    pub points: &'a [[u8; 16]],
    pub before: &'a [[u8; 16]],
}

/// Lays the last row of a ring.
pub fn lay_foot(out: &mut OutBuf, foot: Foot)
    requires whole { IsInRows out.old.bytes }
    requires room { 16 * (row_total out.old.bytes + 1) ≤ out.old.capacity }
    ensures { LaysRows out.old out.new (foot_row foot.home foot.points ∷ []) }
{
    lay_one(out, &row_of_foot(foot));
}

// The last row of a ring.
fn row_of_foot(foot: Foot) -> [u8; 16]
    ensures { result ≡ foot_row foot.home foot.points }
{
    let mut row = [0; 16];
    BigEndian::write_u64(&mut row[..8], number_of_home(foot.home));
    BigEndian::write_u64(&mut row[8..], foot.points as u64);
    row
}

// The number of a home, and the greatest where there is none.
fn number_of_home(home: Option<u32>) -> u64
    ensures { result ≡ home_number home }
{
    match home {
        Some(home) => u64::from(home),
        None => u64::MAX,
    }
}

// The home that a number tells.
fn home_told(number: u64) -> Option<u32>
    ensures { (home : Option ℕ) → IfSome home (λ n. n < 2 ^ 32) → number ≡ home_number home → result ≡ home }
{
    u32::try_from(number).ok()
}

// What the last row of a ring tells.
fn read_foot(row: &[u8; 16]) -> Foot
    ensures { (home : Option ℕ) (points : ℕ) → IfSome home (λ n. n < 2 ^ 32) → points < 2 ^ 64
        → row.now ≡ foot_row home points → (result.home ≡ home) × (result.points ≡ points) }
{
    let (home, points) = row.split_at(8);
    Foot {
        home: home_told(BigEndian::read_u64(home)),
        points: BigEndian::read_u64(points) as usize,
    }
}

/// The last ring of rows, where there is one.
pub fn last_ring(rows: &[[u8; 16]]) -> Option<LastRing<'_>>
    requires { AreRings rows.now }
    ensures some { IfSome result (λ told. (before : List LaidRing) (ring : LaidRing)
        → AreRowsOf (before ++ ring ∷ []) rows.now → IsLast ring before told) }
    ensures rings { IfSome result (λ told. AreRings told.before.now) }
    ensures less { IfSome result (λ told. length told.before.now < length rows.now) }
    ensures none { IsNone result → rows.now ≡ [] }
{
    let (row, rows) = rows.split_last()?;
    let foot = read_foot(row);
    let (before, points) = rows.split_at(rows.len() - foot.points);
    Some(LastRing {
        home: foot.home,
        points,
        before,
    })
}

/// The home of a ring of these points: the first of so many outer rings that has its first point inside.
pub fn home_of(outer: &[[u8; 16]], rings: u32, points: &[[u8; 16]]) -> Option<u32>
    requires { (laid : List LaidRing) × AreRowsOf laid outer.now × (rings ≡ length laid) }
    ensures { (laid : List LaidRing) → AreRowsOf laid outer.now → rings ≡ length laid
        → result ≡ home_among (points_of laid) (points_in points.now) }
{
    match points.first() {
        Some(unit) => first_around(outer, rings, read_point_unit(unit).1),
        None => None,
    }
}

// The first of so many outer rings that has a place inside.
fn first_around(outer: &[[u8; 16]], rings: u32, p: Place) -> Option<u32>
    requires { (laid : List LaidRing) × AreRowsOf laid outer.now × (rings ≡ length laid) }
    ensures { (laid : List LaidRing) → AreRowsOf laid outer.now → rings ≡ length laid
        → result ≡ first_with (λ (r : LaidRing). is_within (places (points_in r.units) ∷ []) p) 0 laid }
{
    let mut home = None;
    let mut left = outer;
    let mut number = rings;
    while let Some(ring) = last_ring(left) {
        number -= 1;
        home = nearer(is_around(ring.points, p), number, home);
        left = ring.before;
    }
    home
}

// A home where it is one, or else that among the rings behind it.
fn nearer(around: bool, number: u32, home: Option<u32>) -> Option<u32>
    ensures { result ≡ (if around then Some number else home) }
{
    if around { Some(number) } else { home }
}

// Whether a place is inside the ring of these points.
fn is_around(points: &[[u8; 16]], p: Place) -> bool
    ensures { result ≡ is_within (places (points_in points.now) ∷ []) p }
{
    let mut odd = false;
    let mut last = None;
    let mut left = points;
    while let Some((unit, behind)) = left.split_first() {
        let (_, place) = read_point_unit(unit);
        odd = odd != crosses_step(p, last, place);
        last = Some(place);
        left = behind;
    }
    odd
}
