//! The parts of a relation while they are joined, told by their units: each is free, or it is used up.

ghost use Rattle.std.specs.Prelude.{◌≡◌, ◌+◌, ◌∷◌, ◌++◌, [], ℕ, ◌^◌, ◌<◌, ◌≤◌, List, IfSome, IsNone, length, drop};
ghost use Rattle.feature_model.specs.Rings as rings;
ghost use Rattle.mf_rows.specs.Units.{Unit16};
ghost use Rattle.ring_assembly.specs.Marked.{Marked, State, state_unit, all_units, AreMarked, IsFront, points_in};
ghost use Rattle.ring_assembly.specs.Marked.{suits, has_end as is_at_end};
ghost use Rattle.ring_assembly.specs.Found.{FindsFirst};
ghost use Rattle.ring_assembly.specs.Taken.{IsBench, Takes, UsesUp, units_taken as units_of_part};

use byteorder::{BigEndian, ByteOrder};
use mf_base::kind::Role;
use mf_rows::numbers::number_of_role;
use mf_rows::records::Records;
use mf_rows::units::read_point_unit;

// What stands in the place of the role once a part is used up.
const USED: u8 = 2;

/// A part that was found: the place of its unit, how many points it has, and its place among all parts.
#[derive(Clone, Copy)]
pub struct Found {
    pub at: usize,
    pub points: usize,
    pub number: u32,
}

/// A part that was taken: the place of its first point among the loose units, how many points it has, and its place
/// among all parts.
#[derive(Clone, Copy)]
pub struct Taken {
    pub at: usize,
    pub points: usize,
    pub number: u32,
}

/// The first part that units have: the number of its state, the units of its points, and those behind them.
#[derive(Drop)]
pub struct Front<'a> {
    pub state: u8,
    pub points: &'a [[u8; 16]],
    pub rest: &'a [[u8; 16]],
}

/// Takes the first part of this role that is free and, where an end is given, has it as its first or its last node. It
/// is used up then.
pub fn take_part(records: &mut Records, front: usize, role: Role, end: Option<u64>) -> Option<Taken>
    requires { IsBench front records.old }
    ensures { Takes front role end result records.old records.new }
{
    let found = first_part(records.loose().split_at(front).1, role, end)?;
    let at = front + found.at;
    use_up(records, at);
    Some(Taken {
        at: at + 1,
        points: found.points,
        number: found.number,
    })
}

/// The units of the points of a part that was taken.
pub fn units_taken(records: &Records, part: Taken) -> &[[u8; 16]]
    requires { part.at + part.points ≤ length records.now.loose }
    ensures { result.now ≡ units_of_part part records.now }
{
    records.loose().split_at(part.at).1.split_at(part.points).0
}

// Uses up the part whose unit stands at this place of the loose units.
fn use_up(records: &mut Records, at: usize)
    requires within { at < length records.old.loose }
    requires few { length records.old.loose ≤ 16777216 }
    ensures { UsesUp at records.old records.new }
{
    let unit = used_unit(&records.loose()[at]);
    records.set_loose(at as u32, &unit);
}

// The unit of a part once it is used up.
fn used_unit(unit: &[u8; 16]) -> [u8; 16]
    ensures { (state : State) (points : ℕ) → unit.now ≡ state_unit state points → result ≡ state_unit State.used points }
{
    let mut used = *unit;
    used[0] = USED;
    used
}

// The first part of this role that is free and, where an end is given, has it as its first or its last node.
fn first_part(parts: &[[u8; 16]], role: Role, end: Option<u64>) -> Option<Found>
    requires marked { AreMarked parts.now }
    requires few { length parts.now ≤ 16777216 }
    ensures { (marked : List Marked) → parts.now ≡ all_units marked → FindsFirst (suits role end) marked result }
{
    let mut left = parts;
    let mut number = 0;
    while let Some(front) = front_part(left) {
        if is_wanted(&front, role, end) {
            return Some(Found {
                at: parts.len() - left.len(),
                points: front.points.len(),
                number,
            });
        }
        left = front.rest;
        number += 1;
    }
    None
}

// The first part, where units have one.
fn front_part(units: &[[u8; 16]]) -> Option<Front<'_>>
    requires { AreMarked units.now }
    ensures some { IfSome result (λ f. (m : Marked) (more : List Marked) → units.now ≡ all_units (m ∷ more)
        → IsFront m more f.state f.points.now f.rest.now) }
    ensures rest { IfSome result (λ f. AreMarked f.rest.now) }
    ensures less { IfSome result (λ f. length f.rest.now < length units.now) }
    ensures none { IsNone result → units.now ≡ [] }
{
    let (first, rest) = units.split_first()?;
    let (points, rest) = rest.split_at(points_behind(first));
    Some(Front {
        state: first[0],
        points,
        rest,
    })
}

// How many points follow the unit of a part.
fn points_behind(unit: &[u8; 16]) -> usize
    ensures { (state : State) (points : ℕ) → points < 2 ^ 64 → unit.now ≡ state_unit state points → result ≡ points }
{
    BigEndian::read_u64(unit.split_at(1).1) as usize
}

// Whether a part is looked for.
fn is_wanted(front: &Front<'_>, role: Role, end: Option<u64>) -> bool
    ensures { (m : Marked) (more : List Marked) → IsFront m more front.now.state front.now.points.now front.now.rest.now
        → result ≡ suits role end m }
{
    front.state == number_of_role(role) && has_end(front.points, end)
}

// Whether points have a node at one of their ends, where one is asked for.
fn has_end(points: &[[u8; 16]], end: Option<u64>) -> bool
    ensures { result ≡ is_at_end end (points_in points.now) }
{
    match end {
        Some(end) => first_node(points) == end || last_node(points) == end,
        None => true,
    }
}

/// The node of the first point, and 0 where there is none.
pub fn first_node(points: &[[u8; 16]]) -> u64
    ensures { result ≡ rings.first_node (points_in points.now) }
{
    match points.first() {
        Some(unit) => read_point_unit(unit).0,
        None => 0,
    }
}

/// The node of the last point, and 0 where there is none.
pub fn last_node(points: &[[u8; 16]]) -> u64
    ensures { result ≡ rings.last_node (points_in points.now) }
{
    match points.last() {
        Some(unit) => read_point_unit(unit).0,
        None => 0,
    }
}
