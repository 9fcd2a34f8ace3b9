//! Cursors over the parts of a record, and over the points of a part.

ghost use Rattle.std.specs.Prelude.{◌≡◌, [], ◌∷◌, Some, IsSome, IsNone, IfSome, drop, length, map, slice_get};
ghost use Rattle.std.specs.Prelude.{option_map};
ghost use Rattle.feature_model.specs.Points.{Point};
ghost use Rattle.mf_rows.specs.Units.{point_in, parts_in, with_part, shown_part};

use crate::units::{read_part_unit, read_point_unit};
use mf_base::kind::Role;
use mf_base::place::Place;
use std::marker::Model;

/// Goes over points. Contracts see those that are left.
#[derive(Drop)]
pub struct PointCursor<'a> {
    units: &'a [[u8; 16]],
}

impl<'a> Model for PointCursor<'a> {
    ghost use Rattle.std.specs.Prelude.{List, map};
    ghost use Rattle.feature_model.specs.Points.{Point};
    ghost use Rattle.mf_rows.specs.Units.{point_in};

    ghost Value = { List Point };

    ghost view = { λ c. map point_in c.units.now };
}

impl<'a> PointCursor<'a> {
    // The points of these units.
    pub(crate) fn new(units: &'a [[u8; 16]]) -> PointCursor<'a>
        ensures { result ≡ map point_in units.now }
    {
        PointCursor { units }
    }

    /// How many points are left.
    pub fn len(&self) -> usize
        ensures { result ≡ length self.now }
    {
        self.units.len()
    }

    /// The next point: the id of a node, and its place. None after the last.
    pub fn next(&mut self) -> Option<(u64, Place)>
        ensures first { result ≡ option_map (λ (p : Point). (p.node, p.place)) (slice_get self.old 0) }
        ensures rest { self.new ≡ drop 1 self.old }
    {
        let (first, rest) = self.units.split_first()?;
        self.units = rest;
        Some(read_point_unit(first))
    }
}

/// Goes over the parts of a record, or over its rings once they are joined. Contracts see those that are left.
#[derive(Drop)]
pub struct RingCursor<'a> {
    units: &'a [[u8; 16]],
}

impl<'a> Model for RingCursor<'a> {
    ghost use Rattle.std.specs.Prelude.{List, [], unwrap_or, IsSome};
    ghost use Rattle.feature_model.specs.Points.{Part};
    ghost use Rattle.mf_rows.specs.Units.{parts_in};

    ghost Value = { List Part };

    ghost view = { λ c. unwrap_or (parts_in c.units.now) [] };

    ghost invariant = { λ c. IsSome (parts_in c.units.now) };
}

impl<'a> RingCursor<'a> {
    // The parts of these units, which spell some.
    pub(crate) fn new(units: &'a [[u8; 16]]) -> RingCursor<'a>
        requires { IsSome (parts_in units.now) }
        ensures { Some result ≡ parts_in units.now }
    {
        RingCursor { units }
    }

    // No parts.
    #[tactic(auto, unfolding(crate::specs::Units::parts_within))]
    pub(crate) fn none() -> RingCursor<'a>
        ensures { result ≡ [] }
    {
        RingCursor { units: &[] }
    }

    /// The next part: its role, and a cursor over its points. None after the last.
    pub fn next(&mut self) -> Option<(Role, PointCursor<'a>)>
        ensures first { option_map (λ r. shown_part r.0 r.1) result ≡ slice_get self.old 0 }
        ensures rest { self.new ≡ drop 1 self.old }
    {
        match first_part(self.units) {
            Some((role, points, rest)) => {
                self.units = rest;
                Some((role, PointCursor::new(points)))
            }
            None => None,
        }
    }
}

// The role of the first part, the units of its points, and those behind them. None where no part is left.
fn first_part<'a>(units: &'a [[u8; 16]]) -> Option<(Role, &'a [[u8; 16]], &'a [[u8; 16]])>
    requires { IsSome (parts_in units.now) }
    ensures none { IsNone result → parts_in units.now ≡ Some [] }
    ensures rest { IfSome result (λ r. IsSome (parts_in r.2.now)) }
    ensures some { IfSome result (λ r. parts_in units.now ≡ option_map (with_part r.0 r.1.now) (parts_in r.2.now)) }
{
    match units.split_first() {
        Some((first, rest)) => part_of(first, rest),
        None => None,
    }
}

// The same of a unit and those behind it.
fn part_of<'a>(
    first: &[u8; 16],
    rest: &'a [[u8; 16]],
) -> Option<(Role, &'a [[u8; 16]], &'a [[u8; 16]])>
    requires { IsSome (parts_in (first.now ∷ rest.now)) }
    ensures there { IsSome result }
    ensures rest { IfSome result (λ r. IsSome (parts_in r.2.now)) }
    ensures some { IfSome result
        (λ r. parts_in (first.now ∷ rest.now) ≡ option_map (with_part r.0 r.1.now) (parts_in r.2.now)) }
{
    match read_part_unit(first) {
        Some((role, points)) => {
            let (points, rest) = rest.split_at(points as usize);
            Some((role, points, rest))
        }
        None => None,
    }
}
