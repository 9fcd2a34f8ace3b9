//! The points of a way, given as the rows of a member.

ghost use Rattle.std.specs.Prelude.{◌≡◌, option_map};
ghost use Rattle.spill_parts.specs.Giving.{GivesFirst};
ghost use Rattle.member_points.specs.Pairing.{given_point};

use mf_base::place::Place;
use mf_rows::kinds::{MemberRow, RelRow};
use mf_rows::units::read_point_unit;
use spill_parts::Rows;

/// Gives a row for each point of the way of a member: first those that units tell, and then blank ones.
#[derive(Drop)]
pub(crate) struct MemberPoints<'a> {
    member: &'a MemberRow,
    units: &'a [[u8; 16]],
    blanks: u64,
    // The place of the next point.
    place: u32,
}

impl<'a> MemberPoints<'a> {
    ghost use Rattle.std.specs.Prelude.{◌≡◌};
    ghost use Rattle.member_points.specs.Pairing.{rows_from, told_points};

    /// The rows of a member whose way has the points that these units tell, and so many more.
    pub(crate) fn of(member: &'a MemberRow, units: &'a [[u8; 16]], blanks: u64) -> MemberPoints<'a>
        ensures { rows_from result.member.now result.place (told_points result.units.now result.blanks)
            ≡ rows_from member.now 0 (told_points units.now blanks) }
    {
        MemberPoints {
            member,
            units,
            blanks,
            place: 0,
        }
    }

    // The next point: the id of its node, and its place.
    fn next_point(&mut self) -> Option<(u64, Place)>
        ensures given { GivesFirst (told_points self.old.units.now self.old.blanks) (option_map given_point result)
            (told_points self.new.units.now self.new.blanks) }
        ensures member { self.new.member.now ≡ self.old.member.now }
        ensures place { self.new.place ≡ self.old.place }
    {
        if let Some((first, rest)) = self.units.split_first() {
            self.units = rest;
            return Some(read_point_unit(first));
        }
        if self.blanks == 0 {
            return None;
        }
        self.blanks -= 1;
        Some((0, Place { lat: 0, lon: 0 }))
    }
}

impl<'a> Rows<RelRow> for MemberPoints<'a> {
    ghost use Rattle.member_points.specs.Pairing.{rows_from, told_points};

    ghost left = { λ r. rows_from r.member.now r.place (told_points r.units.now r.blanks) };

    fn next(&mut self) -> Option<RelRow> {
        let (node, spot) = self.next_point()?;
        let row = RelRow {
            relation: self.member.relation,
            member: self.member.member,
            place: self.place,
            role: self.member.role,
            node,
            lat: spot.lat,
            lon: spot.lon,
        };
        self.place = self.place.saturating_add(1);
        Some(row)
    }
}
