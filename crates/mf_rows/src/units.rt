//! The units of parts and points.

ghost use Rattle.std.specs.Prelude.{◌≡◌, option_map};
ghost use Rattle.mf_rows.specs.Units.{point_unit as unit_of_point, point_in, part_unit as unit_of_part, part_in};

use crate::fields::{get_u64, put_u8, put_u64};
use crate::kind::RowKind;
use crate::kinds::NodeRow;
use crate::numbers::number_of_role;
use mf_base::kind::Role;
use mf_base::place::Place;

/// The unit of a point.
pub fn point_unit(node: u64, place: Place) -> [u8; 16]
    ensures { result ≡ unit_of_point (record { node = node; place = place }) }
{
    let mut unit = [0; 16];
    let row = NodeRow {
        node,
        lat: place.lat,
        lon: place.lon,
    };
    row.put(&mut unit);
    unit
}

/// The point that a unit tells: the id of a node, and its place.
pub fn read_point_unit(unit: &[u8; 16]) -> (u64, Place)
    ensures { result ≡ ((point_in unit.now).node, (point_in unit.now).place) }
{
    let row = NodeRow::get(unit);
    (
        row.node,
        Place {
            lat: row.lat,
            lon: row.lon,
        },
    )
}

/// The unit of a part with so many points.
pub fn part_unit(role: Role, points: u64) -> [u8; 16]
    ensures { result ≡ unit_of_part role points }
{
    let mut unit = [0; 16];
    put_u64(&mut unit, 1, points);
    put_u8(&mut unit, 0, number_of_role(role));
    unit
}

/// The role and the number of points of a part, where this is its unit.
pub fn read_part_unit(unit: &[u8; 16]) -> Option<(Role, u64)>
    ensures { result ≡ part_in unit.now }
{
    let points = get_u64(unit, 1);
    if *unit == part_unit(Role::Outer, points) {
        Some((Role::Outer, points))
    } else if *unit == part_unit(Role::Inner, points) {
        Some((Role::Inner, points))
    } else {
        None
    }
}
