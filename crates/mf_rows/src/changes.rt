//! The last record of a desk, as it is changed in its place.

ghost use Rattle.std.specs.Prelude.{◌≡◌, ◌+◌, ◌^◌, ◌<◌, ◌≤◌, [], ◌∷◌, ◌++◌, length, vec_len, vec_capacity};
ghost use Rattle.std.specs.Prelude.{IsSome, IfSome, ◌↔◌, IsTrue, nat_lt, false};
ghost use Rattle.mf_base.specs.declared.kind.Role.{Role};
ghost use Rattle.mf_rows.specs.Units.{point_in, part_in, part_unit as unit_of_part};
ghost use Rattle.mf_rows.specs.RecordUnits.{AreWide};
ghost use Rattle.mf_rows.specs.Changes.{TakesPart, TakesPoint, with_new_part, with_new_point, with_feature};
ghost use Rattle.mf_rows.specs.Told.{IsKept, record_at, IsChanged};

use crate::head_units::head_unit;
use crate::kind::RowKind;
use crate::kinds::NodeRow;
use crate::told::Kept;
use crate::units::{part_unit, point_unit, read_part_unit};
use crate::view::View;
use mf_base::kind::{EntityKind, Role};
use mf_base::place::Place;

/// Puts a part without points to a record whose units are the last.
pub fn put_part(kept: &mut Kept, units: &mut Vec<[u8; 16]>, role: Role)
    requires kept { IsKept units.old.items kept.old.first kept.old }
    requires end { kept.old.first + kept.old.count ≡ length units.old.items }
    requires small { vec_capacity units.old ≤ 16777216 }
    requires room { vec_len units.old < vec_capacity units.old }
    requires takes { TakesPart role kept.old.told.head.kind (record_at units.old.items kept.old).parts }
    ensures changed { IsChanged units.old.items kept.old (with_new_part role (record_at units.old.items kept.old))
        units.new.items kept.new }
    ensures capacity { vec_capacity units.new ≡ vec_capacity units.old }
    ensures longer { length units.new.items ≡ length units.old.items + 1 }
{
    kept.told.part = kept.count - 10 - kept.told.texts;
    push_unit(kept, units, part_unit(role, 0));
    are_wide(units);
}

// Units have sixteen bytes.
fn are_wide(units: &[[u8; 16]])
    ensures { AreWide units.now }
{}

// Puts a unit behind those of a record.
fn push_unit(kept: &mut Kept, units: &mut Vec<[u8; 16]>, unit: [u8; 16])
    requires room { vec_len units.old < vec_capacity units.old }
    requires few { kept.old.count < 2 ^ 62 }
    ensures kept { kept.new ≡ record kept.old { count = kept.old.count + 1 } }
    ensures units { units.new.items ≡ units.old.items ++ unit ∷ [] }
    ensures capacity { vec_capacity units.new ≡ vec_capacity units.old }
{
    kept.count += 1;
    units.push_reserved(unit);
}

/// Puts a point to a record whose units are the last: that of a node, or one more of the last part.
pub fn put_point(kept: &mut Kept, units: &mut Vec<[u8; 16]>, node: u64, place: Place)
    requires kept { IsKept units.old.items kept.old.first kept.old }
    requires end { kept.old.first + kept.old.count ≡ length units.old.items }
    requires small { vec_capacity units.old ≤ 16777216 }
    requires room { vec_len units.old < vec_capacity units.old }
    requires takes { TakesPoint kept.old.told.head.kind (record_at units.old.items kept.old).spot
        (record_at units.old.items kept.old).parts }
    ensures changed { IsChanged units.old.items kept.old
        (with_new_point (record { node = node; place = place }) (record_at units.old.items kept.old))
        units.new.items kept.new }
    ensures capacity { vec_capacity units.new ≡ vec_capacity units.old }
    ensures longer { length units.new.items ≡ length units.old.items + 1 }
{
    let unit = told_point(node, place);
    match kept.told.head.kind {
        EntityKind::Node => {
            push_unit(kept, units, unit);
            are_wide(units);
        }
        EntityKind::Way | EntityKind::Relation => {
            let at = kept.first + 10 + kept.told.texts + kept.told.part;
            units[at] = with_more(&units[at]);
            push_unit(kept, units, unit);
            are_wide(units);
        }
    }
}

// The unit of a point, which tells it.
fn told_point(node: u64, place: Place) -> [u8; 16]
    ensures { point_in result ≡ record { node = node; place = place } }
{
    let row = NodeRow {
        node,
        lat: place.lat,
        lon: place.lon,
    };
    row.known();
    point_unit(node, place)
}

// The unit of a part, with one point more.
fn with_more(unit: &[u8; 16]) -> [u8; 16]
    requires there { IsSome (part_in unit.now) }
    requires few { IfSome (part_in unit.now) (λ p. p.1 < 2 ^ 62) }
    ensures { IfSome (part_in unit.now) (λ p. result ≡ unit_of_part p.0 (p.1 + 1)) }
{
    match read_part_unit(unit) {
        Some((role, points)) => part_unit(role, points + 1),
        None => *unit,
    }
}

/// Sets number and weight of a record.
pub fn put_feature(kept: &mut Kept, units: &mut Vec<[u8; 16]>, number: u64, weight: u64)
    requires kept { IsKept units.old.items kept.old.first kept.old }
    requires end { kept.old.first + kept.old.count ≡ length units.old.items }
    requires small { vec_capacity units.old ≤ 16777216 }
    ensures changed { IsChanged units.old.items kept.old
        (with_feature number weight (record_at units.old.items kept.old)) units.new.items kept.new }
    ensures capacity { vec_capacity units.new ≡ vec_capacity units.old }
    ensures as_long { length units.new.items ≡ length units.old.items }
{
    kept.told.head.number = number;
    kept.told.head.weight = weight;
    let at = kept.first;
    units[at] = head_unit(&kept.told.head, kept.told.lengths, 0);
    units[at + 1] = head_unit(&kept.told.head, kept.told.lengths, 1);
    kept.told.head.known();
    kept.told.lengths.known();
    are_wide(units);
}

/// Whether a record takes a part of this role.
pub fn part_fits(view: &View, role: Role) -> bool
    ensures { IsTrue result ↔ TakesPart role view.now.head.kind view.now.parts }
{
    match view.head().kind {
        EntityKind::Node => false,
        EntityKind::Way => takes_one(role, has_parts(view)),
        EntityKind::Relation => true,
    }
}

// Whether a way takes a part.
fn takes_one(role: Role, has: bool) -> bool
    ensures { IsTrue result ↔ ((role ≡ Role.Outer) × (has ≡ false)) }
{
    match role {
        Role::Outer => !has,
        Role::Inner => false,
    }
}

/// Whether a record takes a point.
pub fn point_fits(view: &View) -> bool
    ensures { IsTrue result ↔ TakesPoint view.now.head.kind view.now.spot view.now.parts }
{
    match view.head().kind {
        EntityKind::Node => view.point().is_none(),
        EntityKind::Way | EntityKind::Relation => has_parts(view),
    }
}

// Whether a record has parts.
fn has_parts(view: &View) -> bool
    ensures { result ≡ nat_lt 0 (length view.now.parts) }
{
    view.rings().next().is_some()
}
