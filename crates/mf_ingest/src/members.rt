//! The members of a relation as rows.

ghost use Rattle.std.specs.Prelude.{◌≡◌, ◌+◌, ◌^◌, ◌<◌, length};
ghost use Rattle.feature_model.specs.Points.{role_of as role_told};
ghost use Rattle.osm_entity.specs.Members.{members_left, member_told};
ghost use Rattle.osm_entity.specs.Relations.{relation_shown};
ghost use Rattle.spill_parts.specs.Handed.{member_rows, member_row_of};
ghost use Rattle.mf_ingest.specs.LeftRows.{members_from};

use crate::refs::id_named;
use mf_base::kind::{EntityKind, Role};
use mf_rows::kinds::MemberRow;
use mf_rows::numbers::number_of_role;
use osm_entity::members::{Member, MemberCursor};
use osm_entity::relation::RelationView;
use spill_parts::Rows;

/// Gives the members of a relation that may be its parts, each with its place among all.
#[derive(Drop)]
pub(crate) struct MemberRows<'a> {
    relation: u64,
    // The place of the next member.
    place: u32,
    members: MemberCursor<'a>,
    ghost few: { place + length (members_left members) < 2 ^ 32 },
}

impl<'a> MemberRows<'a> {
    ghost use Rattle.std.specs.Prelude.{◌≡◌, ◌^◌, ◌<◌, length};
    ghost use Rattle.osm_entity.specs.Members.{members_left};
    ghost use Rattle.osm_entity.specs.Relations.{relation_shown};
    ghost use Rattle.spill_parts.specs.Handed.{member_rows};
    ghost use Rattle.mf_ingest.specs.LeftRows.{members_from};

    /// All members of a relation.
    pub(crate) fn of(relation: RelationView<'a>) -> MemberRows<'a>
        requires { length (relation_shown relation).members < 2 ^ 32 }
        ensures { members_from result.relation result.place (members_left result.members)
            ≡ member_rows (relation_shown relation.entry) }
    {
        MemberRows {
            relation: relation.id(),
            place: 0,
            members: relation.members(),
        }
    }
}

impl<'a> Rows<MemberRow> for MemberRows<'a> {
    ghost use Rattle.osm_entity.specs.Members.{members_left};
    ghost use Rattle.mf_ingest.specs.LeftRows.{members_from};

    ghost left = { λ r. members_from r.relation r.place (members_left r.members) };

    fn next(&mut self) -> Option<MemberRow> {
        while let Some(member) = self.members.next() {
            let place = self.place;
            self.place += 1;
            if let Some(row) = row_of(self.relation, place, member) {
                return Some(row);
            }
        }
        None
    }
}

// The row of a member with its place, where it may be a part.
fn row_of(relation: u64, place: u32, member: Member) -> Option<MemberRow>
    ensures { result ≡ member_row_of relation (place, member_told member.entry) }
{
    if member.kind != EntityKind::Way {
        return None;
    }
    let role = role_of(member.role)?;
    let way = id_named(member.id)?;
    Some(MemberRow {
        way,
        relation,
        member: place,
        role: number_of_role(role),
    })
}

// The role that a text tells: `outer` or the empty one, and `inner`.
fn role_of(role: &[u8]) -> Option<Role>
    ensures { result ≡ role_told role.now }
{
    match role {
        b"outer" | b"" => Some(Role::Outer),
        b"inner" => Some(Role::Inner),
        _ => None,
    }
}
