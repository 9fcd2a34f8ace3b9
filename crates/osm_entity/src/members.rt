//! The members of a relation: the OpenStreetMap wiki, "PBF Format", on Relation.

ghost use Rattle.std.specs.Prelude.{◌≡◌, ◌<◌, ◌+ℤ◌, ℤ, List, [], true, length, map};
ghost use Rattle.mf_base.specs.Texts.{Text};
ghost use Rattle.mf_base.specs.Steps.{fault_of};
ghost use Rattle.mf_base.specs.Spelling.{unzigzag_of};
ghost use Rattle.mf_base.specs.Packed.{are_varints, packed_numbers};
ghost use Rattle.mf_base.specs.Entries.{are_texts};
ghost use Rattle.osm_model.specs.Objects.{members_of};
ghost use Rattle.osm_entity.specs.MemberChecks.{are_members, row_id, row_fault, kind_told, members_behind};

use crate::in_block::InBlock;
use crate::sums::checked_sum;
use mf_base::kind::EntityKind;
use mf_base::packed::first_packed;
use mf_base::text_place::text_place;
use mf_base::zigzag::unzigzag;
use osm_model::faults::EntityFault;
use pbf_wire::packed::Packed;

/// A member of a relation: its kind, its id as it is written, and its role, which is UTF-8.
#[derive(Clone, Copy, Debug, PartialEq, Eq)]
pub struct Member<'a> {
    pub kind: EntityKind,
    pub id: i64,
    pub role: &'a [u8],
}

/// Goes over the members of a relation. It is plain data.
#[derive(Clone, Copy, Debug, PartialEq, Eq)]
pub struct MemberCursor<'a> {
    // The block, and for each of its strings the place of the length.
    block: &'a [u8],
    places: &'a [u32],
    // What is left of the columns, and the sum of the differences of ids before.
    roles: &'a [u8],
    ids: &'a [u8],
    types: &'a [u8],
    sum: i64,
    ghost texts: { are_texts block.now places.now ≡ true },
    ghost whole_roles: { are_varints roles.now ≡ true },
    ghost whole_ids: { are_varints ids.now ≡ true },
    ghost whole_types: { are_varints types.now ≡ true },
    ghost told: { are_members (length places.now) sum roles.now ids.now types.now ≡ true },
}

impl<'a> MemberCursor<'a> {
    ghost use Rattle.std.specs.Prelude.{◌≡◌, ◌<◌, true, length, map, drop, slice_get, option_map};
    ghost use Rattle.mf_base.specs.Spelling.{unzigzag_of};
    ghost use Rattle.mf_base.specs.Packed.{are_varints, packed_numbers};
    ghost use Rattle.mf_base.specs.Entries.{entry_text};
    ghost use Rattle.osm_model.specs.Objects.{members_of};
    ghost use Rattle.osm_entity.specs.Answers.{answer_as};
    ghost use Rattle.osm_entity.specs.InBlock.{block_shown};
    ghost use Rattle.osm_entity.specs.Members.{member_told, members_left};

    // The members of three columns, of which the ids are differences, or the first fault.
    pub(crate) fn read(
        roles: &'a [u8],
        ids: &'a [u8],
        types: &'a [u8],
        in_block: InBlock<'a>,
    ) -> Result<MemberCursor<'a>, EntityFault>
        requires roles { are_varints roles.now ≡ true }
        requires ids { are_varints ids.now ≡ true }
        requires types { are_varints types.now ≡ true }
        ensures { answer_as members_left result ≡ members_of (block_shown in_block.entry).strings
            (packed_numbers roles.now) (map unzigzag_of (packed_numbers ids.now)) (packed_numbers types.now) }
    {
        check_members(roles, ids, types, in_block.count())?;
        Ok(MemberCursor {
            block: in_block.block,
            places: in_block.places,
            roles,
            ids,
            types,
            sum: 0,
        })
    }

    /// The next member, or None after the last.
    pub fn next(&mut self) -> Option<Member<'a>>
        ensures first { option_map member_told result ≡ slice_get (members_left self.old) 0 }
        ensures rest { members_left self.new ≡ drop 1 (members_left self.old) }
    {
        let Some((role, roles)) = first_packed(self.roles) else {
            return None;
        };
        let Some((difference, ids)) = first_packed(self.ids) else {
            return None;
        };
        let Some((kind, types)) = first_packed(self.types) else {
            return None;
        };
        let id = self.sum + unzigzag(difference);
        let role = self.text(role);
        self.roles = roles;
        self.ids = ids;
        self.types = types;
        self.sum = id;
        Some(Member {
            kind: kind_of(kind),
            id,
            role,
        })
    }

    // The string with this index.
    fn text(&self, index: u64) -> &'a [u8]
        requires { index < length self.now.places.now }
        ensures { result.now ≡ entry_text self.now.block.now self.now.places.now index }
    {
        let (start, end) = text_place(self.block, self.places[index as usize] as usize);
        &self.block[start..end]
    }
}

// The kind that a type below 3 tells.
fn kind_of(kind: u64) -> EntityKind
    requires { kind < 3 }
    ensures { result ≡ kind_told kind }
{
    match kind {
        0 => EntityKind::Node,
        1 => EntityKind::Way,
        _ => EntityKind::Relation,
    }
}

// The first fault of the columns of members, of so many strings.
fn check_members(roles: &[u8], ids: &[u8], types: &[u8], count: u64) -> Result<(), EntityFault>
    requires roles { are_varints roles.now ≡ true }
    requires ids { are_varints ids.now ≡ true }
    requires types { are_varints types.now ≡ true }
    ensures { (strings : List Text) → length strings ≡ count → fault_of result ≡ fault_of (members_of strings
        (packed_numbers roles.now) (map unzigzag_of (packed_numbers ids.now)) (packed_numbers types.now)) }
{
    let mut left_roles = roles;
    let mut left_ids = ids;
    let mut left_types = types;
    let mut sum = 0i64;
    loop {
        let Some((role, other_roles)) = first_packed(left_roles) else {
            return check_end(left_ids, left_types);
        };
        let Some((difference, other_ids)) = first_packed(left_ids) else {
            return Err(EntityFault::Columns);
        };
        let Some((kind, other_types)) = first_packed(left_types) else {
            return Err(EntityFault::Columns);
        };
        match next_id(role, sum, unzigzag(difference), kind, count) {
            Ok(id) => sum = id,
            Err(fault) => return Err(fault_before(fault, other_roles, other_ids, other_types)),
        }
        left_roles = other_roles;
        left_ids = other_ids;
        left_types = other_types;
    }
}

// The id of a member, behind this sum, or the first fault of the member.
fn next_id(role: u64, sum: i64, difference: i64, kind: u64, count: u64) -> Result<i64, EntityFault>
    ensures { result ≡ row_id count (role, sum +ℤ difference, kind) }
{
    if role >= count {
        return Err(EntityFault::StringIndex);
    }
    let Some(id) = checked_sum(sum, difference) else {
        return Err(EntityFault::Range);
    };
    if kind >= 3 {
        return Err(EntityFault::MemberKind);
    }
    Ok(id)
}

// That columns of members differ in length, where there are no more roles.
fn check_end(ids: &[u8], types: &[u8]) -> Result<(), EntityFault>
    requires ids { are_varints ids.now ≡ true }
    requires types { are_varints types.now ≡ true }
    ensures { (strings : List Text) (sum : ℤ) → fault_of result ≡ fault_of (members_behind sum strings []
        (map unzigzag_of (packed_numbers ids.now)) (packed_numbers types.now)) }
{
    match (first_packed(ids), first_packed(types)) {
        (None, None) => Ok(()),
        (None, Some(_)) => Err(EntityFault::Columns),
        (Some(_), _) => Err(EntityFault::Columns),
    }
}

// The fault of a member before these others.
fn fault_before(fault: EntityFault, roles: &[u8], ids: &[u8], types: &[u8]) -> EntityFault
    requires roles { are_varints roles.now ≡ true }
    requires ids { are_varints ids.now ≡ true }
    requires types { are_varints types.now ≡ true }
    ensures { result ≡ row_fault fault (packed_numbers roles.now) (map unzigzag_of (packed_numbers ids.now))
        (packed_numbers types.now) }
{
    let count = Packed::new(roles).count();
    if count == Packed::new(ids).count() && count == Packed::new(types).count() {
        fault
    } else {
        EntityFault::Columns
    }
}
