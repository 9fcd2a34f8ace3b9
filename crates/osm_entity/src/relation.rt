//! A relation: the OpenStreetMap wiki, "PBF Format", on Relation.

ghost use Rattle.std.specs.Prelude.{◌≡◌};
ghost use Rattle.mf_base.specs.TagCursor.{all_tags, tags_left};

use crate::in_block::InBlock;
use crate::members::MemberCursor;
use crate::order::Order;
use crate::parts::packed_at;
use crate::placed_id::placed_id;
use crate::tags::read_tags;
use mf_base::kind::EntityKind;
use mf_base::tag_cursor::TagCursor;
use osm_model::faults::EntityFault;
use osm_model::tables::RELATION;
use pbf_wire::message::read_message;

/// A relation of a block, lent from it. It is plain data.
#[derive(Clone, Copy, Debug, PartialEq, Eq)]
pub struct RelationView<'a> {
    id: u64,
    members: MemberCursor<'a>,
    tags: TagCursor<'a>,
    ghost fresh: { tags_left tags ≡ all_tags tags },
}

impl<'a> RelationView<'a> {
    ghost use Rattle.std.specs.Prelude.{◌≡◌, List, IfOk};
    ghost use Rattle.mf_base.specs.TagCursor.{all_tags, tags_left, block_of};
    ghost use Rattle.osm_model.specs.Objects.{relation_object};
    ghost use Rattle.osm_model.specs.Entities.{Entity};
    ghost use Rattle.osm_entity.specs.Answers.{answer_as, placed};
    ghost use Rattle.osm_entity.specs.InBlock.{block_shown};
    ghost use Rattle.osm_entity.specs.Order.{StandsBehind};
    ghost use Rattle.osm_entity.specs.Members.{members_left};
    ghost use Rattle.osm_entity.specs.Relations.{relation_shown, relation_told, relation_block};

    // The relation of a Relation message that stands next in the order, or its first fault.
    pub(crate) fn read(
        bytes: &'a [u8],
        in_block: InBlock<'a>,
        order: &Order,
    ) -> Result<RelationView<'a>, EntityFault>
        ensures told { (before : List Entity) → StandsBehind before order.now → answer_as relation_told result
            ≡ placed before (relation_object (block_shown in_block.entry) bytes.now) }
        ensures lent { IfOk result (λ view. relation_block view ≡ in_block.entry.block.now) }
    {
        match read_message(bytes, &RELATION) {
            Err(fault) => Err(EntityFault::Wire(fault)),
            Ok(all) => {
                let id = placed_id(all[0].number, EntityKind::Relation, order)?;
                let keys = packed_at(all[1], bytes);
                let vals = packed_at(all[2], bytes);
                let tags = read_tags(keys, vals, in_block)?;
                let roles = packed_at(all[3], bytes);
                let ids = packed_at(all[4], bytes);
                let types = packed_at(all[5], bytes);
                let members = MemberCursor::read(roles, ids, types, in_block)?;
                Ok(RelationView { id, members, tags })
            }
        }
    }

    /// Its id.
    pub fn id(&self) -> u64
        ensures { result ≡ (relation_shown self.now).id }
    {
        self.id
    }

    /// Its members, in their order.
    pub fn members(&self) -> MemberCursor<'a>
        ensures { members_left result ≡ (relation_shown self.now).members }
    {
        self.members
    }

    /// Its tags, in their order.
    pub fn tags(&self) -> TagCursor<'a>
        ensures all { all_tags result ≡ (relation_shown self.now).tags }
        ensures left { tags_left result ≡ all_tags result }
        ensures block { block_of result ≡ relation_block self.now }
    {
        self.tags
    }
}
