//! A way: the OpenStreetMap wiki, "PBF Format", on Way.

ghost use Rattle.std.specs.Prelude.{◌≡◌};
ghost use Rattle.mf_base.specs.TagCursor.{all_tags, tags_left};

use crate::in_block::InBlock;
use crate::order::Order;
use crate::parts::packed_at;
use crate::placed_id::placed_id;
use crate::refs::RefCursor;
use crate::tags::read_tags;
use mf_base::kind::EntityKind;
use mf_base::tag_cursor::TagCursor;
use osm_model::faults::EntityFault;
use osm_model::tables::WAY;
use pbf_wire::message::read_message;

/// A way of a block, lent from it. It is plain data.
#[derive(Clone, Copy, Debug, PartialEq, Eq)]
pub struct WayView<'a> {
    id: u64,
    refs: RefCursor<'a>,
    tags: TagCursor<'a>,
    ghost fresh: { tags_left tags ≡ all_tags tags },
}

impl<'a> WayView<'a> {
    ghost use Rattle.std.specs.Prelude.{◌≡◌, List, IfOk};
    ghost use Rattle.mf_base.specs.TagCursor.{all_tags, tags_left, block_of};
    ghost use Rattle.osm_model.specs.Objects.{way_object};
    ghost use Rattle.osm_model.specs.Entities.{Entity};
    ghost use Rattle.osm_entity.specs.Answers.{answer_as, placed};
    ghost use Rattle.osm_entity.specs.InBlock.{block_shown};
    ghost use Rattle.osm_entity.specs.Order.{StandsBehind};
    ghost use Rattle.osm_entity.specs.Refs.{refs_left};
    ghost use Rattle.osm_entity.specs.Ways.{way_shown, way_told, way_block};

    // The way of a Way message that stands next in the order, or its first fault.
    pub(crate) fn read(
        bytes: &'a [u8],
        in_block: InBlock<'a>,
        order: &Order,
    ) -> Result<WayView<'a>, EntityFault>
        ensures told { (before : List Entity) → StandsBehind before order.now
            → answer_as way_told result ≡ placed before (way_object (block_shown in_block.entry) bytes.now) }
        ensures lent { IfOk result (λ view. way_block view ≡ in_block.entry.block.now) }
    {
        match read_message(bytes, &WAY) {
            Err(fault) => Err(EntityFault::Wire(fault)),
            Ok(all) => {
                let id = placed_id(all[0].number, EntityKind::Way, order)?;
                let keys = packed_at(all[1], bytes);
                let vals = packed_at(all[2], bytes);
                let tags = read_tags(keys, vals, in_block)?;
                let refs = RefCursor::read(packed_at(all[3], bytes))?;
                Ok(WayView { id, refs, tags })
            }
        }
    }

    /// Its id.
    pub fn id(&self) -> u64
        ensures { result ≡ (way_shown self.now).id }
    {
        self.id
    }

    /// Its refs, in their order.
    pub fn refs(&self) -> RefCursor<'a>
        ensures { refs_left result ≡ (way_shown self.now).refs }
    {
        self.refs
    }

    /// Its tags, in their order.
    pub fn tags(&self) -> TagCursor<'a>
        ensures all { all_tags result ≡ (way_shown self.now).tags }
        ensures left { tags_left result ≡ all_tags result }
        ensures block { block_of result ≡ way_block self.now }
    {
        self.tags
    }
}
