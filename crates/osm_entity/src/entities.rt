//! The entities of a block, one after another: the OpenStreetMap wiki, "PBF Format", on PrimitiveBlock.

use crate::entity::Entity;
use crate::group::{Group, Turn};
use crate::in_block::InBlock;
use crate::next_group::next_group;
use crate::note::note;
use crate::order::Order;
use osm_model::faults::EntityFault;
use pbf_block::head::BlockHead;
use pbf_block::strings::Strings;

/// Goes over the entities of a block. It is plain data: a copy goes on from the same place by itself.
#[derive(Clone, Copy, Debug, PartialEq, Eq)]
pub struct Entities<'a> {
    in_block: InBlock<'a>,
    // The fields of the block behind the group that is gone over, what is left of that, and the fault that was told.
    groups: &'a [u8],
    group: Group<'a>,
    fault: Option<EntityFault>,
}

impl<'a> Entities<'a> {
    ghost use Rattle.std.specs.Prelude.{◌≡◌, ◌<◌, ◌^◌, true, List, length, Ok, None, IfOk, IfSome};
    ghost use Rattle.mf_base.specs.Entries.{are_texts};
    ghost use Rattle.osm_model.specs.Blocks as blocks;
    ghost use Rattle.osm_model.specs.Blocks.{PrimitiveBlock, block_strings};
    ghost use Rattle.osm_model.specs.Entities as entities;
    ghost use Rattle.osm_model.specs.Objects.{block_objects};
    ghost use Rattle.pbf_block.specs.Head.{head_told};
    ghost use Rattle.osm_entity.specs.InBlock.{texts_at};
    ghost use Rattle.osm_entity.specs.Order.{StandsBehind};
    ghost use Rattle.osm_entity.specs.EntityViews.{GivesObject, entity_block};
    ghost use Rattle.osm_entity.specs.Groups.{TurnsGroup, IsFoundIn};
    ghost use Rattle.osm_entity.specs.BlockEntities.{GivesEntity, objects_left, unread, block_read};

    /// All entities of a block, whose head and strings were read from it.
    pub fn start(block: &'a [u8], head: BlockHead, strings: &'a Strings) -> Entities<'a>
        requires near { length block.now < 2 ^ 32 }
        requires head { blocks.block_head block.now ≡ Ok (head_told head) }
        requires strings { block_strings block.now ≡ Ok (texts_at block.now strings.now) }
        requires held { are_texts block.now strings.now ≡ true }
        ensures objects { (b : PrimitiveBlock) → blocks.block block.now ≡ Ok b → objects_left result ≡ block_objects b }
        ensures block { block_read result ≡ block.now }
    {
        let in_block = InBlock {
            block,
            places: strings.places(),
            head,
        };
        let group = Group {
            fields: &[],
            dense: None,
        };
        Entities {
            in_block,
            groups: block,
            group,
            fault: None,
        }
    }

    /// The next entity behind those that the order stands behind, or None after the last. After a fault the next call
    /// answers the same fault.
    pub fn next(&mut self, order: &mut Order) -> Result<Option<Entity<'a>>, EntityFault>
        ensures gives { (before : List entities.Entity) → StandsBehind before order.old
            → GivesEntity before (objects_left self.old) order.old result (objects_left self.new) order.new }
        ensures shorter { IfOk result (λ next. IfSome next (λ _.
            length (objects_left self.new) < length (objects_left self.old))) }
        ensures lent { IfOk result (λ next. IfSome next (λ e. entity_block e ≡ block_read self.old)) }
        ensures block { block_read self.new ≡ block_read self.old }
    {
        match self.fault {
            Some(fault) => Err(fault),
            None => match self.find(order) {
                Ok(None) => Ok(None),
                Ok(Some(entity)) => {
                    note(entity, order);
                    Ok(Some(entity))
                }
                Err(fault) => {
                    self.fault = Some(fault);
                    Err(fault)
                }
            },
        }
    }

    // The next entity, in this group or in one behind it.
    fn find(&mut self, order: &Order) -> Result<Option<Entity<'a>>, EntityFault>
        ensures gives { (before : List entities.Entity) → StandsBehind before order.now
            → GivesObject before (unread self.old) result (unread self.new) }
        ensures lent { IfOk result (λ next. IfSome next (λ e. entity_block e ≡ block_read self.old)) }
        ensures same { self.new.in_block ≡ self.old.in_block }
        ensures fault { self.new.fault ≡ self.old.fault }
    {
        loop {
            match self.turn(order)? {
                Turn::Found(entity) => return Ok(Some(entity)),
                Turn::Passed => {}
                Turn::End => return Ok(None),
            }
        }
    }

    // The next entity of this group, or else the next group.
    fn turn(&mut self, order: &Order) -> Result<Turn<'a>, EntityFault>
        ensures gives { (before : List entities.Entity) → StandsBehind before order.now
            → TurnsGroup before (unread self.old) result (unread self.new) }
        ensures lent { IfOk result (IsFoundIn (block_read self.old)) }
        ensures same { self.new.in_block ≡ self.old.in_block }
        ensures fault { self.new.fault ≡ self.old.fault }
        ensures shorter { result ≡ Ok Turn.Passed → length self.new.groups.now < length self.old.groups.now }
    {
        match self.group.next(self.in_block, order)? {
            Some(entity) => Ok(Turn::Found(entity)),
            None => match next_group(self.groups)? {
                None => Ok(Turn::End),
                Some((group, rest)) => {
                    self.group = group;
                    self.groups = rest;
                    Ok(Turn::Passed)
                }
            },
        }
    }
}
