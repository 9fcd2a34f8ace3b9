//! The objects of a group, one after another: the OpenStreetMap wiki, "PBF Format", on PrimitiveGroup.

use crate::dense::Dense;
use crate::entity::Entity;
use crate::group_field::{Read, next_field, read_field};
use crate::in_block::InBlock;
use crate::order::Order;
use osm_model::faults::EntityFault;

// What is left of a group: its fields, and the dense nodes of the field before. It is plain data.
#[derive(Clone, Copy, Debug, PartialEq, Eq)]
pub(crate) struct Group<'a> {
    pub fields: &'a [u8],
    pub dense: Option<Dense<'a>>,
}

// What a turn over a group or a block gave: an entity, or nothing but that less is left, or that nothing is left.
#[derive(Clone, Copy, Debug, PartialEq, Eq)]
pub(crate) enum Turn<'a> {
    Found(Entity<'a>),
    Passed,
    End,
}

impl<'a> Group<'a> {
    ghost use Rattle.std.specs.Prelude.{◌≡◌, ◌<◌, List, Ok, None, IfOk, IfSome};
    ghost use Rattle.osm_model.specs.Entities as entities;
    ghost use Rattle.osm_entity.specs.InBlock.{block_shown};
    ghost use Rattle.osm_entity.specs.Order.{StandsBehind};
    ghost use Rattle.osm_entity.specs.EntityViews.{GivesObject, entity_block};
    ghost use Rattle.osm_entity.specs.Groups.{TurnsGroup, IsFoundIn, group_left, turns_left};

    // The next entity behind those of an order, None behind the last, or the first fault.
    pub fn next(
        &mut self,
        in_block: InBlock<'a>,
        order: &Order,
    ) -> Result<Option<Entity<'a>>, EntityFault>
        ensures gives { (before : List entities.Entity) → StandsBehind before order.now
            → GivesObject before (group_left (block_shown in_block.entry) self.old) result
            (group_left (block_shown in_block.entry) self.new) }
        ensures lent { IfOk result (λ next. IfSome next (λ e. entity_block e ≡ in_block.entry.block.now)) }
    {
        loop {
            match self.turn(in_block, order)? {
                Turn::Found(entity) => return Ok(Some(entity)),
                Turn::Passed => {}
                Turn::End => return Ok(None),
            }
        }
    }

    // The next dense node, or what the next field has.
    fn turn(&mut self, in_block: InBlock<'a>, order: &Order) -> Result<Turn<'a>, EntityFault>
        ensures gives { (before : List entities.Entity) → StandsBehind before order.now
            → TurnsGroup before (group_left (block_shown in_block.entry) self.old) result
            (group_left (block_shown in_block.entry) self.new) }
        ensures lent { IfOk result (IsFoundIn in_block.entry.block.now) }
        ensures shorter { result ≡ Ok Turn.Passed → turns_left self.new < turns_left self.old }
    {
        match self.dense {
            None => self.field_turn(in_block, order),
            Some(dense) => {
                let mut left = dense;
                match left.next(in_block, order)? {
                    Some(view) => {
                        self.dense = Some(left);
                        Ok(Turn::Found(Entity::Node(view)))
                    }
                    None => {
                        self.dense = None;
                        Ok(Turn::Passed)
                    }
                }
            }
        }
    }

    // What the next field has. There are no dense nodes left.
    fn field_turn(&mut self, in_block: InBlock<'a>, order: &Order) -> Result<Turn<'a>, EntityFault>
        requires none { self.old.dense ≡ None }
        ensures gives { (before : List entities.Entity) → StandsBehind before order.now
            → TurnsGroup before (group_left (block_shown in_block.entry) self.old) result
            (group_left (block_shown in_block.entry) self.new) }
        ensures lent { IfOk result (IsFoundIn in_block.entry.block.now) }
        ensures shorter { result ≡ Ok Turn.Passed → turns_left self.new < turns_left self.old }
    {
        match next_field(self.fields) {
            None => Ok(Turn::End),
            Some((field, rest)) => match read_field(field, in_block, order)? {
                Read::Object(entity) => {
                    self.fields = rest;
                    Ok(Turn::Found(entity))
                }
                Read::Nodes(dense) => {
                    self.fields = rest;
                    self.dense = Some(dense);
                    Ok(Turn::Passed)
                }
                Read::Nothing => {
                    self.fields = rest;
                    Ok(Turn::Passed)
                }
            },
        }
    }
}
