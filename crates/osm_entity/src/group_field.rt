//! The fields of a group: the OpenStreetMap wiki, "PBF Format", on PrimitiveGroup.

ghost use Rattle.std.specs.Prelude.{◌≡◌, ◌<◌, List, [], ◌∷◌, length, IfOk, IfSome, MatchOption};
ghost use Rattle.osm_model.specs.Wire as wire;
ghost use Rattle.osm_model.specs.Wire.{fields};
ghost use Rattle.osm_model.specs.Entities as entities;
ghost use Rattle.osm_model.specs.Objects.{field_objects, objects_at};
ghost use Rattle.pbf_wire.specs.Shown.{ShowsField};
ghost use Rattle.osm_entity.specs.InBlock.{block_shown};
ghost use Rattle.osm_entity.specs.Order.{StandsBehind};
ghost use Rattle.osm_entity.specs.GroupFields.{GivesRead, IsReadFrom};

use crate::dense::Dense;
use crate::dense_read::read_dense;
use crate::entity::Entity;
use crate::in_block::InBlock;
use crate::node::read_node;
use crate::order::Order;
use crate::relation::RelationView;
use crate::way::WayView;
use osm_model::faults::EntityFault;
use osm_model::numbers::{GROUP_DENSE, GROUP_NODES, GROUP_RELATIONS, GROUP_WAYS};
use pbf_wire::fields::{Field, Fields, Value};

// What a field of a group has: an object, dense nodes, or nothing that is an object.
#[derive(Clone, Copy, Debug, PartialEq, Eq)]
pub(crate) enum Read<'a> {
    Object(Entity<'a>),
    Nodes(Dense<'a>),
    Nothing,
}

// The next field of a group, and the bytes behind it, or None behind the last.
pub(crate) fn next_field(bytes: &[u8]) -> Option<(Field<'_>, &[u8])>
    ensures field { MatchOption result ((fields bytes.now).items ≡ []) (λ next. (shown : wire.Field)
        × ShowsField next.0 shown × ((fields bytes.now).items ≡ shown ∷ (fields next.1.now).items)) }
    ensures shorter { IfSome result (λ next. length next.1.now < length bytes.now) }
{
    let mut fields = Fields::new(bytes);
    match fields.next() {
        Ok(Some(field)) => Some((field, fields.left())),
        Ok(None) => None,
        Err(_) => None,
    }
}

// What a field of a group has, behind the entities of an order, or its first fault.
pub(crate) fn read_field<'a>(
    field: Field<'a>,
    in_block: InBlock<'a>,
    order: &Order,
) -> Result<Read<'a>, EntityFault>
    ensures gives { (shown : wire.Field) (before : List entities.Entity) → ShowsField field.entry shown
        → StandsBehind before order.now
        → GivesRead (block_shown in_block.entry) before (field_objects (block_shown in_block.entry) shown) result }
    ensures lent { IfOk result (IsReadFrom in_block.entry.block.now) }
{
    match field.value {
        Value::Bytes(bytes) => read_bytes(field.number, bytes, in_block, order),
        Value::Number(_) => Ok(Read::Nothing),
        Value::Fixed => Ok(Read::Nothing),
    }
}

// What the bytes of a field with this number have, behind the entities of an order, or their first fault.
#[tactic(auto, using(crate::proofs::ObjectKinds::later_kinds))]
fn read_bytes<'a>(
    number: u32,
    bytes: &'a [u8],
    in_block: InBlock<'a>,
    order: &Order,
) -> Result<Read<'a>, EntityFault>
    ensures gives { (before : List entities.Entity) → StandsBehind before order.now
        → GivesRead (block_shown in_block.entry) before (objects_at (block_shown in_block.entry) number bytes.now)
        result }
    ensures lent { IfOk result (IsReadFrom in_block.entry.block.now) }
{
    if number == GROUP_NODES {
        return match read_node(bytes, in_block, order) {
            Ok(view) => Ok(Read::Object(Entity::Node(view))),
            Err(fault) => Err(fault),
        };
    }
    if number == GROUP_DENSE {
        return match read_dense(bytes) {
            Ok(dense) => Ok(Read::Nodes(dense)),
            Err(fault) => Err(fault),
        };
    }
    if number == GROUP_WAYS {
        return match WayView::read(bytes, in_block, order) {
            Ok(view) => Ok(Read::Object(Entity::Way(view))),
            Err(fault) => Err(fault),
        };
    }
    if number == GROUP_RELATIONS {
        return match RelationView::read(bytes, in_block, order) {
            Ok(view) => Ok(Read::Object(Entity::Relation(view))),
            Err(fault) => Err(fault),
        };
    }
    Ok(Read::Nothing)
}
