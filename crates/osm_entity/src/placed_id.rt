//! The id of a way or of a relation, and its place in the order.

ghost use Rattle.std.specs.Prelude.{◌≡◌, List};
ghost use Rattle.osm_model.specs.Entities.{Entity};
ghost use Rattle.osm_entity.specs.Order.{StandsBehind};
ghost use Rattle.osm_entity.specs.PlacedIds as ids;

use crate::order::Order;
use mf_base::kind::EntityKind;
use osm_model::faults::EntityFault;

// The id of an object of this kind that stands next in the order, by the number of its field, or its first fault.
pub(crate) fn placed_id(
    number: Option<u64>,
    kind: EntityKind,
    order: &Order,
) -> Result<u64, EntityFault>
    ensures { (before : List Entity) → StandsBehind before order.now → result ≡ ids.placed_id before kind number }
{
    match number {
        Some(number) => order.check(kind, number.cast_signed()),
        None => Err(EntityFault::Missing),
    }
}
