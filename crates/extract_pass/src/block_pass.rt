//! The entities of a block are handed to a reader.

ghost use Rattle.std.specs.Prelude.{◌≡◌, ◌<◌, ◌≤◌, ◌^◌, ◌++◌, List, length};
ghost use Rattle.osm_model.specs.Entities as model;
ghost use Rattle.osm_model.specs.Order.{in_order, IsRising};
ghost use Rattle.osm_entity.specs.Order.{StandsBehind};
ghost use Rattle.osm_entity.specs.BlockEntities.{objects_left, block_read};
ghost use Rattle.extract_pass.specs.EntitySizes.{entities_size};
ghost use Rattle.extract_pass.specs.BlobReading.{ReadsObjects};

use crate::fault::BlobStop;
use crate::reader::{EntityReader, Stopped};
use osm_entity::entities::Entities;
use osm_entity::order::Order;
use osm_model::faults::InputCode;

// Hands the entities of a block to a reader, behind those before them, up to the first fault.
pub(crate) fn read_all<R: EntityReader>(
    mut entities: Entities,
    block: &[u8],
    order: &mut Order,
    reader: &mut R,
) -> Result<(), BlobStop>
    requires near { length block.now < 2 ^ 32 }
    requires lent { block_read entities ≡ block.now }
    requires stood { (first : R) × (before : List model.Entity) × StandsBehind before order.old
        × R.stands first reader.old before × IsRising (before ++ (in_order before (objects_left entities)).items) }
    requires fit { (before : List model.Entity) → StandsBehind before order.old
        → entities_size (in_order before (objects_left entities)).items ≤ length block.now }
    ensures { (first : R) (before : List model.Entity) → StandsBehind before order.old → R.stands first reader.old before
        → IsRising (before ++ (in_order before (objects_left entities.entry)).items)
        → ReadsObjects (R.stands first reader.new) (R.stopped first reader.new) before
        (in_order before (objects_left entities.entry)) result order.new }
{
    loop {
        match entities.next(order) {
            Ok(Some(entity)) => {
                if let Err(Stopped) = reader.read(entity, block) {
                    return Err(BlobStop::Reader);
                }
            }
            Ok(None) => return Ok(()),
            Err(fault) => return Err(BlobStop::Fault(InputCode::Entity(fault))),
        }
    }
}
