//! The next group of a block.

ghost use Rattle.std.specs.Prelude.{◌≡◌, ◌<◌, length, IfOk, IfSome};
ghost use Rattle.osm_model.specs.Blocks.{PrimitiveBlock};
ghost use Rattle.osm_entity.specs.BlockEntities.{GivesNextGroup};

use crate::group::Group;
use crate::group_read::read_group;
use osm_model::faults::EntityFault;
use osm_model::numbers::BLOCK_PRIMITIVEGROUP;
use pbf_wire::fields::Fields;
use pbf_wire::walk::next_bytes;

// The next group among the fields of a block, and the fields behind it, None behind the last, or the first fault of the
// group.
pub(crate) fn next_group(groups: &[u8]) -> Result<Option<(Group<'_>, &[u8])>, EntityFault>
    ensures gives { (b : PrimitiveBlock) → GivesNextGroup b groups.now result }
    ensures shorter { IfOk result (λ next. IfSome next (λ found. length found.1.now < length groups.now)) }
{
    let mut left = Fields::new(groups);
    match next_bytes(&mut left, BLOCK_PRIMITIVEGROUP) {
        None => Ok(None),
        Some(bytes) => match read_group(bytes) {
            Ok(group) => Ok(Some((group, left.left()))),
            Err(fault) => Err(fault),
        },
    }
}
