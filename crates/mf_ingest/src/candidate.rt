//! What the tags of an entity tell of it.

ghost use Rattle.std.specs.Prelude.{◌≡◌, length, option_map, IfSome};
ghost use Rattle.feature_model.specs.Descriptions.{description};
ghost use Rattle.osm_entity.specs.EntityViews.{entity_told, entity_block};
ghost use Rattle.mf_ingest.specs.Fronts.{front_told, IsFront};

use crate::front::Described;
use crate::heads::{choice_for, head_of, height_of};
use crate::lent::{id_of, kind_of, may_be_shown, tags_of};
use crate::texts::texts_of;
use osm_entity::entity::Entity;
use tag_mapping::mapping::Mapping;

/// The head and the texts of an entity of this block, where it is a candidate: a node, a way or a multipolygon with a
/// matching entry of its list.
pub fn describe<'a>(mapping: &Mapping, entity: Entity, block: &'a [u8]) -> Option<Described<'a>>
    requires { entity_block entity ≡ block.now }
    ensures told { option_map front_told result ≡ description mapping.now (entity_told entity.entry) }
    ensures front { IfSome result IsFront }
{
    if !may_be_shown(entity) {
        return None;
    }
    let kind = kind_of(entity);
    let tags = tags_of(entity);
    let choice = choice_for(mapping, kind, tags)?;
    let texts = texts_of(mapping, kind, &choice.tags, tags, block);
    let head = head_of(kind, id_of(entity), height_of(kind, tags), choice);
    Some(Described { head, texts })
}

#[cfg(test)]
mod tests;
