//! What an entity that is lent tells of itself.

ghost use Rattle.std.specs.Prelude.{◌≡◌};
ghost use Rattle.mf_base.specs.TagCursor.{all_tags, tags_left, block_of};
ghost use Rattle.osm_model.specs.Entities.{kind_of as kind_told, id_of as id_told};
ghost use Rattle.feature_model.specs.Descriptions.{tags_of as tags_told, is_multipolygon as has_its_type};
ghost use Rattle.feature_model.specs.Descriptions.{may_be_shown as is_shown};
ghost use Rattle.osm_entity.specs.EntityViews.{entity_told, entity_block};

use mf_base::kind::EntityKind;
use mf_base::tag_cursor::TagCursor;
use osm_entity::entity::Entity;

/// Its kind.
pub(crate) fn kind_of(entity: Entity) -> EntityKind
    ensures { result ≡ kind_told (entity_told entity.entry) }
{
    match entity {
        Entity::Node(_) => EntityKind::Node,
        Entity::Way(_) => EntityKind::Way,
        Entity::Relation(_) => EntityKind::Relation,
    }
}

/// Its id.
pub(crate) fn id_of(entity: Entity) -> u64
    ensures { result ≡ id_told (entity_told entity.entry) }
{
    match entity {
        Entity::Node(node) => node.id(),
        Entity::Way(way) => way.id(),
        Entity::Relation(relation) => relation.id(),
    }
}

/// Its tags.
pub(crate) fn tags_of(entity: Entity) -> TagCursor
    ensures all { all_tags result ≡ tags_told (entity_told entity.entry) }
    ensures left { tags_left result ≡ tags_told (entity_told entity.entry) }
    ensures block { block_of result ≡ entity_block entity.entry }
{
    match entity {
        Entity::Node(node) => node.tags(),
        Entity::Way(way) => way.tags(),
        Entity::Relation(relation) => relation.tags(),
    }
}

/// Whether it is shown where it matches: each node and way, and a multipolygon.
pub(crate) fn may_be_shown(entity: Entity) -> bool
    ensures { result ≡ is_shown (entity_told entity.entry) }
{
    match entity {
        Entity::Node(_) | Entity::Way(_) => true,
        Entity::Relation(relation) => is_multipolygon(relation.tags()),
    }
}

// Whether tags tell a multipolygon.
fn is_multipolygon(tags: TagCursor) -> bool
    ensures { result ≡ has_its_type (all_tags tags.entry) }
{
    match tags.value(b"type") {
        Some(value) => value == b"multipolygon".as_slice(),
        None => false,
    }
}
