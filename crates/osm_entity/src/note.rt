//! The order behind one entity more.

ghost use Rattle.std.specs.Prelude.{◌≡◌, ◌≤◌, ◌++◌, ◌∷◌, [], List, false};
ghost use Rattle.osm_model.specs.Entities as entities;
ghost use Rattle.osm_model.specs.Entities.{kind_of};
ghost use Rattle.osm_model.specs.Order.{has_later_kind, rank};
ghost use Rattle.osm_entity.specs.Order.{StandsBehind};
ghost use Rattle.osm_entity.specs.EntityViews.{entity_told};

use crate::entity::Entity;
use crate::order::Order;
use mf_base::kind::EntityKind;

// One entity more, whose kind is none before the last.
pub(crate) fn note(entity: Entity, order: &mut Order)
    requires { rank order.old.kind ≤ rank (kind_of (entity_told entity)) }
    ensures { (before : List entities.Entity) → StandsBehind before order.old
        → has_later_kind (kind_of (entity_told entity.entry)) before ≡ false
        → StandsBehind (before ++ entity_told entity.entry ∷ []) order.new }
{
    match entity {
        Entity::Node(view) => order.note(EntityKind::Node, view.id()),
        Entity::Way(view) => order.note(EntityKind::Way, view.id()),
        Entity::Relation(view) => order.note(EntityKind::Relation, view.id()),
    }
}
