//! The order of the entities of an input: kinds do not go back, and the ids of each kind rise.

ghost use Rattle.std.specs.Prelude.{◌≡◌, ◌<◌};
ghost use Rattle.osm_model.specs.Order as orders;

use mf_base::kind::EntityKind;
use osm_model::faults::EntityFault;

/// The last kind and the last id of each kind that was given. No kind after the last has one, so that an order always
/// stands behind some entities.
#[derive(Clone, Copy, Debug, PartialEq, Eq)]
pub struct Order {
    kind: EntityKind,
    node: u64,
    way: u64,
    relation: u64,
    ghost no_way: { orders.rank kind < 1 → way ≡ 0 },
    ghost no_relation: { orders.rank kind < 2 → relation ≡ 0 },
}

impl Order {
    ghost use Rattle.std.specs.Prelude.{◌≡◌, ◌≤◌, ℕ, List, [], ◌∷◌, ◌++◌, false, None, Some, MatchResult, nat_abs};
    ghost use Rattle.osm_model.specs.Entities.{Entity, kind_of, id_of};
    ghost use Rattle.osm_model.specs.Order.{order_fault, has_later_kind, rank};
    ghost use Rattle.osm_entity.specs.Order.{StandsBehind, kept_id};

    /// The order before the first entity: each last id is 0.
    pub fn new() -> Order
        ensures { StandsBehind [] result }
    {
        Order {
            kind: EntityKind::Node,
            node: 0,
            way: 0,
            relation: 0,
        }
    }

    // The id of an entity of this kind that stands next, or its fault.
    pub(crate) fn check(&self, kind: EntityKind, id: i64) -> Result<u64, EntityFault>
        ensures { (before : List Entity) → StandsBehind before self.now
            → MatchResult result (λ n. (order_fault before kind id ≡ None) × (n ≡ nat_abs id))
            (λ fault. order_fault before kind id ≡ Some fault) }
    {
        if rank(kind) < rank(self.kind) {
            return Err(EntityFault::KindOrder);
        }
        let last = self.last(kind);
        if id <= 0 {
            return Err(EntityFault::OutOfOrder { last, id });
        }
        if id as u64 <= last {
            return Err(EntityFault::OutOfOrder { last, id });
        }
        Ok(id as u64)
    }

    // One entity more of this kind and id, whose kind is none before the last.
    pub(crate) fn note(&mut self, kind: EntityKind, id: u64)
        requires { rank self.old.kind ≤ rank kind }
        ensures { (before : List Entity) (e : Entity) → StandsBehind before self.old
            → has_later_kind kind before ≡ false → kind_of e ≡ kind → id_of e ≡ id
            → StandsBehind (before ++ e ∷ []) self.new }
    {
        self.kind = kind;
        match kind {
            EntityKind::Node => self.node = id,
            EntityKind::Way => self.way = id,
            EntityKind::Relation => self.relation = id,
        }
    }

    // The last id of a kind.
    fn last(&self, kind: EntityKind) -> u64
        ensures { result ≡ kept_id self.now kind }
    {
        match kind {
            EntityKind::Node => self.node,
            EntityKind::Way => self.way,
            EntityKind::Relation => self.relation,
        }
    }
}

// The place of a kind in an input.
fn rank(kind: EntityKind) -> u8
    ensures { result ≡ orders.rank kind }
{
    match kind {
        EntityKind::Node => 0,
        EntityKind::Way => 1,
        EntityKind::Relation => 2,
    }
}
