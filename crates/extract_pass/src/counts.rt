//! How many entities there are of each kind.

use crate::reader::{EntityReader, Stopped};
use osm_entity::entity::Entity;

/// How many nodes, ways and relations there are.
#[derive(Clone, Copy, Debug, PartialEq, Eq)]
pub struct Counts {
    pub nodes: u64,
    pub ways: u64,
    pub relations: u64,
}

impl Counts {
    ghost use Rattle.std.specs.Prelude.{◌≡◌, [], ◌∷◌, ◌++◌, List};
    ghost use Rattle.osm_model.specs.Entities as model;
    ghost use Rattle.osm_model.specs.Order.{IsRising};
    ghost use Rattle.osm_entity.specs.EntityViews.{entity_told};
    ghost use Rattle.extract_pass.specs.Counting.{counts_of};

    /// Of no entity.
    pub fn new() -> Counts
        ensures { result ≡ counts_of [] }
    {
        Counts {
            nodes: 0,
            ways: 0,
            relations: 0,
        }
    }

    /// One entity more. No count of entities in their order ends, since their ids rise.
    pub fn add(&mut self, entity: Entity)
        ensures { (before more : List model.Entity) → IsRising (before ++ entity_told entity.entry ∷ more)
            → self.old ≡ counts_of before → self.new ≡ counts_of (before ++ entity_told entity.entry ∷ []) }
    {
        match entity {
            Entity::Node(_) => self.nodes = self.nodes.saturating_add(1),
            Entity::Way(_) => self.ways = self.ways.saturating_add(1),
            Entity::Relation(_) => self.relations = self.relations.saturating_add(1),
        }
    }
}

impl EntityReader for Counts {
    ghost use Rattle.extract_pass.specs.Counting.{HasCounted, NeverStops};

    ghost stands = { HasCounted };

    ghost stopped = { NeverStops };

    fn read(&mut self, entity: Entity, _block: &[u8]) -> Result<(), Stopped> {
        self.add(entity);
        Ok(())
    }
}
