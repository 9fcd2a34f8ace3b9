//! What reads the entities of an extract.

use osm_entity::entity::Entity;

/// The reader takes no further entity. It keeps the reason itself.
#[derive(Clone, Copy, Debug, PartialEq, Eq)]
pub struct Stopped;

/// Reads entities, one behind another.
pub trait EntityReader {
    ghost use Rattle.std.specs.Prelude.{◌≡◌, ◌<◌, ◌≤◌, ◌^◌, List, ◌∷◌, ◌++◌, length};
    ghost use Rattle.osm_model.specs.Entities as model;
    ghost use Rattle.osm_model.specs.Order.{IsRising};
    ghost use Rattle.osm_entity.specs.EntityViews.{entity_told, entity_block};
    ghost use Rattle.extract_pass.specs.EntitySizes.{entity_size};
    ghost use Rattle.extract_pass.specs.BlobReading.{AnswersEntity};

    // Of the reader as it was at first and as it is now: it has read these entities.
    ghost stands: { Self → Self → List model.Entity → Type 0 };

    // It had read these entities, and stopped at this one.
    ghost stopped: { Self → Self → List model.Entity → model.Entity → Type 0 };

    /// Reads an entity, which is lent from this block, behind those before it. After `Stopped` the reader is not to be
    /// used again.
    fn read(&mut self, entity: Entity, block: &[u8]) -> Result<(), Stopped>
        requires near { length block.now < 2 ^ 32 }
        requires stood { (first : Self) × (before : List model.Entity) × stands first self.old before }
        requires lent { entity_block entity ≡ block.now }
        requires few { entity_size (entity_told entity) ≤ length block.now }
        ensures { (first : Self) (before more : List model.Entity)
            → IsRising (before ++ entity_told entity.entry ∷ more) → stands first self.old before
            → AnswersEntity (stands first self.new) (stopped first self.new) before (entity_told entity.entry) result };
}
