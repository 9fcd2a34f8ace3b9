//! The reader of entities that puts their rows to parts.

ghost use Rattle.std.specs.Prelude.{◌≡◌, []};
ghost use Rattle.extract_pass.specs.Counting.{counts_of};
ghost use Rattle.spill_parts.specs.Handed.{ingested_rows, ingested_pieces};
ghost use Rattle.mf_ingest.specs.Gathered.{gathered_pieces, gathered_rows};

use crate::gathering::Gathering;
use extract_pass::counts::Counts;
use extract_pass::reader::{EntityReader, Stopped};
use mf_base::place::Rect;
use mf_edge::{Failed, Spill};
use osm_entity::entity::Entity;
use spill_parts::Ingested;
use tag_mapping::mapping::Mapping;

// Puts the rows of entities to the parts of a store, and counts them.
#[derive(Drop)]
pub(crate) struct Ingester<'a, P> {
    mapping: &'a Mapping,
    spill: &'a mut P,
    parts: Gathering,
    counts: Counts,
}

impl<'a, P: Spill> Ingester<'a, P> {
    // Before the first entity.
    pub(crate) fn new(mapping: &'a Mapping, spill: &'a mut P, parts: Gathering) -> Ingester<'a, P>
        ensures mapping { result.mapping.now ≡ mapping.now }
        ensures store { P.state result.spill.now ≡ P.state spill.old }
        ensures reference { result.spill.ghost_name ≡ spill.entry.ghost_name }
        ensures parts { result.parts ≡ parts }
        ensures counts { result.counts ≡ counts_of [] }
    {
        Ingester {
            mapping,
            spill,
            parts,
            counts: Counts::new(),
        }
    }

    // The parts and the counts, with this box.
    pub(crate) fn finish(self, bounds: Option<Rect>) -> Ingested
        ensures counts { self.entry.counts ≡ record { nodes = result.nodes; ways = result.ways; relations = result.relations } }
        ensures bounds { result.bounds ≡ bounds }
        ensures rows { ingested_rows result ≡ gathered_rows self.entry.parts }
        ensures pieces { ingested_pieces result ≡ gathered_pieces self.entry.parts }
        ensures store { self.exit.1.0.now ≡ self.entry.spill.now }
    {
        let Counts {
            nodes,
            ways,
            relations,
        } = self.counts;
        self.parts.finish(nodes, ways, relations, bounds)
    }
}

impl<P: Spill> EntityReader for Ingester<'_, P> {
    ghost use Rattle.mf_ingest.specs.Ingesting.{HasIngested, HasFailed};

    ghost stands = { HasIngested P.state };

    ghost stopped = { HasFailed P.state };

    fn read(&mut self, entity: Entity, block: &[u8]) -> Result<(), Stopped> {
        self.counts.add(entity);
        match self.parts.put(self.mapping, entity, block, self.spill) {
            Ok(()) => Ok(()),
            Err(Failed) => Err(Stopped),
        }
    }
}
