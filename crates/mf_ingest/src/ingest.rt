//! The entities of an input become parts of rows.

ghost use Rattle.std.specs.Prelude.{◌≡◌, ◌≢◌, ◌*◌, ◌≤◌, ℕ, List, [], length, Some, Err, IfOk, IfSome, IsTrue};
ghost use Rattle.mf_base.specs.Ranges.{is_rect};
ghost use Rattle.mf_edge.specs.Device.{CountsOne};
ghost use Rattle.mf_edge.specs.Spill.{SameStore};
ghost use Rattle.mf_edge.specs.Stream.{FailsWhere, IsWalk, at};
ghost use Rattle.osm_model.specs.declared.limits.TheConstants.{BLOB_LIMIT, FRAME_LIMIT};
ghost use Rattle.spill_parts.specs.Parts.{HasJust};
ghost use Rattle.spill_parts.specs.Handed.{ingested_pieces};
ghost use Rattle.extract_pass.specs.EntityPass.{TellsPass, TellsPassOf};
ghost use Rattle.mf_ingest.specs.Ingesting.{HasIngested, HasFailed, most_per_byte};
ghost use Rattle.mf_ingest.specs.Ingest.{TellsIngest, TellsIngestOf, HasSmallParts, AreWithin, told_pass};

use crate::gathering::Gathering;
use crate::ingester::Ingester;
use extract_pass::fault::PassFault;
use extract_pass::pass::read_entities;
use mf_base::place::Rect;
use mf_edge::{Block, Failed, Source, Spill, Stream};
use osm_model::faults::InputFault;
use pbf_block::strings::Strings;
use spill_parts::Ingested;
use tag_mapping::mapping::Mapping;
use thiserror::Error;

/// Why an input was not read.
#[derive(Clone, Copy, Debug, PartialEq, Eq, Error)]
pub enum IngestFault {
    /// The first fault of the input.
    #[error("{0}")]
    Input(InputFault),
    /// The source failed.
    #[error("the input could not be read")]
    Read,
    /// The store failed.
    #[error("the spill store failed")]
    Spill,
}

/// Reads an input to its end or to its first fault, and puts the rows of its entities to six parts, the first of a
/// started store. The block and the strings are room to work in. After a fault the stream and the parts are not to be
/// used again.
pub fn ingest<S: Source, P: Spill>(
    mapping: &Mapping,
    block: &mut Block,
    strings: &mut Strings,
    src: &mut Stream<S>,
    spill: &mut P,
) -> Result<Ingested, IngestFault>
    requires room { BLOB_LIMIT ≤ block.old.capacity }
    requires start { (at S.state src.old).offset ≡ 0 }
    requires empty { HasJust [] (P.state spill.old) }

    // Over every source, also one that does not tell its bytes, and over every store.
    ensures told { TellsIngest mapping.now (at S.state src.old) result (at S.state src.new) }

    // Over a source that tells its bytes.
    ensures exact { (all : List ℕ) → (at S.state src.old).source.left ≡ Some all → TellsIngestOf mapping.now all result }

    // The box, where the input gives one, is a rectangle on the earth, each least side at most its greatest.
    ensures on_earth { IfOk result (λ found. IfSome found.bounds (λ box. IsTrue (is_rect box))) }

    // No part has more than this many bytes for each byte of the input.
    ensures sizes { (all : List ℕ) → (at S.state src.old).source.left ≡ Some all
        → IfOk result (λ found. AreWithin (most_per_byte * length all) (ingested_pieces found)) }

    ensures just { IfOk result (λ found. HasJust (ingested_pieces found) (P.state spill.new)) }
    ensures faults { FailsWhere (result ≡ Err IngestFault.Read) (at S.state src.old) (at S.state src.new) }
    ensures spill { result ≡ Err IngestFault.Spill → CountsOne (P.state spill.old).faults (P.state spill.new).faults }
    ensures same_store { result ≢ Err IngestFault.Spill → (P.state spill.new).faults ≡ (P.state spill.old).faults }
    ensures same { SameStore (P.state spill.old) (P.state spill.new) }

    // The store becomes overrun only where entities of the input can pass the limit of a part.
    ensures within { (all : List ℕ) → (at S.state src.old).source.left ≡ Some all → HasSmallParts all
        → (P.state spill.new).is_overrun ≡ (P.state spill.old).is_overrun }

    // At most as many reads as bytes were taken and one blob more has.
    ensures walk { IsWalk FRAME_LIMIT (at S.state src.old) (at S.state src.new) }
    ensures capacity { block.new.capacity ≡ block.old.capacity }
{
    let parts = match Gathering::make(spill) {
        Ok(parts) => parts,
        Err(Failed) => return Err(IngestFault::Spill),
    };
    let mut ingester = Ingester::new(mapping, spill, parts);
    match fill(src, block, strings, &mut ingester) {
        Ok(bounds) => Ok(ingester.finish(bounds)),
        Err(fault) => Err(ingest_fault(fault)),
    }
}

// Hands the entities of an input to an ingester that has read none, and answers the box of the input.
fn fill<S: Source, P: Spill>(
    src: &mut Stream<S>,
    block: &mut Block,
    strings: &mut Strings,
    ingester: &mut Ingester<'_, P>,
) -> Result<Option<Rect>, PassFault>
    requires room { BLOB_LIMIT ≤ block.old.capacity }
    requires start { (at S.state src.old).offset ≡ 0 }
    requires begun { HasIngested P.state ingester.old ingester.old [] }
    ensures told { TellsPass (HasIngested P.state ingester.old ingester.new)
        (HasFailed P.state ingester.old ingester.new) (at S.state src.old) result (at S.state src.new) }
    ensures exact { (all : List ℕ) → (at S.state src.old).source.left ≡ Some all
        → TellsPassOf (HasIngested P.state ingester.old ingester.new) (HasFailed P.state ingester.old ingester.new) all
        result }
    ensures faults { FailsWhere (result ≡ Err PassFault.Read) (at S.state src.old) (at S.state src.new) }
    ensures spill { result ≡ Err PassFault.Stopped
        → CountsOne (P.state ingester.old.spill.now).faults (P.state ingester.new.spill.now).faults }
    ensures same_store { result ≢ Err PassFault.Stopped
        → (P.state ingester.new.spill.now).faults ≡ (P.state ingester.old.spill.now).faults }
    ensures same { SameStore (P.state ingester.old.spill.now) (P.state ingester.new.spill.now) }
    ensures within { (all : List ℕ) → (at S.state src.old).source.left ≡ Some all → HasSmallParts all
        → (P.state ingester.new.spill.now).is_overrun ≡ (P.state ingester.old.spill.now).is_overrun }
    ensures reference { ingester.new.spill.ghost_name ≡ ingester.old.spill.ghost_name }
    ensures walk { IsWalk FRAME_LIMIT (at S.state src.old) (at S.state src.new) }
    ensures capacity { block.new.capacity ≡ block.old.capacity }
{
    read_entities(src, block, strings, ingester)
}

// The fault of a pass whose reader stops only where the store fails.
fn ingest_fault(fault: PassFault) -> IngestFault
    ensures { result ≡ told_pass fault }
{
    match fault {
        PassFault::Input(fault) => IngestFault::Input(fault),
        PassFault::Read => IngestFault::Read,
        PassFault::Stopped => IngestFault::Spill,
    }
}

#[cfg(test)]
mod tests;
