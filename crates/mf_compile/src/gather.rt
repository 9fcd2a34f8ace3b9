//! The input becomes parts, and its box is known.

ghost use Rattle.std.specs.Prelude.{◌≡◌, ◌≢◌, ◌*◌, ◌≤◌, ℕ, true, false, List, length, Some, Err, IfOk, IfSome, IsTrue};
ghost use Rattle.mf_base.specs.Ranges.{is_rect};
ghost use Rattle.mf_edge.specs.Device.{CountsOne};
ghost use Rattle.mf_edge.specs.Spill.{IsNameOf};
ghost use Rattle.osm_model.specs.declared.limits.TheConstants.{BLOB_LIMIT};
ghost use Rattle.spill_parts.specs.Parts.{HasJust};
ghost use Rattle.spill_parts.specs.Handed.{ingested_pieces};
ghost use Rattle.job_words.specs.Shown.{settings_of};
ghost use Rattle.mf_ingest.specs.Ingesting.{most_per_byte};
ghost use Rattle.mf_ingest.specs.Ingest.{HasSmallParts, AreWithin};
ghost use Rattle.mf_compile.specs.Gathering.{TellsGathered, TellsGatheredOf};

use crate::fault::Fault;
use job_words::settings::Settings;
use mf_base::place::Rect;
use mf_edge::{Block, Failed, Source, Spill, Stream};
use mf_ingest::ingest::ingest;
use pbf_block::strings::Strings;
use spill_parts::Ingested;

/// Starts the store in the job's folder, reads the input into its parts, and answers them with the box: that of the
/// words, or else that of the input. After a fault the parts are not to be used again.
pub(crate) fn gather<S: Source, P: Spill>(
    settings: &Settings,
    block: &mut Block,
    strings: &mut Strings,
    src: &mut S,
    spill: &mut P,
) -> Result<(Ingested, Rect), Fault>
    requires room { BLOB_LIMIT ≤ block.old.capacity }
    requires bounds { IfSome settings.now.bounds (λ box. IsTrue (is_rect box)) }
    requires name { IsNameOf settings.now.folder.bytes (P.state spill.old).name }

    // Over every source, also one that does not tell its bytes, and over every store.
    ensures told { TellsGathered (settings_of settings.now) (S.state src.old) result (S.state src.new) }

    // Over a source that tells its bytes.
    ensures exact { (all : List ℕ) → (S.state src.old).left ≡ Some all
        → TellsGatheredOf (settings_of settings.now) all result }

    ensures on_earth { IfOk result (λ r. IsTrue (is_rect r.1)) }

    // No part has more than this many bytes for each byte of the input.
    ensures sizes { (all : List ℕ) → (S.state src.old).left ≡ Some all
        → IfOk result (λ r. AreWithin (most_per_byte * length all) (ingested_pieces r.0)) }

    ensures just { IfOk result (λ r. HasJust (ingested_pieces r.0) (P.state spill.new)) }
    ensures read { result ≡ Err Fault.Read → CountsOne (S.state src.old).faults (S.state src.new).faults }
    ensures same_input { result ≢ Err Fault.Read → (S.state src.new).faults ≡ (S.state src.old).faults }
    ensures spill { result ≡ Err Fault.Spill → CountsOne (P.state spill.old).faults (P.state spill.new).faults }
    ensures same_store { result ≢ Err Fault.Spill → (P.state spill.new).faults ≡ (P.state spill.old).faults }

    // The store is that of the folder. It was started but where its start failed, and then nothing was read.
    ensures name { (P.state spill.new).name ≡ Some settings.now.folder.bytes }
    ensures tells { (P.state spill.new).tells ≡ (P.state spill.old).tells }
    ensures started { result ≢ Err Fault.Spill → (P.state spill.new).is_started ≡ true }
    ensures unread { (P.state spill.new).is_started ≡ false → S.state src.new ≡ S.state src.old }
    ensures not_overrun { (P.state spill.new).is_started ≡ false → (P.state spill.new).is_overrun ≡ false }

    // The store becomes overrun only where entities of the input can pass the limit of a part.
    ensures within { (all : List ℕ) → (S.state src.old).left ≡ Some all → HasSmallParts all
        → (P.state spill.new).is_overrun ≡ false }

    ensures capacity { block.new.capacity ≡ block.old.capacity }
{
    if let Err(Failed) = spill.start(settings.folder.as_str()) {
        return Err(Fault::Spill);
    }
    let mut input = Stream::new(src);
    let found = ingest(&settings.mapping, block, strings, &mut input, spill)?;
    match settings.bounds.or(found.bounds) {
        Some(bounds) => Ok((found, bounds)),
        None => Err(Fault::NoBox),
    }
}

#[cfg(test)]
mod tests;
