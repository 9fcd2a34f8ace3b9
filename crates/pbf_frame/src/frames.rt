//! The blobs of an input, however it is cut: the OpenStreetMap wiki, "PBF Format", on its file format.

ghost use Rattle.std.specs.Prelude.{◌≡◌, ◌≢◌, ◌↔◌, ℕ, ◌+◌, ◌-◌, ◌<◌, ◌≤◌, ◌^◌, List, IfOk, IfSome, Ok, Err, Some, None};
ghost use Rattle.mf_edge.specs.Stream.{IsWalk, FailsWhere, at};
ghost use Rattle.osm_model.specs.declared.limits.TheConstants.{BLOB_LIMIT, FRAME_LIMIT, OFFSET_LIMIT};
ghost use Rattle.osm_model.specs.Frames.{frames_at, next_known, PassesOver};
ghost use Rattle.pbf_frame.specs.FrameReading.{TakesBlobs, IsNext, LeavesBlobs, IsInBlock, IsGiven};

use crate::blob_read::{Step, read_blob};
use crate::frame::Frame;
use crate::frame_fault::NextFault;
use mf_edge::{Block, Source, Stream};

/// Gives the blobs of an input.
#[derive(Debug, Drop)]
pub struct Frames;

impl Frames {
    /// A reader of blobs.
    pub fn new() -> Frames {
        Frames
    }

    /// The next blob whose type is `OSMHeader` or `OSMData`. Its raw bytes are in the block. Blobs of other types are
    /// passed over, unread. None comes at the end of the input, before a blob.
    ///
    /// The block has room for the longest Blob. The stream is not to be used again after a fault.
    pub fn next<S: Source>(
        &mut self,
        src: &mut Stream<S>,
        block: &mut Block,
    ) -> Result<Option<Frame>, NextFault>
        requires room { BLOB_LIMIT ≤ block.old.capacity }
        requires offset { (at S.state src.old).offset < 2 ^ 63 - 1 }

        // Over every source, also one that does not tell its bytes.
        ensures takes { TakesBlobs (at S.state src.old) block.new.bytes result (at S.state src.new) }

        // Over a source that tells its bytes: what comes next, exactly, and what is left to come.
        ensures next { (all : List ℕ) → (at S.state src.old).source.left ≡ Some all
            → IsNext block.new.bytes result (next_known (frames_at (at S.state src.old).offset all)) }
        ensures in_order { (all : List ℕ) → (at S.state src.old).source.left ≡ Some all → result ≢ Err NextFault.Read
            → LeavesBlobs all (at S.state src.old) block.new.bytes result (at S.state src.new) }
        ensures end { (all : List ℕ) → (at S.state src.old).source.left ≡ Some all → result ≢ Err NextFault.Read
            → ((result ≡ Ok None) ↔ PassesOver (at S.state src.old).offset all) }

        ensures faults { FailsWhere (result ≡ Err NextFault.Read) (at S.state src.old) (at S.state src.new) }

        ensures place { IfOk result (λ next. IfSome next (λ f. IsInBlock f block.new.bytes)) }
        ensures given { IfOk result (λ next. IfSome next (λ _. IsGiven (at S.state src.old) (at S.state src.new))) }

        // No blob begins at the limit or later: of such a place one byte is read.
        ensures near { (at S.state src.old).offset < OFFSET_LIMIT
            → (at S.state src.new).offset ≤ OFFSET_LIMIT + FRAME_LIMIT }
        ensures far { OFFSET_LIMIT ≤ (at S.state src.old).offset
            → (at S.state src.new).offset ≤ (at S.state src.old).offset + 1 }

        // At most as many reads as bytes were taken and one blob more has.
        ensures walk { IsWalk FRAME_LIMIT (at S.state src.old) (at S.state src.new) }
        ensures capacity { block.new.capacity ≡ block.old.capacity }
    {
        next_blob(src, block)
    }
}

// The next blob of a type that is read.
fn next_blob<S: Source>(src: &mut Stream<S>, block: &mut Block) -> Result<Option<Frame>, NextFault>
    requires room { BLOB_LIMIT ≤ block.old.capacity }
    requires offset { (at S.state src.old).offset < 2 ^ 63 - 1 }
    ensures takes { TakesBlobs (at S.state src.old) block.new.bytes result (at S.state src.new) }
    ensures faults { FailsWhere (result ≡ Err NextFault.Read) (at S.state src.old) (at S.state src.new) }

    ensures place { IfOk result (λ next. IfSome next (λ f. IsInBlock f block.new.bytes)) }
    ensures given { IfOk result (λ next. IfSome next (λ _. IsGiven (at S.state src.old) (at S.state src.new))) }

    ensures near { (at S.state src.old).offset < OFFSET_LIMIT
        → (at S.state src.new).offset ≤ OFFSET_LIMIT + FRAME_LIMIT }
    ensures far { OFFSET_LIMIT ≤ (at S.state src.old).offset
        → (at S.state src.new).offset ≤ (at S.state src.old).offset + 1 }

    ensures walk { IsWalk FRAME_LIMIT (at S.state src.old) (at S.state src.new) }
    ensures capacity { block.new.capacity ≡ block.old.capacity }
{
    loop {
        match read_blob(src, block)? {
            Step::Passed => {}
            Step::Kept(frame) => return Ok(Some(frame)),
            Step::End => return Ok(None),
        }
    }
}

#[cfg(test)]
mod tests;
