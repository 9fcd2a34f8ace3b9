//! A pass over the entities of a whole extract, from any source, also from one that does not tell its bytes.

ghost use Rattle.std.specs.Prelude.{◌≡◌, ◌≤◌, ℕ, List, [], Some, Err};
ghost use Rattle.mf_edge.specs.Stream.{FailsWhere, IsWalk, at};
ghost use Rattle.osm_model.specs.declared.limits.TheConstants.{BLOB_LIMIT, FRAME_LIMIT};
ghost use Rattle.extract_pass.specs.EntityPass.{TellsPass, TellsPassOf, told_fault, told_stop};

use crate::behind::Behind;
use crate::fault::{BlobStop, PassFault};
use crate::reader::EntityReader;
use mf_base::place::Rect;
use mf_edge::{Block, Source, Stream};
use osm_model::faults::{InputCode, InputFault};
use pbf_block::strings::Strings;
use pbf_frame::frame_fault::NextFault;
use pbf_frame::frames::Frames;

/// Hands the entities of an extract to a reader, one after another, up to the first fault, and answers the box of the
/// first header that has one, in microdegrees. The stream and the reader are not to be used again after a fault. The
/// block and the strings are room to work in.
pub fn read_entities<S: Source, R: EntityReader>(
    src: &mut Stream<S>,
    block: &mut Block,
    strings: &mut Strings,
    reader: &mut R,
) -> Result<Option<Rect>, PassFault>
    requires room { BLOB_LIMIT ≤ block.old.capacity }
    requires start { (at S.state src.old).offset ≡ 0 }
    requires begun { (first : R) × R.stands first reader.old [] }

    // Over every source, also one that does not tell its bytes.
    ensures told { (first : R) → R.stands first reader.old []
        → TellsPass (R.stands first reader.new) (R.stopped first reader.new) (at S.state src.old) result
        (at S.state src.new) }

    // Over a source that tells its bytes.
    ensures exact { (first : R) (all : List ℕ) → R.stands first reader.old []
        → (at S.state src.old).source.left ≡ Some all
        → TellsPassOf (R.stands first reader.new) (R.stopped first reader.new) all result }
    ensures faults { FailsWhere (result ≡ Err PassFault.Read) (at S.state src.old) (at S.state src.new) }

    // At most as many reads as bytes were taken and one blob more has.
    ensures walk { IsWalk FRAME_LIMIT (at S.state src.old) (at S.state src.new) }
    ensures capacity { block.new.capacity ≡ block.old.capacity }
{
    let mut frames = Frames::new();
    let mut behind = Behind::new();
    loop {
        match frames.next(src, block) {
            Ok(Some(frame)) => {
                let raw = &block.bytes()[frame.start..frame.end];
                if let Err(stop) = behind.read(frame.kind, raw, strings, reader) {
                    return Err(stopped_at(frame.at, stop));
                }
            }
            Ok(None) => return Ok(behind.bounds()),
            Err(fault) => return Err(pass_fault(fault)),
        }
    }
}

// The fault of a pass that stopped in the blob that begins here.
fn stopped_at(at: u64, stop: BlobStop) -> PassFault
    ensures { result ≡ told_stop at stop }
{
    match stop {
        BlobStop::Fault(code) => PassFault::Input(InputFault { at, code }),
        BlobStop::Reader => PassFault::Stopped,
    }
}

// The fault of a pass where no next blob was given.
fn pass_fault(fault: NextFault) -> PassFault
    ensures { result ≡ told_fault fault }
{
    match fault {
        NextFault::Read => PassFault::Read,
        NextFault::Frame { at, fault } => PassFault::Input(InputFault {
            at,
            code: InputCode::Frame(fault),
        }),
    }
}
