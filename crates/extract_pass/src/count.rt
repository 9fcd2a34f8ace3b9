//! How many entities a whole extract has, from any source, also from one that does not tell its bytes.

ghost use Rattle.std.specs.Prelude.{◌≡◌, ◌≤◌, ℕ, List, Some, Err};
ghost use Rattle.mf_edge.specs.Stream.{FailsWhere, IsWalk, at};
ghost use Rattle.osm_model.specs.declared.limits.TheConstants.{BLOB_LIMIT, FRAME_LIMIT};
ghost use Rattle.extract_pass.specs.Counting.{TellsCount, TellsCountOf};

use crate::counts::Counts;
use crate::fault::PassFault;
use crate::pass::read_entities;
use mf_base::place::Rect;
use mf_edge::{Block, Source, Stream};
use pbf_block::strings::Strings;

/// How many entities an extract has, and the box that is known of it, in microdegrees.
#[derive(Clone, Copy, Debug, PartialEq, Eq)]
pub struct Counted {
    pub counts: Counts,
    pub bounds: Option<Rect>,
}

/// How many nodes, ways and relations an extract has, and the box of the words, or else its own; or its first fault,
/// never `Stopped`. The stream is not to be used again after a fault. The block and the strings are room to work in.
pub fn count_extract<S: Source>(
    src: &mut Stream<S>,
    block: &mut Block,
    strings: &mut Strings,
    words: Option<Rect>,
) -> Result<Counted, PassFault>
    requires room { BLOB_LIMIT ≤ block.old.capacity }
    requires start { (at S.state src.old).offset ≡ 0 }

    // Over every source, also one that does not tell its bytes.
    ensures told { TellsCount words (at S.state src.old) result (at S.state src.new) }

    // Over a source that tells its bytes.
    ensures exact { (all : List ℕ) → (at S.state src.old).source.left ≡ Some all → TellsCountOf words all result }
    ensures faults { FailsWhere (result ≡ Err PassFault.Read) (at S.state src.old) (at S.state src.new) }

    // At most as many reads as bytes were taken and one blob more has.
    ensures walk { IsWalk FRAME_LIMIT (at S.state src.old) (at S.state src.new) }
    ensures capacity { block.new.capacity ≡ block.old.capacity }
{
    let mut counts = Counts::new();
    match read_entities(src, block, strings, &mut counts) {
        Ok(bounds) => Ok(Counted {
            counts,
            bounds: words.or(bounds),
        }),
        Err(fault) => Err(fault),
    }
}

#[cfg(test)]
mod tests;
