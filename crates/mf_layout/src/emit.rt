//! The map goes to the sink.

ghost use Rattle.std.specs.Prelude.{◌≡◌, ◌≢◌, ◌+◌, ◌*◌, ◌-◌, ◌≤◌, true, None, List, length, Err, OnOk, OnErr, IsTrue};
ghost use Rattle.mf_edge.specs.Device.{Gained, GainedFront, CountsOne};
ghost use Rattle.mf_edge.specs.Spill.{SameStore, SameParts};
ghost use Rattle.map_model.specs.Intervals.{are_intervals};
ghost use Rattle.map_model.specs.Header.{header_size};
ghost use Rattle.map_model.specs.SubFile.{TileContent};
ghost use Rattle.map_model.specs.MapFile.{map_of_contents};
ghost use Rattle.map_header.specs.Shown.{settings_of};
ghost use Rattle.mf_rows.specs.Kinds.{index_kind};
ghost use Rattle.spill_parts.specs.Parts.{IsHeld, HasItsSize};
ghost use Rattle.mf_layout.specs.SubFiles.{AreSubFiles, HoldTiles, AreGone};

use crate::buffered::flush;
use crate::head_out::put_head;
use crate::sub_files::SubFiles;
use crate::sub_files_out::put_sub_files;
use map_header::head_settings::HeadSettings;
use map_header::tag_source::TagSource;
use mf_base::out_buf::OutBuf;
use mf_base::place::Rect;
use mf_edge::{Sink, Spill, Steps};
use spill_parts::{Page, Reader, forget_part};
use std::sync::ledger::Ledger;

/// Why a map was not written whole.
#[derive(Clone, Copy, Debug, PartialEq, Eq)]
pub enum EmitFault {
    /// The sink failed.
    Write,
    /// The store failed.
    Spill,
}

/// Writes the map of tiles whose sub-files are in the store: the header in one write, and behind it each sub-file, its
/// index and the bytes of its tiles. `head` is the room for the header; what it holds is forgotten.
pub fn emit<T: TagSource, P: Spill, K: Sink, L: Ledger>(
    set: &HeadSettings,
    bounds: &Rect,
    tags: &T,
    subs: SubFiles,
    head: &mut OutBuf,
    page: &mut Page,
    spill: &mut P,
    out: &mut K,
    steps: &mut Steps<L>,
) -> Result<(), EmitFault>
    requires intervals { IsTrue (are_intervals set.now.intervals.items) }
    requires room { header_size (settings_of set.now) (T.names tags.now) ≤ head.old.capacity }
    requires started { (P.state spill.old).is_started ≡ true }
    requires subs { AreSubFiles (length set.now.intervals.items) subs }
    requires index { IsHeld index_kind subs.index (P.state spill.old) }
    requires tiles { HasItsSize subs.tiles (P.state spill.old) }
    requires apart { subs.index.part ≢ subs.tiles.part }
    requires found { (P.state spill.old).tells ≡ true → (all : List (List TileContent)) × HoldTiles all subs
        (P.state spill.old) }

    // Over a store that tells its bytes, the sink took the map of the tiles, or a front of it.
    ensures ok { OnOk result ((all : List (List TileContent)) → (P.state spill.old).tells ≡ true
        → HoldTiles all subs (P.state spill.old) → Gained (K.state out.old)
        (map_of_contents (settings_of set.now) (T.names tags.now) bounds.now all) (K.state out.new)) }
    ensures front { OnErr result ((all : List (List TileContent)) → (P.state spill.old).tells ≡ true
        → HoldTiles all subs (P.state spill.old) → GainedFront (K.state out.old)
        (map_of_contents (settings_of set.now) (T.names tags.now) bounds.now all) (K.state out.new)) }

    // Over every store.
    ensures steps { steps.new ≤ steps.old + 18 * length subs.index.rows + subs.tiles.size }
    ensures gone { OnOk result (AreGone subs (P.state spill.old) (P.state spill.new)) }
    ensures kept { OnErr result (SameParts (P.state spill.old) (P.state spill.new)) }
    ensures write { result ≡ Err EmitFault.Write → CountsOne (K.state out.old).faults (K.state out.new).faults }
    ensures same_output { result ≢ Err EmitFault.Write → (K.state out.new).faults ≡ (K.state out.old).faults }
    ensures spill { result ≡ Err EmitFault.Spill → CountsOne (P.state spill.old).faults (P.state spill.new).faults }
    ensures same_store { result ≢ Err EmitFault.Spill → (P.state spill.new).faults ≡ (P.state spill.old).faults }
    ensures same { SameStore (P.state spill.old) (P.state spill.new) }
    ensures same_overrun { (P.state spill.new).is_overrun ≡ (P.state spill.old).is_overrun }
    ensures capacity { head.new.capacity ≡ head.old.capacity }
    ensures same_room { page.new.room ≡ page.old.room }
{
    head.clear();
    put_head(head, set, bounds, tags, &subs.sizes);
    flush(head, out)?;
    let mut rows = Reader::start(&subs.index);
    put_sub_files(
        &subs.sizes,
        &mut rows,
        &subs.tiles,
        0,
        head,
        page,
        spill,
        out,
        steps,
    )?;
    forget_part(spill, subs.index);
    subs.tiles.forget(spill);
    Ok(())
}

#[cfg(test)]
mod tests;
