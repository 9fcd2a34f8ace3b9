//! Sub-files go from their parts to a sink.

ghost use Rattle.std.specs.Prelude.{◌≡◌, ◌≢◌, ◌+◌, ◌-◌, ◌*◌, ◌≤◌, true, [], length, drop, sum_by, Err, OnOk, OnErr};
ghost use Rattle.std.specs.List.{AllByRecursion};
ghost use Rattle.mf_edge.specs.Device.{Gained, GainedFront, CountsOne};
ghost use Rattle.mf_edge.specs.Spill.{SameParts};
ghost use Rattle.mf_rows.specs.Kinds.{index_kind};
ghost use Rattle.spill_parts.specs.Parts.{IsReading, HasItsSize};
ghost use Rattle.mf_layout.specs.SubFiles.{IsSubFile, Fit, sub_files_told, tiles_in, bytes_in};

use crate::emit::EmitFault;
use crate::index_out::{ENTRY_SIZE, put_index};
use crate::sub_files::SubFileSize;
use crate::tiles_out::put_stretch;
use mf_base::out_buf::OutBuf;
use mf_edge::{Sink, Spill, Steps};
use mf_rows::kinds::IndexRow;
use spill_parts::{BytePart, Page, Reader};
use std::sync::ledger::Ledger;

// Puts the sub-files of these sizes. Their rows are the next of a reader, and their tiles stand in a part from a place
// on.
pub(crate) fn put_sub_files<P: Spill, K: Sink, L: Ledger>(
    sizes: &[SubFileSize],
    rows: &mut Reader<IndexRow>,
    tiles: &BytePart,
    at: u64,
    buffer: &mut OutBuf,
    page: &mut Page,
    spill: &mut P,
    out: &mut K,
    steps: &mut Steps<L>,
) -> Result<(), EmitFault>
    requires started { (P.state spill.old).is_started ≡ true }
    requires reading { IsReading index_kind rows.old page.old (P.state spill.old) }
    requires held { HasItsSize tiles.now (P.state spill.old) }
    requires whole { (P.state spill.old).tells ≡ true
        → length ((P.state spill.old).bytes tiles.now.part) ≡ tiles.now.size }
    requires each { AllByRecursion IsSubFile sizes.now }
    requires rows { tiles_in sizes.now ≡ length rows.old.left }
    requires bytes { at + bytes_in sizes.now ≡ 5 * tiles_in sizes.now + tiles.now.size }
    requires fits { (P.state spill.old).tells ≡ true → Fit sizes.now rows.old.left }
    requires empty { buffer.old.bytes ≡ [] }
    requires room { 5 ≤ buffer.old.capacity }
    ensures all { OnOk result ((P.state spill.old).tells ≡ true → Gained (K.state out.old)
        (sub_files_told sizes.now rows.old.left (drop at ((P.state spill.old).bytes tiles.now.part)))
        (K.state out.new)) }
    ensures front { OnErr result ((P.state spill.old).tells ≡ true → GainedFront (K.state out.old)
        (sub_files_told sizes.now rows.old.left (drop at ((P.state spill.old).bytes tiles.now.part)))
        (K.state out.new)) }
    ensures most { steps.new + 18 * rows.old.loaded + at
        ≤ steps.old + 18 * length rows.old.source.rows + tiles.now.size }
    ensures capacity { buffer.new.capacity ≡ buffer.old.capacity }
    ensures same_room { page.new.room ≡ page.old.room }
    ensures write { result ≡ Err EmitFault.Write → CountsOne (K.state out.old).faults (K.state out.new).faults }
    ensures same_output { result ≢ Err EmitFault.Write → (K.state out.new).faults ≡ (K.state out.old).faults }
    ensures spill { result ≡ Err EmitFault.Spill → CountsOne (P.state spill.old).faults (P.state spill.new).faults }
    ensures same_store { result ≢ Err EmitFault.Spill → (P.state spill.new).faults ≡ (P.state spill.old).faults }
    ensures same { SameParts (P.state spill.old) (P.state spill.new) }
{
    let Some((first, others)) = sizes.split_first() else {
        return Ok(());
    };
    put_index(*first, rows, buffer, page, spill, out, steps)?;
    let _whole = tiles.len();
    let end = at + (first.bytes - ENTRY_SIZE * first.tiles);
    put_stretch(tiles, at, end, spill, out, steps)?;
    put_sub_files(others, rows, tiles, end, buffer, page, spill, out, steps)
}
