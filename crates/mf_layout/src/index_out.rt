//! The index of a sub-file goes from its rows to a sink.

ghost use Rattle.std.specs.Prelude.{◌≡◌, ◌≢◌, ◌+◌, ◌*◌, ◌<◌, ◌≤◌, ◌^◌, true, [], ◌++◌, List, length};
ghost use Rattle.std.specs.Prelude.{ℕ, take, drop, Err, IfOk, OnOk, OnErr};
ghost use Rattle.mf_base.specs.Buffer.{HasRoom};
ghost use Rattle.mf_edge.specs.Device.{Gained, GainedFront, CountsOne};
ghost use Rattle.mf_edge.specs.Spill.{SameParts};
ghost use Rattle.mf_rows.specs.Kinds.{index_kind};
ghost use Rattle.spill_parts.specs.Parts.{IsReading};
ghost use Rattle.mf_layout.specs.SubFiles.{IsSubFile, entries_told, tiles_size};

use crate::buffered::flush;
use crate::emit::EmitFault;
use crate::sub_files::SubFileSize;
use mf_base::out_buf::OutBuf;
use mf_edge::{Failed, Sink, Spill, Steps};
use mf_rows::kinds::IndexRow;
use spill_parts::{Page, Reader};
use std::sync::ledger::Ledger;
use tile_index::entry::put_entry;

// How many bytes an entry has.
pub(crate) const ENTRY_SIZE: u64 = 5;

// Puts the index of a sub-file, whose rows are the next of a reader.
pub(crate) fn put_index<P: Spill, K: Sink, L: Ledger>(
    size: SubFileSize,
    rows: &mut Reader<IndexRow>,
    buffer: &mut OutBuf,
    page: &mut Page,
    spill: &mut P,
    out: &mut K,
    steps: &mut Steps<L>,
) -> Result<(), EmitFault>
    requires started { (P.state spill.old).is_started ≡ true }
    requires reading { IsReading index_kind rows.old page.old (P.state spill.old) }
    requires size { IsSubFile size }
    requires there { size.tiles ≤ length rows.old.left }
    requires fits { (P.state spill.old).tells ≡ true
        → 5 * size.tiles + tiles_size (take size.tiles rows.old.left) ≤ size.bytes }
    requires empty { buffer.old.bytes ≡ [] }
    requires room { 5 ≤ buffer.old.capacity }
    ensures all { OnOk result ((P.state spill.old).tells ≡ true → Gained (K.state out.old)
        (entries_told (5 * size.tiles) (take size.tiles rows.old.left)) (K.state out.new)) }
    ensures front { OnErr result ((P.state spill.old).tells ≡ true → GainedFront (K.state out.old)
        (entries_told (5 * size.tiles) (take size.tiles rows.old.left)) (K.state out.new)) }
    ensures left { OnOk result (rows.new.left ≡ drop size.tiles rows.old.left) }
    ensures reading { OnOk result (IsReading index_kind rows.new page.new (P.state spill.new)) }
    ensures source { rows.new.source ≡ rows.old.source }
    ensures steps { OnOk result (steps.new + 18 * rows.old.loaded ≡ steps.old + 18 * rows.new.loaded) }
    ensures most { steps.new + 18 * rows.old.loaded ≤ steps.old + 18 * length rows.old.source.rows }
    ensures empty { OnOk result (buffer.new.bytes ≡ []) }
    ensures capacity { buffer.new.capacity ≡ buffer.old.capacity }
    ensures same_room { page.new.room ≡ page.old.room }
    ensures write { result ≡ Err EmitFault.Write → CountsOne (K.state out.old).faults (K.state out.new).faults }
    ensures same_output { result ≢ Err EmitFault.Write → (K.state out.new).faults ≡ (K.state out.old).faults }
    ensures spill { result ≡ Err EmitFault.Spill → CountsOne (P.state spill.old).faults (P.state spill.new).faults }
    ensures same_store { result ≢ Err EmitFault.Spill → (P.state spill.new).faults ≡ (P.state spill.old).faults }
    ensures same { SameParts (P.state spill.old) (P.state spill.new) }
{
    let mut offset = ENTRY_SIZE * size.tiles;
    let mut left = size.tiles;
    while left > 0 {
        make_room(buffer, out)?;
        offset = put_next(size.bytes, offset, rows, buffer, page, spill, steps)?;
        left -= 1;
    }
    flush(buffer, out)
}

// Makes room for an entry.
fn make_room<K: Sink>(buffer: &mut OutBuf, out: &mut K) -> Result<(), EmitFault>
    requires { 5 ≤ buffer.old.capacity }
    ensures room { OnOk result (HasRoom buffer.new 5) }
    ensures all { OnOk result ((put : List ℕ) × (buffer.old.bytes ≡ put ++ buffer.new.bytes)
        × Gained (K.state out.old) put (K.state out.new)) }
    ensures same_faults { OnOk result ((K.state out.new).faults ≡ (K.state out.old).faults) }
    ensures front { OnErr result (GainedFront (K.state out.old) buffer.old.bytes (K.state out.new)) }
    ensures failed { OnErr result (CountsOne (K.state out.old).faults (K.state out.new).faults) }
    ensures fault { OnErr result (result ≡ Err EmitFault.Write) }
    ensures capacity { buffer.new.capacity ≡ buffer.old.capacity }
{
    if buffer.spare() as u64 >= ENTRY_SIZE {
        return Ok(());
    }
    flush(buffer, out)
}

// Puts the entry of the next row into the buffer, and answers the offset behind its tile.
fn put_next<P: Spill, L: Ledger>(
    end: u64,
    offset: u64,
    rows: &mut Reader<IndexRow>,
    buffer: &mut OutBuf,
    page: &mut Page,
    spill: &mut P,
    steps: &mut Steps<L>,
) -> Result<u64, EmitFault>
    requires started { (P.state spill.old).is_started ≡ true }
    requires reading { IsReading index_kind rows.old page.old (P.state spill.old) }
    requires there { 0 < length rows.old.left }
    requires end { end < 2 ^ 39 }
    requires offset { offset ≤ end }
    requires fits { (P.state spill.old).tells ≡ true → offset + tiles_size (take 1 rows.old.left) ≤ end }
    requires room { HasRoom buffer.old 5 }
    ensures put { OnOk result ((P.state spill.old).tells ≡ true
        → buffer.new.bytes ≡ buffer.old.bytes ++ entries_told offset (take 1 rows.old.left)) }
    ensures offset { IfOk result (λ next. (P.state spill.old).tells ≡ true
        → next ≡ offset + tiles_size (take 1 rows.old.left)) }
    ensures within { IfOk result (λ next. next ≤ end) }
    ensures left { OnOk result (rows.new.left ≡ drop 1 rows.old.left) }
    ensures reading { OnOk result (IsReading index_kind rows.new page.new (P.state spill.new)) }
    ensures source { rows.new.source ≡ rows.old.source }
    ensures steps { OnOk result (steps.new + 18 * rows.old.loaded ≡ steps.old + 18 * rows.new.loaded) }
    ensures most { steps.new + 18 * rows.old.loaded ≤ steps.old + 18 * length rows.old.source.rows }
    ensures capacity { buffer.new.capacity ≡ buffer.old.capacity }
    ensures same_room { page.new.room ≡ page.old.room }
    ensures same_faults { OnOk result ((P.state spill.new).faults ≡ (P.state spill.old).faults) }
    ensures failed { OnErr result (CountsOne (P.state spill.old).faults (P.state spill.new).faults) }
    ensures fault { OnErr result (result ≡ Err EmitFault.Spill) }
    ensures same_buffer { OnErr result (buffer.new ≡ buffer.old) }
    ensures same { SameParts (P.state spill.old) (P.state spill.new) }
{
    match rows.next(spill, page, steps) {
        Ok(Some(row)) if row.size <= end - offset => {
            put_entry(buffer, row.water == 1, offset);
            Ok(offset + row.size)
        }
        Ok(_) => {
            let Failed = spill.damaged();
            Err(EmitFault::Spill)
        }
        Err(Failed) => Err(EmitFault::Spill),
    }
}
