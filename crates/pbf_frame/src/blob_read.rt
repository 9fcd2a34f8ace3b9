//! One blob, read from a stream into a block.

ghost use Rattle.std.specs.Prelude.{◌≡◌, ◌≢◌, ◌+◌, ◌-◌, ◌<◌, ◌≤◌, ◌^◌, ◌∷◌, length, IfOk, IfSome, OnOk, Ok, Err, Some};
ghost use Rattle.std.specs.Prelude.{None};
ghost use Rattle.byteorder.specs.Endian.{big_number};
ghost use Rattle.mf_base.specs.Spelling.{IsBytes};
ghost use Rattle.mf_edge.specs.Stream.{IsStep, FailsWhere, at};
ghost use Rattle.osm_model.specs.declared.limits.TheConstants.{HEADER_LIMIT, BLOB_LIMIT, FRAME_LIMIT, OFFSET_LIMIT};
ghost use Rattle.pbf_frame.specs.FrameReading.{BeginsNoBlob, IsInBlock};
ghost use Rattle.pbf_frame.specs.BlobReading.{Tells, TellsBlob, IsOverBlob, IsCut, IsFirst, HasLength, HasHead};
ghost use Rattle.pbf_frame.specs.BlobReading.{HeadFails, HoldsBlob, BlobFails};

use crate::blob_head::{BlobHead, blob_head};
use crate::blob_raw::raw_place;
use crate::frame::{BlobKind, Frame};
use crate::frame_fault::{FrameFault, NextFault};
use byteorder::{BigEndian, ByteOrder};
use mf_edge::{Block, FillFault, Source, Stream};
use osm_model::limits::{HEADER_LIMIT, OFFSET_LIMIT};

// What stands at an offset.
#[derive(Clone, Copy)]
pub(crate) enum Step {
    // The end of the input.
    End,
    // A blob that was passed over.
    Passed,
    // A blob whose raw bytes are in the block.
    Kept(Frame),
}

// Reads the blob that the stream stands at, or passes over it where its type is not one that is read.
pub(crate) fn read_blob<S: Source>(
    src: &mut Stream<S>,
    block: &mut Block,
) -> Result<Step, NextFault>
    requires room { BLOB_LIMIT ≤ block.old.capacity }
    requires offset { (at S.state src.old).offset < 2 ^ 63 - 1 }
    ensures tells { TellsBlob (at S.state src.old) block.new.bytes result (at S.state src.new) }

    ensures place { (f : Frame) → result ≡ Ok (Step.Kept f) → IsInBlock f block.new.bytes }
    ensures over { (step : Step) → result ≡ Ok step → step ≢ Step.End
        → IsOverBlob (at S.state src.old) (at S.state src.new) }
    ensures ends { OFFSET_LIMIT ≤ (at S.state src.old).offset
        → (at S.state src.new).offset ≤ (at S.state src.old).offset + 1 }

    ensures faults { FailsWhere (result ≡ Err NextFault.Read) (at S.state src.old) (at S.state src.new) }
    ensures step { IsStep FRAME_LIMIT (at S.state src.old) (at S.state src.new) }
    ensures capacity { block.new.capacity ≡ block.old.capacity }
{
    let begin = src.offset();
    let Some(first) = first_byte(src, block)? else {
        return Ok(Step::End);
    };
    let size = head_size(src, block, begin, first)?;
    let head = read_head(src, block, begin, size)?;
    read_body(src, block, begin, head)
}

// The first byte of a blob, or None at the end of the input.
fn first_byte<S: Source>(src: &mut Stream<S>, block: &mut Block) -> Result<Option<u8>, NextFault>
    requires room { 1 ≤ block.old.capacity }
    requires offset { (at S.state src.old).offset < 2 ^ 63 - 1 }
    ensures tells { Tells (IsFirst (at S.state src.new).source) (λ _ _. ⊥) 0
        (at S.state src.old) result (at S.state src.new) }
    ensures passed { IfOk result (λ first. IfSome first
        (λ _. (at S.state src.new).offset ≡ (at S.state src.old).offset + 1)) }

    ensures faults { FailsWhere (result ≡ Err NextFault.Read) (at S.state src.old) (at S.state src.new) }
    ensures step { IsStep 1 (at S.state src.old) (at S.state src.new) }
    ensures capacity { block.new.capacity ≡ block.old.capacity }
{
    match src.fill(block, 1) {
        Ok(()) => Ok(Some(block.bytes()[0])),
        Err(FillFault::End { .. }) => Ok(None),
        Err(FillFault::Read) => Err(NextFault::Read),
    }
}

// How many bytes the BlobHeader has, behind the first byte of its length.
fn head_size<S: Source>(
    src: &mut Stream<S>,
    block: &mut Block,
    begin: u64,
    first: u8,
) -> Result<usize, NextFault>
    requires room { 3 ≤ block.old.capacity }
    requires offset { (at S.state src.old).offset ≡ begin + 1 }
    requires within { begin < 2 ^ 63 - 1 }
    ensures tells { Tells (λ size bytes. HasLength begin size (first ∷ bytes))
        (λ fault bytes. BeginsNoBlob begin fault (at S.state src.new).source (first ∷ bytes)) begin
        (at S.state src.old) result (at S.state src.new) }

    ensures near { OnOk result (begin < OFFSET_LIMIT) }
    ensures few { IfOk result (λ size. size ≤ HEADER_LIMIT) }
    ensures passed { OnOk result ((at S.state src.new).offset ≡ (at S.state src.old).offset + 3) }
    ensures ends { OFFSET_LIMIT ≤ begin → (at S.state src.new).offset ≡ (at S.state src.old).offset }

    ensures faults { FailsWhere (result ≡ Err NextFault.Read) (at S.state src.old) (at S.state src.new) }
    ensures step { IsStep 3 (at S.state src.old) (at S.state src.new) }
    ensures capacity { block.new.capacity ≡ block.old.capacity }
{
    if begin >= OFFSET_LIMIT {
        return Err(NextFault::Frame {
            at: begin,
            fault: FrameFault::TooLong,
        });
    }
    fill_part(src, block, 3, begin, 1)?;
    let size = length_of(first, block.bytes());
    if size > HEADER_LIMIT {
        return Err(NextFault::Frame {
            at: begin,
            fault: FrameFault::HeaderLength,
        });
    }
    Ok(size as usize)
}

// The number in four bytes, the highest first.
fn length_of(first: u8, rest: &[u8]) -> u32
    requires { length rest.now ≡ 3 }
    ensures number { result ≡ big_number 4 (first ∷ rest.now) }
    ensures bytes { IsBytes (first ∷ rest.now) }
{
    BigEndian::read_u32(&[first, rest[0], rest[1], rest[2]])
}

// Reads the BlobHeader of so many bytes.
fn read_head<S: Source>(
    src: &mut Stream<S>,
    block: &mut Block,
    begin: u64,
    size: usize,
) -> Result<BlobHead, NextFault>
    requires room { size ≤ block.old.capacity }
    requires offset { (at S.state src.old).offset + size < 2 ^ 63 }
    ensures tells { Tells (HasHead size) (HeadFails size (at S.state src.new).source) begin
        (at S.state src.old) result (at S.state src.new) }

    ensures few { IfOk result (λ head. head.size ≤ BLOB_LIMIT) }
    ensures passed { OnOk result ((at S.state src.new).offset ≡ (at S.state src.old).offset + size) }

    ensures faults { FailsWhere (result ≡ Err NextFault.Read) (at S.state src.old) (at S.state src.new) }
    ensures step { IsStep size (at S.state src.old) (at S.state src.new) }
    ensures capacity { block.new.capacity ≡ block.old.capacity }
{
    fill_part(src, block, size, begin, 0)?;
    match blob_head(block.bytes()) {
        Ok(head) => Ok(head),
        Err(fault) => Err(NextFault::Frame { at: begin, fault }),
    }
}

// Reads the Blob behind its BlobHeader, or passes over it.
fn read_body<S: Source>(
    src: &mut Stream<S>,
    block: &mut Block,
    begin: u64,
    head: BlobHead,
) -> Result<Step, NextFault>
    requires some_room { 1 ≤ block.old.capacity }
    requires room { head.size ≤ block.old.capacity }
    requires few { head.size ≤ BLOB_LIMIT }
    requires offset { (at S.state src.old).offset + head.size < 2 ^ 63 }
    ensures tells { Tells (λ step bytes. (length bytes ≡ head.size)
        × HoldsBlob head.kind begin block.new.bytes step bytes)
        (BlobFails head (at S.state src.new).source) begin (at S.state src.old) result (at S.state src.new) }

    ensures place { (f : Frame) → result ≡ Ok (Step.Kept f) → IsInBlock f block.new.bytes }
    ensures passed { OnOk result ((at S.state src.new).offset ≡ (at S.state src.old).offset + head.size) }

    ensures faults { FailsWhere (result ≡ Err NextFault.Read) (at S.state src.old) (at S.state src.new) }
    ensures step { IsStep head.size (at S.state src.old) (at S.state src.new) }
    ensures capacity { block.new.capacity ≡ block.old.capacity }
{
    match head.kind {
        Some(kind) => read_raw(src, block, begin, head.size, kind),
        None => pass_over(src, block, begin, head.size as u64),
    }
}

// Reads the Blob of so many bytes, of this type.
fn read_raw<S: Source>(
    src: &mut Stream<S>,
    block: &mut Block,
    begin: u64,
    size: usize,
    kind: BlobKind,
) -> Result<Step, NextFault>
    requires room { size ≤ block.old.capacity }
    requires few { size ≤ BLOB_LIMIT }
    requires offset { (at S.state src.old).offset + size < 2 ^ 63 }
    ensures tells { Tells (λ step bytes. (length bytes ≡ size) × HoldsBlob (Some kind) begin block.new.bytes step bytes)
        (BlobFails (record { kind = Some kind; size = size }) (at S.state src.new).source) begin
        (at S.state src.old) result (at S.state src.new) }

    ensures place { (f : Frame) → result ≡ Ok (Step.Kept f) → IsInBlock f block.new.bytes }
    ensures passed { OnOk result ((at S.state src.new).offset ≡ (at S.state src.old).offset + size) }

    ensures faults { FailsWhere (result ≡ Err NextFault.Read) (at S.state src.old) (at S.state src.new) }
    ensures step { IsStep size (at S.state src.old) (at S.state src.new) }
    ensures capacity { block.new.capacity ≡ block.old.capacity }
{
    fill_part(src, block, size, begin, 0)?;
    match raw_place(block.bytes()) {
        Ok((start, end)) => Ok(Step::Kept(Frame {
            kind,
            at: begin,
            start,
            end,
        })),
        Err(fault) => Err(NextFault::Frame { at: begin, fault }),
    }
}

// Passes over a Blob of so many bytes.
fn pass_over<S: Source>(
    src: &mut Stream<S>,
    block: &mut Block,
    begin: u64,
    size: u64,
) -> Result<Step, NextFault>
    requires room { 1 ≤ block.old.capacity }
    requires offset { (at S.state src.old).offset + size < 2 ^ 63 }
    ensures tells { Tells (λ step bytes. (length bytes ≡ size) × HoldsBlob None begin block.new.bytes step bytes)
        (BlobFails (record { kind = None; size = size }) (at S.state src.new).source) begin
        (at S.state src.old) result (at S.state src.new) }

    ensures place { (f : Frame) → result ≢ Ok (Step.Kept f) }
    ensures passed { OnOk result ((at S.state src.new).offset ≡ (at S.state src.old).offset + size) }

    ensures faults { FailsWhere (result ≡ Err NextFault.Read) (at S.state src.old) (at S.state src.new) }
    ensures step { IsStep size (at S.state src.old) (at S.state src.new) }
    ensures capacity { block.new.capacity ≡ block.old.capacity }
{
    match src.skip(block, size) {
        Ok(()) => Ok(Step::Passed),
        Err(FillFault::End { have }) => Err(truncated(begin, have)),
        Err(FillFault::Read) => Err(NextFault::Read),
    }
}

// Fills the block with `size` bytes of the blob at an offset. `had` bytes were read before that count in the fault.
fn fill_part<S: Source>(
    src: &mut Stream<S>,
    block: &mut Block,
    size: usize,
    begin: u64,
    had: u64,
) -> Result<(), NextFault>
    requires room { size ≤ block.old.capacity }
    requires offset { (at S.state src.old).offset + size < 2 ^ 63 }
    requires had { had ≤ 1 }
    ensures tells { Tells (λ _ bytes. (bytes ≡ block.new.bytes) × (length bytes ≡ size))
        (IsCut had size (at S.state src.new).source) begin (at S.state src.old) result (at S.state src.new) }

    ensures long { OnOk result (length block.new.bytes ≡ size) }
    ensures passed { OnOk result ((at S.state src.new).offset ≡ (at S.state src.old).offset + size) }

    ensures faults { FailsWhere (result ≡ Err NextFault.Read) (at S.state src.old) (at S.state src.new) }
    ensures step { IsStep size (at S.state src.old) (at S.state src.new) }
    ensures capacity { block.new.capacity ≡ block.old.capacity }
{
    match src.fill(block, size) {
        Ok(()) => Ok(()),
        Err(FillFault::End { have }) => Err(truncated(begin, had + have)),
        Err(FillFault::Read) => Err(NextFault::Read),
    }
}

// The blob at an offset is cut behind so many bytes.
fn truncated(at: u64, have: u64) -> NextFault
    ensures { result ≡ NextFault.Frame at (FrameFault.Truncated have) }
{
    NextFault::Frame {
        at,
        fault: FrameFault::Truncated { have },
    }
}
