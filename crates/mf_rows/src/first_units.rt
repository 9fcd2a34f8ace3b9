//! The units of a record before its parts and points.

ghost use Rattle.std.specs.Prelude.{◌≡◌, ◌+◌, ◌*◌, ◌^◌, ◌≤◌, ◌<◌, ◌++◌, ℕ, List, Some, length, take, drop, replicate};
ghost use Rattle.std.specs.Prelude.{slice_get, slice_index};
ghost use Rattle.std.specs.List.{AllByRecursion};
ghost use Rattle.mf_rows.specs.Records.{LiesIn, texts_told};
ghost use Rattle.mf_rows.specs.RecordUnits.{front_count, text_bytes, text_size as size_told, lengths_of};
ghost use Rattle.mf_rows.specs.FirstUnits.{IsShort, front_record, front_units};

use crate::head::{Head, TextSlot, TextSpan, Texts};
use crate::head_units::{TextLengths, head_unit};
use crate::view::span_of;

/// How many units a record has before its parts and points: ten for its head, and one for each begun 16 bytes of texts.
pub fn first_units(head: &Head, texts: &Texts) -> u32
    requires lies { AllByRecursion (LiesIn (length texts.now.block.now)) texts.now.spans.items }
    requires short { AllByRecursion IsShort texts.now.spans.items }
    ensures { result ≡ front_count (front_record head.now (texts_told texts.now.block.now texts.now.spans.items)) }
{
    let _ = head;
    10 + bytes_of(texts.block, &texts.spans).div_ceil(16)
}

/// A unit of a record before its parts and points. The texts stand one behind another in the order of their slots, with
/// zeros behind the last.
pub fn first_unit(head: &Head, texts: &Texts, i: u32) -> [u8; 16]
    requires lies { AllByRecursion (LiesIn (length texts.now.block.now)) texts.now.spans.items }
    requires short { AllByRecursion IsShort texts.now.spans.items }
    requires within { i < front_count (front_record head.now
        (texts_told texts.now.block.now texts.now.spans.items)) }
    ensures { Some result ≡ slice_get (front_units (front_record head.now
        (texts_told texts.now.block.now texts.now.spans.items))) i }
{
    if i < 10 {
        head_unit(head, lengths(texts.block, &texts.spans), i as usize)
    } else {
        text_unit(texts.block, &texts.spans, 16 * (i as usize - 10))
    }
}

// How many bytes texts have.
fn bytes_of(block: &[u8], spans: &[TextSpan]) -> u32
    requires lies { AllByRecursion (LiesIn (length block.now)) spans.now }
    requires short { AllByRecursion IsShort spans.now }
    requires few { length spans.now ≤ 18 }
    ensures is { result ≡ length (text_bytes (texts_told block.now spans.now)) }
    ensures most { result ≤ 1020 * length spans.now }
{
    match spans.split_first() {
        Some((first, rest)) => first.len + bytes_of(block, rest),
        None => 0,
    }
}

// The lengths of the texts with names of their own.
fn lengths(block: &[u8], spans: &[TextSpan]) -> TextLengths
    requires lies { AllByRecursion (LiesIn (length block.now)) spans.now }
    requires short { AllByRecursion IsShort spans.now }
    ensures { result ≡ lengths_of (texts_told block.now spans.now) }
{
    TextLengths {
        name: len_of(block, spans, TextSlot::Name),
        house: len_of(block, spans, TextSlot::House),
        reference: len_of(block, spans, TextSlot::Reference),
    }
}

// The length of the text in a slot, 0 where there is none.
fn len_of(block: &[u8], spans: &[TextSpan], slot: TextSlot) -> u16
    requires lies { AllByRecursion (LiesIn (length block.now)) spans.now }
    requires short { AllByRecursion IsShort spans.now }
    ensures { result ≡ size_told (texts_told block.now spans.now) slot }
{
    match span_of(spans, slot) {
        Some(span) => span.len as u16,
        None => 0,
    }
}

// The byte of texts at a place, and 0 behind them.
fn byte_at(block: &[u8], spans: &[TextSpan], at: usize) -> u8
    requires lies { AllByRecursion (LiesIn (length block.now)) spans.now }
    ensures { result ≡ slice_index (text_bytes (texts_told block.now spans.now)) at }
{
    match spans.split_first() {
        Some((first, rest)) => {
            let len = first.len as usize;
            if at < len {
                block[first.start as usize + at]
            } else {
                byte_at(block, rest, at - len)
            }
        }
        None => 0,
    }
}

// The sixteen bytes of texts from a place on, with zeros behind them.
fn text_unit(block: &[u8], spans: &[TextSpan], at: usize) -> [u8; 16]
    requires lies { AllByRecursion (LiesIn (length block.now)) spans.now }
    requires within { at < length (text_bytes (texts_told block.now spans.now)) }
    requires small { at < 2 ^ 40 }
    ensures { result ≡ take 16 (drop at (text_bytes (texts_told block.now spans.now) ++ replicate 16 0)) }
{
    let mut unit = [0; 16];
    for i in 0..16 {
        unit[i] = byte_at(block, spans, at + i);
    }
    unit
}

#[cfg(test)]
mod tests;
