//! The ten units of a head.

ghost use Rattle.std.specs.Prelude.{◌≡◌, ◌+◌, ◌≤◌, ◌<◌, ◌++◌, length, drop, slice_get};
ghost use Rattle.mf_rows.specs.Fields.{fields_bytes};
ghost use Rattle.mf_rows.specs.Heads.{value_kind, value_number, kept_fields, marks as marks_of};
ghost use Rattle.mf_rows.specs.Heads.{id_unit as unit_of_ids, marks_unit as unit_of_marks};
ghost use Rattle.mf_rows.specs.Heads.{lengths_unit as unit_of_lengths, kept_unit as unit_of_kept};
ghost use Rattle.mf_rows.specs.Heads.{head_unit as unit_of_head, bit, height_bit};
ghost use Rattle.mf_rows.specs.FirstUnits.{AreLengths};

use crate::fields::{put_i32, put_u8, put_u16, put_u32, put_u64};
use crate::head::Head;
use crate::numbers::number_of_kind;
use mf_base::kept::{Kept, KeptValue};

/// The lengths in bytes of the texts with names of their own, 0 where there is none.
#[derive(Clone, Copy, Debug, Default, PartialEq, Eq)]
pub struct TextLengths {
    pub name: u16,
    pub house: u16,
    pub reference: u16,
}

impl TextLengths {
    /// A value of the type are lengths of texts.
    pub fn known(self)
        ensures { AreLengths self }
    {}
}

/// A unit of a head.
pub fn head_unit(head: &Head, texts: TextLengths, i: usize) -> [u8; 16]
    requires { i < 10 }
    ensures { result ≡ unit_of_head head.now texts i }
{
    match i {
        0 => id_unit(head),
        1 => marks_unit(head),
        2 => lengths_unit(head, texts),
        _ => kept_unit(&head.tags, 2 * (i - 3) + 1),
    }
}

// The unit of id and number.
fn id_unit(head: &Head) -> [u8; 16]
    ensures { result ≡ unit_of_ids head.now }
{
    let mut unit = [0; 16];
    put_u64(&mut unit, 8, head.number);
    put_u64(&mut unit, 0, head.id);
    unit
}

// The unit of weight, kind, zoom, layer, marks and height.
fn marks_unit(head: &Head) -> [u8; 16]
    ensures { result ≡ unit_of_marks head.now }
{
    let mut unit = [0; 16];
    put_i32(&mut unit, 12, head.height.unwrap_or(0));
    put_u8(&mut unit, 11, marks(head));
    put_u8(&mut unit, 10, head.layer.cast_unsigned());
    put_u8(&mut unit, 9, head.zoom);
    put_u8(&mut unit, 8, number_of_kind(head.kind));
    put_u64(&mut unit, 0, head.weight);
    unit
}

// The unit of the lengths of texts, and of the first kept tag.
fn lengths_unit(head: &Head, texts: TextLengths) -> [u8; 16]
    ensures { result ≡ unit_of_lengths head.now texts }
{
    let mut unit = [0; 16];
    put_kept(&mut unit, 8, tag_at(&head.tags, 0));
    put_u8(&mut unit, 7, 0);
    put_u8(&mut unit, 6, head.tags.len() as u8);
    put_u16(&mut unit, 4, texts.reference);
    put_u16(&mut unit, 2, texts.house);
    put_u16(&mut unit, 0, texts.name);
    unit
}

// The unit of two kept tags, the first of this place.
fn kept_unit(tags: &[Kept], i: usize) -> [u8; 16]
    requires { i < 15 }
    ensures { result ≡ unit_of_kept tags.now i }
{
    let mut unit = [0; 16];
    put_kept(&mut unit, 8, tag_at(tags, i + 1));
    put_kept(&mut unit, 0, tag_at(tags, i));
    unit
}

// The kept tag of a place, where there is one.
fn tag_at(tags: &[Kept], i: usize) -> Option<Kept>
    ensures { result ≡ slice_get tags.now i }
{
    if i < tags.len() { Some(tags[i]) } else { None }
}

// Puts what is kept of a tag.
fn put_kept(out: &mut [u8], at: usize, kept: Option<Kept>)
    requires within { at + 8 ≤ length out.old }
    requires short { length out.old ≤ 16 }
    ensures { drop at out.new ≡ fields_bytes (kept_fields kept) ++ drop (at + 8) out.old }
{
    let kept = kept.unwrap_or(Kept {
        tag: 0,
        value: KeptValue::Plain,
    });
    put_u32(out, at + 4, number_of_value(kept.value));
    put_u8(out, at + 3, 0);
    put_u8(out, at + 2, kind_of_value(kept.value));
    put_u16(out, at, kept.tag);
}

// The number of a kind of values.
fn kind_of_value(value: KeptValue) -> u8
    ensures { result ≡ value_kind value }
{
    match value {
        KeptValue::Plain => 0,
        KeptValue::Byte(_) => 1,
        KeptValue::Short(_) => 2,
        KeptValue::Int(_) => 3,
        KeptValue::Text { len: _ } => 4,
    }
}

// The number of a value, or the length of a text.
fn number_of_value(value: KeptValue) -> u32
    ensures { result ≡ value_number value }
{
    match value {
        KeptValue::Plain => 0,
        KeptValue::Byte(n) => u32::from(n.cast_unsigned()),
        KeptValue::Short(n) => u32::from(n.cast_unsigned()),
        KeptValue::Int(n) => n.cast_unsigned(),
        KeptValue::Text { len } => u32::from(len),
    }
}

// Water, label, coast and height, a bit each.
fn marks(head: &Head) -> u8
    ensures { result ≡ marks_of head.now }
{
    bit_of(head.water, 1)
        + bit_of(head.label, 2)
        + bit_of(head.coast, 4)
        + bit_of_height(head.height)
}

// A truth value as a bit.
fn bit_of(mark: bool, n: u8) -> u8
    ensures is { result ≡ bit mark n }
    ensures most { result ≤ n }
{
    if mark { n } else { 0 }
}

// The bit of a height that is there.
fn bit_of_height(height: Option<i32>) -> u8
    ensures is { result ≡ height_bit height }
    ensures most { result ≤ 8 }
{
    match height {
        Some(_) => 8,
        None => 0,
    }
}
