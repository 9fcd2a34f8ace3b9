//! Heads, read of their units.

ghost use Rattle.std.specs.Prelude.{◌≡◌, ◌+◌, ◌≤◌, ◌∷◌, [], length, take, option_map};
ghost use Rattle.mf_rows.specs.Heads.{HeadTold, head_in, told_by, all_kept, kept_at, value_told, has_bit};
ghost use Rattle.mf_rows.specs.Heads.{height_told, are_units, head_unit as unit_of_head};

use crate::fields::{get_i32, get_u8, get_u16, get_u32, get_u64};
use crate::head::Head;
use crate::head_units::{TextLengths, head_unit};
use crate::numbers::kind_of_number;
use arrayvec::ArrayVec;
use mf_base::kept::{Kept, KeptValue};

/// The head that ten units tell, with the lengths of its texts, where they are the units of one.
pub fn read_head(units: &[[u8; 16]]) -> Option<(Head, TextLengths)>
    requires { length units.now ≡ 10 }
    ensures { option_map (λ r. record { head = r.0; texts = r.1 }) result ≡ head_in units.now }
{
    let (first, rest) = units.split_first()?;
    let (second, rest) = rest.split_first()?;
    let (third, more) = rest.split_first()?;
    let head = head_of(first, second, third, more);
    let texts = lengths_of(third);
    if are_of(&head, texts, 0, units) {
        Some((head, texts))
    } else {
        None
    }
}

// What units tell, if they are those of a head.
fn head_of(first: &[u8; 16], second: &[u8; 16], third: &[u8; 16], more: &[[u8; 16]]) -> Head
    requires { length more.now ≡ 7 }
    ensures { result ≡ (told_by first.now second.now third.now more.now).head }
{
    let marks = get_u8(second, 11);
    Head {
        kind: kind_of_number(get_u8(second, 8)),
        id: get_u64(first, 0),
        number: get_u64(first, 8),
        weight: get_u64(second, 0),
        zoom: get_u8(second, 9),
        layer: get_u8(second, 10).cast_signed(),
        water: is_set(marks, 1),
        label: is_set(marks, 2),
        coast: is_set(marks, 4),
        height: height_of(is_set(marks, 8), get_i32(second, 12)),
        tags: tags_of(get_u8(third, 6), third, more),
    }
}

// The lengths that the third unit tells.
fn lengths_of(third: &[u8; 16]) -> TextLengths
    ensures { (first second : _) (more : _) → result ≡ (told_by first second third.now more).texts }
{
    TextLengths {
        name: get_u16(third, 0),
        house: get_u16(third, 2),
        reference: get_u16(third, 4),
    }
}

// Whether a bit is set.
fn is_set(marks: u8, n: u8) -> bool
    requires { 1 ≤ n }
    ensures { result ≡ has_bit marks n }
{
    marks / n % 2 == 1
}

// A height, where its bit is set.
fn height_of(there: bool, height: i32) -> Option<i32>
    ensures { result ≡ height_told there height }
{
    if there { Some(height) } else { None }
}

// The first tags of those in the third unit and behind it.
fn tags_of(count: u8, third: &[u8; 16], more: &[[u8; 16]]) -> ArrayVec<Kept, 15>
    requires { length more.now ≡ 7 }
    ensures { result.items ≡ take count (all_kept third.now more.now) }
{
    let mut tags = ArrayVec::new();
    tags.push(kept(third, 8));
    for unit in more {
        tags.push(kept(unit, 0));
        tags.push(kept(unit, 8));
    }
    tags.truncate(count as usize);
    tags
}

// The kept tag at a place of a unit.
fn kept(unit: &[u8; 16], at: usize) -> Kept
    requires { at + 8 ≤ 16 }
    ensures { result ≡ kept_at at unit.now }
{
    Kept {
        tag: get_u16(unit, at),
        value: value_of(get_u8(unit, at + 2), get_u32(unit, at + 4)),
    }
}

// A value by the number of its kind and its own.
fn value_of(kind: u8, value: u32) -> KeptValue
    ensures { result ≡ value_told kind value }
{
    match kind {
        1 => KeptValue::Byte(((value % 256) as u8).cast_signed()),
        2 => KeptValue::Short(((value % 65536) as u16).cast_signed()),
        3 => KeptValue::Int(value.cast_signed()),
        4 => KeptValue::Text {
            len: (value % 65536) as u16,
        },
        _ => KeptValue::Plain,
    }
}

// Whether units are those of a head, from this one on.
fn are_of(head: &Head, texts: TextLengths, i: usize, units: &[[u8; 16]]) -> bool
    requires { i + length units.now ≤ 10 }
    ensures { result ≡ are_units (unit_of_head head.now texts) i units.now }
{
    match units.split_first() {
        Some((unit, rest)) => {
            *unit == head_unit(head, texts, i) && are_of(head, texts, i + 1, rest)
        }
        None => true,
    }
}
