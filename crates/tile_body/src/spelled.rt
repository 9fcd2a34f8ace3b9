//! Whether the head and the texts of a record may be spelled.

ghost use Rattle.std.specs.Prelude.{◌≡◌, ◌≤◌, nat_lt, ◌&&◌, pos, negsuc, length};
ghost use Rattle.mf_base.specs.Ranges.{lies_within};
ghost use Rattle.mf_rows.specs.Records.{text_in};
ghost use Rattle.tile_body.specs.Tested.{is_short as is_short_text, has_short_text, are_kept_short, may_be_spelled};

use crate::tags::tag_text;
use mf_base::kept::{Kept, KeptValue};
use mf_rows::head::TextSlot;
use mf_rows::view::View;

/// Whether the head and the texts of a record may be spelled: a layer in -5..5, kept tags with ids below 4,096, and texts
/// of at most 1,020 bytes.
pub(crate) fn is_spelled(view: &View) -> bool
    requires few { length view.now.head.tags.items ≤ 15 }
    ensures { result ≡ may_be_spelled view.now }
{
    is_layer(view.head().layer)
        && are_kept(view)
        && is_short(view, TextSlot::Name)
        && is_short(view, TextSlot::House)
        && is_short(view, TextSlot::Reference)
}

// Whether a layer lies in -5..5.
fn is_layer(layer: i8) -> bool
    ensures { result ≡ lies_within (negsuc 4) (pos 5) layer }
{
    -5 <= layer && layer <= 5
}

// Whether the text in a slot has at most 1,020 bytes, where there is one.
fn is_short(view: &View, slot: TextSlot) -> bool
    ensures { result ≡ is_short_text (text_in view.now.texts slot) }
{
    match view.text(slot) {
        Some(text) => text.len() <= 1020,
        None => true,
    }
}

// Whether all kept tags have ids below 4,096 and short texts.
fn are_kept(view: &View) -> bool
    requires few { length view.now.head.tags.items ≤ 15 }
    ensures { result ≡ are_kept_short view.now }
{
    let tags = view.head().tags.as_slice();
    let mut at = 0;
    while at < tags.len() {
        if !is_kept(view, at as u8, tags[at]) {
            return false;
        }
        at += 1;
    }
    true
}

// The same of the tag of this place.
fn is_kept(view: &View, at: u8, kept: Kept) -> bool
    ensures { result ≡ (nat_lt kept.tag 4096 && has_short_text view.now.texts at kept.value) }
{
    kept.tag < 4096 && has_short_value(view, at, kept.value)
}

// Whether the text of the tag of this place has at most 1,020 bytes, where its value is one.
fn has_short_value(view: &View, at: u8, value: KeptValue) -> bool
    ensures { result ≡ has_short_text view.now.texts at value }
{
    match value {
        KeptValue::Text { .. } => tag_text(view, at).len() <= 1020,
        KeptValue::Plain | KeptValue::Byte(_) | KeptValue::Short(_) | KeptValue::Int(_) => true,
    }
}
