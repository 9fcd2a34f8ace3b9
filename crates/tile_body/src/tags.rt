//! Layer and tags, written and measured.

ghost use Rattle.std.specs.Prelude.{◌≡◌, ◌+◌, ◌≤◌, ◌<◌, ◌^◌, length, unwrap_or, []};
ghost use Rattle.mf_base.specs.Buffer.{HasRoom, AppendsTo};
ghost use Rattle.feature_model.specs.Proper.{IsLayer};
ghost use Rattle.map_model.specs.Layout as layout;
ghost use Rattle.map_model.specs.Layout.{tag_bytes};
ghost use Rattle.mf_rows.specs.Records.{text_in};
ghost use Rattle.mf_rows.specs.declared.head.TextSlot.TheVariants.{Tag};
ghost use Rattle.tile_body.specs.Members.{IsSpelled};
ghost use Rattle.tile_body.specs.Tags.{tags_told, ids_bytes, values_bytes, value_told};

use crate::texts::{put_string, size_string};
use mf_base::fixed::put_be;
use mf_base::kept::{Kept, KeptValue};
use mf_base::out_buf::OutBuf;
use mf_base::vbe::{put_vbe_u, size_vbe_u};
use mf_rows::head::TextSlot;
use mf_rows::view::View;

/// Puts layer and number of tags in one byte, the tag ids, and the variable values in the same order.
pub(crate) fn put_tags(out: &mut OutBuf, view: &View)
    requires spelled { IsSpelled view.now }
    requires room { HasRoom out.old (length (tag_bytes view.now.head.layer (tags_told view.now)) + 10) }
    ensures appends { AppendsTo out.old out.new (tag_bytes view.now.head.layer (tags_told view.now)) }
{
    let head = view.head();
    out.put(&[layer_byte(head.layer, head.tags.len())]);
    put_ids(out, head.tags.as_slice());
    put_values(out, view);
}

/// How many bytes `put_tags` puts.
pub(crate) fn size_tags(view: &View) -> u64
    requires few { length view.now.head.tags.items ≤ 15 }
    requires fits { length (tag_bytes view.now.head.layer (tags_told view.now)) < 2 ^ 32 }
    ensures size { result ≡ length (tag_bytes view.now.head.layer (tags_told view.now)) }
{
    1 + size_ids(view.head().tags.as_slice()) + size_values(view)
}

// Layer and number of tags in one byte.
fn layer_byte(layer: i8, tags: usize) -> u8
    requires layer { IsLayer layer }
    requires few { tags ≤ 15 }
    ensures { result ≡ layout.layer_byte layer tags }
{
    16 * (layer + 5).unsigned_abs() + tags as u8
}

// Puts the ids of tags.
fn put_ids(out: &mut OutBuf, tags: &[Kept])
    requires room { HasRoom out.old (length (ids_bytes tags.now) + 10) }
    ensures appends { AppendsTo out.old out.new (ids_bytes tags.now) }
{
    for kept in tags {
        put_vbe_u(out, u64::from(kept.tag));
    }
}

// How many bytes `put_ids` puts.
fn size_ids(tags: &[Kept]) -> u64
    requires few { length tags.now ≤ 15 }
    ensures size { result ≡ length (ids_bytes tags.now) }
{
    let mut size = 0;
    for kept in tags {
        size += u64::from(size_vbe_u(u64::from(kept.tag)));
    }
    size
}

// Puts the variable values of the tags.
fn put_values(out: &mut OutBuf, view: &View)
    requires few { length view.now.head.tags.items ≤ 15 }
    requires room { HasRoom out.old (length (values_bytes view.now) + 10) }
    ensures appends { AppendsTo out.old out.new (values_bytes view.now) }
{
    let tags = view.head().tags.as_slice();
    let mut at = 0;
    while at < tags.len() {
        put_value(out, view, at as u8, tags[at].value);
        at += 1;
    }
}

// How many bytes `put_values` puts.
fn size_values(view: &View) -> u64
    requires few { length view.now.head.tags.items ≤ 15 }
    requires fits { length (values_bytes view.now) < 2 ^ 32 }
    ensures size { result ≡ length (values_bytes view.now) }
{
    let tags = view.head().tags.as_slice();
    let mut size = 0;
    let mut at = 0;
    while at < tags.len() {
        size += size_value(view, at as u8, tags[at].value);
        at += 1;
    }
    size
}

// Puts the variable value of the tag of this place.
fn put_value(out: &mut OutBuf, view: &View, at: u8, value: KeptValue)
    requires room { HasRoom out.old (length (value_told view.now.texts at value) + 10) }
    ensures appends { AppendsTo out.old out.new (value_told view.now.texts at value) }
{
    match value {
        KeptValue::Plain => {}
        KeptValue::Byte(n) => put_be(out, u64::from(n.cast_unsigned()), 1),
        KeptValue::Short(n) => put_be(out, u64::from(n.cast_unsigned()), 2),
        KeptValue::Int(n) => put_be(out, u64::from(n.cast_unsigned()), 4),
        KeptValue::Text { .. } => put_string(out, tag_text(view, at)),
    }
}

// How many bytes `put_value` puts.
fn size_value(view: &View, at: u8, value: KeptValue) -> u64
    ensures size { result ≡ length (value_told view.now.texts at value) }
{
    match value {
        KeptValue::Plain => 0,
        KeptValue::Byte(_) => 1,
        KeptValue::Short(_) => 2,
        KeptValue::Int(_) => 4,
        KeptValue::Text { .. } => size_string(tag_text(view, at)),
    }
}

/// The text of the tag of this place, empty where there is none.
pub(crate) fn tag_text<'a>(view: &View<'a>, at: u8) -> &'a [u8]
    ensures { result.now ≡ unwrap_or (text_in view.now.texts (Tag at)) [] }
{
    match view.text(TextSlot::Tag(at)) {
        Some(text) => text,
        None => b"",
    }
}
