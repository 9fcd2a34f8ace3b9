//! Texts, written and measured.

ghost use Rattle.std.specs.Prelude.{◌≡◌, ◌+◌, length, is_some};
ghost use Rattle.mf_base.specs.Buffer.{HasRoom, AppendsTo};
ghost use Rattle.mf_base.specs.Spelling.{string};
ghost use Rattle.map_model.specs.Layout.{optional};
ghost use Rattle.mf_rows.specs.Records.{text_in};

use mf_base::out_buf::OutBuf;
use mf_base::vbe::{put_vbe_u, size_vbe_u};
use mf_rows::head::TextSlot;
use mf_rows::view::View;

/// Puts the text in a slot, where there is one.
pub(crate) fn put_text(out: &mut OutBuf, view: &View, slot: TextSlot)
    requires room { HasRoom out.old (length (optional string (text_in view.now.texts slot)) + 10) }
    ensures appends { AppendsTo out.old out.new (optional string (text_in view.now.texts slot)) }
{
    if let Some(text) = view.text(slot) {
        put_string(out, text);
    }
}

/// How many bytes `put_text` puts.
pub(crate) fn size_text(view: &View, slot: TextSlot) -> u64
    ensures size { result ≡ length (optional string (text_in view.now.texts slot)) }
{
    match view.text(slot) {
        Some(text) => size_string(text),
        None => 0,
    }
}

/// Whether there is a text in a slot.
pub(crate) fn has_text(view: &View, slot: TextSlot) -> bool
    ensures { result ≡ is_some (text_in view.now.texts slot) }
{
    match view.text(slot) {
        Some(_) => true,
        None => false,
    }
}

/// Puts a text behind its length.
pub(crate) fn put_string(out: &mut OutBuf, text: &[u8])
    requires room { HasRoom out.old (length (string text.now) + 10) }
    ensures appends { AppendsTo out.old out.new (string text.now) }
{
    put_vbe_u(out, text.len() as u64);
    out.put(text);
}

/// How many bytes `put_string` puts.
pub(crate) fn size_string(text: &[u8]) -> u64
    ensures size { result ≡ length (string text.now) }
{
    u64::from(size_vbe_u(text.len() as u64)) + text.len() as u64
}
