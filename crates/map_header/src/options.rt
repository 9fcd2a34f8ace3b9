//! The fields of a header that may be absent.

ghost use Rattle.std.specs.Prelude.{◌≡◌, ◌+◌, ◌≤◌, ◌++◌, length, option_map};
ghost use Rattle.mf_base.specs.Buffer.{HasRoom, AppendsTo};
ghost use Rattle.mf_base.specs.Spelling.{string, big_endian};
ghost use Rattle.map_model.specs.Layout.{optional, flag};
ghost use Rattle.map_model.specs.Header.{be_signed, head_flags};
ghost use Rattle.map_header.specs.Shown.{settings_of, options_bytes, options_size};

use crate::head_settings::HeadSettings;
use arrayvec::ArrayString;
use mf_base::fixed::put_be;
use mf_base::out_buf::OutBuf;
use mf_base::place::Place;
use mf_base::vbe::{put_vbe_u, size_vbe_u};

/// The flags of the optional fields that are there.
pub fn flags(set: &HeadSettings) -> u8
    ensures { result ≡ head_flags (settings_of set.now) }
{
    flag_of(set.start.is_some(), 0x40)
        + flag_of(set.start_zoom.is_some(), 0x20)
        + flag_of(set.language.is_some(), 0x10)
        + flag_of(set.comment.is_some(), 0x08)
        + flag_of(set.created_by.is_some(), 0x04)
}

// A flag where it is set.
fn flag_of(is_set: bool, bit: u8) -> u8
    ensures { result ≡ flag is_set bit }
{
    if is_set { bit } else { 0 }
}

/// Puts a signed number in four bytes.
pub fn put_signed(out: &mut OutBuf, v: i32)
    requires room { HasRoom out.old 4 }
    ensures appends { AppendsTo out.old out.new (be_signed v) }
    ensures most { length out.new.bytes ≤ length out.old.bytes + 4 }
{
    put_be(out, u64::from(v.cast_unsigned()), 4);
}

/// Puts the optional fields that are there.
pub fn put_options(out: &mut OutBuf, set: &HeadSettings)
    requires room { HasRoom out.old (options_size (settings_of set.now) + 10) }
    ensures appends { AppendsTo out.old out.new (options_bytes (settings_of set.now)) }
    ensures most { length out.new.bytes ≤ length out.old.bytes + options_size (settings_of set.now) }
{
    put_start(out, set.start);
    put_start_zoom(out, set.start_zoom);
    put_text(out, &set.language);
    put_text(out, &set.comment);
    put_text(out, &set.created_by);
}

// Puts the start place, where there is one: latitude and longitude.
fn put_start(out: &mut OutBuf, start: Option<Place>)
    requires room { HasRoom out.old (length (optional (λ p. be_signed p.lat ++ be_signed p.lon) start)) }
    ensures appends { AppendsTo out.old out.new (optional (λ p. be_signed p.lat ++ be_signed p.lon) start) }
    ensures most { length out.new.bytes
        ≤ length out.old.bytes + length (optional (λ p. be_signed p.lat ++ be_signed p.lon) start) }
{
    if let Some(place) = start {
        put_signed(out, place.lat);
        put_signed(out, place.lon);
    }
}

// Puts the start zoom, where there is one.
fn put_start_zoom(out: &mut OutBuf, zoom: Option<u8>)
    requires room { HasRoom out.old (length (optional (big_endian 1) zoom)) }
    ensures appends { AppendsTo out.old out.new (optional (big_endian 1) zoom) }
    ensures most { length out.new.bytes ≤ length out.old.bytes + length (optional (big_endian 1) zoom) }
{
    if let Some(zoom) = zoom {
        put_be(out, u64::from(zoom), 1);
    }
}

// Puts a text behind its length, where there is one.
fn put_text(out: &mut OutBuf, text: &Option<ArrayString<255>>)
    requires room { HasRoom out.old (length (optional string (option_map (λ t. t.bytes) text.now)) + 10) }
    ensures appends { AppendsTo out.old out.new (optional string (option_map (λ t. t.bytes) text.now)) }
    ensures most { length out.new.bytes
        ≤ length out.old.bytes + length (optional string (option_map (λ t. t.bytes) text.now)) }
{
    if let Some(text) = text {
        put_vbe_u(out, text.len() as u64);
        out.put(text.as_bytes());
    }
}

/// How many bytes the optional fields take.
pub fn size_of_options(set: &HeadSettings) -> u64
    ensures size { result ≡ options_size (settings_of set.now) }
    ensures most { result ≤ 804 }
{
    start_size(set.start)
        + zoom_size(set.start_zoom)
        + text_size(&set.language)
        + text_size(&set.comment)
        + text_size(&set.created_by)
}

// How many bytes a start place takes, where there is one.
fn start_size(start: Option<Place>) -> u64
    ensures size { result ≡ length (optional (λ p. be_signed p.lat ++ be_signed p.lon) start) }
    ensures most { result ≤ 8 }
{
    match start {
        Some(_) => 8,
        None => 0,
    }
}

// How many bytes a start zoom takes, where there is one.
fn zoom_size(zoom: Option<u8>) -> u64
    ensures size { result ≡ length (optional (big_endian 1) zoom) }
    ensures most { result ≤ 1 }
{
    match zoom {
        Some(_) => 1,
        None => 0,
    }
}

// How many bytes a text takes, where there is one.
fn text_size(text: &Option<ArrayString<255>>) -> u64
    ensures size { result ≡ length (optional string (option_map (λ t. t.bytes) text.now)) }
    ensures most { result ≤ 265 }
{
    match text {
        Some(text) => {
            let length = text.len() as u64;
            u64::from(size_vbe_u(length)) + length
        }
        None => 0,
    }
}
