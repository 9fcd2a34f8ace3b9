//! POIs, written and measured.

ghost use Rattle.std.specs.Prelude.{◌≡◌, ◌+◌, ◌≤◌, ◌<◌, ◌^◌, length};
ghost use Rattle.mf_base.specs.Buffer.{HasRoom, AppendsTo};
ghost use Rattle.mf_base.specs.Spelling.{vbe_signed};
ghost use Rattle.mf_base.specs.declared.kind.EntityKind.TheVariants.{Node};
ghost use Rattle.map_model.specs.Layout.{optional, flag, poi_flags};
ghost use Rattle.map_model.specs.TileBytes.{poi_fields, poi_bytes};
ghost use Rattle.mf_rows.specs.Shapes.{spot_place, feature_told, IsFeature};
ghost use Rattle.tile_body.specs.Members.{IsMember};

use crate::tags::{put_tags, size_tags};
use crate::texts::{has_text, put_text, size_text};
use mf_base::out_buf::OutBuf;
use mf_base::place::Place;
use mf_base::vbe::{put_vbe_s, size_vbe_s};
use mf_rows::head::TextSlot;
use mf_rows::view::View;
use way_delta::steps::{put_step, size_step, step_between};

/// Puts a POI in a tile with this corner.
pub(crate) fn put_poi(out: &mut OutBuf, view: &View, corner: Place)
    requires node { view.now.head.kind ≡ Node }
    requires member { IsMember view.now }
    requires room { HasRoom out.old (length (poi_bytes corner (feature_told view.now)) + 10) }
    ensures appends { AppendsTo out.old out.new (poi_bytes corner (feature_told view.now)) }
{
    put_step(out, step_between(corner, place_of(view)));
    put_tags(out, view);
    out.put(&[flags(view)]);
    put_text(out, view, TextSlot::Name);
    put_text(out, view, TextSlot::House);
    put_height(out, view.head().height);
}

/// How many bytes `put_poi` puts.
pub(crate) fn size_poi(view: &View, corner: Place) -> u64
    requires node { view.now.head.kind ≡ Node }
    requires member { IsMember view.now }
    requires few { length (poi_bytes corner (feature_told view.now)) < 2 ^ 32 }
    ensures size { result ≡ length (poi_bytes corner (feature_told view.now)) }
{
    size_step(step_between(corner, place_of(view)))
        + size_tags(view)
        + 1
        + size_text(view, TextSlot::Name)
        + size_text(view, TextSlot::House)
        + size_height(view.head().height)
}

// The place of a node.
fn place_of(view: &View) -> Place
    requires node { view.now.head.kind ≡ Node }
    requires feature { IsFeature view.now }
    ensures { result ≡ spot_place view.now.spot }
{
    let (_, place) = view.point().unwrap();
    place
}

// The flags of a POI: 0x80 name, 0x40 house number, 0x20 elevation.
fn flags(view: &View) -> u8
    ensures { result ≡ poi_flags (poi_fields (feature_told view.now)) }
{
    bit(has_text(view, TextSlot::Name), 0x80)
        + bit(has_text(view, TextSlot::House), 0x40)
        + bit(view.head().height.is_some(), 0x20)
}

// Puts an elevation, where there is one.
fn put_height(out: &mut OutBuf, height: Option<i32>)
    requires room { HasRoom out.old (length (optional vbe_signed height) + 10) }
    ensures appends { AppendsTo out.old out.new (optional vbe_signed height) }
{
    if let Some(height) = height {
        put_vbe_s(out, i64::from(height));
    }
}

// How many bytes `put_height` puts.
fn size_height(height: Option<i32>) -> u64
    ensures size { result ≡ length (optional vbe_signed height) }
    ensures most { result ≤ 10 }
{
    match height {
        Some(height) => u64::from(size_vbe_s(i64::from(height))),
        None => 0,
    }
}

/// A bit, where it is set.
pub(crate) fn bit(set: bool, bit: u8) -> u8
    ensures { result ≡ flag set bit }
{
    if set { bit } else { 0 }
}
