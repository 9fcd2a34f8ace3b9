//! Ways and relations, written.

ghost use Rattle.std.specs.Prelude.{◌≡◌, ◌+◌, ◌≤◌, ◌<◌, ◌^◌, length, IfSome, IsTrue, option_map};
ghost use Rattle.mf_base.specs.Buffer.{HasRoom, AppendsTo};
ghost use Rattle.mf_base.specs.Ranges.{is_rect};
ghost use Rattle.map_model.specs.Rectangles.{rect_of};
ghost use Rattle.map_model.specs.Bitmap.{sub_tile_bits};
ghost use Rattle.map_model.specs.Layout.{optional, step_bytes};
ghost use Rattle.map_model.specs.TileBytes.{tile_corner};
ghost use Rattle.map_model.specs.Room.{rows_limit};
ghost use Rattle.mf_rows.specs.RecordUnits.{unit_count};
ghost use Rattle.mf_rows.specs.Shapes.{feature_told};
ghost use Rattle.way_delta.specs.Steps.{shown, IsStepBelow};
ghost use Rattle.tile_body.specs.Members.{IsTile, IsMember};
ghost use Rattle.tile_body.specs.Ways.{IsWayIn, IsDrawn, IsSized, way_told, body_of, flags_of, block_count_bytes};

use crate::label::label_of;
use crate::poi::bit;
use crate::tags::{put_tags, size_tags};
use crate::texts::{has_text, put_text, size_text};
use mercator_rows::rows::Rows;
use mf_base::fixed::put_be;
use mf_base::out_buf::OutBuf;
use mf_base::place::{Place, Rect};
use mf_base::tile::TilePlace;
use mf_base::vbe::{put_vbe_u, size_vbe_u};
use mf_rows::head::TextSlot;
use mf_rows::view::View;
use tile_assign::bitmap::bitmap;
use tile_assign::rect::rect_of;
use way_delta::counts::count_blocks;
use way_delta::measure::measure;
use way_delta::put::put_blocks;
use way_delta::steps::{Step, put_step, size_step};

// What is told of a way beside its head, texts and coordinates.
#[derive(Clone, Copy, Debug, PartialEq, Eq)]
struct Drawn {
    corner: Place,
    bits: u16,
    label: Option<Step>,
    blocks: u64,
    double: bool,
    // How many bytes the data blocks take.
    size: u64,
}

/// Puts a way in a tile with this corner.
pub(crate) fn put_way(out: &mut OutBuf, view: &View, tile: &TilePlace, corner: Place, rows: &Rows)
    requires way { IsWayIn tile.now view.now }
    requires corner { corner ≡ tile_corner tile.now }
    requires room { HasRoom out.old (length (way_told tile.now view.now) + 10) }
    ensures appends { AppendsTo out.old out.new (way_told tile.now view.now) }
{
    let drawn = drawn_of(view, tile, corner, rows);
    put_vbe_u(out, size_body(view, &drawn));
    put_body(out, view, &drawn);
}

// What is told of a way in this tile.
fn drawn_of(view: &View, tile: &TilePlace, corner: Place, rows: &Rows) -> Drawn
    requires way { IsWayIn tile.now view.now }
    requires corner { corner ≡ tile_corner tile.now }
    ensures { IsDrawn tile.now view.now result }
{
    let rect = rect_of(view);
    let counts = count_blocks(view);
    let (single, double) = measure(view, corner);
    Drawn {
        corner,
        bits: bits_of(view, &rect, tile, rows),
        label: label_of(view, &rect),
        blocks: counts.blocks,
        double: double < single,
        size: counts.size + single.min(double),
    }
}

// The sub-tile bitmap of a way with this rectangle.
fn bits_of(view: &View, rect: &Rect, tile: &TilePlace, rows: &Rows) -> u16
    requires tile { IsTile tile.now }
    requires rect { rect.now ≡ rect_of (feature_told view.now) }
    requires earth { IsTrue (is_rect rect.now) }
    ensures { result ≡ sub_tile_bits (feature_told view.now) tile.now }
{
    if view.head().coast {
        0xffff
    } else {
        bitmap(rect, tile.interval.base, tile.x, tile.y, rows)
    }
}

// How many bytes the fields after the data size take.
fn size_body(view: &View, drawn: &Drawn) -> u64
    requires few { length view.now.head.tags.items ≤ 15 }
    requires sized { IsSized view.now drawn.now }
    requires blocks { drawn.now.blocks < 2 ^ 63 }
    requires fits { length (body_of view.now drawn.now) < 2 ^ 32 }
    ensures size { result ≡ length (body_of view.now drawn.now) }
{
    3 + size_tags(view)
        + size_text(view, TextSlot::Name)
        + size_text(view, TextSlot::House)
        + size_text(view, TextSlot::Reference)
        + size_label(drawn.label)
        + size_block_count(drawn.blocks)
        + drawn.size
}

// Puts the fields after the data size.
fn put_body(out: &mut OutBuf, view: &View, drawn: &Drawn)
    requires member { IsMember view.now }
    requires light { unit_count view.now ≤ rows_limit }
    requires sized { IsSized view.now drawn.now }
    requires room { HasRoom out.old (length (body_of view.now drawn.now) + 10) }
    ensures appends { AppendsTo out.old out.new (body_of view.now drawn.now) }
{
    put_be(out, u64::from(drawn.bits), 2);
    put_tags(out, view);
    out.put(&[flags(view, drawn)]);
    put_text(out, view, TextSlot::Name);
    put_text(out, view, TextSlot::House);
    put_text(out, view, TextSlot::Reference);
    put_label(out, drawn.label);
    put_block_count(out, drawn.blocks);
    put_blocks(out, view, drawn.corner, drawn.double);
}

// The flags of a way: 0x80 name, 0x40 house number, 0x20 reference, 0x10 label, 0x08 number of data blocks, 0x04 double
// delta.
fn flags(view: &View, drawn: &Drawn) -> u8
    ensures { result ≡ flags_of view.now drawn.now }
{
    bit(has_text(view, TextSlot::Name), 0x80)
        + bit(has_text(view, TextSlot::House), 0x40)
        + bit(has_text(view, TextSlot::Reference), 0x20)
        + bit(drawn.label.is_some(), 0x10)
        + bit(drawn.blocks > 1, 0x08)
        + bit(drawn.double, 0x04)
}

// Puts a label, where there is one.
fn put_label(out: &mut OutBuf, label: Option<Step>)
    requires small { IfSome label (IsStepBelow (2 ^ 33)) }
    requires room { HasRoom out.old (length (optional step_bytes (option_map shown label)) + 10) }
    ensures appends { AppendsTo out.old out.new (optional step_bytes (option_map shown label)) }
{
    if let Some(step) = label {
        put_step(out, step);
    }
}

// How many bytes `put_label` puts.
fn size_label(label: Option<Step>) -> u64
    requires small { IfSome label (IsStepBelow (2 ^ 33)) }
    ensures size { result ≡ length (optional step_bytes (option_map shown label)) }
    ensures most { result ≤ 20 }
{
    match label {
        Some(step) => size_step(step),
        None => 0,
    }
}

// Puts the number of data blocks, where there are several.
fn put_block_count(out: &mut OutBuf, blocks: u64)
    requires fits { blocks < 2 ^ 63 }
    requires room { HasRoom out.old (length (block_count_bytes blocks) + 10) }
    ensures appends { AppendsTo out.old out.new (block_count_bytes blocks) }
{
    if blocks > 1 {
        put_vbe_u(out, blocks);
    }
}

// How many bytes `put_block_count` puts.
fn size_block_count(blocks: u64) -> u64
    requires fits { blocks < 2 ^ 63 }
    ensures size { result ≡ length (block_count_bytes blocks) }
    ensures most { result ≤ 10 }
{
    if blocks > 1 {
        u64::from(size_vbe_u(blocks))
    } else {
        0
    }
}
