//! The water bit of a tile.

ghost use Rattle.std.specs.Prelude.{◌≡◌, ◌<◌, ◌≤◌, ◌^◌, ◌&&◌, map, flat_map, nat_le};
ghost use Rattle.std.specs.List.{AllByRecursion, list_any, list_all};
ghost use Rattle.feature_model.specs.Blocks.{places};
ghost use Rattle.feature_model.specs.Inside.{edges};
ghost use Rattle.map_model.specs.Labels as labels;
ghost use Rattle.map_model.specs.SubFile as spec;
ghost use Rattle.map_model.specs.SubFile.{water};
ghost use Rattle.map_model.specs.TileBytes.{tile_corner};
ghost use Rattle.mf_rows.specs.Shapes.{feature_told, IsFeature};
ghost use Rattle.ring_assembly.specs.Edges.{part_rings};
ghost use Rattle.tile_index.specs.Walks as walks;

use mercator_rows::rows::Rows;
use mf_base::kind::EntityKind;
use mf_base::place::Place;
use mf_base::tile::TilePlace;
use mf_rows::cursors::{PointCursor, RingCursor};
use mf_rows::desk::Desk;
use mf_rows::view::View;
use ring_assembly::inside::inside;

/// Whether a tile is covered by water, by its members: some feature of the desk has the water mark and only closed
/// rings, no edge of it meets the tile, and the north-western corner of the tile is inside its rings.
pub fn is_water(desk: &Desk, place: &TilePlace, rows: &Rows) -> bool
    requires base { place.now.interval.base ≤ 16 }
    requires x { place.now.x < 2 ^ place.now.interval.base }
    requires y { place.now.y < 2 ^ place.now.interval.base }
    requires features { AllByRecursion IsFeature desk.now.records.records }
    ensures { result ≡ water place.now (map feature_told desk.now.records.records) }
{
    for i in 0..desk.records.len() {
        if covers(&desk.records.view(i), place, rows) {
            return true;
        }
    }
    false
}

// Whether a feature covers a tile. A node has no rings.
fn covers(view: &View<'_>, place: &TilePlace, rows: &Rows) -> bool
    requires base { place.now.interval.base ≤ 16 }
    requires x { place.now.x < 2 ^ place.now.interval.base }
    requires y { place.now.y < 2 ^ place.now.interval.base }
    requires feature { IsFeature view.now }
    ensures { result ≡ spec.covers place.now (feature_told view.now) }
{
    match view.head().kind {
        EntityKind::Node => false,
        EntityKind::Way | EntityKind::Relation => {
            view.head().water && rings_cover(view, place, rows)
        }
    }
}

// Whether the rings of a feature are closed and cover a tile.
fn rings_cover(view: &View<'_>, place: &TilePlace, rows: &Rows) -> bool
    requires base { place.now.interval.base ≤ 16 }
    requires x { place.now.x < 2 ^ place.now.interval.base }
    requires y { place.now.y < 2 ^ place.now.interval.base }
    ensures { result ≡ walks.rings_cover place.now (part_rings view.now.parts) }
{
    are_closed(view.rings()) && has_corner(view, place, rows)
}

// Whether no edge meets a tile, and its corner is inside the rings.
fn has_corner(view: &View<'_>, place: &TilePlace, rows: &Rows) -> bool
    requires base { place.now.interval.base ≤ 16 }
    requires x { place.now.x < 2 ^ place.now.interval.base }
    requires y { place.now.y < 2 ^ place.now.interval.base }
    ensures { result ≡ walks.has_corner place.now (part_rings view.now.parts) }
{
    !some_edge_meets(view.rings(), place, rows) && inside(view.rings(), corner_of(place, rows))
}

// The north-western corner of a tile.
fn corner_of(place: &TilePlace, rows: &Rows) -> Place
    requires base { place.now.interval.base ≤ 16 }
    requires x { place.now.x < 2 ^ place.now.interval.base }
    requires y { place.now.y < 2 ^ place.now.interval.base }
    ensures { result ≡ tile_corner place.now }
{
    rows.corner(place.interval.base, place.x, place.y)
}

// Whether each ring ends where it begins.
fn are_closed(mut rings: RingCursor<'_>) -> bool
    ensures { result ≡ list_all labels.is_closed (part_rings rings.entry) }
{
    while let Some((_, points)) = rings.next() {
        if !is_closed(points) {
            return false;
        }
    }
    true
}

// Whether the last place of a ring is its first.
fn is_closed(mut points: PointCursor<'_>) -> bool
    ensures { result ≡ labels.is_closed (places points.entry) }
{
    match points.next() {
        Some((_, first)) => is_same(first, last_place(first, points)),
        None => false,
    }
}

// Whether two places are one.
fn is_same(a: Place, b: Place) -> bool
    ensures { result ≡ labels.same_place a b }
{
    a.lat == b.lat && a.lon == b.lon
}

// The last place of a ring, of its first one and the points behind it.
fn last_place(first: Place, mut points: PointCursor<'_>) -> Place
    ensures { result ≡ walks.last_of first (places points.entry) }
{
    let mut last = first;
    while let Some((_, place)) = points.next() {
        last = place;
    }
    last
}

// Whether some edge of rings meets a tile.
fn some_edge_meets(mut rings: RingCursor<'_>, place: &TilePlace, rows: &Rows) -> bool
    requires { place.now.interval.base ≤ 16 }
    ensures { result ≡ list_any (spec.edge_meets place.now) (flat_map edges (part_rings rings.entry)) }
{
    while let Some((_, points)) = rings.next() {
        if ring_meets(points, place, rows) {
            return true;
        }
    }
    false
}

// Whether some edge of a ring meets a tile.
fn ring_meets(mut points: PointCursor<'_>, place: &TilePlace, rows: &Rows) -> bool
    requires { place.now.interval.base ≤ 16 }
    ensures { result ≡ list_any (spec.edge_meets place.now) (edges (places points.entry)) }
{
    let mut last = None;
    while let Some((_, next)) = points.next() {
        if step_meets(last, next, place, rows) {
            return true;
        }
        last = Some(next);
    }
    false
}

// Whether the edge to the next place of a ring meets a tile. None leads to the first.
fn step_meets(last: Option<Place>, next: Place, place: &TilePlace, rows: &Rows) -> bool
    requires { place.now.interval.base ≤ 16 }
    ensures { result ≡ walks.step_meets place.now last next }
{
    match last {
        Some(last) => edge_meets(last, next, place, rows),
        None => false,
    }
}

// Whether the rectangle of an edge meets a tile.
fn edge_meets(a: Place, b: Place, place: &TilePlace, rows: &Rows) -> bool
    requires { place.now.interval.base ≤ 16 }
    ensures { result ≡ spec.edge_meets place.now (a, b) }
{
    let z = place.interval.base;
    let west = rows.column(z, a.lon.min(b.lon));
    let east = rows.column(z, a.lon.max(b.lon));
    let north = rows.row(z, a.lat.max(b.lat));
    let south = rows.row(z, a.lat.min(b.lat));
    lies_within(west, place.x, east) && lies_within(north, place.y, south)
}

// Whether a number lies between two others, both counted in.
fn lies_within(least: u32, n: u32, greatest: u32) -> bool
    ensures { result ≡ (nat_le least n && nat_le n greatest) }
{
    least <= n && n <= greatest
}

#[cfg(test)]
mod tests;
