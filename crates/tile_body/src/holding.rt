//! Whether records are the members of a tile.

ghost use Rattle.std.specs.Prelude.{◌≡◌, ◌↔◌, ◌<◌, ◌≤◌, Some, IfSome, IsTrue, length, take, slice_get};
ghost use Rattle.mf_base.specs.Ranges.{is_on_earth};
ghost use Rattle.feature_model.specs.Proper.{AllPlaces};
ghost use Rattle.map_model.specs.Members.{StandsBefore};
ghost use Rattle.mf_rows.specs.Shapes.{IsFeature, shape_told, feature_told};
ghost use Rattle.tile_body.specs.Members.{IsMember, HoldsMembers, IsNext, last_of};
ghost use Rattle.tile_body.specs.Tested.{has_near_sides, is_no_higher as is_no_higher_told, stands_before as stands_told};

use crate::class::is_poi;
use crate::spelled::is_spelled;
use mf_base::place::Rect;
use mf_base::tile::{Interval, TilePlace};
use mf_rows::features::is_feature;
use mf_rows::records::Records;
use mf_rows::view::View;
use tile_assign::rect::rect_of;

/// Whether a desk holds the members of a tile in order: what `encode` asks of it.
pub fn holds_members(records: &Records, tile: &TilePlace) -> bool
    ensures { IsTrue result ↔ HoldsMembers tile.now records.now }
{
    prove!(records.spare() <= 16_777_216);
    let mut i = 0;
    while i < records.len() {
        if !is_next(records, i, &tile.interval) {
            return false;
        }
        i += 1;
    }
    true
}

/// Whether a record may be a member of a tile: a feature on the earth, whose head and texts may be spelled.
pub fn is_member(view: &View) -> bool
    ensures { IsTrue result ↔ IsMember view.now }
{
    view.head().known();
    if !is_feature(view) {
        return false;
    }
    lies_on_earth(view) && is_spelled(view)
}

// Whether all places of a feature are on the earth.
fn lies_on_earth(view: &View) -> bool
    requires feature { IsFeature view.now }
    ensures { IsTrue result ↔ AllPlaces (λ p. IsTrue (is_on_earth p)) (shape_told view.now) }
{
    has_sides_on_earth(&rect_of(view))
}

// Whether no side of a rectangle is beyond the earth.
fn has_sides_on_earth(rect: &Rect) -> bool
    ensures { result ≡ has_near_sides rect.now }
{
    rect.min_lat >= -90_000_000
        && rect.max_lat <= 90_000_000
        && rect.min_lon >= -180_000_000
        && rect.max_lon <= 180_000_000
}

// Whether the record of this place may be the next member behind those before it.
fn is_next(records: &Records, i: u32, interval: &Interval) -> bool
    requires within { i < length records.now.records }
    ensures { IsTrue result ↔ IfSome (slice_get records.now.records i)
        (IsNext interval.now (take i records.now.records)) }
{
    let view = records.view(i);
    if !is_member(&view) {
        return false;
    }
    view.head().zoom <= interval.max && is_behind(records, i, &view, interval)
}

// Whether the record before this place, where there is one, stands before this one.
fn is_behind(records: &Records, i: u32, view: &View, interval: &Interval) -> bool
    requires within { i < length records.now.records }
    ensures { IsTrue result ↔ IfSome (last_of (take i records.now.records))
        (λ q. StandsBefore interval.now (feature_told q) (feature_told view.now)) }
{
    i == 0 || stands_before(&records.view(i - 1), view, interval)
}

// Whether a record stands before another: a POI before a way, and else by effective zoom.
fn stands_before(before: &View, view: &View, interval: &Interval) -> bool
    ensures { result ≡ stands_told interval.now before.now view.now }
{
    if is_poi(before.head()) {
        is_no_higher(before, view, interval) || !is_poi(view.head())
    } else {
        is_no_higher(before, view, interval) && !is_poi(view.head())
    }
}

// Whether the effective zoom of a record is at most that of another.
fn is_no_higher(before: &View, view: &View, interval: &Interval) -> bool
    ensures { result ≡ is_no_higher_told interval.now before.now view.now }
{
    before.head().zoom.max(interval.min) <= view.head().zoom.max(interval.min)
}
