//! The bytes of the coordinates of a feature under both delta kinds.

ghost use Rattle.std.specs.Prelude.{◌≡◌, ◌*◌, ◌≤◌, ◌<◌, ◌^◌, true, false, length};
ghost use Rattle.map_model.specs.TileBytes.{coordinate_size};
ghost use Rattle.mf_rows.specs.RecordUnits.{parts_count};
ghost use Rattle.mf_rows.specs.Shapes.{IsFeature, feature_told};
ghost use Rattle.way_delta.specs.Rings.{later_size, ring_size, rings_size};

use crate::steps::{Step, size_step, step_between, written};
use mf_base::kind::EntityKind;
use mf_base::place::Place;
use mf_rows::cursors::{PointCursor, RingCursor};
use mf_rows::view::View;

/// How many bytes all coordinates of a feature take in a tile with this corner: under single delta, and under double
/// delta. Each coordinate is read once. A node has none.
pub fn measure(view: &View, corner: Place) -> (u64, u64)
    requires feature { IsFeature view.now }
    requires few { parts_count view.now.parts < 2 ^ 32 }
    ensures single { result.0 ≡ coordinate_size corner false (feature_told view.now) }
    ensures double { result.1 ≡ coordinate_size corner true (feature_told view.now) }
    ensures most { (result.0 ≤ 20 * parts_count view.now.parts) × (result.1 ≤ 20 * parts_count view.now.parts) }
{
    match view.head().kind {
        EntityKind::Node => (0, 0),
        EntityKind::Way | EntityKind::Relation => measure_rings(view.rings(), corner),
    }
}

// The same of rings.
fn measure_rings(mut rings: RingCursor<'_>, corner: Place) -> (u64, u64)
    requires few { parts_count rings < 2 ^ 32 }
    ensures single { result.0 ≡ rings_size corner false rings.entry }
    ensures double { result.1 ≡ rings_size corner true rings.entry }
    ensures most { (result.0 ≤ 20 * parts_count rings.entry) × (result.1 ≤ 20 * parts_count rings.entry) }
{
    let mut single = 0;
    let mut double = 0;
    while let Some((_, points)) = rings.next() {
        let sizes = measure_ring(points, corner);
        single += sizes.0;
        double += sizes.1;
    }
    (single, double)
}

// The same of the places of a ring.
fn measure_ring(mut points: PointCursor<'_>, corner: Place) -> (u64, u64)
    requires few { length points < 2 ^ 32 }
    ensures single { result.0 ≡ ring_size corner false points.entry }
    ensures double { result.1 ≡ ring_size corner true points.entry }
    ensures most { (result.0 ≤ 20 * length points.entry) × (result.1 ≤ 20 * length points.entry) }
{
    match points.next() {
        Some((_, first)) => {
            let size = size_step(step_between(corner, first));
            let (single, double) = measure_later(points, first);
            (size + single, size + double)
        }
        None => (0, 0),
    }
}

// The same of the places of a ring behind its first.
fn measure_later(mut points: PointCursor<'_>, first: Place) -> (u64, u64)
    requires few { length points < 2 ^ 32 }
    ensures single { result.0 ≡ later_size false first points.entry }
    ensures double { result.1 ≡ later_size true first points.entry }
    ensures most { (result.0 ≤ 20 * length points.entry) × (result.1 ≤ 20 * length points.entry) }
{
    let mut before = first;
    let mut last = Step { lat: 0, lon: 0 };
    let mut single = 0;
    let mut double = 0;
    while let Some((_, place)) = points.next() {
        let next = step_between(before, place);
        single += size_step(next);
        double += size_step(written(next, last, true));
        before = place;
        last = next;
    }
    (single, double)
}
