//! Where the label of a way stands.

ghost use Rattle.std.specs.Prelude.{◌≡◌, ◌≢◌, ◌^◌, ◌+ℤ◌, IfSome, option_map};
ghost use Rattle.mf_base.specs.declared.kind.EntityKind.TheVariants.{Node};
ghost use Rattle.map_model.specs.Numbers.{floor_div};
ghost use Rattle.map_model.specs.Rectangles.{rings_of, rect_of};
ghost use Rattle.map_model.specs.Labels as labels;
ghost use Rattle.map_model.specs.Labels.{same_place, first_ring_is_closed};
ghost use Rattle.map_model.specs.Layout.{first_of_blocks};
ghost use Rattle.mf_rows.specs.Shapes.{feature_told, IsFeature};
ghost use Rattle.way_delta.specs.Steps.{shown, IsStepBelow};
ghost use Rattle.way_delta.specs.Rings.{blocks_told};
ghost use Rattle.tile_body.specs.Ways.{label_step, last_from};

use mf_base::place::{Place, Rect};
use mf_rows::cursors::PointCursor;
use mf_rows::view::View;
use way_delta::steps::{Step, step_between};

/// How far the label of a way with this rectangle is from the first place of its first ring, where it has one.
pub(crate) fn label_of(view: &View, rect: &Rect) -> Option<Step>
    requires way { view.now.head.kind ≢ Node }
    requires feature { IsFeature view.now }
    requires rect { rect.now ≡ rect_of (feature_told view.now) }
    ensures label { option_map shown result ≡ label_step (feature_told view.now) }
    ensures small { IfSome result (IsStepBelow (2 ^ 33)) }
{
    if view.head().label {
        let (first, last) = ends_of_first_ring(view);
        if is_same(first, last) {
            return Some(step_between(first, middle(rect)));
        }
    }
    None
}

// Whether two places are equal.
fn is_same(a: Place, b: Place) -> bool
    ensures { result ≡ same_place a b }
{
    a.lat == b.lat && a.lon == b.lon
}

// The first and the last place of the first ring.
fn ends_of_first_ring(view: &View) -> (Place, Place)
    requires way { view.now.head.kind ≢ Node }
    requires feature { IsFeature view.now }
    ensures first { result.0 ≡ first_of_blocks (blocks_told view.now) }
    ensures closed { first_ring_is_closed (rings_of (feature_told view.now)) ≡ same_place result.0 result.1 }
{
    let (_, mut points) = view.rings().next().unwrap();
    let (_, first) = points.next().unwrap();
    (first, last_of(points, first))
}

// The last of some places, or this one where there are none.
fn last_of(mut points: PointCursor<'_>, first: Place) -> Place
    ensures { result ≡ last_from first points.entry }
{
    let mut last = first;
    while let Some((_, place)) = points.next() {
        last = place;
    }
    last
}

// The middle of a rectangle, rounded down.
fn middle(rect: &Rect) -> Place
    ensures { result ≡ labels.middle rect.now }
{
    Place {
        lat: half_of(rect.min_lat, rect.max_lat),
        lon: half_of(rect.min_lon, rect.max_lon),
    }
}

// Half the sum of two coordinates, rounded down.
fn half_of(a: i32, b: i32) -> i32
    ensures { result ≡ floor_div (a +ℤ b) 2 }
{
    (i64::from(a) + i64::from(b)).div_euclid(2) as i32
}
