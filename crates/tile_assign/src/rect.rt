//! The rectangle of a feature.

ghost use Rattle.std.specs.Prelude.{◌≡◌, IsTrue};
ghost use Rattle.mf_base.specs.Ranges.{is_on_earth, is_rect};
ghost use Rattle.feature_model.specs.Proper.{AllPlaces};
ghost use Rattle.map_model.specs.Rectangles as spec;
ghost use Rattle.mf_rows.specs.Shapes.{feature_told, shape_told, IsFeature, AreRings, DrawsFeature};
ghost use Rattle.tile_assign.specs.GrowingRects as growing;

use mf_base::kind::EntityKind;
use mf_base::place::{Place, Rect};
use mf_rows::cursors::{PointCursor, RingCursor};
use mf_rows::view::View;

/// The rectangle from the least to the greatest latitude and longitude of a feature, in microdegrees. It is a rectangle
/// on the earth where the places of the feature are.
pub fn rect_of(view: &View) -> Rect
    requires feature { IsFeature view.now }
    ensures rect { result ≡ spec.rect_of (feature_told view.now) }
    ensures on_earth { AllPlaces (λ p. IsTrue (is_on_earth p)) (shape_told view.now) → IsTrue (is_rect result) }
{
    match view.head().kind {
        EntityKind::Node => {
            let (_, place) = view.point().unwrap();
            around(place)
        }
        EntityKind::Way | EntityKind::Relation => rect_of_rings(view.rings()),
    }
}

// The rectangle of the points of rings.
fn rect_of_rings(mut rings: RingCursor<'_>) -> Rect
    requires { AreRings rings }
    ensures { result ≡ growing.rect_of_rings rings.entry }
{
    let (_, mut points) = rings.next().unwrap();
    let (_, place) = points.next().unwrap();
    let mut rect = with_points(around(place), points);
    while let Some((_, points)) = rings.next() {
        rect = with_points(rect, points);
    }
    rect
}

// A rectangle that takes in points.
fn with_points(rect: Rect, mut points: PointCursor<'_>) -> Rect
    ensures { result ≡ growing.with_points rect points.entry }
{
    let mut all = rect;
    while let Some((_, place)) = points.next() {
        all = with_place(all, place);
    }
    all
}

// The rectangle of one place.
fn around(place: Place) -> Rect
    ensures { result ≡ growing.around place }
{
    Rect {
        min_lat: place.lat,
        min_lon: place.lon,
        max_lat: place.lat,
        max_lon: place.lon,
    }
}

// A rectangle that takes in a place.
fn with_place(rect: Rect, place: Place) -> Rect
    ensures { result ≡ growing.with_place rect place }
{
    Rect {
        min_lat: rect.min_lat.min(place.lat),
        min_lon: rect.min_lon.min(place.lon),
        max_lat: rect.max_lat.max(place.lat),
        max_lon: rect.max_lon.max(place.lon),
    }
}

#[cfg(test)]
mod tests {
    use super::*;
    use arrayvec::ArrayVec;
    use mf_base::kind::Role;
    use mf_rows::head::{Head, Texts};
    use mf_rows::units::{part_unit, point_unit};

    // A head without tags.
    fn head(kind: EntityKind) -> Head
        ensures { result.kind ≡ kind }
    {
        Head {
            kind,
            id: 1,
            number: 0,
            weight: 16,
            zoom: 5,
            layer: 0,
            water: false,
            label: false,
            coast: false,
            height: None,
            tags: ArrayVec::new(),
        }
    }

    // The rectangle of what these units draw.
    fn rect_of_drawn(kind: EntityKind, drawn: &[[u8; 16]]) -> Rect
        requires { DrawsFeature kind drawn.now }
    {
        let head = head(kind);
        let texts = Texts {
            block: b"",
            spans: ArrayVec::new(),
        };
        rect_of(&View::new(&head, texts, drawn))
    }

    const fn place(lat: i32, lon: i32) -> Place
        ensures { result ≡ record { lat = lat; lon = lon } }
    {
        Place { lat, lon }
    }

    const fn rect(min_lat: i32, min_lon: i32, max_lat: i32, max_lon: i32) -> Rect
        ensures { result ≡ record { min_lat = min_lat; min_lon = min_lon; max_lat = max_lat; max_lon = max_lon } }
    {
        Rect {
            min_lat,
            min_lon,
            max_lat,
            max_lon,
        }
    }

    fn rect_of_node(p: Place) -> Rect {
        rect_of_drawn(EntityKind::Node, &[point_unit(1, p)])
    }

    fn rect_of_way(a: Place, b: Place) -> Rect {
        let units = [
            part_unit(Role::Outer, 2),
            point_unit(1, a),
            point_unit(2, b),
        ];
        rect_of_drawn(EntityKind::Way, &units)
    }

    // Two rings: an outer one, and an inner one.
    fn rect_of_relation(outer: [Place; 2], inner: [Place; 2]) -> Rect {
        let units = [
            part_unit(Role::Outer, 2),
            point_unit(1, outer[0]),
            point_unit(2, outer[1]),
            part_unit(Role::Inner, 2),
            point_unit(3, inner[0]),
            point_unit(4, inner[1]),
        ];
        rect_of_drawn(EntityKind::Relation, &units)
    }

    // One place, the corners of the world in any order, a way along a meridian, and an inner ring that reaches further.
    #[test]
    fn rectangles_of_features(rt: HostRuntime) {
        let north_east = place(90_000_000, 180_000_000);
        let south_west = place(-90_000_000, -180_000_000);
        let world = rect(-90_000_000, -180_000_000, 90_000_000, 180_000_000);
        assert_eq!(rt; rect_of_node(place(3, -4)), rect(3, -4, 3, -4));
        assert_eq!(rt;
            rect_of_node(south_west),
            rect(-90_000_000, -180_000_000, -90_000_000, -180_000_000)
        );
        assert_eq!(rt; rect_of_way(south_west, north_east), world);
        assert_eq!(rt; rect_of_way(north_east, south_west), world);
        assert_eq!(rt; rect_of_way(place(5, 0), place(-5, 0)), rect(-5, 0, 5, 0));
        let outer = [place(0, 0), place(2, 2)];
        assert_eq!(rt;
            rect_of_relation(outer, [place(1, 1), place(1, 2)]),
            rect(0, 0, 2, 2)
        );
        assert_eq!(rt;
            rect_of_relation(outer, [place(-1, 5), place(3, 1)]),
            rect(-1, 0, 3, 5)
        );
    }
}
