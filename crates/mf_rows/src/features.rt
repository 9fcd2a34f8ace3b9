//! Which records are features.

ghost use Rattle.std.specs.Prelude.{◌↔◌, IsTrue};
ghost use Rattle.std.specs.List.{AllByRecursion};
ghost use Rattle.mf_rows.specs.Shapes.{IsFeature, AreRings, IsRing};

use crate::cursors::RingCursor;
use crate::view::View;
use mf_base::kind::{EntityKind, Role};

/// Whether a record is a feature: a node with its point, or a way or relation with rings, of which the first is outer
/// and each has at least two points.
pub fn is_feature(view: &View) -> bool
    ensures { IsTrue result ↔ IsFeature view.now }
{
    match view.head().kind {
        EntityKind::Node => view.point().is_some(),
        EntityKind::Way | EntityKind::Relation => are_rings(view.rings()),
    }
}

// Whether parts are rings, of which the first is outer.
fn are_rings(mut parts: RingCursor<'_>) -> bool
    ensures { IsTrue result ↔ AreRings parts.entry }
{
    match parts.next() {
        Some((Role::Outer, points)) => points.len() >= 2 && are_long(parts),
        Some((Role::Inner, _)) | None => false,
    }
}

// Whether each part has at least two points.
fn are_long(mut parts: RingCursor<'_>) -> bool
    ensures { IsTrue result ↔ AllByRecursion IsRing parts.entry }
{
    while let Some((_, points)) = parts.next() {
        if points.len() < 2 {
            return false;
        }
    }
    true
}
