//! Data blocks, written.

ghost use Rattle.std.specs.Prelude.{◌≡◌, ◌+◌, ◌<◌, ◌^◌, length};
ghost use Rattle.mf_base.specs.Buffer.{HasRoom, AppendsTo};
ghost use Rattle.mf_rows.specs.RecordUnits.{parts_count};
ghost use Rattle.mf_rows.specs.Shapes.{IsFeature};
ghost use Rattle.way_delta.specs.Rings.{behind_outer, passed, head_bytes, ring_told, later_bytes, parts_bytes};
ghost use Rattle.way_delta.specs.Rings.{blocks_told, blocks_bytes};
ghost use Rattle.map_model.specs.Layout.{ring_bytes, coordinate_bytes};

use crate::counts::pass_inner;
use crate::steps::{Step, put_step, step_between, written};
use mf_base::kind::{EntityKind, Role};
use mf_base::out_buf::OutBuf;
use mf_base::place::Place;
use mf_base::vbe::put_vbe_u;
use mf_rows::cursors::{PointCursor, RingCursor};
use mf_rows::view::View;

/// Puts the data blocks of a feature in a tile with this corner, under double or single delta. A node has none. There
/// must be room for them, and for ten bytes more. Each coordinate is read once.
pub fn put_blocks(out: &mut OutBuf, view: &View, corner: Place, double: bool)
    requires feature { IsFeature view.now }
    requires few { parts_count view.now.parts < 2 ^ 32 }
    requires room { HasRoom out.old (length (blocks_bytes corner double (blocks_told view.now)) + 10) }
    ensures appends { AppendsTo out.old out.new (blocks_bytes corner double (blocks_told view.now)) }
{
    match view.head().kind {
        EntityKind::Node => {}
        EntityKind::Way | EntityKind::Relation => {
            let mut ahead = view.rings();
            let _ = ahead.next();
            put_rings(out, view.rings(), ahead, corner, double);
        }
    }
}

// Puts the blocks that rings make. `ahead` has those behind the next outer one.
fn put_rings(
    out: &mut OutBuf,
    mut rings: RingCursor<'_>,
    mut ahead: RingCursor<'_>,
    corner: Place,
    double: bool,
)
    requires few { parts_count rings < 2 ^ 32 }
    requires ahead { ahead ≡ behind_outer rings }
    requires room { HasRoom out.old (length (parts_bytes corner double rings) + 10) }
    ensures appends { AppendsTo out.old out.new (parts_bytes corner double rings.entry) }
{
    while let Some((role, points)) = rings.next() {
        put_head(out, role, &mut ahead);
        put_ring(out, points, corner, double);
    }
}

// Puts the number of rings of the block that a ring of this role begins. `ahead` has the rings behind it where it is
// outer; an inner ring begins no block.
fn put_head(out: &mut OutBuf, role: Role, ahead: &mut RingCursor<'_>)
    requires few { parts_count ahead.old < 2 ^ 32 }
    requires room { HasRoom out.old (length (head_bytes role ahead.old) + 10) }
    ensures appends { AppendsTo out.old out.new (head_bytes role ahead.old) }
    ensures ahead { ahead.new ≡ passed role ahead.old }
{
    match role {
        Role::Outer => put_vbe_u(out, pass_inner(ahead) + 1),
        Role::Inner => {}
    }
}

// Puts a ring: the number of its places, then these.
fn put_ring(out: &mut OutBuf, points: PointCursor<'_>, corner: Place, double: bool)
    requires few { length points < 2 ^ 32 }
    requires room { HasRoom out.old (length (ring_bytes corner double (ring_told points)) + 10) }
    ensures appends { AppendsTo out.old out.new (ring_bytes corner double (ring_told points.entry)) }
{
    put_vbe_u(out, points.len() as u64);
    put_places(out, points, corner, double);
}

// Puts the places of a ring.
fn put_places(out: &mut OutBuf, mut points: PointCursor<'_>, corner: Place, double: bool)
    requires room { HasRoom out.old (length (coordinate_bytes corner double (ring_told points)) + 10) }
    ensures appends { AppendsTo out.old out.new (coordinate_bytes corner double (ring_told points.entry)) }
{
    if let Some((_, first)) = points.next() {
        put_step(out, step_between(corner, first));
        put_later(out, points, first, double);
    }
}

// Puts the places of a ring behind its first.
fn put_later(out: &mut OutBuf, mut points: PointCursor<'_>, first: Place, double: bool)
    requires room { HasRoom out.old (length (later_bytes double first (ring_told points)) + 10) }
    ensures appends { AppendsTo out.old out.new (later_bytes double first (ring_told points.entry)) }
{
    let mut before = first;
    let mut last = Step { lat: 0, lon: 0 };
    while let Some((_, place)) = points.next() {
        let next = step_between(before, place);
        put_step(out, written(next, last, double));
        before = place;
        last = next;
    }
}
