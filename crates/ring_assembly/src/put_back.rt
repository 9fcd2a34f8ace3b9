//! How rings that are laid are put back in the place of the parts: block after block, the last first.

ghost use Rattle.std.specs.Prelude.{◌≡◌, ◌+◌, ◌≤◌, ◌∷◌, [], ◌++◌, List, length, take, true};
ghost use Rattle.feature_model.specs.Blocks.{is_home};
ghost use Rattle.mf_base.specs.declared.kind.Role.{Role};
ghost use Rattle.ring_assembly.specs.Marked.{State, marked_units, all_units};
ghost use Rattle.ring_assembly.specs.Laid.{LaidRing, AreRowsOf};
ghost use Rattle.ring_assembly.specs.PutBack.{Puts, housed_units, inner_parts, block_rings, AreLaid};

use crate::laid::{Laid, LastRing, last_ring};
use crate::rows::rows_of;
use mf_base::kind::Role;
use mf_base::out_buf::OutBuf;
use mf_rows::records::Records;
use mf_rows::units::part_unit;

/// Puts the rings of all blocks behind the units of head and texts.
pub fn put_blocks(records: &mut Records, out: &OutBuf, front: usize, outer: Laid, inner: Laid)
    requires { (os is : List LaidRing) × AreLaid front os is outer inner records.old out.now }
    ensures { (os is : List LaidRing) → AreLaid front os is outer inner records.old out.now
        → records.new ≡ record records.old { loose = take front records.old.loose ++ all_units (block_rings 0 os is) } }
{
    let (outer_rows, inner_rows) = rows_of(out).split_at(outer.rows);
    let mut place = front + outer.rows + inner.housed;
    records.cut_loose(place as u32);
    let mut left = outer_rows;
    let mut home = outer.rings;
    while let Some(ring) = last_ring(left) {
        home -= 1;
        let begin = put_inner(records, inner_rows, home, place);
        place = put_ring(records, Role::Outer, ring.points, begin);
        left = ring.before;
    }
}

// Puts the inner rings of a block before a place, and answers the place of their first unit.
fn put_inner(records: &mut Records, rows: &[[u8; 16]], home: u32, end: usize) -> usize
    requires rings { (rings : List LaidRing) × AreRowsOf rings rows.now
        × (length (all_units (inner_parts home rings)) ≤ end) }
    requires within { end ≤ length records.old.loose }
    requires few { length records.old.loose ≤ 16777216 }
    ensures { (rings : List LaidRing) → AreRowsOf rings rows.now
        → Puts records.old records.new result end (all_units (inner_parts home rings)) }
{
    let mut place = end;
    let mut left = rows;
    while let Some(ring) = last_ring(left) {
        place = put_housed(records, &ring, home, place);
        left = ring.before;
    }
    place
}

// Puts an inner ring before a place, where this is its home, and answers the place of the first unit.
fn put_housed(records: &mut Records, ring: &LastRing<'_>, home: u32, end: usize) -> usize
    requires within { end ≤ length records.old.loose }
    requires few { length records.old.loose ≤ 16777216 }
    requires room { is_home home ring.now.home ≡ true → length ring.now.points.now + 1 ≤ end }
    ensures { Puts records.old records.new result end (housed_units home ring.now.home ring.now.points.now) }
{
    if ring.home == Some(home) {
        put_ring(records, Role::Inner, ring.points, end)
    } else {
        end
    }
}

// Puts a ring before a place, and answers the place of its first unit.
fn put_ring(records: &mut Records, role: Role, points: &[[u8; 16]], end: usize) -> usize
    requires within { end ≤ length records.old.loose }
    requires few { length records.old.loose ≤ 16777216 }
    requires room { length points.now + 1 ≤ end }
    ensures { Puts records.old records.new result end
        (marked_units (record { state = State.free role; units = points.now })) }
{
    let at = end - points.len() - 1;
    records.set_loose(at as u32, &part_unit(role, points.len() as u64));
    put_points(records, points, at + 1);
    at
}

// Puts points in the place of the units from a place on.
fn put_points(records: &mut Records, points: &[[u8; 16]], at: usize)
    requires within { at + length points.now ≤ length records.old.loose }
    requires few { length records.old.loose ≤ 16777216 }
    ensures { Puts records.old records.new at (at + length points.now) points.now }
{
    for i in 0..points.len() {
        records.set_loose((at + i) as u32, &points[i]);
    }
}
