//! How the parts of a role are joined to rings, which are laid into the output.

ghost use Rattle.std.specs.Prelude.{◌≡◌, ◌+◌, ◌-◌, ◌*◌, ◌^◌, ◌≤◌, ◌<◌, length, drop, take, is_some, if◌then◌else◌};
ghost use Rattle.ring_assembly.specs.Marked.{points_in};
ghost use Rattle.ring_assembly.specs.Rows.{IsInRows, row_total, LaysRows};
ghost use Rattle.ring_assembly.specs.Added.{added_units, other_end};
ghost use Rattle.ring_assembly.specs.Taken.{IsBench, units_left, taken_piece};
ghost use Rattle.ring_assembly.specs.Joining.{JoinsRing};
ghost use Rattle.ring_assembly.specs.JoiningParts.{EndsRing, JoinsParts};
ghost use Rattle.ring_assembly.specs.Laid.{HasLaid};

use crate::laid::{Foot, Laid, home_of, lay_foot};
use crate::parts::{Taken, first_node, last_node, take_part, units_taken};
use crate::rows::{lay, lay_reversed, rows_of};
use feature_model::fault::RingFault;
use mf_base::kind::Role;
use mf_base::out_buf::OutBuf;
use mf_rows::records::Records;

/// Joins all parts of a role, and lays each ring with its home among the outer rings.
pub fn join_parts(
    records: &mut Records,
    out: &mut OutBuf,
    front: usize,
    role: Role,
    outer: Laid,
) -> Result<Laid, RingFault>
    requires bench { IsBench front records.old }
    requires rows { IsInRows out.old.bytes }
    requires outer { HasLaid outer out.old.bytes }
    requires room { 16 * (row_total out.old.bytes + units_left front records.old) ≤ out.old.capacity }
    requires few { out.old.capacity ≤ 268435712 }
    ensures { JoinsParts front role outer result records.old out.old records.new out.new }
{
    let mut laid = Laid {
        rings: 0,
        rows: rows_of(out).len(),
        housed: 0,
    };
    while let Some(start) = take_part(records, front, role, None) {
        join_ring(records, out, front, role, start)?;
        laid = end_ring(out, outer, laid);
    }
    Ok(laid)
}

// Ends the ring whose points are the rows behind those that are laid.
fn end_ring(out: &mut OutBuf, outer: Laid, laid: Laid) -> Laid
    requires whole { IsInRows out.old.bytes }
    requires room { 16 * (row_total out.old.bytes + 1) ≤ out.old.capacity }
    requires few { out.old.capacity ≤ 268435712 }
    requires outer { HasLaid outer out.old.bytes }
    requires within { laid.rows ≤ row_total out.old.bytes }
    requires rings { laid.rings ≤ laid.rows }
    requires housed { laid.housed ≤ laid.rows }
    ensures { EndsRing outer laid result out.old out.new }
{
    let rows = rows_of(out);
    let ring = rows.split_at(laid.rows).1;
    let home = home_of(rows.split_at(outer.rows).0, outer.rings, ring);
    let points = ring.len();
    lay_foot(out, Foot { home, points });
    Laid {
        rings: laid.rings + 1,
        rows: laid.rows + points + 1,
        housed: laid.housed + kept_rows(home, points),
    }
}

// How many rows of a ring are kept.
fn kept_rows(home: Option<u32>, points: usize) -> usize
    requires { points < 2 ^ 63 }
    ensures { result ≡ (if is_some home then points + 1 else 0) }
{
    match home {
        Some(_) => points + 1,
        None => 0,
    }
}

// Joins the ring that this part starts, and lays its points.
fn join_ring(
    records: &mut Records,
    out: &mut OutBuf,
    front: usize,
    role: Role,
    start: Taken,
) -> Result<(), RingFault>
    requires bench { IsBench front records.old }
    requires start { start.at + start.points ≤ length records.old.loose }
    requires whole { IsInRows out.old.bytes }
    requires room { 16 * (row_total out.old.bytes + (start.points + units_left front records.old)) ≤ out.old.capacity }
    ensures { JoinsRing front role (taken_piece start records.old) result records.old out.old records.new out.new }
{
    let points = units_taken(records, start);
    let first = first_node(points);
    let mut last = last_node(points);
    lay(out, points);
    while last != first {
        match take_part(records, front, role, Some(last)) {
            Some(part) => last = add_part(units_taken(records, part), out, last),
            None => {
                return Err(RingFault::OpenRing { part: start.number });
            }
        }
    }
    Ok(())
}

// Adds a part to a ring that ends at this node, without the joint point, and answers the node at which it ends then.
fn add_part(points: &[[u8; 16]], out: &mut OutBuf, end: u64) -> u64
    requires whole { IsInRows out.old.bytes }
    requires room { 16 * (row_total out.old.bytes + length points.now) ≤ out.old.capacity }
    ensures laid { LaysRows out.old out.new (added_units end points.now) }
    ensures end { result ≡ other_end end (points_in points.now) }
{
    if first_node(points) == end {
        lay(out, without_first(points));
        last_node(points)
    } else {
        lay_reversed(out, without_last(points));
        first_node(points)
    }
}

// All but the first.
fn without_first(points: &[[u8; 16]]) -> &[[u8; 16]]
    ensures { result.now ≡ drop 1 points.now }
{
    match points.split_first() {
        Some((_, rest)) => rest,
        None => points,
    }
}

// All but the last.
fn without_last(points: &[[u8; 16]]) -> &[[u8; 16]]
    ensures { result.now ≡ take (length points.now - 1) points.now }
{
    match points.split_last() {
        Some((_, rest)) => rest,
        None => points,
    }
}
