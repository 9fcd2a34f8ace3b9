//! The parts of a relation become blocks of rings.

ghost use Rattle.std.specs.Prelude.{◌≡◌, ◌*◌, ◌≤◌, ◌^◌, ◌<◌, [], IsTrue, ◌↔◌};
ghost use Rattle.mf_base.specs.declared.kind.EntityKind.{EntityKind};
ghost use Rattle.feature_model.specs.Blocks.{relation_blocks};
ghost use Rattle.mf_rows.specs.Desks.{used};
ghost use Rattle.mf_rows.specs.RecordUnits.{parts_count};
ghost use Rattle.ring_assembly.specs.Assembled.{HoldsRelation, parts_held, outcome, assembled, JoinsAll};
ghost use Rattle.ring_assembly.specs.Taken.{IsBench, units_left};

use crate::joining::join_parts;
use crate::laid::Laid;
use crate::put_back::put_blocks;
use crate::rows::are_wide;
use feature_model::fault::RingFault;
use mf_base::kind::{EntityKind, Role};
use mf_base::out_buf::OutBuf;
use mf_rows::cursors::RingCursor;
use mf_rows::desk::Desk;
use mf_rows::records::Records;

/// Joins the parts of the one relation of a desk to rings, and leaves its blocks in their place. The output is the room
/// to work in, and empty afterwards. After a refusal the desk is empty.
///
/// A relation of n parts with k points takes at most about n * n comparisons of ends and moves 2 k points.
pub fn assemble(desk: &mut Desk) -> Result<(), RingFault>
    requires relation { HoldsRelation desk.old.records }
    ensures result { result ≡ outcome (relation_blocks (parts_held desk.old.records)) }
    ensures records { desk.new.records ≡ assembled (relation_blocks (parts_held desk.old.records)) desk.old.records }
    ensures used { used desk.new.records ≤ used desk.old.records }
    ensures out { desk.new.out ≡ record { bytes = []; capacity = desk.old.out.capacity } }
    ensures water { desk.new.water ≡ desk.old.water }
{
    has_room(&desk.records);
    let behind = unit_count(desk.records.view(0).rings());
    desk.records.loosen();
    are_wide(desk.records.loose());
    let front = desk.records.loose().len() - behind;
    desk.out.clear();
    let joined = join_all(&mut desk.records, &mut desk.out, front);
    desk.out.clear();
    match joined {
        Ok(()) => {
            desk.records.close_record();
            Ok(())
        }
        Err(why) => {
            desk.records.clear();
            Err(why)
        }
    }
}

/// Whether records are one relation, without loose units.
pub fn holds_relation(records: &Records) -> bool
    ensures { IsTrue result ↔ HoldsRelation records.now }
{
    if records.len() != 1 {
        return false;
    }
    if !records.loose().is_empty() {
        return false;
    }
    is_relation(records.head(0).kind)
}

// Whether a kind is that of relations.
fn is_relation(kind: EntityKind) -> bool
    ensures { IsTrue result ↔ (kind ≡ EntityKind.Relation) }
{
    match kind {
        EntityKind::Relation => true,
        EntityKind::Node | EntityKind::Way => false,
    }
}

// Joins the parts behind the units of head and texts, and puts their blocks in their place.
fn join_all(records: &mut Records, out: &mut OutBuf, front: usize) -> Result<(), RingFault>
    requires bench { IsBench front records.old }
    requires empty { out.old.bytes ≡ [] }
    requires room { 16 * units_left front records.old ≤ out.old.capacity }
    requires few { out.old.capacity ≤ 268435712 }
    ensures joined { JoinsAll front result records.old records.new }
    ensures capacity { out.new.capacity ≡ out.old.capacity }
{
    let none = Laid {
        rings: 0,
        rows: 0,
        housed: 0,
    };
    let outer = join_parts(records, out, front, Role::Outer, none)?;
    if outer.rings == 0 {
        return Err(RingFault::NoOuter);
    }
    let inner = join_parts(records, out, front, Role::Inner, outer)?;
    put_blocks(records, out, front, outer, inner);
    Ok(())
}

// No more rows are in use than there is room for.
fn has_room(records: &Records)
    ensures rest { used records.now ≤ records.now.capacity }
    ensures most { records.now.capacity ≤ 16777216 }
{
    records.spare();
}

// How many units parts have.
fn unit_count(mut parts: RingCursor<'_>) -> usize
    requires { parts_count parts < 2 ^ 63 }
    ensures { result ≡ parts_count parts.entry }
{
    let mut count = 0;
    while let Some((_, points)) = parts.next() {
        count += 1 + points.len();
    }
    count
}

#[cfg(test)]
mod tests;
