//! The members of candidates become the points of their ways.

ghost use Rattle.std.specs.Prelude.{◌≡◌, ◌+◌, ◌*◌, ◌<◌, ◌≤◌, true, List, [], ◌∷◌, ◌++◌, length, IfOk, OnOk, OnErr};
ghost use Rattle.osm_model.specs.Entities.{Entity};
ghost use Rattle.feature_model.specs.Mapping.{Mapping};
ghost use Rattle.mf_edge.specs.Device.{CountsOne};
ghost use Rattle.mf_edge.specs.Spill.{SameStore, most_parts, part_limit};
ghost use Rattle.mf_rows.specs.Kinds.{member_kind, point_kind, rel_kind};
ghost use Rattle.spill_parts.specs.Parts.{Piece, HasJust, piece_of};
ghost use Rattle.member_points.specs.RelRows.{AreMemberRows, rel_rows};

use crate::pairs::pair_members;
use mf_edge::{Failed, Spill, Steps};
use mf_rows::kinds::{MemberRow, PointRow, RelRow};
use mf_rows::records::Records;
use spill_parts::{Page, Part, forget_part, order_part};
use std::sync::ledger::Ledger;

/// Makes of the members of candidates and of the points of all ways the points of the members, relation after relation.
/// The members are forgotten, and the points stay.
///
/// The records hold the points of one way at a time, in place of all that they had. For each point for which they have
/// no room there is a row with node 0 and the place (0, 0), so that a relation over their limit is weighed in full.
/// After `Failed` the parts are not to be used again.
pub fn points_of_members<P: Spill, L: Ledger>(
    members: Part<MemberRow>,
    points: &Part<PointRow>,
    records: &mut Records,
    first: &mut Page,
    second: &mut Page,
    spill: &mut P,
    steps: &mut Steps<L>,
) -> Result<Part<RelRow>, Failed>
    requires just { (more : List Piece)
        × HasJust (piece_of member_kind members ∷ piece_of point_kind points.now ∷ more) (P.state spill.old) }
    requires few { (P.state spill.old).count < most_parts }
    requires found { (P.state spill.old).tells ≡ true
        → (mapping : Mapping) × (entities : List Entity) × AreMemberRows mapping entities members.rows points.now.rows }
    ensures points { (mapping : Mapping) (entities : List Entity)
        → AreMemberRows mapping entities members.rows points.now.rows
        → (P.state spill.old).tells ≡ true
        → IfOk result (λ rel. rel.rows ≡ rel_rows records.old.capacity mapping entities) }
    ensures just { (more : List Piece)
        → HasJust (piece_of member_kind members ∷ piece_of point_kind points.now ∷ more) (P.state spill.old)
        → IfOk result (λ rel.
        HasJust (piece_of point_kind points.now ∷ more ++ piece_of rel_kind rel ∷ []) (P.state spill.new)) }
    ensures same_faults { OnOk result ((P.state spill.new).faults ≡ (P.state spill.old).faults) }
    ensures failed { OnErr result (CountsOne (P.state spill.old).faults (P.state spill.new).faults) }
    ensures same { SameStore (P.state spill.old) (P.state spill.new) }
    ensures counts { (P.state spill.old).faults ≤ (P.state spill.new).faults }

    // Where the store tells its bytes it becomes overrun only where the points pass the limit of a part.
    ensures within { (mapping : Mapping) (entities : List Entity)
        → AreMemberRows mapping entities members.rows points.now.rows
        → (P.state spill.old).tells ≡ true
        → 33 * length (rel_rows records.old.capacity mapping entities) ≤ part_limit
        → (P.state spill.new).is_overrun ≡ (P.state spill.old).is_overrun }
    ensures steps { steps.new ≤ steps.old + 21 * length members.rows + 28 * length points.now.rows }
    ensures same_rooms { (first.new.room ≡ first.old.room) × (second.new.room ≡ second.old.room) }
    ensures capacity { records.new.capacity ≡ records.old.capacity }
{
    let _known = (members.len(), points.len());
    let members = order_part(spill, members)?;
    let rel = pair_members(&members, points, records, first, second, spill, steps)?;
    forget_part(spill, members);
    order_part(spill, rel)
}

#[cfg(test)]
mod tests;
