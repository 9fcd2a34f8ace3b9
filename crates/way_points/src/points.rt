//! The refs of all ways become their points.

ghost use Rattle.std.specs.Prelude.{◌≡◌, ◌+◌, ◌*◌, ◌<◌, ◌≤◌, true, List, [], ◌∷◌, ◌++◌, length, IfOk, OnOk, OnErr};
ghost use Rattle.osm_model.specs.Entities.{Entity};
ghost use Rattle.mf_edge.specs.Device.{CountsOne};
ghost use Rattle.mf_edge.specs.Spill.{SameStore, most_parts, part_limit};
ghost use Rattle.mf_rows.specs.Kinds.{node_kind, ref_kind, point_kind};
ghost use Rattle.spill_parts.specs.Parts.{Piece, HasJust, piece_of};
ghost use Rattle.way_points.specs.PointRows.{AreInputRows, point_rows};

use mf_edge::{Failed, Spill, Steps};
use mf_rows::kinds::{NodeRow, PointRow, RefRow};
use spill_parts::{Page, Part, forget_part, join, order_part};
use std::sync::ledger::Ledger;

/// Makes of the nodes and refs of an input the points of its ways, way after way, each at the place of its ref. The
/// two parts are forgotten. After `Failed` the parts are not to be used again.
pub fn points_of_ways<P: Spill, L: Ledger>(
    places: Part<NodeRow>,
    refs: Part<RefRow>,
    first: &mut Page,
    second: &mut Page,
    spill: &mut P,
    steps: &mut Steps<L>,
) -> Result<Part<PointRow>, Failed>
    requires just { (more : List Piece)
        × HasJust (piece_of node_kind places ∷ piece_of ref_kind refs ∷ more) (P.state spill.old) }
    requires few { (P.state spill.old).count < most_parts }
    requires found { (P.state spill.old).tells ≡ true
        → (entities : List Entity) × AreInputRows entities places.rows refs.rows }
    ensures points { (entities : List Entity) → AreInputRows entities places.rows refs.rows
        → (P.state spill.old).tells ≡ true → IfOk result (λ points. points.rows ≡ point_rows entities) }
    ensures just { (more : List Piece)
        → HasJust (piece_of node_kind places ∷ piece_of ref_kind refs ∷ more) (P.state spill.old)
        → IfOk result (λ points. HasJust (more ++ piece_of point_kind points ∷ []) (P.state spill.new)) }
    ensures same_faults { OnOk result ((P.state spill.new).faults ≡ (P.state spill.old).faults) }
    ensures failed { OnErr result (CountsOne (P.state spill.old).faults (P.state spill.new).faults) }
    ensures same { SameStore (P.state spill.old) (P.state spill.new) }
    ensures counts { (P.state spill.old).faults ≤ (P.state spill.new).faults }

    // The store becomes overrun only where the points pass the limit of a part, and where it does not tell its bytes
    // only where a point for each ref would.
    ensures within_points { (entities : List Entity) → AreInputRows entities places.rows refs.rows
        → (P.state spill.old).tells ≡ true → 28 * length (point_rows entities) ≤ part_limit
        → (P.state spill.new).is_overrun ≡ (P.state spill.old).is_overrun }
    ensures within { 28 * length refs.rows ≤ part_limit
        → (P.state spill.new).is_overrun ≡ (P.state spill.old).is_overrun }
    ensures steps { steps.new ≤ steps.old + 20 * length refs.rows + 16 * length places.rows }
    ensures same_rooms { (first.new.room ≡ first.old.room) × (second.new.room ≡ second.old.room) }
{
    let _known = (places.len(), refs.len());
    let refs = order_part(spill, refs)?;
    let points = join::<RefRow, NodeRow, PointRow, P, L>(
        &refs, &places, first, second, spill, steps,
    )?;
    forget_part(spill, places);
    forget_part(spill, refs);
    order_part(spill, points)
}

#[cfg(test)]
mod tests;
