//! The pass from candidates to features.

ghost use Rattle.std.specs.Prelude.{◌≡◌, ◌≢◌, ◌+◌, ◌*◌, ◌≤◌, true, List, [], ◌++◌, length, Some, Err, IfOk};
ghost use Rattle.osm_model.specs.Entities.{Entity};
ghost use Rattle.feature_model.specs.Mapping.{Mapping};
ghost use Rattle.feature_model.specs.Limits.{candidate_fault};
ghost use Rattle.feature_model.specs.declared.fault.LimitFault.{LimitFault as Fault};
ghost use Rattle.map_model.specs.MapFile.{shape_size};
ghost use Rattle.mf_edge.specs.Device.{CountsOne};
ghost use Rattle.mf_edge.specs.Spill.{SameStore};
ghost use Rattle.spill_parts.specs.Parts.{Piece, HasJust};
ghost use Rattle.spill_parts.specs.Handed.{IsIngested, ingested_pieces};
ghost use Rattle.spill_parts.specs.Shaped.{IsShapeOf, shapes_pieces};

use crate::fault::ShapeFault;
use crate::nodes::put_nodes;
use mf_edge::{Spill, Steps};
use mf_rows::desk::Desk;
use spill_parts::{Ingested, Page, Shapes, Writer, forget_part};
use std::sync::ledger::Ledger;

/// Makes the candidates of an input features, as rows of one part, for a mapping without entries for ways. The other
/// parts are forgotten. The row limit is the room of the desk. After a fault the parts are not to be used again.
pub fn shape<P: Spill, L: Ledger>(
    found: Ingested,
    desk: &mut Desk,
    page: &mut Page,
    spill: &mut P,
    steps: &mut Steps<L>,
) -> Result<Shapes, ShapeFault>
    requires just { HasJust (ingested_pieces found) (P.state spill.old) }

    // Where the store tells its bytes, the features are those of the entities, or the first candidate over the limit is
    // told.
    ensures features { (mapping : Mapping) (entities : List Entity) → IsIngested mapping entities found
        → mapping.way ≡ [] → (P.state spill.old).tells ≡ true
        → IfOk result (IsShapeOf desk.old.records.capacity mapping entities) }
    ensures limit { (f : Fault) (mapping : Mapping) (entities : List Entity) → IsIngested mapping entities found
        → mapping.way ≡ [] → (P.state spill.old).tells ≡ true → result ≡ Err (ShapeFault.Limit f)
        → candidate_fault desk.old.records.capacity mapping entities ≡ Some f }

    ensures just { IfOk result (λ shapes. HasJust (shapes_pieces shapes) (P.state spill.new)) }
    ensures spill { result ≡ Err ShapeFault.Spill → CountsOne (P.state spill.old).faults (P.state spill.new).faults }
    ensures same_faults { result ≢ Err ShapeFault.Spill → (P.state spill.new).faults ≡ (P.state spill.old).faults }
    ensures same { SameStore (P.state spill.old) (P.state spill.new) }
    ensures same_overrun { (P.state spill.new).is_overrun ≡ (P.state spill.old).is_overrun }
    ensures steps { steps.new ≤ steps.old + 29 * length found.node_units.rows }
    ensures size { (mapping : Mapping) (entities : List Entity) → IsIngested mapping entities found
        → mapping.way ≡ [] → steps.new ≤ steps.old + 29 * shape_size mapping entities }
    ensures capacity { desk.new.records.capacity ≡ desk.old.records.capacity }
    ensures out { desk.new.out ≡ desk.old.out }
    ensures same_room { page.new.room ≡ page.old.room }
{
    let mut out = Writer::make(spill)?;
    let counts = put_nodes(
        &found.node_units,
        &mut out,
        &mut desk.records,
        page,
        spill,
        steps,
    )?;
    let shapes = Shapes {
        nodes: found.nodes,
        ways: found.ways,
        relations: found.relations,
        features: counts.features,
        skipped: counts.skipped,
        largest: counts.largest,
        shapes: out.finish(),
    };
    forget_parts(found, spill);
    Ok(shapes)
}

// Forgets the parts of an input, of those that the store has.
fn forget_parts<P: Spill>(found: Ingested, spill: &mut P)
    requires just { (more : List Piece) × HasJust (ingested_pieces found ++ more) (P.state spill.old) }
    ensures just { (more : List Piece) → HasJust (ingested_pieces found ++ more) (P.state spill.old)
        → HasJust more (P.state spill.new) }
    ensures same { SameStore (P.state spill.old) (P.state spill.new) }
    ensures same_overrun { (P.state spill.new).is_overrun ≡ (P.state spill.old).is_overrun }
    ensures same_faults { (P.state spill.new).faults ≡ (P.state spill.old).faults }
{
    forget_part(spill, found.places);
    forget_part(spill, found.refs);
    forget_part(spill, found.members);
    forget_part(spill, found.node_units);
    forget_part(spill, found.way_units);
    forget_part(spill, found.relation_units);
}

#[cfg(test)]
mod tests;
