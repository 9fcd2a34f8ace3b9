//! The features become rows of tiles, in the order of the tiles.

ghost use Rattle.std.specs.Prelude.{◌≡◌, ◌+◌, ◌*◌, ◌≤◌, true, List, [], ◌∷◌, length, IfOk, OnOk, OnErr, IsTrue};
ghost use Rattle.mf_base.specs.Ranges.{is_rect};
ghost use Rattle.mf_edge.specs.Device.{CountsOne};
ghost use Rattle.mf_edge.specs.Spill.{SameStore, part_limit};
ghost use Rattle.map_model.specs.Intervals.{are_intervals};
ghost use Rattle.map_header.specs.Shown.{settings_of};
ghost use Rattle.mf_rows.specs.Kinds.{shape_kind, tile_kind};
ghost use Rattle.spill_parts.specs.Parts.{HasJust, piece_of};
ghost use Rattle.spill_parts.specs.Shaped.{Spelled};
ghost use Rattle.tile_rows.specs.TileRows.{put_rows};
ghost use Rattle.tile_spread.specs.Pass.{MaySpread};
ghost use Rattle.mf_layout.specs.Layouts.{AreInOrder};

use map_header::head_settings::HeadSettings;
use mercator_rows::rows::Rows;
use mf_base::place::Rect;
use mf_edge::{Failed, Spill, Steps};
use mf_rows::kinds::{ShapeRow, TileRow};
use mf_rows::records::Records;
use spill_parts::{Page, Part, Writer, forget_part, order_part};
use std::sync::ledger::Ledger;
use tile_spread::spread::spread;

/// Makes the features of a part rows of the tiles of a map, tile after tile, and forgets the part. After `Failed` the
/// parts are not to be used again.
pub(crate) fn order_members<P: Spill, L: Ledger>(
    set: &HeadSettings,
    bounds: &Rect,
    rows: &Rows,
    shapes: Part<ShapeRow>,
    records: &mut Records,
    page: &mut Page,
    spill: &mut P,
    steps: &mut Steps<L>,
) -> Result<Part<TileRow>, Failed>
    requires intervals { IsTrue (are_intervals set.now.intervals.items) }
    requires bounds { IsTrue (is_rect bounds.now) }
    requires just { HasJust (piece_of shape_kind shapes ∷ []) (P.state spill.old) }
    requires found { (P.state spill.old).tells ≡ true
        → (list : List Spelled) × MaySpread records.old.capacity list shapes.rows }
    ensures ordered { IfOk result (λ p. (P.state spill.old).tells ≡ true → (list : List Spelled)
        → MaySpread records.old.capacity list shapes.rows
        → AreInOrder records.old.capacity (settings_of set.now) bounds.now list p.rows) }
    ensures just { IfOk result (λ p. HasJust (piece_of tile_kind p ∷ []) (P.state spill.new)) }
    ensures same_faults { OnOk result ((P.state spill.new).faults ≡ (P.state spill.old).faults) }
    ensures failed { OnErr result (CountsOne (P.state spill.old).faults (P.state spill.new).faults) }
    ensures same { SameStore (P.state spill.old) (P.state spill.new) }

    // The store becomes overrun only where the rows pass the limit of a part.
    ensures within { (P.state spill.old).tells ≡ true → (list : List Spelled)
        → MaySpread records.old.capacity list shapes.rows
        → 39 * length (put_rows (settings_of set.now) bounds.now list) ≤ part_limit
        → (P.state spill.new).is_overrun ≡ (P.state spill.old).is_overrun }
    ensures steps { steps.new ≤ steps.old + 28 * length shapes.rows }
    ensures capacity { records.new.capacity ≡ records.old.capacity }
    ensures same_room { page.new.room ≡ page.old.room }
{
    let mut out = Writer::make(spill)?;
    spread(
        &set.intervals,
        bounds,
        rows,
        &shapes,
        &mut out,
        records,
        page,
        spill,
        steps,
    )?;
    let ordered = order_part(spill, out.finish())?;
    forget_part(spill, shapes);
    Ok(ordered)
}
