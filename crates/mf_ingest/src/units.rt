//! The units of a candidate as rows.

ghost use Rattle.std.specs.Prelude.{◌≡◌, length};
ghost use Rattle.std.specs.List.{AllByRecursion};
ghost use Rattle.std.proofs.Props.{props};
ghost use Rattle.mf_rows.specs.Heads.{kind_number};
ghost use Rattle.mf_rows.specs.Records.{LiesIn};
ghost use Rattle.mf_rows.specs.FirstUnits.{IsShort};
ghost use Rattle.spill_parts.specs.Handed.{feature_row_of};
ghost use Rattle.mf_ingest.specs.Fronts.{IsFront};
ghost use Rattle.mf_ingest.specs.FrontRows.{front_rows};
ghost use Rattle.mf_ingest.specs.LeftRows.{units_from};

use crate::front::Described;
use mf_rows::first_units::{first_unit, first_units};
use mf_rows::head::Head;
use mf_rows::kinds::FeatureRow;
use mf_rows::numbers::number_of_kind;
use spill_parts::Rows;

/// Gives the units of a head and its texts, each with its place.
#[derive(Drop)]
pub(crate) struct UnitRows<'a> {
    front: &'a Described<'a>,
    // The place of the next unit.
    place: u32,
    ghost lies: { AllByRecursion (LiesIn (length front.now.texts.block.now)) front.now.texts.spans.items } by { Prim.hlevel props },
    ghost short: { AllByRecursion IsShort front.now.texts.spans.items } by { Prim.hlevel props },
}

impl<'a> UnitRows<'a> {
    ghost use Rattle.std.specs.Prelude.{◌≡◌};
    ghost use Rattle.mf_ingest.specs.Fronts.{IsFront};
    ghost use Rattle.mf_ingest.specs.FrontRows.{front_rows};
    ghost use Rattle.mf_ingest.specs.LeftRows.{units_from};

    /// All units of a head and its texts.
    pub(crate) fn of(front: &'a Described<'a>) -> UnitRows<'a>
        requires { IsFront front.now }
        ensures { units_from result.place result.front.now ≡ front_rows front.now }
    {
        UnitRows { front, place: 0 }
    }
}

impl<'a> Rows<FeatureRow> for UnitRows<'a> {
    ghost use Rattle.mf_ingest.specs.LeftRows.{units_from};

    ghost left = { λ r. units_from r.place r.front.now };

    fn next(&mut self) -> Option<FeatureRow> {
        let front = self.front;
        let place = self.place;
        if place >= first_units(&front.head, &front.texts) {
            return None;
        }
        self.place += 1;
        let unit = first_unit(&front.head, &front.texts, place);
        Some(row_of(&front.head, place, unit))
    }
}

/// A unit of a candidate as a row.
pub(crate) fn row_of(head: &Head, place: u32, unit: [u8; 16]) -> FeatureRow
    ensures { result ≡ feature_row_of (kind_number head.now.kind) head.now.id (place, unit) }
{
    FeatureRow {
        kind: number_of_kind(head.kind),
        id: head.id,
        place,
        unit,
    }
}
