//! Rows that have a unit of a record each.

ghost use Rattle.std.specs.Prelude.{◌≡◌, ℕ};
ghost use Rattle.mf_rows.specs.Units.{Unit16};

use mf_rows::kind::RowKind;
use mf_rows::kinds::{FeatureRow, ShapeRow, TileRow};

/// A row with a unit of a record, and its place among the record's units.
pub trait UnitRow: RowKind {
    /// The unit.
    ghost unit_of: { Self → Unit16 };

    /// Its place.
    ghost place_of: { Self → ℕ };

    /// The row of the same record with this place and this unit.
    ghost with_unit: { Self → ℕ → Unit16 → Self };

    /// The unit.
    fn unit(&self) -> &[u8; 16]
        ensures { result.now ≡ unit_of self.now };

    /// The place of the unit among those of the record, from 0.
    fn place(&self) -> u32
        ensures { result ≡ place_of self.now };

    /// The row of the same record with this place and this unit.
    fn with(&self, place: u32, unit: &[u8; 16]) -> Self
        ensures { result ≡ with_unit self.now place unit.now };
}

impl UnitRow for FeatureRow {
    ghost unit_of = { λ r. r.unit };

    ghost place_of = { λ r. r.place };

    ghost with_unit = { λ r place unit. record r { place = place; unit = unit } };

    fn unit(&self) -> &[u8; 16] {
        &self.unit
    }

    fn place(&self) -> u32 {
        self.place
    }

    fn with(&self, place: u32, unit: &[u8; 16]) -> FeatureRow {
        FeatureRow {
            kind: self.kind,
            id: self.id,
            place,
            unit: *unit,
        }
    }
}

impl UnitRow for ShapeRow {
    ghost unit_of = { λ r. r.unit };

    ghost place_of = { λ r. r.place };

    ghost with_unit = { λ r place unit. record r { place = place; unit = unit } };

    fn unit(&self) -> &[u8; 16] {
        &self.unit
    }

    fn place(&self) -> u32 {
        self.place
    }

    fn with(&self, place: u32, unit: &[u8; 16]) -> ShapeRow {
        ShapeRow {
            number: self.number,
            place,
            unit: *unit,
        }
    }
}

impl UnitRow for TileRow {
    ghost unit_of = { λ r. r.unit };

    ghost place_of = { λ r. r.place };

    ghost with_unit = { λ r place unit. record r { place = place; unit = unit } };

    fn unit(&self) -> &[u8; 16] {
        &self.unit
    }

    fn place(&self) -> u32 {
        self.place
    }

    fn with(&self, place: u32, unit: &[u8; 16]) -> TileRow {
        TileRow {
            interval: self.interval,
            y: self.y,
            x: self.x,
            class: self.class,
            zoom: self.zoom,
            number: self.number,
            place,
            unit: *unit,
        }
    }
}
