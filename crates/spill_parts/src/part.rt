//! A part of rows.

ghost use Rattle.std.specs.Prelude.{◌≡◌, ◌*◌, ◌≤◌, true, [], ◌∷◌, ◌++◌, ◌+◌, length, IfOk, OnOk, OnErr};
ghost use Rattle.std.specs.List.{AllByRecursion};
ghost use Rattle.mf_edge.specs.Device.{CountsOne};
ghost use Rattle.mf_edge.specs.Spill.{SameStore, TouchesOnly, IsForgotten, part_limit};
ghost use Rattle.mf_rows.specs.RowKinds.{IsOf};
ghost use Rattle.spill_parts.specs.Parts.{IsHeld, IsOrdered, ordered_rows};

use crate::told::Told;
use mf_edge::{Failed, Spill};
use mf_rows::kind::RowKind;
use std::marker::Model;

/// A part of a store, as rows of a kind. Contracts see its number and its rows.
#[derive(Drop)]
pub struct Part<K: RowKind> {
    part: u32,
    rows: u64,
    told: Told<K>,
}

impl<K: RowKind> Model for Part<K> {
    ghost use Rattle.spill_parts.specs.Parts.{Part as PartRows, IsSound};

    ghost Value = { PartRows K };

    ghost view = { λ p. record { part = p.part; rows = p.told.rows } };

    ghost invariant = { λ p. IsSound K.kind p.rows p.told.rows };
}

impl<K: RowKind> Part<K> {
    /// How many rows it has.
    pub fn len(&self) -> u64
        ensures many { result ≡ length self.now.rows }
        ensures known { AllByRecursion (IsOf K.kind) self.now.rows }
        ensures small { K.kind.width * length self.now.rows ≤ part_limit }
    {
        self.rows
    }

    /// Its number in the store.
    pub fn number(&self) -> u32
        ensures { result ≡ self.now.part }
    {
        self.part
    }

    // A new part of the store, without rows.
    pub(crate) fn of(part: u32) -> Part<K>
        ensures part { result.part ≡ part }
        ensures empty { result.rows ≡ [] }
    {
        Part {
            part,
            rows: 0,
            told: Told::none(),
        }
    }

    // A row more.
    pub(crate) fn add(&mut self, row: &K)
        requires { K.kind.width * (length self.old.rows + 1) ≤ part_limit }
        ensures part { self.new.part ≡ self.old.part }
        ensures rows { self.new.rows ≡ self.old.rows ++ row.now ∷ [] }
    {
        (*row).known();
        self.told = self.told.with(row);
        self.rows += 1;
    }

    // Rows more.
    pub(crate) fn add_all(&mut self, rows: &[K])
        requires known { AllByRecursion (IsOf K.kind) rows.now }
        requires small { K.kind.width * (length self.old.rows + length rows.now) ≤ part_limit }
        ensures part { self.new.part ≡ self.old.part }
        ensures rows { self.new.rows ≡ self.old.rows ++ rows.now }
    {
        self.told = self.told.with_all(rows);
        self.rows += rows.len() as u64;
    }

    // The same part, for who reads it.
    pub(crate) fn same(&self) -> Part<K>
        ensures is { result ≡ self.now }
        ensures small { K.kind.width * length self.now.rows ≤ part_limit }
    {
        Part {
            part: self.part,
            rows: self.rows,
            told: self.told.same(),
        }
    }

    // Its rows.
    pub(crate) fn rows_told(&self) -> Told<K>
        ensures { result.rows ≡ self.now.rows }
    {
        self.told.same()
    }

    // The rows in the order of their bytes.
    fn set_in_order(&mut self)
        ensures part { self.new.part ≡ self.old.part }
        ensures rows { self.new.rows ≡ ordered_rows K.kind self.old.rows }
    {
        self.told = self.told.in_order();
    }
}

/// Has the store order the rows of a part by their bytes, and hands the part back. After `Failed` the part is not used
/// again.
pub fn order_part<K: RowKind, P: Spill>(spill: &mut P, part: Part<K>) -> Result<Part<K>, Failed>
    requires started { (P.state spill.old).is_started ≡ true }
    requires held { IsHeld K.kind part (P.state spill.old) }
    ensures ordered { IfOk result (λ p. IsOrdered K.kind part p (P.state spill.new)) }
    ensures same_faults { OnOk result ((P.state spill.new).faults ≡ (P.state spill.old).faults) }

    ensures failed { OnErr result (CountsOne (P.state spill.old).faults (P.state spill.new).faults) }

    ensures only { TouchesOnly part.part (P.state spill.old) (P.state spill.new) }
    ensures same_overrun { (P.state spill.new).is_overrun ≡ (P.state spill.old).is_overrun }
    ensures counts { (P.state spill.old).faults ≤ (P.state spill.new).faults }
{
    let mut part = part;
    spill.order(part.number(), K::WIDTH as u32)?;
    part.set_in_order();
    Ok(part)
}

/// Lets a part go.
pub fn forget_part<K: RowKind, P: Spill>(spill: &mut P, part: Part<K>)
    requires started { (P.state spill.old).is_started ≡ true }
    requires held { IsHeld K.kind part (P.state spill.old) }
    ensures gone { IsForgotten part.part (P.state spill.old) (P.state spill.new) }
    ensures same { SameStore (P.state spill.old) (P.state spill.new) }
    ensures same_overrun { (P.state spill.new).is_overrun ≡ (P.state spill.old).is_overrun }
    ensures same_faults { (P.state spill.new).faults ≡ (P.state spill.old).faults }
{
    spill.forget(part.number());
}
