//! Records in a fixed room.

ghost use Rattle.std.specs.Prelude.{◌≡◌, ◌+◌, ◌≤◌, ◌<◌, [], ◌∷◌, ◌++◌, length, take, drop, slice_get, slice_set};
ghost use Rattle.std.specs.Prelude.{Some, IfOk, IsSome, is_some, IsTrue, ◌↔◌, option_map};
ghost use Rattle.std.specs.List.{AllByRecursion};
ghost use Rattle.mf_rows.specs.Records.{Record, LiesIn, drawn_parts};
ghost use Rattle.mf_rows.specs.RecordUnits.{record_in, bytes_in, spans_from, slot_sizes, unit_count};
ghost use Rattle.mf_rows.specs.Told.{units_at, head_told, record_told};
ghost use Rattle.mf_rows.specs.Desks.{used, IsLoosened, closed as with_record};
ghost use Rattle.mf_rows.specs.Changes.{LastIs, TakesPart, TakesPoint, with_last, with_new_part, with_new_point};
ghost use Rattle.mf_rows.specs.Changes.{with_feature};

use crate::changes::{part_fits, point_fits, put_feature, put_part, put_point};
use crate::head::{Head, Texts};
use crate::told::{Kept, Told, laid_texts, read_record};
use crate::view::View;
use mf_base::kind::Role;
use mf_base::place::Place;
use std::alloc::{AllocError, Global};
use std::marker::Model;

/// Records of candidates or features in a room of so many rows of 16 bytes.
///
/// Contracts see the records, the units that are in no record yet, and for how many rows there is room. All memory is
/// taken when it is made, and touched only as far as it is used.
#[derive(Drop)]
pub struct Records {
    kept: Vec<Kept>,
    units: Vec<[u8; 16]>,
    // How many of the units are those of records.
    closed: usize,
}

impl Model for Records {
    ghost use Rattle.std.specs.Prelude.{◌≡◌, ◌/◌, ◌≤◌, ◌<◌, map, drop, length, vec_capacity};
    ghost use Rattle.mf_rows.specs.Told.{record_at, AreKept};
    ghost use Rattle.mf_rows.specs.Desks.{Desktop};

    ghost Value = { Desktop };

    ghost view = { λ r. record {
      records = map (record_at r.units.items) r.kept.items;
      loose = drop r.closed r.units.items;
      capacity = vec_capacity r.units;
    } };

    ghost invariant = { λ r. AreKept r.units.items 0 r.kept.items r.closed × (r.closed ≤ length r.units.items)
        × (vec_capacity r.kept ≡ vec_capacity r.units / 10) × (vec_capacity r.units ≤ 16777216) };
}

impl Records {
    /// No records, in a room of so many rows.
    pub fn new(alloc: Global, rows: u32) -> Result<Records, AllocError>
        requires some { 1 ≤ rows }
        requires most { rows ≤ 16777216 }
        ensures { IfOk result (λ r. r ≡ record { records = []; loose = []; capacity = rows }) }
    {
        Ok(Records {
            kept: Vec::with_capacity(alloc, rows as usize / 10)?,
            units: Vec::with_capacity(alloc, rows as usize)?,
            closed: 0,
        })
    }

    /// Forgets all records and units.
    pub fn clear(&mut self)
        ensures { self.new ≡ record { records = []; loose = []; capacity = self.old.capacity } }
    {
        self.kept.clear();
        self.units.clear();
        self.closed = 0;
    }

    /// For how many more rows there is room. No room is for more than 2^24 rows.
    pub fn spare(&self) -> u32
        ensures rest { result + used self.now ≡ self.now.capacity }
        ensures most { self.now.capacity ≤ 16777216 }
    {
        (self.units.capacity() - self.units.len()) as u32
    }

    /// How many records there are.
    pub fn len(&self) -> u32
        ensures { result ≡ length self.now.records }
    {
        self.kept.len() as u32
    }

    /// Puts a unit to the loose ones.
    pub fn add_unit(&mut self, unit: &[u8; 16])
        requires spare { used self.old + 1 ≤ self.old.capacity }
        ensures { self.new ≡ record self.old { loose = self.old.loose ++ unit.now ∷ [] } }
    {
        self.units.push_reserved(*unit);
    }

    /// Keeps the first loose units.
    pub fn cut_loose(&mut self, n: u32)
        requires { n ≤ length self.old.loose }
        ensures { self.new ≡ record self.old { loose = take n self.old.loose } }
    {
        self.units.truncate(self.closed + n as usize);
    }

    /// Puts a unit in the place of a loose one.
    pub fn set_loose(&mut self, i: u32, unit: &[u8; 16])
        requires { i < length self.old.loose }
        ensures { self.new ≡ record self.old { loose = slice_set self.old.loose i unit.now } }
    {
        let at = self.closed + i as usize;
        self.units[at] = *unit;
    }

    /// Makes the loose units the last record, just where they spell one. Else nothing changes.
    pub fn close_record(&mut self) -> bool
        ensures is { result ≡ is_some (record_in self.old.loose) }
        ensures closed { self.new ≡ with_record self.old }
        ensures used { used self.new ≡ used self.old }
    {
        match read_record(self.units.split_at(self.closed).1) {
            Some(told) => {
                let count = self.units.len() - self.closed;
                self.kept.push_reserved(Kept {
                    told,
                    first: self.closed,
                    count,
                });
                self.closed += count;
                true
            }
            None => false,
        }
    }

    /// Makes the units of the last record loose.
    pub fn loosen(&mut self)
        requires none { self.old.loose ≡ [] }
        requires some { 0 < length self.old.records }
        ensures { IsLoosened self.old self.new }
    {
        if let Some(kept) = self.kept.pop() {
            self.closed = kept.first;
        }
    }

    /// Whether the last record takes a part of this role: a way has one, which is outer, and a relation any number.
    pub fn takes_part(&self, role: Role) -> bool
        ensures { IsTrue result ↔ LastIs (λ (r : Record). TakesPart role r.head.kind r.parts) self.now.records }
    {
        if self.kept.is_empty() {
            return false;
        }
        part_fits(&self.view(self.len() - 1), role)
    }

    /// Whether the last record takes a point: a node has one, and a way or a relation has points where it has a part.
    pub fn takes_point(&self) -> bool
        ensures { IsTrue result ↔ LastIs (λ (r : Record). TakesPoint r.head.kind r.spot r.parts) self.now.records }
    {
        if self.kept.is_empty() {
            return false;
        }
        point_fits(&self.view(self.len() - 1))
    }

    /// Puts a part without points to the last record. A way has one part, which is outer.
    pub fn add_part(&mut self, role: Role)
        requires none { self.old.loose ≡ [] }
        requires last { LastIs (λ (r : Record). TakesPart role r.head.kind r.parts) self.old.records }
        requires spare { used self.old + 1 ≤ self.old.capacity }
        ensures added { self.new ≡ with_last (with_new_part role) self.old }
        ensures used { used self.new ≡ used self.old + 1 }
    {
        let last = self.kept.len() - 1;
        put_part(&mut self.kept[last], &mut self.units, role);
        self.closed += 1;
    }

    /// Puts a point to the last record: that of a node, or one more of the last part.
    pub fn add_point(&mut self, node: u64, place: Place)
        requires none { self.old.loose ≡ [] }
        requires last { LastIs (λ (r : Record). TakesPoint r.head.kind r.spot r.parts) self.old.records }
        requires spare { used self.old + 1 ≤ self.old.capacity }
        ensures added { self.new ≡ with_last (with_new_point (record { node = node; place = place })) self.old }
        ensures used { used self.new ≡ used self.old + 1 }
    {
        let last = self.kept.len() - 1;
        put_point(&mut self.kept[last], &mut self.units, node, place);
        self.closed += 1;
    }

    /// Sets number and weight in the head of the last record.
    pub fn set_feature(&mut self, number: u64, weight: u64)
        requires none { self.old.loose ≡ [] }
        requires some { 0 < length self.old.records }
        ensures set { self.new ≡ with_last (with_feature number weight) self.old }
        ensures used { used self.new ≡ used self.old }
    {
        let last = self.kept.len() - 1;
        put_feature(&mut self.kept[last], &mut self.units, number, weight);
    }

    /// The loose units.
    pub fn loose(&self) -> &[[u8; 16]]
        ensures { result.now ≡ self.now.loose }
    {
        self.units.split_at(self.closed).1
    }

    /// The head of a record, by its place among all. It costs less than to lend the record.
    pub fn head(&self, i: u32) -> &Head
        requires { i < length self.now.records }
        ensures { Some result.now ≡ option_map (λ (r : Record). r.head) (slice_get self.now.records i) }
    {
        &self.kept[i as usize].told.head
    }

    /// A record, by its place among all.
    pub fn view(&self, i: u32) -> View<'_>
        requires { i < length self.now.records }
        ensures { Some result ≡ slice_get self.now.records i }
    {
        let kept = &self.kept[i as usize];
        lend(&kept.told, units_of(&self.units, kept).split_at(10).1)
    }

    /// The units of a record.
    pub fn units(&self, i: u32) -> &[[u8; 16]]
        requires { i < length self.now.records }
        ensures spelled { record_in result.now ≡ slice_get self.now.records i }
        ensures many { Some (length result.now) ≡ option_map unit_count (slice_get self.now.records i) }
        ensures first { 10 ≤ length result.now }
    {
        units_of(&self.units, &self.kept[i as usize])
    }
}

// Lends a record, of which the units behind the head are these.
fn lend<'a>(told: &'a Told, units: &'a [[u8; 16]]) -> View<'a>
    requires room { told.now.texts ≤ length units.now }
    requires lies { AllByRecursion (LiesIn (length (bytes_in (take told.now.texts units.now))))
        (spans_from 0 (slot_sizes (head_told told.now))) }
    requires drawn { IsSome (drawn_parts told.now.head.kind (drop told.now.texts units.now)) }
    ensures { result ≡ record_told told.now units.now }
{
    let (texts, drawn) = units.split_at(told.texts);
    let block = texts.as_flattened();
    let spans = laid_texts(&told.head, told.lengths).spans;
    View::new(&told.head, Texts { block, spans }, drawn)
}

// The units of a record among all.
fn units_of<'a>(units: &'a [[u8; 16]], kept: &Kept) -> &'a [[u8; 16]]
    requires { kept.now.first + kept.now.count ≤ length units.now }
    ensures { result.now ≡ units_at units.now kept.now }
{
    units.split_at(kept.first).1.split_at(kept.count).0
}

#[cfg(test)]
mod tests;
