//! Who reads a part.

ghost use Rattle.std.specs.Prelude.{◌≡◌, ◌⊎◌, ℕ, ◌+◌, ◌++◌, ◌-◌, ◌*◌, ◌<◌, ◌≤◌, ◌^◌, true, false, [], length};
ghost use Rattle.std.specs.Prelude.{take, drop, Some, None, Ok, IfOk, OnOk, OnErr};
ghost use Rattle.std.specs.List.{AllByRecursion};
ghost use Rattle.mf_edge.specs.Device.{CountsOne};
ghost use Rattle.mf_edge.specs.Spill.{SpillState, SameParts, HasBytes, stretch, part_limit};
ghost use Rattle.mf_rows.specs.RowKinds.{IsOf, bytes_of, rows_bytes};
ghost use Rattle.spill_parts.specs.Parts.{PageBytes, IsHeld, IsReading, GivesNext};

use crate::part::Part;
use crate::told::Told;
use mf_edge::{Failed, Spill, Steps};
use mf_rows::kind::RowKind;
use std::alloc::{AllocError, Global};
use std::marker::Model;
use std::sync::ledger::Ledger;

/// What reads the rows of a part, from front to back.
#[derive(Drop)]
pub struct Reader<K: RowKind> {
    source: Part<K>,
    loaded: u64,
    waiting: u32,
    told: Told<K>,
}

impl<K: RowKind> Model for Reader<K> {
    ghost use Rattle.spill_parts.specs.Parts.{Reading};

    ghost Value = { Reading K };

    ghost view = { λ r. record { source = r.source; left = r.told.rows; loaded = r.loaded; waiting = r.waiting } };
}

/// Room for some rows of a part.
#[derive(Drop)]
pub struct Page {
    rows: u32,
    room: Vec<u8>,
}

impl Model for Page {
    ghost use Rattle.std.specs.Prelude.{◌≡◌, ◌*◌, ◌≤◌, vec_len};
    ghost use Rattle.spill_parts.specs.Parts.{PageBytes};

    ghost Value = { PageBytes };

    ghost view = { λ p. record { room = p.rows; bytes = p.room.items } };

    ghost invariant = { λ p. (vec_len p.room ≡ 39 * p.rows) × (1 ≤ p.rows) };
}

impl Page {
    /// Room for so many rows of any kind.
    pub fn new(alloc: Global, rows: u32) -> Result<Page, AllocError>
        requires { (1 ≤ rows) × (rows ≤ 16777216) }
        ensures { IfOk result (λ p. p.room ≡ rows) }
    {
        Ok(Page {
            rows,
            room: vec![in alloc; 0; 39 * rows as usize]?,
        })
    }

    /// For how many rows there is room.
    pub fn len(&self) -> u32
        ensures many { result ≡ self.now.room }
        ensures some { 1 ≤ result }
    {
        self.rows
    }

    // Loads rows of a part behind `loaded` others to the end of the room for rows of this kind.
    fn load<K: RowKind, P: Spill, L: Ledger>(
        &mut self,
        part: &Part<K>,
        loaded: u64,
        n: u32,
        spill: &mut P,
        steps: &mut Steps<L>,
    ) -> Result<(), Failed>
        requires started { (P.state spill.old).is_started ≡ true }
        requires held { IsHeld K.kind part.now (P.state spill.old) }
        requires there { loaded + n ≤ length part.now.rows }
        requires room { n ≤ self.old.room }
        ensures loaded { OnOk result ((P.state spill.old).tells ≡ true
            → take (K.kind.width * n) (drop (K.kind.width * (self.old.room - n)) self.new.bytes)
            ≡ stretch (P.state spill.old) part.now.part (K.kind.width * loaded) (K.kind.width * n)) }
        ensures same_faults { OnOk result ((P.state spill.new).faults ≡ (P.state spill.old).faults) }
        ensures failed { OnErr result (CountsOne (P.state spill.old).faults (P.state spill.new).faults) }
        ensures steps { steps.new ≡ steps.old + K.kind.width * n }
        ensures same_room { self.new.room ≡ self.old.room }
        ensures same { SameParts (P.state spill.old) (P.state spill.new) }
        ensures counts { (P.state spill.old).faults ≤ (P.state spill.new).faults }
    {
        let (from, to) = places::<K>(self.rows, n, self.room.len());
        let at = first_byte(part, loaded, n);
        read_piece(spill, part.number(), at, &mut self.room, from, to, steps)
    }

    // The first of the rows of this kind that wait at the end of the room.
    fn first<K: RowKind>(&self, waiting: u32) -> K
        requires some { 1 ≤ waiting }
        requires room { waiting ≤ self.now.room }
        ensures { result
            ≡ K.kind.row_of (take K.kind.width (drop (K.kind.width * (self.now.room - waiting)) self.now.bytes)) }
    {
        let (from, _) = places::<K>(self.rows, waiting, self.room.len());
        K::get(&self.room[from..from + K::WIDTH])
    }
}

impl Page {
    // Spells rows into the front of the room, and answers how many bytes they are.
    pub(crate) fn spell<K: RowKind>(&mut self, rows: &[K]) -> usize
        requires room { length rows.now ≤ self.old.room }
        ensures many { result ≡ K.kind.width * length rows.now }
        ensures within { result ≤ length self.new.bytes }
        ensures bytes { take result self.new.bytes ≡ rows_bytes K.kind rows.now }
        ensures known { AllByRecursion (IsOf K.kind) rows.now }
        ensures same_room { self.new.room ≡ self.old.room }
    {
        spell_rows(rows, &mut self.room)
    }

    // The first bytes of the room.
    pub(crate) fn front(&self, n: usize) -> &[u8]
        requires { n ≤ length self.now.bytes }
        ensures { result.now ≡ take n self.now.bytes }
    {
        &self.room[..n]
    }
}

// Spells rows into the front of a room, and answers how many bytes they are.
fn spell_rows<K: RowKind>(rows: &[K], room: &mut [u8]) -> usize
    requires room { 39 * length rows.now ≤ length room.old }
    ensures many { result ≡ K.kind.width * length rows.now }
    ensures within { result ≤ length room.new }
    ensures bytes { take result room.new ≡ rows_bytes K.kind rows.now }
    ensures known { AllByRecursion (IsOf K.kind) rows.now }
    ensures same_length { length room.new ≡ length room.old }
{
    let mut at = 0;
    for row in rows {
        at = spell_row(row, room, at);
    }
    at
}

// Spells a row at a place of a room, and answers where it ends.
fn spell_row<K: RowKind>(row: &K, room: &mut [u8], at: usize) -> usize
    requires room { at + K.kind.width ≤ length room.old }
    ensures ends { result ≡ at + K.kind.width }
    ensures bytes { take result room.new ≡ take at room.old ++ bytes_of K.kind row.now }
    ensures known { IsOf K.kind row.now }
    ensures same_length { length room.new ≡ length room.old }
{
    (*row).known();
    let end = at + K::WIDTH;
    row.put(&mut room[at..end]);
    end
}

// Reads bytes of a part into a piece of a room.
fn read_piece<P: Spill, L: Ledger>(
    spill: &mut P,
    part: u32,
    at: u64,
    room: &mut [u8],
    from: usize,
    to: usize,
    steps: &mut Steps<L>,
) -> Result<(), Failed>
    requires started { (P.state spill.old).is_started ≡ true }
    requires order { from ≤ to }
    requires fits { to ≤ length room.old }
    requires range { HasBytes (P.state spill.old) part (at + (to - from)) }
    ensures read { OnOk result ((P.state spill.old).tells ≡ true
        → take (to - from) (drop from room.new) ≡ stretch (P.state spill.old) part at (to - from)) }
    ensures same_faults { OnOk result ((P.state spill.new).faults ≡ (P.state spill.old).faults) }
    ensures failed { OnErr result (CountsOne (P.state spill.old).faults (P.state spill.new).faults) }
    ensures steps { steps.new ≡ steps.old + (to - from) }
    ensures same { SameParts (P.state spill.old) (P.state spill.new) }
    ensures counts { (P.state spill.old).faults ≤ (P.state spill.new).faults }
{
    spill.read(part, at, &mut room[from..to], steps)
}

// Where the last `n` of so many rows stand in a room for them.
fn places<K: RowKind>(rows: u32, n: u32, len: usize) -> (usize, usize)
    requires within { n ≤ rows }
    requires len { len ≡ 39 * rows }
    ensures from { result.0 ≡ K.kind.width * (rows - n) }
    ensures to { result.1 ≡ K.kind.width * (rows - n) + K.kind.width * n }
    ensures fits { result.1 ≤ len }
    ensures first { 1 ≤ n → result.0 + K.kind.width ≤ len }
{
    let from = K::WIDTH * (rows - n) as usize;
    (from, from + K::WIDTH * n as usize)
}

// Where the row behind `loaded` others stands in a part.
fn first_byte<K: RowKind>(part: &Part<K>, loaded: u64, n: u32) -> u64
    requires { loaded + n ≤ length part.now.rows }
    ensures { result ≡ K.kind.width * loaded }
{
    let _rows = part.len();
    K::WIDTH as u64 * loaded
}

// How many of the rows that are left are loaded next.
fn rows_to_load(left: u64, room: u32) -> u32
    requires left { 1 ≤ left }
    requires room { 1 ≤ room }
    ensures some { 1 ≤ result }
    ensures left { result ≤ left }
    ensures room { result ≤ room }
{
    if left < room as u64 {
        left as u32
    } else {
        room
    }
}

impl<K: RowKind> Reader<K> {
    /// Begins to read a part.
    pub fn start(part: &Part<K>) -> Reader<K>
        ensures left { result.left ≡ part.now.rows }
        ensures source { result.source ≡ part.now }
        ensures none_loaded { result.loaded ≡ 0 }
        ensures small { K.kind.width * length part.now.rows ≤ part_limit }
        ensures reading { (page : PageBytes) (s : SpillState) → IsHeld K.kind part.now s
            → IsReading K.kind result page s }
    {
        Reader {
            source: part.same(),
            loaded: 0,
            waiting: 0,
            told: part.rows_told(),
        }
    }

    /// The next row, each once and in the order of the part, and then none.
    pub fn next<P: Spill, L: Ledger>(
        &mut self,
        spill: &mut P,
        page: &mut Page,
        steps: &mut Steps<L>,
    ) -> Result<Option<K>, Failed>
        requires started { (P.state spill.old).is_started ≡ true }
        requires reading { IsReading K.kind self.old page.old (P.state spill.old) }
        ensures next { IfOk result (λ found. GivesNext (P.state spill.old).tells self.old.left found self.new.left) }
        ensures none { self.old.left ≡ [] → result ≡ Ok None }
        ensures reading { OnOk result (IsReading K.kind self.new page.new (P.state spill.new)) }
        ensures same_faults { OnOk result ((P.state spill.new).faults ≡ (P.state spill.old).faults) }
        ensures failed { OnErr result (CountsOne (P.state spill.old).faults (P.state spill.new).faults) }
        ensures steps { OnOk result
            (steps.new + K.kind.width * self.old.loaded ≡ steps.old + K.kind.width * self.new.loaded) }
        ensures within { OnOk result (K.kind.width * self.new.loaded ≤ K.kind.width * length self.new.source.rows) }
        ensures steps_failed { OnErr result
            (steps.new + K.kind.width * self.old.loaded ≤ steps.old + K.kind.width * length self.old.source.rows) }
        ensures same_source { self.new.source ≡ self.old.source }
        ensures same_room { page.new.room ≡ page.old.room }
        ensures same { SameParts (P.state spill.old) (P.state spill.new) }
        ensures counts { (P.state spill.old).faults ≤ (P.state spill.new).faults }
    {
        if self.ready(spill, page, steps)? {
            Ok(Some(self.give(page)))
        } else {
            Ok(None)
        }
    }

    // Answers whether a row is left, and then one waits.
    fn ready<P: Spill, L: Ledger>(
        &mut self,
        spill: &mut P,
        page: &mut Page,
        steps: &mut Steps<L>,
    ) -> Result<bool, Failed>
        requires started { (P.state spill.old).is_started ≡ true }
        requires reading { IsReading K.kind self.old page.old (P.state spill.old) }
        ensures left { self.new.left ≡ self.old.left }
        ensures some { result ≡ Ok true → 1 ≤ self.new.waiting }
        ensures none { result ≡ Ok false → self.new.left ≡ [] }
        ensures at_end { self.old.left ≡ [] → result ≡ Ok false }
        ensures reading { OnOk result (IsReading K.kind self.new page.new (P.state spill.new)) }
        ensures same_faults { OnOk result ((P.state spill.new).faults ≡ (P.state spill.old).faults) }
        ensures failed { OnErr result (CountsOne (P.state spill.old).faults (P.state spill.new).faults) }
        ensures steps { OnOk result
            (steps.new + K.kind.width * self.old.loaded ≡ steps.old + K.kind.width * self.new.loaded) }
        ensures most { steps.new + K.kind.width * self.old.loaded
            ≤ steps.old + K.kind.width * length self.old.source.rows }
        ensures same_source { self.new.source ≡ self.old.source }
        ensures same_room { page.new.room ≡ page.old.room }
        ensures same { SameParts (P.state spill.old) (P.state spill.new) }
        ensures counts { (P.state spill.old).faults ≤ (P.state spill.new).faults }
    {
        if self.waiting > 0 {
            return Ok(true);
        }
        if self.loaded == self.source.len() {
            return Ok(false);
        }
        self.load(spill, page, steps)?;
        Ok(true)
    }

    // Fills the page, when none of its rows waits.
    fn load<P: Spill, L: Ledger>(
        &mut self,
        spill: &mut P,
        page: &mut Page,
        steps: &mut Steps<L>,
    ) -> Result<(), Failed>
        requires started { (P.state spill.old).is_started ≡ true }
        requires reading { IsReading K.kind self.old page.old (P.state spill.old) }
        requires none { self.old.waiting ≡ 0 }
        requires more { self.old.loaded < length self.old.source.rows }
        ensures left { self.new.left ≡ self.old.left }
        ensures some { OnOk result (1 ≤ self.new.waiting) }
        ensures reading { OnOk result (IsReading K.kind self.new page.new (P.state spill.new)) }
        ensures same_faults { OnOk result ((P.state spill.new).faults ≡ (P.state spill.old).faults) }
        ensures failed { OnErr result (CountsOne (P.state spill.old).faults (P.state spill.new).faults) }
        ensures steps { OnOk result
            (steps.new + K.kind.width * self.old.loaded ≡ steps.old + K.kind.width * self.new.loaded) }
        ensures most { steps.new + K.kind.width * self.old.loaded
            ≤ steps.old + K.kind.width * length self.old.source.rows }
        ensures same_source { self.new.source ≡ self.old.source }
        ensures same_room { page.new.room ≡ page.old.room }
        ensures same { SameParts (P.state spill.old) (P.state spill.new) }
        ensures counts { (P.state spill.old).faults ≤ (P.state spill.new).faults }
    {
        let n = rows_to_load(self.source.len() - self.loaded, page.len());
        page.load(&self.source, self.loaded, n, spill, steps)?;
        self.loaded += n as u64;
        self.waiting = n;
        Ok(())
    }

    // The first row that waits.
    fn give(&mut self, page: &Page) -> K
        requires some { 1 ≤ self.old.waiting }
        requires room { self.old.waiting ≤ page.now.room }
        ensures row { result
            ≡ K.kind.row_of
            (take K.kind.width (drop (K.kind.width * (page.now.room - self.old.waiting)) page.now.bytes)) }
        ensures left { self.new.left ≡ drop 1 self.old.left }
        ensures waiting { self.new.waiting + 1 ≡ self.old.waiting }
        ensures loaded { self.new.loaded ≡ self.old.loaded }
        ensures same_source { self.new.source ≡ self.old.source }
    {
        let row = page.first(self.waiting);
        self.waiting -= 1;
        self.told = self.told.rest();
        row
    }
}
