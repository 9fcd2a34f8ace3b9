//! The strings of a PrimitiveBlock: the OpenStreetMap wiki, "PBF Format", on StringTable.

ghost use Rattle.std.specs.Prelude.{◌≡◌, ◌+◌, ◌-◌, ◌<◌, ◌≤◌, ◌^◌, ◌∷◌, ◌++◌, ℕ, List, [], true, not, Some, None, Ok};
ghost use Rattle.std.specs.Prelude.{if◌then◌else◌, length, vec_len, vec_capacity, slice_range, option_map, position};
ghost use Rattle.std.specs.Prelude.{IfOk, OnOk, OnErr};
ghost use Rattle.std.specs.Option.{option_or};
ghost use Rattle.std.specs.Str.{is_utf8};
ghost use Rattle.mf_base.specs.Texts.{Text};
ghost use Rattle.mf_base.specs.Steps.{fault_of, refuse};
ghost use Rattle.mf_base.specs.NumberReading.{varint_front};
ghost use Rattle.mf_base.specs.Entries.{text_at};
ghost use Rattle.osm_model.specs.Wire.{fields};
ghost use Rattle.osm_model.specs.Tables.{bytes_of};
ghost use Rattle.osm_model.specs.Blocks.{block_strings, strings_in};
ghost use Rattle.pbf_block.specs.Strings.{AreAt, unless_refused, checked_strings};

use mf_base::text_place::text_place;
use mf_base::varint_front::front_varint;
use osm_model::faults::BlockFault;
use osm_model::limits::STRINGS_LIMIT;
use osm_model::numbers::STRINGTABLE_S;
use osm_model::tables::{PRIMITIVE_BLOCK, STRING_TABLE};
use pbf_wire::check::check_message;
use pbf_wire::fields::Fields;
use pbf_wire::message::read_message;
use pbf_wire::walk::bytes_in;
use std::alloc::{AllocError, Global};
use std::marker::Model;

/// Where the strings of a block stand. Contracts see for each the place of its length in the block, in bytes.
#[derive(Drop)]
pub struct Strings {
    places: Vec<u32>,
}

impl Model for Strings {
    ghost use Rattle.std.specs.Prelude.{List, ℕ, ◌≤◌, vec_len, vec_capacity};
    ghost use Rattle.osm_model.specs.declared.limits.TheConstants.{STRINGS_LIMIT};

    ghost Value = { List ℕ };

    ghost view = { λ s. s.places.items };

    ghost invariant = { λ s. (vec_len s.places ≤ STRINGS_LIMIT) × (STRINGS_LIMIT ≤ vec_capacity s.places) };
}

impl Strings {
    ghost use Rattle.std.specs.Prelude.{◌≡◌, ◌<◌, ◌≤◌, ◌^◌, List, [], true, length, slice_get, slice_range, option_map};
    ghost use Rattle.std.specs.Prelude.{option_and_then, IfOk, OnErr};
    ghost use Rattle.mf_base.specs.Steps.{fault_of};
    ghost use Rattle.mf_base.specs.Texts.{Text};
    ghost use Rattle.mf_base.specs.Entries.{text_at, are_texts};
    ghost use Rattle.osm_model.specs.Blocks.{block_strings, strings_in};
    ghost use Rattle.pbf_block.specs.Strings.{AreAt};

    /// No strings, with room for 4,194,304 of them.
    pub fn new(alloc: Global) -> Result<Strings, AllocError>
        ensures { IfOk result (λ s. s ≡ []) }
    {
        Ok(Strings {
            places: Vec::with_capacity(alloc, STRINGS_LIMIT as usize)?,
        })
    }

    /// Replaces what is there by the strings of a PrimitiveBlock. After a refusal there are none.
    pub fn index(&mut self, block: &[u8]) -> Result<(), BlockFault>
        requires { length block.now < 2 ^ 32 }
        ensures refused { fault_of result ≡ fault_of (block_strings block.now) }
        ensures strings { (texts : List Text) → block_strings block.now ≡ Ok texts → AreAt block.now self.new texts }
        ensures empty { OnErr result (self.new ≡ []) }

        // What stands there serves `get` over this block.
        ensures held { are_texts block.now self.new ≡ true }
    {
        self.places.clear();
        match read_message(block, &PRIMITIVE_BLOCK) {
            Err(fault) => Err(BlockFault::Wire(fault)),
            Ok(all) => match all[0].place {
                None => Err(BlockFault::NoStrings),
                Some((start, end)) => self.index_table(block, start, end),
            },
        }
    }

    // Puts the strings of a StringTable, which stands there in the block.
    fn index_table(&mut self, block: &[u8], start: usize, end: usize) -> Result<(), BlockFault>
        requires near { length block.now < 2 ^ 32 }
        requires within { (start ≤ end) × (end ≤ length block.now) }
        requires empty { self.old ≡ [] }
        ensures refused { fault_of result ≡ fault_of (strings_in (slice_range block.now start end)) }
        ensures strings { (texts : List Text) → strings_in (slice_range block.now start end) ≡ Ok texts
            → AreAt block.now self.new texts }
        ensures empty { OnErr result (self.new ≡ []) }
    {
        if let Err(fault) = check_message(&block[start..end], &STRING_TABLE) {
            return Err(BlockFault::Wire(fault));
        }
        match put_places(block, start, end, &mut self.places) {
            Ok(()) => Ok(()),
            Err(fault) => {
                self.places.clear();
                Err(fault)
            }
        }
    }

    /// The string with this index in the block that was indexed.
    pub fn get<'a>(&self, block: &'a [u8], i: u64) -> Option<&'a [u8]>
        requires { are_texts block.now self.now ≡ true }
        ensures { option_map (λ text. text.now) result ≡ option_and_then (text_at block.now) (slice_get self.now i) }
    {
        if i >= self.places.len() as u64 {
            return None;
        }
        let (start, end) = text_place(block, self.places[i as usize] as usize);
        Some(&block[start..end])
    }

    /// For each string the place of its length in the block, in bytes.
    pub fn places(&self) -> &[u32]
        ensures { result.now ≡ self.now }
    {
        &self.places
    }

    /// How many strings there are.
    pub fn count(&self) -> u64
        ensures { result ≡ length self.now }
    {
        self.places.len() as u64
    }
}

// Puts the places of the entries of a StringTable, which stands there in the block. There are none yet, and there is
// room for all.
fn put_places(
    block: &[u8],
    start: usize,
    end: usize,
    places: &mut Vec<u32>,
) -> Result<(), BlockFault>
    requires near { length block.now < 2 ^ 32 }
    requires within { (start ≤ end) × (end ≤ length block.now) }
    requires empty { places.old.items ≡ [] }
    requires room { STRINGS_LIMIT ≤ vec_capacity places.old }
    ensures told { unless_refused result (bytes_of STRINGTABLE_S (fields (slice_range block.now start end)).items)
        ≡ checked_strings (bytes_of STRINGTABLE_S (fields (slice_range block.now start end)).items) }
    ensures strings { OnOk result
        (AreAt block.now places.new.items (bytes_of STRINGTABLE_S (fields (slice_range block.now start end)).items)) }
    ensures few { vec_len places.new ≤ STRINGS_LIMIT }
    ensures capacity { vec_capacity places.new ≡ vec_capacity places.old }
{
    let mut left = Fields::new(&block[start..end]);
    let mut bad = None;
    loop {
        let rest = left.left();
        match left.next() {
            Ok(Some(field)) => {
                if let Some(text) = bytes_in(field, STRINGTABLE_S) {
                    if places.len() as u64 >= STRINGS_LIMIT {
                        return Err(BlockFault::TooManyStrings);
                    }
                    bad = first_bad(bad, text, places.len() as u64);
                    places.push_reserved((end - rest.len() + key_size(rest)) as u32);
                }
            }
            Ok(None) => return told(bad),
            Err(_) => return told(bad),
        }
    }
}

// The index of the first entry that is no text, behind which one more stands.
fn first_bad(bad: Option<u64>, entry: &[u8], index: u64) -> Option<u64>
    ensures { result ≡ option_or bad (if is_utf8 entry.now then None else Some index) }
{
    match bad {
        Some(first) => Some(first),
        None => { if is_text(entry) { None } else { Some(index) } }
    }
}

// Whether bytes are a text.
#[tactic(auto, using(crate::proofs::BlockReads::text_steps))]
fn is_text(bytes: &[u8]) -> bool
    ensures { result ≡ is_utf8 bytes.now }
{
    match str::from_utf8(bytes) {
        Ok(_) => true,
        Err(_) => false,
    }
}

// That an entry is no text, where one is.
fn told(bad: Option<u64>) -> Result<(), BlockFault>
    ensures { result ≡ refuse (option_map BlockFault.NotText bad) }
{
    match bad {
        Some(index) => Err(BlockFault::NotText { index }),
        None => Ok(()),
    }
}

// How many bytes the key of the field takes that stands in front.
fn key_size(bytes: &[u8]) -> usize
    ensures size { (n size : ℕ) → varint_front bytes.now ≡ Ok (n, size) → result ≡ size }
    ensures within { result ≤ length bytes.now }
{
    match front_varint(bytes) {
        Ok((_, size)) => size,
        Err(_) => 0,
    }
}

#[cfg(test)]
mod tests {
    use super::Strings;
    use osm_model::faults::{BlockFault, MessageFault};
    use std::alloc::{AllocError, Global};
    use std::test::Fail;

    // Three strings, of which the last has a longer key and length; a field of the table that is not read stands between.
    const BLOCK: &[u8] =
        b"\x88\x01\x05\x0A\x10\x0A\x00\x0A\x04name\x12\x01X\x8A\x00\x81\x00A\x12\x00";

    // One string, among fields of each type that are not read.
    const ONE: &[u8] =
        b"\x0A\x17\x10\x05\x11\x00\x00\x00\x00\x00\x00\x00\x00\x12\x01X\x0A\x02\xC3\xA4\x15\x00\x00\x00\x00";

    // A PrimitiveBlock, and its first fault up to its strings.
    const FAULTS: [(&[u8], BlockFault); 5] = [
        // No StringTable.
        (b"\x12\x00", BlockFault::NoStrings),
        // A fault of the block comes before, and one of the table.
        (
            b"\x10\x01",
            BlockFault::Wire(MessageFault::Form { field: 2 }),
        ),
        (
            b"\x0A\x02\x08\x01",
            BlockFault::Wire(MessageFault::Form { field: 1 }),
        ),
        // A fault of the table before an entry that is no UTF-8.
        (
            b"\x0A\x05\x0A\x01\xFF\x08\x01",
            BlockFault::Wire(MessageFault::Form { field: 1 }),
        ),
        // The first entry that is no UTF-8.
        (
            b"\x0A\x0C\x0A\x00\x0A\x02\xC3\xA4\x0A\x01\xC3\x0A\x01\xFF",
            BlockFault::NotText { index: 2 },
        ),
    ];

    #[test]
    fn strings(rt: HostRuntime) -> Result<(), Fail> {
        let mut strings = Strings::new(rt.alloc())?;
        assert_eq!(rt; strings.index(BLOCK), Ok(()));
        assert_eq!(rt; strings.count(), 3);
        assert_eq!(rt; strings.places(), [6, 8, 18].as_slice());
        assert_eq!(rt; strings.get(BLOCK, 0), Some(b"".as_slice()));
        assert_eq!(rt; strings.get(BLOCK, 1), Some(b"name".as_slice()));
        assert_eq!(rt; strings.get(BLOCK, 2), Some(b"A".as_slice()));
        assert_eq!(rt; strings.get(BLOCK, 3), None);
        assert_eq!(rt; strings.get(BLOCK, u64::MAX), None);
        assert_eq!(rt; strings.index(ONE), Ok(()));
        assert_eq!(rt; strings.count(), 1);
        assert_eq!(rt; strings.get(ONE, 0), Some("ä".as_bytes()));
        assert_eq!(rt; strings.get(ONE, 1), None);
        Ok(())
    }

    #[test]
    fn refusals(rt: HostRuntime) -> Result<(), Fail> {
        let mut strings = Strings::new(rt.alloc())?;
        for (block, fault) in FAULTS {
            assert_eq!(rt; strings.index(BLOCK), Ok(()));
            assert!(rt; block.len() < 100);
            assert_eq!(rt; strings.index(block), Err(fault), "of {block:?}");
            assert_eq!(rt; strings.count(), 0);
        }
        Ok(())
    }

    // A block of a StringTable under this key and length, which has so many empty entries, and then these bytes.
    fn table_of(
        alloc: Global,
        front: &[u8],
        count: u32,
        last: &[u8],
    ) -> Result<Vec<u8>, AllocError> {
        let mut block = Vec::new(alloc);
        block.extend_from_slice(front)?;
        for _ in 0..count {
            block.extend_from_slice(b"\x0A\x00")?;
        }
        block.extend_from_slice(last)?;
        Ok(block)
    }

    #[test]
    fn the_most_strings(rt: HostRuntime) -> Result<(), Fail> {
        let mut strings = Strings::new(rt.alloc())?;
        let most = table_of(rt.alloc(), b"\x0A\x81\x80\x80\x04", 4194303, b"\x0A\x01A")?;
        assert!(rt; most.len() < 10000000);
        assert_eq!(rt; strings.index(&most), Ok(()));
        assert_eq!(rt; strings.count(), 4194304);
        assert_eq!(rt; strings.places().get(4194302).copied(), Some(8388610));
        assert_eq!(rt; strings.places().get(4194303).copied(), Some(8388612));
        assert!(rt; strings.get(&most, 4194303).is_some());
        assert!(rt; strings.get(&most, 4194304).is_none());
        // One more is refused, before it is seen to be no UTF-8.
        let more = table_of(
            rt.alloc(),
            b"\x0A\x83\x80\x80\x04",
            4194304,
            b"\x0A\x01\xFF",
        )?;
        assert!(rt; more.len() < 10000000);
        assert_eq!(rt; strings.index(&more), Err(BlockFault::TooManyStrings));
        assert_eq!(rt; strings.count(), 0);
        Ok(())
    }
}
