//! A list of a mapping: its entries in order, and found by `KEY=VALUE`.

ghost use Rattle.std.specs.Prelude.{◌≡◌, ◌+◌, ◌^◌, ◌<◌, ◌≤◌, true, false, ◌++◌, ◌∷◌, [], length, option_map, IfSome};
ghost use Rattle.std.specs.Prelude.{IfOk, IfErr, OnErr, OnOk, Ok, None, Some, ℕ, slice_get, slice_index_or};
ghost use Rattle.mf_base.specs.Buffer.{HasRoom, AppendsTo};
ghost use Rattle.mf_base.specs.Spelling.{string};
ghost use Rattle.mf_base.specs.Words.{equals};
ghost use Rattle.mf_base.specs.Texts.{has_byte};
ghost use Rattle.feature_model.specs.Mapping.{Entry};
ghost use Rattle.feature_model.specs.Entries.{entry_behind, is_there};
ghost use Rattle.map_model.specs.TagLists.{entry_text};
ghost use Rattle.tag_mapping.specs.Shown.{told_shown, IsFaultOf};
ghost use Rattle.tag_mapping.specs.Choosing.{parts_shown};

use crate::MappingFault;
use crate::matched::Parts;
use crate::rules::{keeps_entry_rule, keeps_kind_rule};
use crate::told::Told;
use arrayvec::ArrayVec;
use indexmap::IndexMap;
use mf_base::kind::List;
use mf_base::out_buf::OutBuf;
use mf_base::vbe::{put_vbe_u, size_vbe_u};
use std::alloc::{AllocError, Global};
use std::marker::Model;

/// What an entry has beside its text.
#[derive(Clone, Copy, Debug, PartialEq, Eq)]
pub(crate) struct Traits {
    /// How many bytes of the text are the key's.
    pub(crate) key_size: usize,
    pub(crate) zoom: u8,
    pub(crate) water: bool,
    pub(crate) label: bool,
}

/// Entries in order, each with its text `KEY=VALUE`.
#[derive(Drop)]
pub struct Entries {
    found: IndexMap<Vec<u8>, Traits>,
}

impl Model for Entries {
    ghost use Rattle.std.specs.Prelude.{List, map};
    ghost use Rattle.std.specs.List.{AllByRecursion};
    ghost use Rattle.feature_model.specs.Mapping.{Entry};
    ghost use Rattle.tag_mapping.specs.Kept.{entry_kept, IsKeptEntry};

    ghost Value = { List Entry };

    ghost view = { λ s. map entry_kept s.found.entries };

    ghost invariant = { λ s. AllByRecursion IsKeptEntry s.found.entries };
}

impl Entries {
    /// No entries.
    pub fn new(alloc: Global) -> Entries
        ensures { result ≡ [] }
    {
        Entries {
            found: IndexMap::new(alloc),
        }
    }

    /// How many entries there are.
    pub fn count(&self) -> usize
        ensures { result ≡ length self.now }
    {
        self.found.len()
    }

    /// Adds an entry behind the others, or tells why it is none.
    pub(crate) fn add(
        &mut self,
        alloc: Global,
        list: List,
        told: Option<Told>,
    ) -> Result<(), MappingFault>
        requires { length self.old < 4096 }
        ensures added { OnOk result ((e : Entry)
            × (entry_behind list self.old (option_map told_shown told.entry) ≡ Ok e)
            × (self.new ≡ self.old ++ e ∷ [])) }
        ensures refused { IfErr result (IsFaultOf (entry_behind list self.old (option_map told_shown told.entry))) }
        ensures same { OnErr result (self.new ≡ self.old) }
    {
        let index = self.count() as u32;
        let Some(told) = told else {
            return Err(MappingFault::Entry { list, index });
        };
        if !keeps_entry_rule(list, &told) {
            return Err(MappingFault::Entry { list, index });
        }
        if !keeps_kind_rule(&told) {
            return Err(MappingFault::Kind { list, index });
        }
        let Ok(text) = joined(alloc, told.key, told.value) else {
            return Err(MappingFault::Memory);
        };
        if self.has_text(&text) {
            return Err(MappingFault::Twice { list, index });
        }
        if self.insert(text, &told) {
            Ok(())
        } else {
            Err(MappingFault::Memory)
        }
    }

    // Whether an entry has this text.
    fn has_text(&self, text: &[u8]) -> bool
        ensures { (e : Entry) → text.now ≡ entry_text e → has_byte equals e.key ≡ false → result ≡ is_there self.now e }
    {
        self.found.get_index_of(text).is_some()
    }

    /// The index of the entry with this key and value, where there is one.
    pub(crate) fn index_of(&self, key: &[u8], value: &[u8]) -> Option<usize>
        ensures within { IfSome result (λ index. index < length self.now) }
        ensures found { (index : ℕ) (e : Entry) → slice_get self.now index ≡ Some e → e.key ≡ key.now
            → e.value ≡ value.now → result ≡ Some index }
    {
        let found = &self.found;
        let text = short_text(key, value)?;
        found.get_index_of(text.as_slice())
    }

    /// An entry.
    pub(crate) fn parts(&self, index: usize) -> Parts<'_>
        requires { index < length self.now }
        ensures { slice_get self.now index ≡ Some (parts_shown result) }
    {
        let (text, traits) = self.found.get_index(index).unwrap();
        Parts {
            key: &text[..traits.key_size],
            value: &text[traits.key_size + 1..],
            zoom: traits.zoom,
            water: traits.water,
            label: traits.label,
        }
    }

    // Puts a new entry behind the others, unless memory is wanting.
    fn insert(&mut self, text: Vec<u8>, told: &Told) -> bool
        requires text { text.items ≡ entry_text (told_shown told.now) }
        requires plain { has_byte equals told.now.key.now ≡ false }
        requires short { (length told.now.key.now ≤ 255) × (length told.now.value.now ≤ 255) }
        requires new { is_there self.old (told_shown told.now) ≡ false }
        ensures put { result ≡ true → self.new ≡ self.old ++ told_shown told.now ∷ [] }
        ensures same { result ≡ false → self.new ≡ self.old }
    {
        let traits = Traits {
            key_size: told.key.len(),
            zoom: told.zoom,
            water: told.water,
            label: told.label,
        };
        let Ok(_) = self.found.insert(text, traits) else {
            return false;
        };
        true
    }

    /// The key of an entry.
    pub fn key(&self, index: usize) -> &[u8]
        requires { index < length self.now }
        ensures { IfSome (slice_get self.now index) (λ (e : Entry). result.now ≡ e.key) }
    {
        let (text, traits) = self.found.get_index(index).unwrap();
        &text[..traits.key_size]
    }

    /// How many bytes `put_tag` puts.
    pub fn tag_size(&self, index: usize) -> u32
        requires { index < length self.now }
        ensures size { IfSome (slice_get self.now index) (λ (e : Entry). result ≡ length (string (entry_text e))) }
        ensures most { result ≤ 513 }
    {
        string_size(self.text(index))
    }

    /// Puts the text `KEY=VALUE` of an entry, behind its length.
    pub fn put_tag(&self, index: usize, out: &mut OutBuf)
        requires entry { index < length self.now }
        requires room { IfSome (slice_get self.now index)
            (λ (e : Entry). HasRoom out.old (length (string (entry_text e)) + 10)) }
        ensures { IfSome (slice_get self.now index) (λ (e : Entry). AppendsTo out.old out.new (string (entry_text e))) }
    {
        put_string(out, self.text(index));
    }

    // The text `KEY=VALUE` of an entry.
    fn text(&self, index: usize) -> &[u8]
        requires { index < length self.now }
        ensures text { IfSome (slice_get self.now index) (λ (e : Entry). result.now ≡ entry_text e) }
        ensures short { length result.now ≤ 511 }
    {
        let (text, _) = self.found.get_index(index).unwrap();
        text
    }
}

// Puts a text behind its length.
#[tactic(auto, unfolding(mf_base::specs::Spelling::string))]
fn put_string(out: &mut OutBuf, text: &[u8])
    requires short { length text.now ≤ 511 }
    requires room { HasRoom out.old (length (string text.now) + 10) }
    ensures { AppendsTo out.old out.new (string text.now) }
{
    put_vbe_u(out, text.len() as u64);
    out.put(text);
}

// How many bytes a text takes behind its length.
#[tactic(auto, unfolding(mf_base::specs::Spelling::string))]
fn string_size(text: &[u8]) -> u32
    requires { length text.now ≤ 511 }
    ensures size { result ≡ length (string text.now) }
    ensures most { result ≤ 513 }
{
    size_vbe_u(text.len() as u64) + text.len() as u32
}

// The text `KEY=VALUE`, where it is as short as that of an entry.
fn short_text(key: &[u8], value: &[u8]) -> Option<ArrayVec<u8, 511>>
    ensures text { IfSome result (λ text. text.items ≡ key.now ++ equals ∷ value.now) }
    ensures long { result ≡ None → 511 < length key.now + 1 + length value.now }
{
    let mut text = ArrayVec::new();
    text.try_extend_from_slice(key).ok()?;
    text.try_push(b'=').ok()?;
    text.try_extend_from_slice(value).ok()?;
    Some(text)
}

// The text `KEY=VALUE`.
fn joined(alloc: Global, key: &str, value: &str) -> Result<Vec<u8>, AllocError>
    requires { length key.now + length value.now < 2 ^ 32 }
    ensures { IfOk result (λ text. text.items ≡ key.now ++ equals ∷ value.now) }
{
    let mut text = Vec::with_capacity(alloc, key.len() + 1 + value.len())?;
    text.extend_from_slice(key.as_bytes())?;
    text.push(b'=')?;
    text.extend_from_slice(value.as_bytes())?;
    Ok(text)
}
