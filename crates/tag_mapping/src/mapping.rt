//! A mapping: which tags make a map show something.

ghost use Rattle.std.specs.Prelude.{◌≡◌, ◌+◌, ◌<◌, ◌≤◌, length, IfSome, slice_get};
ghost use Rattle.mf_base.specs.Buffer.{HasRoom, AppendsTo};
ghost use Rattle.mf_base.specs.Spelling.{string};
ghost use Rattle.feature_model.specs.Mapping as spec;
ghost use Rattle.feature_model.specs.Mapping.{Entry, entries_of};
ghost use Rattle.feature_model.specs.Entries.{IsMapping};
ghost use Rattle.map_model.specs.TagLists.{entry_text};

use crate::entries::Entries;
use mf_base::kind::List;
use mf_base::out_buf::OutBuf;
use std::marker::Model;

/// A list of entries for nodes, and one for ways and relations.
#[derive(Drop)]
pub struct Mapping {
    poi: Entries,
    way: Entries,
}

impl Model for Mapping {
    ghost use Rattle.feature_model.specs.Mapping as spec;
    ghost use Rattle.feature_model.specs.Entries.{IsMapping};

    ghost Value = { spec.Mapping };

    ghost view = { λ m. record { poi = m.poi; way = m.way } };

    ghost invariant = { λ m. IsMapping (record { poi = m.poi; way = m.way }) };
}

impl Mapping {
    /// The mapping of two lists that are one.
    pub(crate) fn new(poi: Entries, way: Entries) -> Mapping
        requires { IsMapping (record { poi = poi; way = way }) }
        ensures { result ≡ record { poi = poi; way = way } }
    {
        Mapping { poi, way }
    }

    /// The entries of a list.
    pub fn entries(&self, list: List) -> &Entries
        ensures entries { result.now ≡ entries_of self.now list }
        ensures few { length result.now ≤ 4096 }
    {
        match list {
            List::Poi => &self.poi,
            List::Way => &self.way,
        }
    }

    /// How many entries a list has.
    pub fn tag_count(&self, list: List) -> u32
        ensures { result ≡ length (entries_of self.now list) }
    {
        self.entries(list).count() as u32
    }

    /// The key of an entry.
    pub fn key(&self, list: List, index: u32) -> &[u8]
        requires { index < length (entries_of self.now list) }
        ensures { IfSome (slice_get (entries_of self.now list) index) (λ (e : Entry). result.now ≡ e.key) }
    {
        self.entries(list).key(index as usize)
    }

    /// How many bytes `put_tag` puts.
    pub fn tag_size(&self, list: List, index: u32) -> u32
        requires { index < length (entries_of self.now list) }
        ensures size { IfSome (slice_get (entries_of self.now list) index)
            (λ (e : Entry). result ≡ length (string (entry_text e))) }
        ensures most { result ≤ 513 }
    {
        self.entries(list).tag_size(index as usize)
    }

    /// Puts the text `KEY=VALUE` of an entry, behind its length.
    pub fn put_tag(&self, list: List, index: u32, out: &mut OutBuf)
        requires entry { index < length (entries_of self.now list) }
        requires room { IfSome (slice_get (entries_of self.now list) index)
            (λ (e : Entry). HasRoom out.old (length (string (entry_text e)) + 10)) }
        ensures { IfSome (slice_get (entries_of self.now list) index)
            (λ (e : Entry). AppendsTo out.old out.new (string (entry_text e))) }
    {
        self.entries(list).put_tag(index as usize, out);
    }
}
