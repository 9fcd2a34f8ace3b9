//! The tags of an object, lent from the block in which their texts stand.

ghost use Rattle.std.specs.Prelude.{◌≡◌, ◌<◌, ◌^◌, true, length};
ghost use Rattle.mf_base.specs.Entries.{are_texts, are_entries};
ghost use Rattle.mf_base.specs.TagLists.{pairs_in, are_whole};

use crate::tag_lists::TagLists;
use crate::text_place::text_place;

/// Goes over the tags of an object. It is plain data: a copy goes on from the same place by itself.
#[derive(Clone, Copy, Debug, PartialEq, Eq)]
pub struct TagCursor<'a> {
    // The bytes in which the texts stand, and the places of the entries' lengths in them.
    block: &'a [u8],
    strings: &'a [u32],
    // The lists of indices, whole and as far as they are left.
    all: TagLists<'a>,
    left: TagLists<'a>,
    ghost near: { length block.now < 2 ^ 32 },
    ghost texts: { are_texts block.now strings.now ≡ true },
    ghost all_whole: { are_whole all ≡ true },
    ghost all_told: { are_entries (length strings.now) (pairs_in all) ≡ true },
    ghost left_whole: { are_whole left ≡ true },
    ghost left_told: { are_entries (length strings.now) (pairs_in left) ≡ true },
}

impl<'a> TagCursor<'a> {
    ghost use Rattle.std.specs.Prelude.{◌≡◌, ◌+◌, ◌%◌, ◌<◌, ◌≤◌, ◌^◌, true, length, zip, drop, slice_get, slice_range};
    ghost use Rattle.std.specs.Prelude.{option_map, IfSome};
    ghost use Rattle.mf_base.specs.Packed.{are_varints, packed_numbers};
    ghost use Rattle.mf_base.specs.Tags.{value_of};
    ghost use Rattle.mf_base.specs.Entries.{are_texts, are_entries, entry_tags, entry_text, by_twos};
    ghost use Rattle.mf_base.specs.TagCursor.{block_of, all_tags, tags_left};

    /// Lends the tags of two packed lists, one of the indices of keys and one of those of values.
    ///
    /// `strings` has for each entry the place of its length in the block.
    pub fn columns(
        block: &'a [u8],
        strings: &'a [u32],
        keys: &'a [u8],
        vals: &'a [u8],
    ) -> TagCursor<'a>
        requires near { length block.now < 2 ^ 32 }
        requires texts { are_texts block.now strings.now ≡ true }
        requires whole_keys { are_varints keys.now ≡ true }
        requires whole_vals { are_varints vals.now ≡ true }
        requires as_many { length (packed_numbers keys.now) ≡ length (packed_numbers vals.now) }
        requires told { are_entries (length strings.now) (zip (packed_numbers keys.now) (packed_numbers vals.now))
            ≡ true }
        ensures block { block_of result ≡ block.now }
        ensures all { all_tags result
            ≡ entry_tags block.now strings.now (zip (packed_numbers keys.now) (packed_numbers vals.now)) }
        ensures left { tags_left result ≡ all_tags result }
    {
        let lists = TagLists::Columns { keys, vals };
        TagCursor {
            block,
            strings,
            all: lists,
            left: lists,
        }
    }

    /// Lends the tags of one packed list, in which the indices of keys and values take turns.
    ///
    /// `strings` has for each entry the place of its length in the block.
    pub fn pairs(block: &'a [u8], strings: &'a [u32], run: &'a [u8]) -> TagCursor<'a>
        requires near { length block.now < 2 ^ 32 }
        requires texts { are_texts block.now strings.now ≡ true }
        requires whole { are_varints run.now ≡ true }
        requires as_many { length (packed_numbers run.now) % 2 ≡ 0 }
        requires told { are_entries (length strings.now) (by_twos (packed_numbers run.now)) ≡ true }
        ensures block { block_of result ≡ block.now }
        ensures all { all_tags result ≡ entry_tags block.now strings.now (by_twos (packed_numbers run.now)) }
        ensures left { tags_left result ≡ all_tags result }
    {
        let lists = TagLists::Run { run };
        TagCursor {
            block,
            strings,
            all: lists,
            left: lists,
        }
    }

    /// The key and the value of the next tag, or None after the last.
    pub fn next(&mut self) -> Option<(&'a [u8], &'a [u8])>
        ensures first { option_map (λ tag. (tag.0.now, tag.1.now)) result ≡ slice_get (tags_left self.old) 0 }
        ensures rest { tags_left self.new ≡ drop 1 (tags_left self.old) }
        ensures all { all_tags self.new ≡ all_tags self.old }
        ensures block { block_of self.new ≡ block_of self.old }
    {
        let ((key, val), rest) = self.left.first()?;
        self.left = rest;
        Some((self.text(key), self.text(val)))
    }

    /// Where in the block the value of the first tag with this key begins, and its length in bytes, whatever was given
    /// of the tags.
    pub fn find(&self, key: &[u8]) -> Option<(u32, u32)>
        ensures value { option_map (λ found. slice_range (block_of self.now) found.0 (found.0 + found.1)) result
            ≡ value_of key.now (all_tags self.now) }
        ensures within { IfSome result (λ found. found.0 + found.1 ≤ length (block_of self.now)) }
    {
        let (start, end) = self.value_place(key)?;
        Some((start as u32, (end - start) as u32))
    }

    /// The value of the first tag with this key, whatever was given of the tags.
    pub fn value(&self, key: &[u8]) -> Option<&'a [u8]>
        ensures { option_map (λ found. found.now) result ≡ value_of key.now (all_tags self.now) }
    {
        let (start, end) = self.value_place(key)?;
        Some(&self.block[start..end])
    }

    // Where in the block the value of the first tag with this key begins and ends.
    fn value_place(&self, key: &[u8]) -> Option<(usize, usize)>
        ensures value { option_map (λ place. slice_range self.now.block.now place.0 place.1) result
            ≡ value_of key.now (all_tags self.now) }
        ensures within { IfSome result (λ place. (place.0 ≤ place.1) × (place.1 ≤ length self.now.block.now)) }
    {
        let mut left = self.all;
        while let Some(((at, val), rest)) = left.first() {
            if self.text(at) == key {
                return Some(self.place(val));
            }
            left = rest;
        }
        None
    }

    // The text of the entry with this index.
    fn text(&self, index: u64) -> &'a [u8]
        requires { index < length self.now.strings.now }
        ensures { result.now ≡ entry_text self.now.block.now self.now.strings.now index }
    {
        let (start, end) = self.place(index);
        &self.block[start..end]
    }

    // Where the text of the entry with this index begins and ends.
    fn place(&self, index: u64) -> (usize, usize)
        requires { index < length self.now.strings.now }
        ensures text { slice_range self.now.block.now result.0 result.1
            ≡ entry_text self.now.block.now self.now.strings.now index }
        ensures within { (result.0 ≤ result.1) × (result.1 ≤ length self.now.block.now) }
    {
        text_place(self.block, self.strings[index as usize] as usize)
    }
}

#[cfg(test)]
mod tests {
    use super::TagCursor;

    // Entries, each behind its length: none, name, A, ref, B; then the name again, under a length of two bytes.
    const BLOCK: &[u8] = b"..\x00\x04name\x01A\x03ref\x01B\x84\x00name";

    const PLACES: [u32; 6] = [2, 3, 8, 10, 14, 16];

    #[test]
    fn tags_of_two_lists(rt: HostRuntime) {
        // ref=A, name=B, name= and =ref; the second key is spelled in two bytes.
        let mut tags = TagCursor::columns(
            BLOCK,
            &PLACES,
            b"\x03\x81\x00\x05\x00",
            b"\x02\x04\x00\x03",
        );
        let whole = tags;
        assert_eq!(rt; tags.next(), Some((b"ref".as_slice(), b"A".as_slice())));
        assert_eq!(rt; tags.next(), Some((b"name".as_slice(), b"B".as_slice())));
        assert_eq!(rt; tags.next(), Some((b"name".as_slice(), b"".as_slice())));
        assert_eq!(rt; tags.next(), Some((b"".as_slice(), b"ref".as_slice())));
        assert_eq!(rt; tags.next(), None);
        assert_eq!(rt; tags.next(), None);
        // The first of a key, whatever was given.
        assert_eq!(rt; tags.find(b"name"), Some((15, 1)));
        assert_eq!(rt; whole.find(b"ref"), Some((9, 1)));
        assert_eq!(rt; whole.find(b""), Some((11, 3)));
        assert_eq!(rt; whole.find(b"A"), None);
        assert_eq!(rt; whole.value(b"name"), Some(b"B".as_slice()));
        assert_eq!(rt; whole.value(b"nam"), None);
    }

    #[test]
    fn tags_of_one_list(rt: HostRuntime) {
        let mut tags = TagCursor::pairs(BLOCK, &PLACES, b"\x01\x02\x03\x00");
        assert_eq!(rt; tags.find(b"ref"), Some((3, 0)));
        assert_eq!(rt; tags.next(), Some((b"name".as_slice(), b"A".as_slice())));
        assert_eq!(rt; tags.next(), Some((b"ref".as_slice(), b"".as_slice())));
        assert_eq!(rt; tags.next(), None);
        let mut none = TagCursor::pairs(BLOCK, &[], b"");
        assert_eq!(rt; none.next(), None);
        assert_eq!(rt; none.find(b""), None);
    }
}
