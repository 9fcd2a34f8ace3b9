//! What a mapping chooses of tags.

ghost use Rattle.std.specs.Prelude.{◌≡◌, ◌%◌, true, length, option_map};
ghost use Rattle.mf_base.specs.Packed.{are_varints, packed_numbers};
ghost use Rattle.mf_base.specs.Entries.{are_entries, by_twos};
ghost use Rattle.mf_base.specs.TagCursor.{tags_left};
ghost use Rattle.feature_model.specs.Mapping.{entries_of};
ghost use Rattle.feature_model.specs.Choice.{choice};
ghost use Rattle.tag_mapping.specs.Choices.{choice_told, choice_shown};

use crate::choosing::choice_of_tags;
use crate::mapping::Mapping;
use arrayvec::ArrayVec;
use mf_base::kept::Kept;
use mf_base::kind::List;
use mf_base::tag_cursor::TagCursor;

/// What tags choose of the entries of a list.
#[derive(Clone, Debug, Drop, PartialEq, Eq)]
pub struct Choice {
    /// The matching entries with the fifteen smallest ids, in rising order.
    pub tags: ArrayVec<Kept, 15>,
    /// The least zoom level of all matching entries.
    pub zoom: u8,
    /// -5 to 5.
    pub layer: i8,
    /// Whether a matching entry has the water mark.
    pub water: bool,
    /// Whether a matching entry has the label mark.
    pub label: bool,
    /// Whether a matching entry is `natural=coastline`.
    pub coast: bool,
}

impl Mapping {
    /// What the tags that a cursor has left choose of a list's entries, or None where no entry matches.
    ///
    /// Takes no memory.
    pub fn choose(&self, list: List, tags: TagCursor) -> Option<Choice>
        ensures { option_map choice_shown result
            ≡ option_map choice_told (choice (entries_of self.now list) (tags_left tags.entry)) }
    {
        choice_of_tags(self.entries(list), tags)
    }
}

#[cfg(test)]
mod tests {
    use super::*;
    use crate::file::read_mapping;
    use mf_base::kept::KeptValue;
    use std::test::Fail;

    // Twenty entries that four tags match, and two more.
    const MAPPING: &[u8] = b"way = [
        {key = 'a', value = '7', zoom = 20},
        {key = 'a', value = '%b', zoom = 19},
        {key = 'a', value = '%h', zoom = 18},
        {key = 'a', value = '%i', zoom = 17},
        {key = 'a', value = '%s', zoom = 16},
        {key = 'b', value = '7', zoom = 15},
        {key = 'b', value = '%b', zoom = 14},
        {key = 'b', value = '%h', zoom = 13},
        {key = 'b', value = '%i', zoom = 12},
        {key = 'b', value = '%s', zoom = 11},
        {key = 'c', value = '7', zoom = 10},
        {key = 'c', value = '%b', zoom = 9},
        {key = 'c', value = '%h', zoom = 8},
        {key = 'c', value = '%i', zoom = 7},
        {key = 'c', value = '%s', zoom = 6},
        {key = 'd', value = '7', zoom = 5},
        {key = 'd', value = '%b', zoom = 4},
        {key = 'd', value = '%h', zoom = 9, label = true},
        {key = 'd', value = '%i', zoom = 8, water = true},
        {key = 'd', value = '%s', zoom = 3},
        {key = 'natural', value = 'coastline', zoom = 12},
        {key = 'natural', value = 'water', zoom = 0, water = true},
    ]";

    // Entries, each behind its length: none, a, b, c, d, 7, %b, natural, coastline, water, sea, layer, 9 and -9.
    const BLOCK: &[u8] =
        b"\x00\x01a\x01b\x01c\x01d\x017\x02%b\x07natural\x09coastline\x05water\x03sea\x05layer\x019\x02-9";

    const PLACES: [u32; 14] = [0, 1, 3, 5, 7, 9, 11, 14, 22, 32, 38, 42, 48, 50];

    // What is kept of 7 by the five entries of a key.
    const OF_SEVEN: [KeptValue; 5] = [
        KeptValue::Plain,
        KeptValue::Byte(7),
        KeptValue::Short(7),
        KeptValue::Int(7),
        KeptValue::Text { len: 1 },
    ];

    // The tags of the indices of keys and values.
    fn tags(run: &[u8]) -> TagCursor<'_>
        requires { (are_varints run.now ≡ true) × (length (packed_numbers run.now) % 2 ≡ 0)
            × (are_entries 14 (by_twos (packed_numbers run.now)) ≡ true) }
    {
        TagCursor::pairs(BLOCK, &PLACES, run)
    }

    // What a choice has beside its tags: the zoom level, the layer, and the marks for water, label and coast.
    fn rest_of(choice: &Option<Choice>) -> Option<(u8, i8, bool, bool, bool)> {
        match choice {
            Some(c) => Some((c.zoom, c.layer, c.water, c.label, c.coast)),
            None => None,
        }
    }

    // The kept tags of a choice.
    fn kept_of(choice: &Option<Choice>) -> &[Kept] {
        match choice {
            Some(choice) => choice.tags.as_slice(),
            None => &[],
        }
    }

    #[test]
    fn choices_of_tags(rt: HostRuntime) -> Result<(), Fail> {
        let mapping = read_mapping(rt.alloc(), MAPPING)?;
        // d=7 c=7 b=7 a=7
        let twenty = mapping.choose(List::Way, tags(b"\x04\x05\x03\x05\x02\x05\x01\x05"));
        assert_eq!(rt; kept_of(&twenty).len(), 15);
        for (place, kept) in kept_of(&twenty).iter().enumerate() {
            assert_eq!(rt; kept.tag as usize, place);
            assert_eq!(rt; kept.value, OF_SEVEN[place % 5]);
        }
        assert_eq!(rt; rest_of(&twenty), Some((3, 0, true, true, false)));
        // layer=9 natural=coastline
        let coast = mapping.choose(List::Way, tags(b"\x0b\x0c\x07\x08"));
        assert_eq!(rt; rest_of(&coast), Some((12, 5, false, false, true)));
        // natural=water layer=-9
        let water = mapping.choose(List::Way, tags(b"\x07\x09\x0b\x0d"));
        assert_eq!(rt; rest_of(&water), Some((0, -5, true, false, false)));
        // a=%b: by its kind, a text, and not by its own value
        let literal = mapping.choose(List::Way, tags(b"\x01\x06"));
        let text = Kept {
            tag: 4,
            value: KeptValue::Text { len: 2 },
        };
        assert_eq!(rt; kept_of(&literal), [text].as_slice());
        // natural=sea natural=coastline: only the first pair of a key counts
        assert_eq!(rt; mapping.choose(List::Way, tags(b"\x07\x0a\x07\x08")), None);
        assert_eq!(rt; mapping.choose(List::Poi, tags(b"\x07\x08")), None);
        Ok(())
    }
}
