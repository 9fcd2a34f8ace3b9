//! The texts of a candidate, as spans of the block from which it is lent.

ghost use Rattle.std.specs.Prelude.{◌≡◌, ◌+◌, ◌<◌, ◌≤◌, ◌++◌, length};
ghost use Rattle.std.specs.List.{AllByRecursion};
ghost use Rattle.arrayvec.specs.ArrayVec.{array_vec_len};
ghost use Rattle.mf_base.specs.Tags.{text_of as text_told};
ghost use Rattle.mf_base.specs.TagCursor.{all_tags, block_of};
ghost use Rattle.feature_model.specs.Mapping.{entries_of};
ghost use Rattle.feature_model.specs.Descriptions.{entries_for, reference_of};
ghost use Rattle.mf_rows.specs.Records.{texts_told};
ghost use Rattle.mf_rows.specs.declared.head.TextSlot.TheVariants as SlotName;
ghost use Rattle.mf_ingest.specs.Fronts.{IsSpan, AreEntriesOf, slot_text, kept_text, kept_texts, tag_texts};

use crate::heads::list_for;
use arrayvec::ArrayVec;
use mf_base::kept::{Kept, KeptValue};
use mf_base::kind::{EntityKind, List};
use mf_base::tag_cursor::TagCursor;
use mf_rows::head::{TextSlot, TextSpan, Texts};
use tag_mapping::mapping::Mapping;

/// The texts that the tags of an object tell: name, house number, the reference of a way or relation, and the values of
/// kept `%s` tags.
pub(crate) fn texts_of<'a>(
    mapping: &Mapping,
    kind: EntityKind,
    kept: &[Kept],
    tags: TagCursor,
    block: &'a [u8],
) -> Texts<'a>
    requires block { block_of tags ≡ block.now }
    requires few { length kept.now ≤ 15 }
    requires entries { AreEntriesOf (entries_for mapping.now kind) kept.now }
    ensures texts { texts_told block.now result.spans.items
        ≡ tag_texts (entries_for mapping.now kind) kind (all_tags tags.entry) kept.now }
    ensures spans { AllByRecursion (IsSpan (length block.now)) result.spans.items }
    ensures few { length result.spans.items ≤ 18 }
    ensures block { result.block.now ≡ block.now }
{
    let mut spans = ArrayVec::new();
    put_text(&mut spans, TextSlot::Name, tags, b"name");
    put_text(&mut spans, TextSlot::House, tags, b"addr:housenumber");
    put_reference(&mut spans, kind, tags);
    put_kept(&mut spans, mapping, list_for(kind), kept, tags);
    Texts { block, spans }
}

// Puts the reference of a way or a relation.
fn put_reference(spans: &mut ArrayVec<TextSpan, 18>, kind: EntityKind, tags: TagCursor)
    requires room { array_vec_len spans.old ≤ 17 }
    requires spans { AllByRecursion (IsSpan (length (block_of tags))) spans.old.items }
    ensures put { texts_told (block_of tags.entry) spans.new.items
        ≡ texts_told (block_of tags.entry) spans.old.items
        ++ slot_text SlotName.Reference (reference_of kind (all_tags tags.entry)) }
    ensures spans { AllByRecursion (IsSpan (length (block_of tags.entry))) spans.new.items }
    ensures most { array_vec_len spans.new ≤ array_vec_len spans.old + 1 }
{
    match kind {
        EntityKind::Node => {}
        EntityKind::Way | EntityKind::Relation => {
            put_text(spans, TextSlot::Reference, tags, b"ref");
        }
    }
}

// Puts the texts of kept tags.
fn put_kept(
    spans: &mut ArrayVec<TextSpan, 18>,
    mapping: &Mapping,
    list: List,
    kept: &[Kept],
    tags: TagCursor,
)
    requires room { array_vec_len spans.old ≤ 3 }
    requires few { length kept.now ≤ 15 }
    requires entries { AreEntriesOf (entries_of mapping.now list) kept.now }
    requires spans { AllByRecursion (IsSpan (length (block_of tags))) spans.old.items }
    ensures put { texts_told (block_of tags.entry) spans.new.items
        ≡ texts_told (block_of tags.entry) spans.old.items
        ++ kept_texts (entries_of mapping.now list) (all_tags tags.entry) 0 kept.now }
    ensures spans { AllByRecursion (IsSpan (length (block_of tags.entry))) spans.new.items }
    ensures most { array_vec_len spans.new ≤ 18 }
{
    for i in 0..kept.len() {
        put_value(spans, mapping, list, i as u8, kept[i], tags);
    }
}

// Puts the text of a kept tag, where it has one.
fn put_value(
    spans: &mut ArrayVec<TextSpan, 18>,
    mapping: &Mapping,
    list: List,
    place: u8,
    kept: Kept,
    tags: TagCursor,
)
    requires room { array_vec_len spans.old ≤ 17 }
    requires entry { kept.tag < length (entries_of mapping.now list) }
    requires spans { AllByRecursion (IsSpan (length (block_of tags))) spans.old.items }
    ensures put { texts_told (block_of tags.entry) spans.new.items
        ≡ texts_told (block_of tags.entry) spans.old.items
        ++ slot_text (SlotName.Tag place) (kept_text (entries_of mapping.now list) (all_tags tags.entry) kept) }
    ensures spans { AllByRecursion (IsSpan (length (block_of tags.entry))) spans.new.items }
    ensures most { array_vec_len spans.new ≤ array_vec_len spans.old + 1 }
{
    if let KeptValue::Text { .. } = kept.value {
        let key = mapping.key(list, u32::from(kept.tag));
        put_text(spans, TextSlot::Tag(place), tags, key);
    }
}

// Puts the text of a key behind the others, where it is present.
fn put_text(spans: &mut ArrayVec<TextSpan, 18>, slot: TextSlot, tags: TagCursor, key: &[u8])
    requires room { array_vec_len spans.old ≤ 17 }
    requires spans { AllByRecursion (IsSpan (length (block_of tags))) spans.old.items }
    ensures put { texts_told (block_of tags.entry) spans.new.items
        ≡ texts_told (block_of tags.entry) spans.old.items ++ slot_text slot (text_told key.now (all_tags tags.entry)) }
    ensures spans { AllByRecursion (IsSpan (length (block_of tags.entry))) spans.new.items }
    ensures most { array_vec_len spans.new ≤ array_vec_len spans.old + 1 }
{
    if let Some((start, len)) = tags.find(key) {
        if 1 <= len && len <= 1020 {
            spans.push(TextSpan { slot, start, len });
        }
    }
}
