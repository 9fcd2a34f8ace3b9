//! How the choice of tags is found, entry by entry.
//!
//! Each pair of the tags is looked up once as it stands, and once for each kind. An entry that is so found is asked for
//! its match, which looks up its key in the tags, and no entry is asked twice. Entries that no pair finds cost nothing.

ghost use Rattle.std.specs.Prelude.{◌≡◌, ◌<◌, ◌≤◌, ℕ, true, length, take, Some, option_map, slice_get, IsSome, nat_lt};
ghost use Rattle.std.specs.Prelude.{position};
ghost use Rattle.std.specs.List.{position_or_len};
ghost use Rattle.mf_base.specs.TagCursor.{tags_left};
ghost use Rattle.feature_model.specs.Mapping as model;
ghost use Rattle.feature_model.specs.Choice as model_choice;
ghost use Rattle.tag_mapping.specs.Choices.{choice_told, choice_shown};
ghost use Rattle.tag_mapping.specs.Choosing.{IsChosen, is_known, first_choice as first_told, with_match, with_kept};
ghost use Rattle.tag_mapping.specs.Choosing.{grown};

use crate::choice::Choice;
use crate::entries::Entries;
use crate::lookup::layer_of;
use crate::matched::{Matched, match_of};
use arrayvec::ArrayVec;
use mf_base::kept::Kept;
use mf_base::tag_cursor::TagCursor;

// What is chosen of the entries that were looked at.
#[derive(Drop)]
struct Choosing {
    // Whether the entry with this index was looked at.
    known: [bool; 4096],
    choice: Option<Choice>,
}

/// What the tags that a cursor has left choose of entries.
pub(crate) fn choice_of_tags(entries: &Entries, tags: TagCursor) -> Option<Choice>
    requires { length entries.now ≤ 4096 }
    ensures { option_map choice_shown result
        ≡ option_map choice_told (model_choice.choice entries.now (tags_left tags.entry)) }
{
    let mut choosing = Choosing {
        known: [false; 4096],
        choice: None,
    };
    let mut left = tags;
    while let Some((key, value)) = left.next() {
        choosing.look_up_pair(entries, tags, key, value);
    }
    choosing.choice
}

impl Choosing {
    // Looks at each entry that reads a pair of the tags.
    fn look_up_pair(&mut self, entries: &Entries, tags: TagCursor, key: &[u8], value: &[u8])
        requires few { length entries.now ≤ 4096 }
        requires so_far { IsChosen entries.now (tags_left tags) self.old.known self.old.choice }
        ensures so_far { IsChosen entries.now (tags_left tags.entry) self.new.known self.new.choice }
        ensures keeps { (i : ℕ) → is_known self.old.known i ≡ true → is_known self.new.known i ≡ true }
        ensures found { (i : ℕ) (e : model.Entry) → slice_get entries.now i ≡ Some e → e.key ≡ key.now
            → IsSome (model.read_by (model.value_kind e.value) e.value value.now) → is_known self.new.known i ≡ true }
    {
        self.look_up(entries, tags, key, value);
        self.look_up(entries, tags, key, b"%b");
        self.look_up(entries, tags, key, b"%h");
        self.look_up(entries, tags, key, b"%i");
        self.look_up(entries, tags, key, b"%s");
    }

    // Looks at the entry with this key and value, where there is one.
    fn look_up(&mut self, entries: &Entries, tags: TagCursor, key: &[u8], value: &[u8])
        requires few { length entries.now ≤ 4096 }
        requires so_far { IsChosen entries.now (tags_left tags) self.old.known self.old.choice }
        ensures so_far { IsChosen entries.now (tags_left tags.entry) self.new.known self.new.choice }
        ensures keeps { (i : ℕ) → is_known self.old.known i ≡ true → is_known self.new.known i ≡ true }
        ensures found { (i : ℕ) (e : model.Entry) → slice_get entries.now i ≡ Some e → e.key ≡ key.now
            → e.value ≡ value.now → is_known self.new.known i ≡ true }
    {
        if let Some(index) = entries.index_of(key, value) {
            self.look_at(entries, tags, index);
        }
    }

    // Looks at an entry, unless that was done before.
    fn look_at(&mut self, entries: &Entries, tags: TagCursor, index: usize)
        requires few { length entries.now ≤ 4096 }
        requires within { index < length entries.now }
        requires so_far { IsChosen entries.now (tags_left tags) self.old.known self.old.choice }
        ensures so_far { IsChosen entries.now (tags_left tags.entry) self.new.known self.new.choice }
        ensures keeps { (i : ℕ) → is_known self.old.known i ≡ true → is_known self.new.known i ≡ true }
        ensures known { is_known self.new.known index ≡ true }
    {
        if self.known[index] {
            return;
        }
        self.known[index] = true;
        if let Some(found) = match_of(entries.parts(index), index as u16, tags) {
            grow(&mut self.choice, found, tags);
        }
    }
}

// Takes one more match.
fn grow(choice: &mut Option<Choice>, found: Matched, tags: TagCursor)
    ensures { option_map choice_shown choice.new
        ≡ Some (grown (model_choice.layer_of (tags_left tags.entry)) found (option_map choice_shown choice.old)) }
{
    match choice {
        Some(choice) => add(choice, found),
        None => *choice = Some(first_choice(found, layer_of(tags))),
    }
}

// The choice of one match.
fn first_choice(found: Matched, layer: i8) -> Choice
    ensures { choice_shown result ≡ first_told layer found }
{
    let mut tags = ArrayVec::new();
    tags.push(found.kept);
    Choice {
        tags,
        zoom: found.zoom,
        layer,
        water: found.water,
        label: found.label,
        coast: found.coast,
    }
}

// Adds a match to a choice.
fn add(choice: &mut Choice, found: Matched)
    ensures { choice_shown choice.new ≡ with_match found (choice_shown choice.old) }
{
    keep(&mut choice.tags, found.kept);
    choice.zoom = choice.zoom.min(found.zoom);
    choice.water |= found.water;
    choice.label |= found.label;
    choice.coast |= found.coast;
}

// Adds a kept tag, and drops the one with the greatest id where there are more than fifteen.
fn keep(tags: &mut ArrayVec<Kept, 15>, kept: Kept)
    ensures { tags.new.items ≡ take 15 (with_kept kept tags.old.items) }
{
    let place = place_of(tags.as_slice(), kept.tag);
    if place < 15 {
        tags.truncate(14);
        tags.insert(place, kept);
    }
}

// How many kept tags stand before one with this id.
fn place_of(tags: &[Kept], tag: u16) -> usize
    ensures place { result ≡ position_or_len (λ (k : Kept). nat_lt tag k.tag) tags.now }
    ensures within { result ≤ length tags.now }
{
    first_above(tags, tag).unwrap_or(tags.len())
}

// Where the first kept tag with a greater id stands.
fn first_above(tags: &[Kept], tag: u16) -> Option<usize>
    ensures { result ≡ position (λ (k : Kept). nat_lt tag k.tag) tags.now }
{
    tags.iter().position(|kept| tag < kept.tag)
}
