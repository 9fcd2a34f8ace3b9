//! What the tags of an entity choose, and the head of a candidate.

ghost use Rattle.std.specs.Prelude.{◌≡◌, option_map, IfSome};
ghost use Rattle.mf_base.specs.TagCursor.{all_tags, tags_left};
ghost use Rattle.feature_model.specs.Choice.{choice};
ghost use Rattle.tag_mapping.specs.Choices.{choice_told, choice_shown};
ghost use Rattle.feature_model.specs.Descriptions.{height_of as height_told, entries_for};
ghost use Rattle.feature_model.specs.Mapping.{Mapping as Entries, entries_of};
ghost use Rattle.std.specs.List.{AllByRecursion};
ghost use Rattle.mf_rows.specs.FirstUnits.{IsKeptTag, IsHead};
ghost use Rattle.mf_ingest.specs.Fronts.{head_told, AreEntriesOf};

use mf_base::decimal::read_height;
use mf_base::kind::{EntityKind, List};
use mf_base::tag_cursor::TagCursor;
use mf_rows::head::Head;
use tag_mapping::choice::Choice;
use tag_mapping::mapping::Mapping;

/// The list with whose entries a kind of objects is matched.
pub(crate) fn list_for(kind: EntityKind) -> List
    ensures { (mapping : Entries) → entries_of mapping result ≡ entries_for mapping kind }
{
    match kind {
        EntityKind::Node => List::Poi,
        EntityKind::Way | EntityKind::Relation => List::Way,
    }
}

/// What tags choose of the entries for a kind. A list without entries costs nothing.
pub(crate) fn choice_for(mapping: &Mapping, kind: EntityKind, tags: TagCursor) -> Option<Choice>
    ensures choice { option_map choice_shown result
        ≡ option_map choice_told (choice (entries_for mapping.now kind) (tags_left tags.entry)) }
    ensures known { IfSome result (λ c. AllByRecursion IsKeptTag c.tags.items) }
    ensures there { IfSome result (λ c. AreEntriesOf (entries_for mapping.now kind) c.tags.items) }
{
    let list = list_for(kind);
    if mapping.entries(list).count() == 0 {
        return None;
    }
    mapping.choose(list, tags)
}

/// The elevation of a node in metres; other kinds have none.
pub(crate) fn height_of(kind: EntityKind, tags: TagCursor) -> Option<i32>
    ensures { result ≡ height_told kind (all_tags tags.entry) }
{
    match kind {
        EntityKind::Node => read_height(tags.value(b"ele")?),
        EntityKind::Way | EntityKind::Relation => None,
    }
}

/// The head of a candidate, with no number and no weight yet.
pub(crate) fn head_of(kind: EntityKind, id: u64, height: Option<i32>, choice: Choice) -> Head
    requires { AllByRecursion IsKeptTag choice.tags.items }
    ensures told { result ≡ head_told kind id height choice }
    ensures is { IsHead result }
{
    Head {
        kind,
        id,
        number: 0,
        weight: 0,
        zoom: choice.zoom,
        layer: choice.layer,
        water: choice.water,
        label: choice.label,
        coast: choice.coast,
        height,
        tags: choice.tags,
    }
}
