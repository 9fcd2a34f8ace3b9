//! The match of one entry.

ghost use Rattle.std.specs.Prelude.{◌≡◌, option_map};
ghost use Rattle.mf_base.specs.TagCursor.{tags_left};
ghost use Rattle.feature_model.specs.Choice as model;
ghost use Rattle.tag_mapping.specs.Choosing.{match_told, parts_shown};

use crate::lookup::value_of;
use crate::values::read_by;
use mf_base::kept::Kept;
use mf_base::tag_cursor::TagCursor;

/// An entry, lent.
#[derive(Clone, Copy, Debug, PartialEq, Eq)]
pub(crate) struct Parts<'a> {
    pub(crate) key: &'a [u8],
    pub(crate) value: &'a [u8],
    /// The least zoom level at which the entry shows.
    pub(crate) zoom: u8,
    pub(crate) water: bool,
    pub(crate) label: bool,
}

/// What a choice takes of an entry that matches.
#[derive(Clone, Copy, Debug, PartialEq, Eq)]
pub(crate) struct Matched {
    pub(crate) kept: Kept,
    pub(crate) zoom: u8,
    pub(crate) water: bool,
    pub(crate) label: bool,
    pub(crate) coast: bool,
}

/// The match of an entry and its id, where it is one.
#[tactic(auto, unfolding(feature_model::specs::Mapping::kept_by))]
pub(crate) fn match_of(entry: Parts, tag: u16, tags: TagCursor) -> Option<Matched>
    ensures { result ≡ option_map match_told (model.match_of (tags_left tags.entry) (tag, parts_shown entry.entry)) }
{
    let value = value_of(tags, entry.key)?;
    let value = read_by(entry.value, value)?;
    Some(Matched {
        kept: Kept { tag, value },
        zoom: entry.zoom,
        water: entry.water,
        label: entry.label,
        coast: is_coast(entry),
    })
}

// Whether an entry is `natural=coastline`.
fn is_coast(entry: Parts) -> bool
    ensures { result ≡ model.is_coast (parts_shown entry.entry) }
{
    entry.key == b"natural".as_slice() && entry.value == b"coastline".as_slice()
}
