//! What is told of an entry, before it is known whether a mapping may have it.

ghost use Rattle.std.specs.Prelude.{◌≡◌, option_map, option_and_then, string_bytes, IfSome, IsTrue};
ghost use Rattle.std.specs.BTreeMap.{keys};
ghost use Rattle.std.specs.List.{list_all};
ghost use Rattle.toml.specs.View.{table_view, view};
ghost use Rattle.toml.specs.Data.{as_table, get_member};
ghost use Rattle.std.specs.Str.{is_utf8};
ghost use Rattle.mf_base.specs.Texts.{is_among};
ghost use Rattle.feature_model.specs.Entries.{IsEntryText};
ghost use Rattle.tag_mapping.specs.File as spec;
ghost use Rattle.tag_mapping.specs.File.{entry_of, told_members, member_names, text_at, zoom_at, mark_at};
ghost use Rattle.tag_mapping.specs.Shown.{told_shown};

use mf_base::kind::List;
use toml::{Table, Value};

/// What a table or a word tells of an entry.
#[derive(Clone, Copy, Debug, PartialEq, Eq)]
pub struct Told<'a> {
    pub key: &'a str,
    pub value: &'a str,
    /// The least zoom level at which the entry shows.
    pub zoom: u8,
    pub water: bool,
    pub label: bool,
}

/// What an item of a list of the file tells, where it can be read as an entry: it is a table with the members of the
/// list and
/// no others, each of the right type.
pub fn told_entry(list: List, item: &Value) -> Option<Told<'_>>
    ensures told { option_map told_shown result ≡ option_and_then (entry_of list) (as_table (view item.now)) }
    ensures text { IfSome result (λ told. IsEntryText (told_shown told)) }
{
    match item.as_table() {
        Some(table) => entry_in(list, table),
        None => None,
    }
}

// What a table tells.
fn entry_in(list: List, table: &Table) -> Option<Told<'_>>
    ensures told { option_map told_shown result ≡ entry_of list (table_view table.now) }
    ensures text { IfSome result (λ told. IsEntryText (told_shown told)) }
{
    if has_only_members(list, table) {
        members_in(table)
    } else {
        None
    }
}

// What the members of an entry tell.
fn members_in(table: &Table) -> Option<Told<'_>>
    ensures told { option_map told_shown result ≡ told_members (table_view table.now) }
    ensures text { IfSome result (λ told. IsEntryText (told_shown told)) }
{
    let key = text_in(table, "key")?;
    let value = text_in(table, "value")?;
    let zoom = zoom_in(table)?;
    let water = mark_in(table, "water")?;
    let label = mark_in(table, "label")?;
    known_text(key);
    known_text(value);
    Some(Told {
        key,
        value,
        zoom,
        water,
        label,
    })
}

/// What a `&str` has is UTF-8. It does nothing at run time.
pub(crate) fn known_text(text: &str)
    ensures { IsTrue (is_utf8 text.now) }
{
    let _ = text;
}

// Whether a table has no members but those of an entry of the list.
fn has_only_members(list: List, table: &Table) -> bool
    ensures { result ≡ list_all (λ name. is_among (member_names list) (string_bytes name)) (keys table.now) }
{
    table.keys().all(|name| is_member(list, name.as_str()))
}

// Whether an entry of the list has a member of this name.
fn is_member(list: List, name: &str) -> bool
    ensures { result ≡ is_among (member_names list) name.now }
{
    match list {
        List::Poi => matches!(name, "key" | "value" | "zoom"),
        List::Way => matches!(name, "key" | "value" | "zoom" | "water" | "label"),
    }
}

// The member of a table under a name.
pub(crate) fn member<'a>(table: &'a Table, name: &str) -> Option<&'a Value>
    ensures { option_map (λ v. view v.now) result ≡ get_member name.now (table_view table.now) }
{
    table.get(name)
}

// The text that a table has under a name.
fn text_in<'a>(table: &'a Table, name: &str) -> Option<&'a str>
    ensures { option_map (λ t. t.now) result ≡ text_at name.now (table_view table.now) }
{
    match member(table, name) {
        Some(value) => value.as_str(),
        None => None,
    }
}

// The zoom level of a table.
fn zoom_in(table: &Table) -> Option<u8>
    ensures { result ≡ zoom_at (table_view table.now) }
{
    match member(table, "zoom") {
        Some(value) => zoom_level(value.as_integer()?),
        None => None,
    }
}

// The zoom level that a number is.
fn zoom_level(number: i64) -> Option<u8>
    ensures { result ≡ spec.zoom_level number }
{
    if 0 <= number && number <= 21 {
        Some(number as u8)
    } else {
        None
    }
}

// The truth value that a table has under a name, which is false where it is not given.
fn mark_in(table: &Table, name: &str) -> Option<bool>
    ensures { result ≡ mark_at name.now (table_view table.now) }
{
    match member(table, name) {
        Some(value) => value.as_bool(),
        None => Some(false),
    }
}
