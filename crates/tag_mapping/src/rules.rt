//! What a mapping asks of each entry.

ghost use Rattle.std.specs.Prelude.{◌≡◌, ◌&&◌, ◌||◌, ◌∷◌, [], not, codes, bytes_eq};
ghost use Rattle.mf_base.specs.Texts.{begins, is_among, has_byte, has_text};
ghost use Rattle.mf_base.specs.Words.{equals};
ghost use Rattle.feature_model.specs.Entries as rules;
ghost use Rattle.tag_mapping.specs.Shown.{told_shown};

use crate::told::Told;
use mf_base::kind::List;

/// Whether an entry of the list keeps the entry rule.
#[tactic(auto, unfolding(feature_model::specs::Entries::keeps_entry_rule))]
pub(crate) fn keeps_entry_rule(list: List, told: &Told) -> bool
    ensures { result ≡ rules.keeps_entry_rule list (told_shown told.now) }
{
    has_right_texts(told) && told.zoom <= 21 && may_have_marks(list, told)
}

// Whether key and value are short, and the key has no `=`.
fn has_right_texts(told: &Told) -> bool
    ensures { result
        ≡ (rules.is_short told.now.key.now && not (has_byte equals told.now.key.now)
        && rules.is_short told.now.value.now) }
{
    is_short(told.key) && !has_equals(told.key) && is_short(told.value)
}

/// Whether an entry keeps the kind rule.
#[tactic(auto, unfolding(feature_model::specs::Entries::keeps_kind_rule))]
pub(crate) fn keeps_kind_rule(told: &Told) -> bool
    ensures { result ≡ rules.keeps_kind_rule (told_shown told.now) }
{
    has_known_kind(told.value) && !is_numbered_colour(told.key, told.value)
}

// Whether a value that begins with `%` is one of the four kinds.
fn has_known_kind(value: &str) -> bool
    ensures { result
        ≡ (not (begins (codes "%") value.now)
        || is_among (codes "%b" ∷ codes "%h" ∷ codes "%i" ∷ codes "%s" ∷ []) value.now) }
{
    !value.starts_with("%") || is_kind(value)
}

// Whether a value is one of the four kinds.
fn is_kind(value: &str) -> bool
    ensures { result ≡ is_among (codes "%b" ∷ codes "%h" ∷ codes "%i" ∷ codes "%s" ∷ []) value.now }
{
    matches!(value, "%b" | "%h" | "%i" | "%s")
}

// Whether a colour is told as a number.
fn is_numbered_colour(key: &str, value: &str) -> bool
    ensures { result ≡ (bytes_eq value.now (codes "%i") && has_text (codes ":colour") key.now) }
{
    value == "%i" && has_colour(key)
}

// Whether the list may have the marks of an entry.
fn may_have_marks(list: List, told: &Told) -> bool
    ensures { result ≡ rules.may_have_marks list (told_shown told.now) }
{
    match list {
        List::Poi => !(told.water || told.label),
        List::Way => true,
    }
}

// Whether a text has 1 to 255 bytes.
fn is_short(text: &str) -> bool
    ensures { result ≡ rules.is_short text.now }
{
    !text.is_empty() && text.len() <= 255
}

// Whether a `=` stands in a text.
fn has_equals(text: &str) -> bool
    ensures { result ≡ has_byte equals text.now }
{
    text.as_bytes().iter().any(|b| b'=' == *b)
}

// Whether `:colour` stands in a text.
fn has_colour(text: &str) -> bool
    ensures { result ≡ has_text (codes ":colour") text.now }
{
    text.contains(":colour")
}
