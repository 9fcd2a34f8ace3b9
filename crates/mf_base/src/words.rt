//! The words of a command line.

ghost use Rattle.std.specs.Prelude.{◌≡◌, ◌+◌, ◌<◌, ◌≤◌, ◌∷◌, None, map, drop, length, string_bytes, is_some, IsTrue};
ghost use Rattle.std.specs.Prelude.{Some, [], ◌&&◌, is_none, slice_get, option_map, if◌then◌else◌, List};
ghost use Rattle.mf_base.specs.Texts.{Text, begins, is_among};
ghost use Rattle.mf_base.specs.Words.{Given, is_value, names_in, options_of, given_value, in_one_word, dash, dashes};
ghost use Rattle.mf_base.specs.Words as rules;
ghost use Rattle.mf_base.specs.Shown.{both_now, Begins};

use crate::texts::{cut, cut_bytes};

/// Whether the words keep the rules for a program's option names, which are joined by commas.
pub fn words_keep(words: &[String], names: &str) -> bool
    ensures { result ≡ rules.words_keep (names_in names.now) (map string_bytes words.now) }
{
    let mut at = 0;
    loop {
        match front_at(words, at) {
            Front::End => return true,
            Front::Broken => return false,
            Front::Option { name, value, size } => {
                at += size;
                if !is_right(words, at, names, name, value) {
                    return false;
                }
            }
        }
    }
}

/// The value of the option `--name`: what follows the first `=` of its word, or else the next word. The words are a
/// list of
/// options.
pub fn word_of<'a>(words: &'a [String], name: &str) -> Option<&'a str>
    requires { IsTrue (is_some (options_of (map string_bytes words.now))) }
    ensures { option_map (λ t. t.now) result ≡ rules.word_of (map string_bytes words.now) name.now }
{
    value_after(words, 0, name)
}

// What words begin with.
#[derive(Clone, Copy, Debug, PartialEq, Eq)]
enum Front<'a> {
    // There are no more options.
    End,
    // They are no list of options.
    Broken,
    // An option, of one word or of two.
    Option {
        name: &'a str,
        value: &'a str,
        size: usize,
    },
}

// What the words from a place on begin with.
fn front_at(words: &[String], at: usize) -> Front<'_>
    requires { at ≤ length words.now }
    ensures { Begins (drop at (map string_bytes words.now)) result }
{
    let Some(word) = word_at(words, at) else {
        return Front::End;
    };
    if let Some((name, value)) = one_word(word) {
        return Front::Option {
            name,
            value,
            size: 1,
        };
    }
    match word_at(words, at + 1) {
        Some(value) => two_words(word, value),
        None => last_word(word),
    }
}

// The word at a place.
fn word_at(words: &[String], at: usize) -> Option<&str>
    ensures { option_map (λ t. t.now) result ≡ slice_get (map string_bytes words.now) at }
{
    match words.get(at) {
        Some(word) => Some(word.as_str()),
        None => None,
    }
}

// The option of a word `--name=value`.
fn one_word(word: &str) -> Option<(&str, &str)>
    ensures { option_map both_now result ≡ in_one_word word.now }
{
    cut(word.strip_prefix("--")?, '=')
}

// The option of `--name` and of a word with the value.
fn two_words<'a>(word: &'a str, value: &'a str) -> Front<'a>
    requires { in_one_word word.now ≡ None }
    ensures { (rest : List Text) → Begins (word.now ∷ value.now ∷ rest) result }
{
    match behind_dashes(word) {
        Some(name) if !begins_with_dash(value) => Front::Option {
            name,
            value,
            size: 2,
        },
        _ => Front::Broken,
    }
}

// A last word that is no option: `--`, or no right word.
fn last_word(word: &str) -> Front<'_>
    requires { in_one_word word.now ≡ None }
    ensures { Begins (word.now ∷ []) result }
{
    if word == "--" {
        Front::End
    } else {
        Front::Broken
    }
}

// What stands behind `--`.
fn behind_dashes(word: &str) -> Option<&str>
    ensures { option_map (λ t. t.now) result ≡ (if begins dashes word.now then Some (drop 2 word.now) else None) }
{
    word.strip_prefix("--")
}

// Whether a text begins with `-`.
fn begins_with_dash(text: &str) -> bool
    ensures { result ≡ begins dash text.now }
{
    text.starts_with("-")
}

// Whether an option keeps the rules: its name is one of the program's, and none of the options from a place on has it
// too.
fn is_right(words: &[String], after: usize, names: &str, name: &str, value: &str) -> bool
    requires { after ≤ length words.now }
    ensures { (more : Given) → options_of (drop after (map string_bytes words.now)) ≡ Some more
        → result ≡ (is_among (names_in names.now) name.now && is_value value.now && is_none (given_value name.now more)) }
{
    is_name(names.as_bytes(), name.as_bytes())
        && has_value(value)
        && value_after(words, after, name).is_none()
}

// The value of an option among those from a place on.
fn value_after<'a>(words: &'a [String], from: usize, name: &str) -> Option<&'a str>
    requires { from ≤ length words.now }
    ensures { (options : Given) → options_of (drop from (map string_bytes words.now)) ≡ Some options
        → option_map (λ t. t.now) result ≡ given_value name.now options }
{
    let mut at = from;
    while let Front::Option {
        name: given,
        value,
        size,
    } = front_at(words, at)
    {
        if given == name {
            return Some(value);
        }
        at += size;
    }
    None
}

// Whether a text is one of the names between commas.
fn is_name(names: &[u8], name: &[u8]) -> bool
    ensures { result ≡ is_among (names_in names.now) name.now }
{
    let mut rest = names;
    while let Some((first, more)) = cut_bytes(rest, b',') {
        if first == name {
            return !name.is_empty();
        }
        rest = more;
    }
    rest == name && !name.is_empty()
}

// Whether a text is neither empty nor `-`.
fn has_value(text: &str) -> bool
    ensures { result ≡ is_value text.now }
{
    !text.is_empty() && text != "-"
}

#[cfg(test)]
mod tests {
    use super::*;
    use std::alloc::{AllocError, Global};
    use std::test::Fail;

    // Words, and whether they keep the rules for the names `poi` and `rows`.
    const LINES: [(&[&str], bool); 20] = [
        (&["--"], true),
        (&["--poi=a=b@5", "--rows", "64", "--"], true),
        (&["--poi=-1"], true),
        (&["--poi=="], true),
        (&["--rows=64", "--poi=x"], true),
        (&["--poi", "--"], false),
        (&["--", "--"], false),
        (&["--", "--poi=a"], false),
        (&["--poi=a", "--poi=a"], false),
        (&["--poi", "a", "--rows=1", "--poi", "b"], false),
        (&["--poi="], false),
        (&["--poi=-"], false),
        (&["--poi", "-1"], false),
        (&["--poi"], false),
        (&["--po=a"], false),
        (&["--rowss=1"], false),
        (&["-poi=a"], false),
        (&["poi"], false),
        (&["--=a"], false),
        (&["---poi=a"], false),
    ];

    fn owned(alloc: Global, words: &[&str]) -> Result<Vec<String>, AllocError> {
        let mut all = Vec::new(alloc);
        for word in words {
            all.push(String::from_str(alloc, word)?)?;
        }
        Ok(all)
    }

    #[test]
    fn lines_that_keep_the_rules(rt: HostRuntime) -> Result<(), Fail> {
        assert!(rt; words_keep(&[], "poi"));
        for (line, kept) in LINES {
            let words = owned(rt.alloc(), line)?;
            assert_eq!(rt; words_keep(&words, "poi,rows"), kept, "in {line:?}");
        }
        Ok(())
    }
}
