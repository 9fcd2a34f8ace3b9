//! Which words are right.

ghost use Rattle.std.specs.Prelude.{◌≡◌, None, find, map, string_bytes, is_some, IsTrue};
ghost use Rattle.mf_base.specs.Words.{options_of};
ghost use Rattle.job_words.specs.OptionTable.{row, options};
ghost use Rattle.job_words.specs.Usage as spec;

use crate::usage_word::UsageWord;
use crate::values::{
    read_date, read_head_text, read_made_input, read_path, read_row_limit, read_start_zoom,
    read_worker_count,
};
use mf_base::place_words::{read_place, read_rect};
use mf_base::words::{word_of, words_keep};
use tag_mapping::one_poi::is_poi;
use tile_assign::interval_words::read_intervals;

// The options, in the order in which they are checked.
const OPTIONS: [UsageWord; 14] = [
    UsageWord::Mapping,
    UsageWord::Poi,
    UsageWord::Intervals,
    UsageWord::Box,
    UsageWord::Rows,
    UsageWord::Workers,
    UsageWord::Date,
    UsageWord::Start,
    UsageWord::StartZoom,
    UsageWord::Language,
    UsageWord::Comment,
    UsageWord::CreatedBy,
    UsageWord::Spill,
    UsageWord::Make,
];

// Their names.
const NAMES: &str =
    "mapping,poi,intervals,box,rows,workers,date,start,start-zoom,language,comment,created-by,spill,make";

/// What is wrong with the words: that they are no list of options, or the first option that breaks its rule. Where it
/// answers None they are right.
pub fn usage(words: &[String]) -> Option<UsageWord>
    ensures usage { result ≡ spec.usage (map string_bytes words.now) }
    ensures options { result ≡ None → IsTrue (is_some (options_of (map string_bytes words.now))) }
{
    if words_keep(words, NAMES) {
        first_broken(words)
    } else {
        Some(UsageWord::Words)
    }
}

// The first option that breaks its rule.
fn first_broken(words: &[String]) -> Option<UsageWord>
    requires { IsTrue (is_some (options_of (map string_bytes words.now))) }
    ensures { result ≡ find (spec.breaks (map string_bytes words.now)) options }
{
    OPTIONS
        .iter()
        .copied()
        .find(|option| breaks_rule(words, *option))
}

// Whether an option breaks its rule.
fn breaks_rule(words: &[String], option: UsageWord) -> bool
    requires { IsTrue (is_some (options_of (map string_bytes words.now))) }
    ensures { result ≡ spec.breaks (map string_bytes words.now) option }
{
    match option {
        UsageWord::Mapping => !has_one_mapping(words) || refuses(words, option),
        _ => refuses(words, option),
    }
}

// Whether just one of `--mapping` and `--poi` is given.
fn has_one_mapping(words: &[String]) -> bool
    requires { IsTrue (is_some (options_of (map string_bytes words.now))) }
    ensures { result ≡ spec.has_one_mapping (map string_bytes words.now) }
{
    is_given(words, UsageWord::Mapping) != is_given(words, UsageWord::Poi)
}

// Whether an option is given.
fn is_given(words: &[String], option: UsageWord) -> bool
    requires { IsTrue (is_some (options_of (map string_bytes words.now))) }
    ensures { result ≡ spec.is_given (map string_bytes words.now) option }
{
    word_of(words, option.name()).is_some()
}

// Whether an option is given with a value that is not right.
fn refuses(words: &[String], option: UsageWord) -> bool
    requires { IsTrue (is_some (options_of (map string_bytes words.now))) }
    ensures { result ≡ spec.refuses option (spec.value_of (map string_bytes words.now) option) }
{
    match word_of(words, option.name()) {
        Some(value) => !accepts(option, value),
        None => false,
    }
}

// Whether a value is right for an option.
fn accepts(option: UsageWord, value: &str) -> bool
    ensures { result ≡ (row option).accepts value.now }
{
    match option {
        UsageWord::Words => false,
        UsageWord::Mapping | UsageWord::Spill => read_path(value).is_some(),
        UsageWord::Poi => is_poi(value),
        UsageWord::Intervals => read_intervals(value).is_some(),
        UsageWord::Box => read_rect(value.as_bytes()).is_some(),
        UsageWord::Rows => read_row_limit(value).is_some(),
        UsageWord::Workers => read_worker_count(value).is_some(),
        UsageWord::Date => read_date(value).is_some(),
        UsageWord::Start => read_place(value.as_bytes()).is_some(),
        UsageWord::StartZoom => read_start_zoom(value).is_some(),
        UsageWord::Language | UsageWord::Comment | UsageWord::CreatedBy => {
            read_head_text(value).is_some()
        }
        UsageWord::Make => read_made_input(value).is_some(),
    }
}

#[cfg(test)]
mod tests {
    use super::*;
    use std::alloc::{AllocError, Global};
    use std::test::Fail;

    // What stands before the words of a row, and what is wrong with them all: an option by its value, at its bounds.
    const ROWS: [(&[&str], Option<UsageWord>); 44] = [
        (&[], Some(UsageWord::Mapping)),
        (&["--poi=a=b@5"], None),
        (&["--poi", "a=b@5", "--"], None),
        (&["--mapping=m"], None),
        (&["--mapping=m", "--poi=a=b@5"], Some(UsageWord::Mapping)),
        (&["--poi=a", "--mapping=m"], Some(UsageWord::Mapping)),
        (&["--poi=", "--mapping=m"], Some(UsageWord::Words)),
        (&["--poi=a=b@5", "--poi=a=b@5"], Some(UsageWord::Words)),
        (&["--poi=a=b@5", "--debug=yes"], Some(UsageWord::Words)),
        (&["--poi=a=b@5", "--", "--"], Some(UsageWord::Words)),
        (&["--poi", "--"], Some(UsageWord::Words)),
        (&["--poi=a=%f@5"], Some(UsageWord::Poi)),
        (&["--poi=a=b@22"], Some(UsageWord::Poi)),
        (&["--poi=a=%f@5", "--rows=63"], Some(UsageWord::Poi)),
        (&["--rows=63", "--poi=a=%f@5"], Some(UsageWord::Poi)),
        (&["--rows=63"], Some(UsageWord::Mapping)),
        (&["--poi=a=b@5", "--rows=63"], Some(UsageWord::Rows)),
        (&["--poi=a=b@5", "--rows=64"], None),
        (&["--poi=a=b@5", "--rows=16777216"], None),
        (&["--poi=a=b@5", "--rows=16777217"], Some(UsageWord::Rows)),
        (&["--poi=a=b@5", "--workers=0"], Some(UsageWord::Workers)),
        (&["--poi=a=b@5", "--workers=1"], None),
        (&["--poi=a=b@5", "--workers=64"], None),
        (&["--poi=a=b@5", "--workers=65"], Some(UsageWord::Workers)),
        (
            &["--poi=a=b@5", "--intervals=0:1:7"],
            Some(UsageWord::Intervals),
        ),
        (&["--poi=a=b@5", "--intervals=0:0:7"], None),
        (&["--poi=a=b@5", "--box=0,0,10,10"], None),
        (&["--poi=a=b@5", "--box=0,0,10,-10"], Some(UsageWord::Box)),
        (
            &["--poi=a=b@5", "--box", "-1,0,10,10"],
            Some(UsageWord::Words),
        ),
        (&["--poi=a=b@5", "--date=253402300799999"], None),
        (
            &["--poi=a=b@5", "--date=253402300800000"],
            Some(UsageWord::Date),
        ),
        (&["--poi=a=b@5", "--date=-0"], Some(UsageWord::Date)),
        (&["--poi=a=b@5", "--start=90000000,-180000000"], None),
        (
            &["--poi=a=b@5", "--start=90000001,0"],
            Some(UsageWord::Start),
        ),
        (&["--poi=a=b@5", "--start-zoom=21"], None),
        (
            &["--poi=a=b@5", "--start-zoom=22"],
            Some(UsageWord::StartZoom),
        ),
        (&["--poi=a=b@5", "--language=en"], None),
        (
            &[
                "--poi=a=b@5",
                "--spill=here",
                "--comment=c",
                "--created-by=d",
            ],
            None,
        ),
        (
            &["--poi=a=b@5", "--make=18446744073709551615,1000000"],
            None,
        ),
        (
            &["--poi=a=b@5", "--make=18446744073709551616,1"],
            Some(UsageWord::Make),
        ),
        (&["--poi=a=b@5", "--make=7,0"], Some(UsageWord::Make)),
        (&["--poi=a=b@5", "--make=7,1000001"], Some(UsageWord::Make)),
        (&["--poi=a=b@5", "--make=7"], Some(UsageWord::Make)),
        (
            &["--poi=a=b@5", "--make=0", "--box=0"],
            Some(UsageWord::Box),
        ),
    ];

    fn owned(alloc: Global, words: &[&str]) -> Result<Vec<String>, AllocError> {
        let mut all = Vec::new(alloc);
        for word in words {
            all.push(String::from_str(alloc, word)?)?;
        }
        Ok(all)
    }

    #[test]
    fn first_broken_rules(rt: HostRuntime) -> Result<(), Fail> {
        for (words, want) in ROWS {
            let words = owned(rt.alloc(), words)?;
            assert_eq!(rt; usage(&words), want, "in {words:?}");
        }
        Ok(())
    }
}
