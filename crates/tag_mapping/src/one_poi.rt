//! A mapping of one entry for nodes, that is read from a word.

ghost use Rattle.std.specs.Prelude.{◌≡◌, option_map, option_and_then, is_ok, IfSome, IfOk, IfErr, Ok};
ghost use Rattle.feature_model.specs.Entries.{IsEntryText};
ghost use Rattle.feature_model.specs.Entries as rules;
ghost use Rattle.tag_mapping.specs.Shown.{told_shown, of_a_zoom, IsFaultOf};

use crate::MappingFault;
use crate::entries::Entries;
use crate::mapping::Mapping;
use crate::rules::{keeps_entry_rule, keeps_kind_rule};
use crate::told::{Told, known_text};
use mf_base::decimal::read_number;
use mf_base::kind::List;
use mf_base::texts::{cut, cut_last};
use std::alloc::Global;

/// Reads `KEY=VALUE@ZOOM`: the key ends before the first `=`, and the zoom level begins after the last `@`. The fault
/// is that
/// of the entry, as in a file, or memory is wanting.
pub fn one_poi(alloc: Global, word: &str) -> Result<Mapping, MappingFault>
    ensures mapping { IfOk result (λ m. rules.one_poi word.now ≡ Ok m) }
    ensures refused { IfErr result (IsFaultOf (rules.one_poi word.now)) }
{
    let mut poi = Entries::new(alloc);
    poi.add(alloc, List::Poi, told_poi(word))?;
    Ok(Mapping::new(poi, Entries::new(alloc)))
}

/// Whether `one_poi` reads a word, where there is memory.
pub fn is_poi(word: &str) -> bool
    ensures { result ≡ is_ok (rules.one_poi word.now) }
{
    match told_poi(word) {
        Some(told) => keeps_entry_rule(List::Poi, &told) && keeps_kind_rule(&told),
        None => false,
    }
}

// What the word tells, where its zoom level is one.
fn told_poi(word: &str) -> Option<Told<'_>>
    ensures told { option_map told_shown result ≡ option_and_then of_a_zoom (rules.told_poi word.now) }
    ensures text { IfSome result (λ told. IsEntryText (told_shown told)) }
{
    let (key, behind) = cut(word, '=')?;
    let (value, digits) = cut_last(behind, '@')?;
    let zoom = read_number(digits.as_bytes(), 0, 21)?;
    known_text(key);
    known_text(value);
    Some(Told {
        key,
        value,
        zoom: zoom as u8,
        water: false,
        label: false,
    })
}

#[cfg(test)]
mod tests {
    use super::*;

    const ENTRY: MappingFault = MappingFault::Entry {
        list: List::Poi,
        index: 0,
    };

    const KIND: MappingFault = MappingFault::Kind {
        list: List::Poi,
        index: 0,
    };

    // A word, and why it is no mapping.
    const WORDS: [(&str, Option<MappingFault>); 16] = [
        ("amenity=bench@5", None),
        ("a=b=@c@021", None),
        ("a=%s@00000000000000000005", None),
        ("a=b@000000000000000000005", Some(ENTRY)),
        ("", Some(ENTRY)),
        ("a", Some(ENTRY)),
        ("a@5", Some(ENTRY)),
        ("a@5=b", Some(ENTRY)),
        ("=b@5", Some(ENTRY)),
        ("a=@5", Some(ENTRY)),
        ("a=b@", Some(ENTRY)),
        ("a=%f@22", Some(ENTRY)),
        ("a=b@-0", Some(ENTRY)),
        ("a=%f@5", Some(KIND)),
        ("a=%@5", Some(KIND)),
        ("x:colour=%i@5", Some(KIND)),
    ];

    #[test]
    fn words_and_their_faults(rt: HostRuntime) {
        for (word, fault) in WORDS {
            assert_eq!(rt; one_poi(rt.alloc(), word).err(), fault, "in {word}");
            assert_eq!(rt; is_poi(word), fault.is_none(), "in {word}");
        }
    }
}
