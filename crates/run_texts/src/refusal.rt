//! What is said of words that are no job.

ghost use Rattle.std.specs.Prelude.{◌≡◌, ◌+◌, ◌≤◌, ◌++◌, length};
ghost use Rattle.run_texts.specs.Refusals as spec;

use crate::line::Line;
use feature_model::fault::MappingFault;
use itoa::Buffer;
use job_words::refusal::Refusal;
use job_words::usage_word::UsageWord;
use mf_base::kind::List;

/// The name of a list of a mapping.
pub fn list_name(list: List) -> &'static str
    ensures name { result.now ≡ spec.list_name list }
    ensures short { length result.now ≤ 3 }
{
    match list {
        List::Poi => "poi",
        List::Way => "way",
    }
}

/// What is said of the fault of a mapping, without its list and its place.
pub fn mapping_code(fault: MappingFault) -> &'static str
    ensures code { result.now ≡ spec.mapping_code fault }
    ensures short { length result.now ≤ 8 }
{
    match fault {
        MappingFault::Memory => "memory",
        MappingFault::Toml => "toml",
        MappingFault::Shape => "shape",
        MappingFault::TooMany { .. } => "too-many",
        MappingFault::Entry { .. } => "entry",
        MappingFault::Kind { .. } => "kind",
        MappingFault::Twice { .. } => "twice",
    }
}

/// Puts the text of a refusal, without the program's name and the line feed: at most 80 bytes.
pub fn put_refusal(line: &mut Line, refusal: Refusal)
    requires room { length line.old + 80 ≤ 320 }
    ensures appends { line.new ≡ line.old ++ spec.refusal_text refusal }
    ensures most { length line.new ≤ length line.old + 80 }
{
    match refusal {
        Refusal::Usage(word) => put_usage(line, word),
        Refusal::Mapping(fault) => put_mapping(line, fault),
        Refusal::MappingLong => line.put(b"mapping too-long"),
        Refusal::Read => line.put(b"read"),
        Refusal::Memory => line.put(b"memory"),
    }
}

/// Puts `usage NAME`.
pub fn put_usage(line: &mut Line, word: UsageWord)
    requires room { length line.old + 20 ≤ 320 }
    ensures appends { line.new ≡ line.old ++ spec.usage_text word }
    ensures most { length line.new ≤ length line.old + 20 }
{
    line.put(b"usage ");
    line.put(word.name().as_bytes());
}

/// Puts `mapping CODE`, `mapping CODE LIST` or `mapping CODE LIST INDEX`.
pub fn put_mapping(line: &mut Line, fault: MappingFault)
    requires room { length line.old + 80 ≤ 320 }
    ensures appends { line.new ≡ line.old ++ spec.mapping_text fault }
    ensures most { length line.new ≤ length line.old + 80 }
{
    line.put(b"mapping ");
    line.put(mapping_code(fault).as_bytes());
    put_place(line, fault);
}

// Puts where in a mapping a fault is.
fn put_place(line: &mut Line, fault: MappingFault)
    requires room { length line.old + 60 ≤ 320 }
    ensures appends { line.new ≡ line.old ++ spec.mapping_place fault }
    ensures most { length line.new ≤ length line.old + 60 }
{
    match fault {
        MappingFault::TooMany { list } => put_list(line, list),
        MappingFault::Entry { list, index }
        | MappingFault::Kind { list, index }
        | MappingFault::Twice { list, index } => put_entry(line, list, index),
        MappingFault::Memory | MappingFault::Toml | MappingFault::Shape => {}
    }
}

// Puts a list behind a blank.
fn put_list(line: &mut Line, list: List)
    requires room { length line.old + 4 ≤ 320 }
    ensures appends { line.new ≡ line.old ++ spec.at_list list }
    ensures most { length line.new ≤ length line.old + 4 }
{
    line.put(b" ");
    line.put(list_name(list).as_bytes());
}

// Puts a list and the place of an entry, each behind a blank.
fn put_entry(line: &mut Line, list: List, index: u32)
    requires room { length line.old + 60 ≤ 320 }
    ensures appends { line.new ≡ line.old ++ spec.at_entry list index }
    ensures most { length line.new ≤ length line.old + 60 }
{
    put_list(line, list);
    line.put(b" ");
    line.put(Buffer::new().format(index).as_bytes());
}

#[cfg(test)]
mod tests {
    use super::*;

    // A refusal, and what is said of it.
    const TEXTS: [(Refusal, &[u8]); 9] = [
        (Refusal::Usage(UsageWord::Words), b"usage words"),
        (Refusal::Usage(UsageWord::CreatedBy), b"usage created-by"),
        (Refusal::Mapping(MappingFault::Toml), b"mapping toml"),
        (
            Refusal::Mapping(MappingFault::TooMany { list: List::Way }),
            b"mapping too-many way",
        ),
        (
            Refusal::Mapping(MappingFault::Kind {
                list: List::Poi,
                index: 0,
            }),
            b"mapping kind poi 0",
        ),
        (
            Refusal::Mapping(MappingFault::Twice {
                list: List::Poi,
                index: 4095,
            }),
            b"mapping twice poi 4095",
        ),
        (Refusal::MappingLong, b"mapping too-long"),
        (Refusal::Read, b"read"),
        (Refusal::Memory, b"memory"),
    ];

    #[test]
    fn texts_of_refusals(rt: HostRuntime) {
        for (refusal, text) in TEXTS {
            let mut line = Line::new();
            put_refusal(&mut line, refusal);
            assert_eq!(rt; line.bytes(), text);
        }
    }
}
