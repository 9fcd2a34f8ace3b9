//! A job that words ask for.

ghost use Rattle.std.specs.Prelude.{◌≡◌, ◌≢◌, ◌+◌, ◌<◌, ◌≤◌, ◌↔◌, ◌^◌, None, Some, Err, IfOk, IfSome, OnErr, OnOk};
ghost use Rattle.std.specs.Prelude.{length, take};
ghost use Rattle.std.specs.Prelude.{map, string_bytes, is_some, IsTrue};
ghost use Rattle.feature_model.specs.Entries as entries;
ghost use Rattle.mf_base.specs.Words.{options_of};
ghost use Rattle.mf_edge.specs.Device.{CountsOne};
ghost use Rattle.mf_edge.specs.Shelves.{CanOpen};
ghost use Rattle.job_words.specs.Reading.{IsFrontOf, IsOrMemory, IsToldBy, LeavesShelf};
ghost use Rattle.job_words.specs.Settings as spec;
ghost use Rattle.job_words.specs.Shown.{settings_of, told_by};
ghost use Rattle.job_words.specs.Usage as rules;
ghost use Rattle.job_words.specs.Usage.{value_of};

use crate::mapping_file::read_up_to;
use crate::refusal::Refusal;
use crate::settings::{Settings, made_input, read_settings};
use crate::usage::usage;
use crate::usage_word::UsageWord;
use crate::values::MadeInput;
use mf_base::words::word_of;
use mf_edge::{Failed, Shelf};
use std::alloc::{AllocError, Global};
use tag_mapping::MappingFault;
use tag_mapping::file::read_mapping;
use tag_mapping::mapping::Mapping;
use tag_mapping::one_poi::one_poi;

// The file of a mapping has at most this many bytes.
const FILE_LIMIT: usize = 524288;

/// What words ask for: settings, and the input that is generated, where one is.
#[derive(Drop)]
pub struct JobWords {
    pub settings: Settings,
    pub made: Option<MadeInput>,
}

/// Reads what the words ask for. `now` is what the clock shows, in milliseconds since 1970. The file that `--mapping`
/// names is read from the shelf, which has no name yet.
///
/// The words are looked at first, then the file is read, and then its mapping. Memory may be wanting at any time after
/// the words.
pub fn read_job<H: Shelf>(
    alloc: Global,
    words: &[String],
    shelf: &mut H,
    now: u64,
) -> Result<JobWords, Refusal>
    requires now { now < 2 ^ 63 }
    requires unnamed { (H.state shelf.old).name ≡ None }
    ensures usage { (word : UsageWord)
        → (result ≡ Err (Refusal.Usage word)) ↔ (rules.usage (map string_bytes words.now) ≡ Some word) }
    ensures asked { IsToldBy (λ bytes. spec.job_of (map string_bytes words.now) bytes now)
        (H.state shelf.old) (told_by result) }
    ensures same { (word : UsageWord) → result ≡ Err (Refusal.Usage word) → H.state shelf.new ≡ H.state shelf.old }
    ensures leaves { rules.usage (map string_bytes words.now) ≡ None
        → LeavesShelf (value_of (map string_bytes words.now) UsageWord.Mapping)
        (H.state shelf.old) result (H.state shelf.new) }
    ensures job { IfOk result (λ job. spec.IsJob (settings_of job.settings)) }
    ensures size { IfOk result (λ job. IfSome job.made (λ made. (1 ≤ made.size) × (made.size ≤ 1000000))) }
    ensures other { result ≢ Err (Refusal.Mapping MappingFault.Memory) }
{
    if let Some(word) = usage(words) {
        return Err(Refusal::Usage(word));
    }
    let mapping = read_asked_mapping(alloc, words, shelf)?;
    Ok(JobWords {
        settings: read_settings(words, mapping, now),
        made: made_input(words),
    })
}

// The mapping that right words ask for.
fn read_asked_mapping<H: Shelf>(
    alloc: Global,
    words: &[String],
    shelf: &mut H,
) -> Result<Mapping, Refusal>
    requires right { rules.usage (map string_bytes words.now) ≡ None }
    requires options { IsTrue (is_some (options_of (map string_bytes words.now))) }
    requires unnamed { (H.state shelf.old).name ≡ None }
    ensures told { IsToldBy (spec.mapping_or (value_of (map string_bytes words.now) UsageWord.Poi))
        (H.state shelf.old) result }
    ensures leaves { LeavesShelf (value_of (map string_bytes words.now) UsageWord.Mapping)
        (H.state shelf.old) result (H.state shelf.new) }
    ensures other { result ≢ Err (Refusal.Mapping MappingFault.Memory) }
{
    match word_of(words, UsageWord::Poi.name()) {
        Some(word) => read_poi(alloc, word),
        None => read_file_mapping(alloc, file_name(words), shelf),
    }
}

// The name of the file of the mapping, where there is no `--poi`.
fn file_name(words: &[String]) -> &str
    requires right { rules.usage (map string_bytes words.now) ≡ None }
    requires options { IsTrue (is_some (options_of (map string_bytes words.now))) }
    requires no_poi { value_of (map string_bytes words.now) UsageWord.Poi ≡ None }
    ensures name { value_of (map string_bytes words.now) UsageWord.Mapping ≡ Some result.now }
    ensures short { length result.now ≤ 4095 }
{
    word_of(words, UsageWord::Mapping.name()).unwrap()
}

// The mapping of one entry.
fn read_poi(alloc: Global, word: &str) -> Result<Mapping, Refusal>
    ensures told { IsOrMemory (spec.or_refused (entries.one_poi word.now)) result }
    ensures no_read { result ≢ Err Refusal.Read }
    ensures other { result ≢ Err (Refusal.Mapping MappingFault.Memory) }
{
    match one_poi(alloc, word) {
        Ok(mapping) => Ok(mapping),
        Err(MappingFault::Memory) => Err(Refusal::Memory),
        Err(fault) => Err(Refusal::Mapping(fault)),
    }
}

// The mapping of the file of this name.
fn read_file_mapping<H: Shelf>(alloc: Global, name: &str, shelf: &mut H) -> Result<Mapping, Refusal>
    requires short { length name.now ≤ 4095 }
    requires unnamed { (H.state shelf.old).name ≡ None }
    ensures told { IsToldBy spec.mapping_of_file (H.state shelf.old) result }
    ensures leaves { LeavesShelf (Some name.now) (H.state shelf.old) result (H.state shelf.new) }
    ensures other { result ≢ Err (Refusal.Mapping MappingFault.Memory) }
{
    let Ok(mut room) = file_room(alloc) else {
        return Err(Refusal::Memory);
    };
    read_into(alloc, name, shelf, &mut room)
}

// The mapping of the file of this name, whose bytes are read into `room`.
fn read_into<H: Shelf>(
    alloc: Global,
    name: &str,
    shelf: &mut H,
    room: &mut [u8],
) -> Result<Mapping, Refusal>
    requires short { length name.now ≤ 4095 }
    requires unnamed { (H.state shelf.old).name ≡ None }
    requires room { length room.old ≡ spec.file_limit + 1 }
    ensures told { IsToldBy spec.mapping_of_file (H.state shelf.old) result }
    ensures leaves { LeavesShelf (Some name.now) (H.state shelf.old) result (H.state shelf.new) }
    ensures other { result ≢ Err (Refusal.Mapping MappingFault.Memory) }
{
    match read_named(name, shelf, room) {
        Ok(count) => read_mapping_of(alloc, &room[..count]),
        Err(Failed) => Err(Refusal::Read),
    }
}

// Room for a file and one more byte.
fn file_room(alloc: Global) -> Result<Vec<u8>, AllocError>
    ensures { IfOk result (λ room. length room.items ≡ spec.file_limit + 1) }
{
    vec![in alloc; 0; FILE_LIMIT + 1]
}

// Reads the file of this name until `room` is full or nothing is left, and answers how many bytes it has read.
fn read_named<H: Shelf>(name: &str, shelf: &mut H, room: &mut [u8]) -> Result<usize, Failed>
    requires { CanOpen (H.state shelf.old) name.now }
    ensures within { IfOk result (λ n. n ≤ length room.new) }
    ensures front { IfOk result (λ n. IsFrontOf (H.state shelf.old).file (length room.old) (take n room.new)) }
    ensures room { length room.new ≡ length room.old }
    ensures failed { OnErr result (CountsOne (H.state shelf.old).faults (H.state shelf.new).faults) }
    ensures same_faults { OnOk result ((H.state shelf.new).faults ≡ (H.state shelf.old).faults) }
    ensures name { (H.state shelf.new).name ≡ Some name.now }
    ensures file { (H.state shelf.new).file ≡ (H.state shelf.old).file }
{
    shelf.open_name(name)?;
    read_up_to(shelf, room)
}

// The mapping of the first bytes of a file. Those above the limit are not looked at.
fn read_mapping_of(alloc: Global, bytes: &[u8]) -> Result<Mapping, Refusal>
    ensures told { IsOrMemory (spec.mapping_of_file bytes.now) result }
    ensures no_read { result ≢ Err Refusal.Read }
    ensures other { result ≢ Err (Refusal.Mapping MappingFault.Memory) }
{
    if FILE_LIMIT < bytes.len() {
        return Err(Refusal::MappingLong);
    }
    match read_mapping(alloc, bytes) {
        Ok(mapping) => Ok(mapping),
        Err(MappingFault::Memory) => Err(Refusal::Memory),
        Err(fault) => Err(Refusal::Mapping(fault)),
    }
}
