//! What words set.

ghost use Rattle.std.specs.Prelude.{◌≡◌, ◌<◌, ◌≤◌, ◌^◌, map, string_bytes, is_some, IfSome, IsTrue, option_map};
ghost use Rattle.map_model.specs.Header.{IsShortText};
ghost use Rattle.mf_base.specs.Numbers.{zoom_number};
ghost use Rattle.mf_base.specs.Words.{options_of};
ghost use Rattle.mf_base.specs.PlaceWords as places;
ghost use Rattle.map_header.specs.Shown as header;
ghost use Rattle.map_model.specs.IntervalWords as intervals;
ghost use Rattle.job_words.specs.OptionTable as table;
ghost use Rattle.job_words.specs.Settings as spec;
ghost use Rattle.job_words.specs.Shown.{settings_of};
ghost use Rattle.job_words.specs.Usage.{value_of};

use crate::usage_word::UsageWord;
use crate::values::{
    MadeInput, read_date, read_head_text, read_made_input, read_path, read_row_limit,
    read_start_zoom, read_worker_count,
};
use arrayvec::{ArrayString, ArrayVec};
use map_header::head_settings::HeadSettings;
use mf_base::place::{Place, Rect};
use mf_base::place_words::{read_place, read_rect};
use mf_base::tile::Interval;
use mf_base::words::word_of;
use tag_mapping::mapping::Mapping;
use tile_assign::interval_words::read_intervals;

// How many rows a desk has room for, and how many workers there are, where the words do not say it.
const ROWS: u32 = 1048576;

const WORKERS: u32 = 4;

// The folder of the store, where the words name none.
const FOLDER: &str = "mfwrite.spill";

// The intervals of a map, where the words tell none.
const INTERVALS: [Interval; 3] = [
    Interval {
        base: 5,
        min: 0,
        max: 7,
    },
    Interval {
        base: 10,
        min: 8,
        max: 11,
    },
    Interval {
        base: 14,
        min: 12,
        max: 21,
    },
];

/// What the words say of a job.
#[derive(Drop)]
pub struct Settings {
    pub head: HeadSettings,
    pub mapping: Mapping,
    /// The box of the map.
    pub bounds: Option<Rect>,
    /// How many rows a desk has room for.
    pub rows: u32,
    pub workers: u32,
    /// The folder of the store of parts.
    pub folder: ArrayString<4095>,
}

/// The settings that words give with a mapping. `now` is what the clock shows, in milliseconds since 1970.
pub fn read_settings(words: &[String], mapping: Mapping, now: u64) -> Settings
    requires options { IsTrue (is_some (options_of (map string_bytes words.now))) }
    requires now { now < 2 ^ 63 }
    ensures settings { settings_of result ≡ spec.settings (map string_bytes words.now) mapping now }
    ensures job { spec.IsJob (settings_of result) }
{
    Settings {
        head: head_settings(words, now),
        mapping,
        bounds: bounds(words),
        rows: rows(words),
        workers: workers(words),
        folder: folder(words),
    }
}

/// The input that is generated, where the words ask for one.
pub fn made_input(words: &[String]) -> Option<MadeInput>
    requires { IsTrue (is_some (options_of (map string_bytes words.now))) }
    ensures made { result ≡ spec.value_by table.made_input (map string_bytes words.now) UsageWord.Make }
    ensures size { IfSome result (λ made. (1 ≤ made.size) × (made.size ≤ 1000000)) }
{
    read_made_input(word_of(words, UsageWord::Make.name())?)
}

// What the words say of the header.
fn head_settings(words: &[String], now: u64) -> HeadSettings
    requires { IsTrue (is_some (options_of (map string_bytes words.now))) }
    ensures settings { header.settings_of result ≡ spec.head_settings (map string_bytes words.now) now }
    ensures texts { spec.HasTexts (header.settings_of result) }
{
    HeadSettings {
        date: date(words).unwrap_or(now),
        start: start(words),
        start_zoom: start_zoom(words),
        language: head_text(words, UsageWord::Language),
        comment: head_text(words, UsageWord::Comment),
        created_by: head_text(words, UsageWord::CreatedBy),
        intervals: intervals(words),
    }
}

fn date(words: &[String]) -> Option<u64>
    requires { IsTrue (is_some (options_of (map string_bytes words.now))) }
    ensures { result ≡ spec.value_by table.date (map string_bytes words.now) UsageWord.Date }
{
    read_date(word_of(words, UsageWord::Date.name())?)
}

fn start(words: &[String]) -> Option<Place>
    requires { IsTrue (is_some (options_of (map string_bytes words.now))) }
    ensures { result ≡ spec.value_by places.read_place (map string_bytes words.now) UsageWord.Start }
{
    read_place(word_of(words, UsageWord::Start.name())?.as_bytes())
}

fn start_zoom(words: &[String]) -> Option<u8>
    requires { IsTrue (is_some (options_of (map string_bytes words.now))) }
    ensures { result ≡ spec.value_by zoom_number (map string_bytes words.now) UsageWord.StartZoom }
{
    read_start_zoom(word_of(words, UsageWord::StartZoom.name())?)
}

fn head_text(words: &[String], option: UsageWord) -> Option<ArrayString<255>>
    requires { IsTrue (is_some (options_of (map string_bytes words.now))) }
    ensures text { option_map (λ t. t.bytes) result ≡
        spec.value_by table.head_text (map string_bytes words.now) option }
    ensures short { IfSome result (λ t. IsShortText t.bytes) }
{
    read_head_text(word_of(words, option.name())?)
}

fn intervals(words: &[String]) -> ArrayVec<Interval, 8>
    requires { IsTrue (is_some (options_of (map string_bytes words.now))) }
    ensures { result.items ≡
        spec.value_or intervals.default_intervals intervals.read_intervals (map string_bytes words.now)
        UsageWord.Intervals }
{
    match given_intervals(words) {
        Some(all) => all,
        None => default_intervals(),
    }
}

fn given_intervals(words: &[String]) -> Option<ArrayVec<Interval, 8>>
    requires { IsTrue (is_some (options_of (map string_bytes words.now))) }
    ensures { option_map (λ all. all.items) result ≡
        spec.value_by intervals.read_intervals (map string_bytes words.now) UsageWord.Intervals }
{
    read_intervals(word_of(words, UsageWord::Intervals.name())?)
}

fn default_intervals() -> ArrayVec<Interval, 8>
    ensures { result.items ≡ intervals.default_intervals }
{
    let mut all = ArrayVec::new();
    all.push(INTERVALS[0]);
    all.push(INTERVALS[1]);
    all.push(INTERVALS[2]);
    all
}

fn bounds(words: &[String]) -> Option<Rect>
    requires { IsTrue (is_some (options_of (map string_bytes words.now))) }
    ensures { result ≡ spec.value_by places.read_rect (map string_bytes words.now) UsageWord.Box }
{
    read_rect(word_of(words, UsageWord::Box.name())?.as_bytes())
}

fn rows(words: &[String]) -> u32
    requires { IsTrue (is_some (options_of (map string_bytes words.now))) }
    ensures { result ≡ spec.value_or table.default_rows table.row_limit (map string_bytes words.now) UsageWord.Rows }
{
    match word_of(words, UsageWord::Rows.name()) {
        Some(value) => read_row_limit(value).unwrap_or(ROWS),
        None => ROWS,
    }
}

fn workers(words: &[String]) -> u32
    requires { IsTrue (is_some (options_of (map string_bytes words.now))) }
    ensures { result ≡
        spec.value_or table.default_workers table.worker_count (map string_bytes words.now) UsageWord.Workers }
{
    match word_of(words, UsageWord::Workers.name()) {
        Some(value) => read_worker_count(value).unwrap_or(WORKERS),
        None => WORKERS,
    }
}

fn folder(words: &[String]) -> ArrayString<4095>
    requires { IsTrue (is_some (options_of (map string_bytes words.now))) }
    ensures { result.bytes ≡
        spec.value_or table.default_folder table.path (map string_bytes words.now) UsageWord.Spill }
{
    match given_folder(words) {
        Some(folder) => folder,
        None => default_folder(),
    }
}

fn given_folder(words: &[String]) -> Option<ArrayString<4095>>
    requires { IsTrue (is_some (options_of (map string_bytes words.now))) }
    ensures { option_map (λ t. t.bytes) result ≡ spec.value_by table.path (map string_bytes words.now) UsageWord.Spill }
{
    read_path(word_of(words, UsageWord::Spill.name())?)
}

fn default_folder() -> ArrayString<4095>
    ensures { result.bytes ≡ table.default_folder }
{
    let mut folder = ArrayString::new();
    folder.push_str(FOLDER);
    folder
}
