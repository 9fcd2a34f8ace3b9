//! The values of the options.

ghost use Rattle.std.specs.Prelude.{◌≡◌, option_map, IfSome};
ghost use Rattle.map_model.specs.Header.{IsShortText};
ghost use Rattle.mf_base.specs.Numbers.{zoom_number};
ghost use Rattle.job_words.specs.OptionTable as spec;

use arrayvec::ArrayString;
use mf_base::decimal::read_number;
use mf_base::texts::cut_bytes;

/// An input that is generated, by its seed and its size.
#[derive(Clone, Copy, Debug, PartialEq, Eq)]
pub struct MadeInput {
    pub seed: u64,
    pub size: u64,
}

/// Reads the name of a file or folder.
pub(crate) fn read_path(text: &str) -> Option<ArrayString<4095>>
    ensures { option_map (λ t. t.bytes) result ≡ spec.path text.now }
{
    ArrayString::from(text).ok()
}

/// Reads a text of the header.
pub(crate) fn read_head_text(text: &str) -> Option<ArrayString<255>>
    ensures text { option_map (λ t. t.bytes) result ≡ spec.head_text text.now }
    ensures short { IfSome result (λ t. IsShortText t.bytes) }
{
    ArrayString::from(text).ok()
}

/// Reads the row limit.
#[tactic(auto, using(crate::proofs::Bounds::number_fits))]
pub(crate) fn read_row_limit(text: &str) -> Option<u32>
    ensures { result ≡ spec.row_limit text.now }
{
    let rows = read_number(text.as_bytes(), 64, 16777216)?;
    Some(rows as u32)
}

/// Reads how many workers there are.
#[tactic(auto, using(crate::proofs::Bounds::number_fits))]
pub(crate) fn read_worker_count(text: &str) -> Option<u32>
    ensures { result ≡ spec.worker_count text.now }
{
    let workers = read_number(text.as_bytes(), 1, 64)?;
    Some(workers as u32)
}

/// Reads a date, in milliseconds since 1970.
pub(crate) fn read_date(text: &str) -> Option<u64>
    ensures { result ≡ spec.date text.now }
{
    read_number(text.as_bytes(), 0, 253402300799999)
}

/// Reads a zoom level.
#[tactic(auto, using(crate::proofs::Bounds::number_fits))]
pub(crate) fn read_start_zoom(text: &str) -> Option<u8>
    ensures { result ≡ zoom_number text.now }
{
    let level = read_number(text.as_bytes(), 0, 21)?;
    Some(level as u8)
}

/// Reads a generated input, `SEED,SIZE`.
#[tactic(auto, unfolding(crate::specs::OptionTable::made_input))]
pub(crate) fn read_made_input(text: &str) -> Option<MadeInput>
    ensures { result ≡ spec.made_input text.now }
{
    let (seed, size) = cut_bytes(text.as_bytes(), b',')?;
    input_of(seed, size)
}

// The input of the texts of a seed and a size.
fn input_of(seed: &[u8], size: &[u8]) -> Option<MadeInput>
    ensures { result ≡ spec.input_of seed.now size.now }
{
    let seed = read_number(seed, 0, u64::MAX)?;
    let size = read_number(size, 1, 1000000)?;
    Some(MadeInput { seed, size })
}
