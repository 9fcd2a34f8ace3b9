//! What an entry reads of a value.

ghost use Rattle.std.specs.Prelude.{◌≡◌, ◌≤ℤ◌, option_map, pos, negsuc, IfSome};
ghost use Rattle.feature_model.specs.Mapping as model;
ghost use Rattle.feature_model.specs.Mapping.{value_kind as kind_of, number_within};
ghost use Rattle.mf_base.specs.Tags.{present_text};
ghost use Rattle.tag_mapping.specs.Choices.{value_told};

use mf_base::decimal::read_whole;
use mf_base::kept::KeptValue;

/// What is kept of a value by an entry that has `wanted` as its own, where it matches.
pub(crate) fn read_by(wanted: &[u8], value: &[u8]) -> Option<KeptValue>
    ensures { result ≡ option_map value_told (model.read_by (kind_of wanted.now) wanted.now value.now) }
{
    match wanted {
        b"%b" => byte_in(value),
        b"%h" => short_in(value),
        b"%i" => int_in(value),
        b"%s" => text_in(value),
        plain if plain == value => Some(KeptValue::Plain),
        _ => None,
    }
}

// A number of one signed byte.
fn byte_in(value: &[u8]) -> Option<KeptValue>
    ensures { result
        ≡ option_map value_told (option_map model.KeptValue.byte (number_within (negsuc 127) (pos 127) value.now)) }
{
    let number = number_in(value, -128, 127)?;
    Some(KeptValue::Byte(number as i8))
}

// A number of two signed bytes.
fn short_in(value: &[u8]) -> Option<KeptValue>
    ensures { result
        ≡ option_map value_told
        (option_map model.KeptValue.short (number_within (negsuc 32767) (pos 32767) value.now)) }
{
    let number = number_in(value, -32768, 32767)?;
    Some(KeptValue::Short(number as i16))
}

// A number of four signed bytes.
fn int_in(value: &[u8]) -> Option<KeptValue>
    ensures { result
        ≡ option_map value_told
        (option_map model.KeptValue.int (number_within (negsuc 2147483647) (pos 2147483647) value.now)) }
{
    let number = number_in(value, -2147483648, 2147483647)?;
    Some(KeptValue::Int(number as i32))
}

// A readable whole number in a range.
fn number_in(value: &[u8], least: i64, greatest: i64) -> Option<i64>
    ensures number { result ≡ number_within least greatest value.now }
    ensures within { IfSome result (λ z. (least ≤ℤ z) × (z ≤ℤ greatest)) }
{
    let number = read_whole(value)?;
    if number < least || greatest < number {
        return None;
    }
    Some(number)
}

// A present text, by its length.
#[tactic(auto, unfolding(mf_base::specs::Tags::present_text))]
fn text_in(value: &[u8]) -> Option<KeptValue>
    ensures { result ≡ option_map value_told (option_map model.KeptValue.text (present_text value.now)) }
{
    if value.is_empty() || 1020 < value.len() {
        return None;
    }
    Some(KeptValue::Text {
        len: value.len() as u16,
    })
}
