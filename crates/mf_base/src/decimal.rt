//! Numbers in decimal digits: whole numbers and elevations in tags, and whole numbers of words.

ghost use Rattle.std.specs.Prelude.{◌≡◌, ◌+◌, ◌-◌, ◌*◌, ◌^◌, ◌<◌, ◌≤◌, pos, ◌<ℤ◌, IsTrue, option_map, option_and_then};
ghost use Rattle.std.specs.Prelude.{IfSome, drop, if◌then◌else◌};
ghost use Rattle.std.specs.Option.{SomeIff};
ghost use Rattle.std.specs.Char.{is_ascii_digit};
ghost use Rattle.std.specs.List.{list_all};
ghost use Rattle.mf_base.specs.Ranges.{within, within_numbers};
ghost use Rattle.mf_base.specs.Numbers.{whole_number, height, metres, number_in, whole_in, digits_up_to, starts};
ghost use Rattle.mf_base.specs.Numbers.{without, minus, plus, under_sign};

use crate::texts::cut_bytes;

/// Reads a readable whole number of a tag: an optional `-`, and then one to ten digits.
pub fn read_whole(bytes: &[u8]) -> Option<i64>
    ensures { result ≡ whole_number bytes.now }
{
    let (negative, digits) = without_minus(bytes);
    let magnitude = short_number(digits, 10)?;
    Some(with_sign(negative, magnitude))
}

/// Reads an elevation in whole metres: an optional `-` or `+` and one to five digits. A dot and the digits behind it
/// are
/// dropped.
pub fn read_height(bytes: &[u8]) -> Option<i32>
    ensures { result ≡ height bytes.now }
{
    let (negative, text) = without_sign(bytes);
    let metres = metres_of(text)?;
    Some(with_sign(negative, metres) as i32)
}

/// Reads a whole number of the words, of one to twenty digits.
pub fn read_number(text: &[u8], least: u64, greatest: u64) -> Option<u64>
    ensures { result ≡ number_in least greatest text.now }
{
    let number = number_of(text, 20)?;
    if number < least || greatest < number {
        return None;
    }
    Some(number)
}

/// Reads a whole number of the words, of one to twenty digits with an optional `-` before them. Negative numbers are in
/// the
/// range.
pub fn read_signed(text: &[u8], least: i32, greatest: i32) -> Option<i32>
    requires { least <ℤ pos 0 }
    ensures { result ≡ whole_in least greatest text.now }
{
    let (negative, digits) = without_minus(text);
    let magnitude = number_of(digits, 20)?;
    if magnitude >= 1 << 63 {
        return None;
    }
    in_range(with_sign(negative, magnitude), least, greatest)
}

// Whether the text begins with `-`, and what stands behind it.
fn without_minus(text: &[u8]) -> (bool, &[u8])
    ensures sign { result.0 ≡ starts minus text.now }
    ensures rest { result.1.now ≡ without minus text.now }
{
    match text {
        [b'-', digits @ ..] => (true, digits),
        digits => (false, digits),
    }
}

// Whether the text begins with `-`, and what stands behind it or behind a `+`.
fn without_sign(text: &[u8]) -> (bool, &[u8])
    ensures sign { result.0 ≡ starts minus text.now }
    ensures rest { result.1.now ≡ if starts minus text.now then drop 1 text.now else without plus text.now }
{
    match text {
        [b'-', digits @ ..] => (true, digits),
        [b'+', digits @ ..] => (false, digits),
        digits => (false, digits),
    }
}

// The number of a sign and a magnitude.
fn with_sign(negative: bool, magnitude: u64) -> i64
    requires { magnitude < 2 ^ 63 }
    ensures { result ≡ under_sign negative magnitude }
{
    let number = magnitude as i64;
    if negative { -number } else { number }
}

// The number, where it is in a range.
fn in_range(number: i64, least: i32, greatest: i32) -> Option<i32>
    ensures { result ≡ within least greatest number }
{
    if i64::from(least) <= number && number <= i64::from(greatest) {
        Some(number as i32)
    } else {
        None
    }
}

// The metres of an elevation without its sign.
fn metres_of(text: &[u8]) -> Option<u64>
    ensures metres { result ≡ metres text.now }
    ensures few { IfSome result (λ n. n < 10 ^ 5) }
{
    match cut_bytes(text, b'.') {
        None => short_number(text, 5),
        Some((whole, fraction)) if are_digits(fraction) => short_number(whole, 5),
        Some(_) => None,
    }
}

// Whether a text has nothing but digits.
fn are_digits(text: &[u8]) -> bool
    ensures { result ≡ list_all is_ascii_digit text.now }
{
    text.iter().all(|b| b.is_ascii_digit())
}

// The number of one to `most` digits and nothing else.
fn short_number(digits: &[u8], most: usize) -> Option<u64>
    requires { most ≤ 10 }
    ensures number { result ≡ digits_up_to most digits.now }
    ensures few { IfSome result (λ n. n < 10 ^ most) }
{
    number_of(digits, most)
}

// The number of one to `most` digits and nothing else, where it is below 2^64.
fn number_of(digits: &[u8], most: usize) -> Option<u64>
    ensures { result ≡ option_and_then (within_numbers 0 (2 ^ 64 - 1)) (digits_up_to most digits.now) }
{
    if digits.is_empty() || most < digits.len() {
        return None;
    }
    let mut number = 0;
    for digit in digits {
        number = with_digit(number, *digit)?;
    }
    Some(number)
}

// A number with one more digit behind it.
fn with_digit(number: u64, digit: u8) -> Option<u64>
    ensures { SomeIff result (IsTrue (is_ascii_digit digit) × (number * 10 + (digit - 48) < 2 ^ 64))
        (number * 10 + (digit - 48)) }
{
    if !digit.is_ascii_digit() {
        return None;
    }
    number.checked_mul(10)?.checked_add(u64::from(digit - b'0'))
}

#[cfg(test)]
mod tests {
    use super::*;

    // A value of a tag, the whole number and the elevation that it tells.
    const VALUES: [(&[u8], Option<i64>, Option<i32>); 20] = [
        (b"-1", Some(-1), Some(-1)),
        (b"-0", Some(0), Some(0)),
        (b"0000000007", Some(7), None),
        (b"9999999999", Some(9999999999), None),
        (b"-9999999999", Some(-9999999999), None),
        (b"00000000007", None, None),
        (b"", None, None),
        (b"-", None, None),
        (b"+1", None, Some(1)),
        (b" 1", None, None),
        (b"1.0", None, Some(1)),
        (b"+12.5", None, Some(12)),
        (b"-7", Some(-7), Some(-7)),
        (b"12.", None, Some(12)),
        (b"99999.999999999", None, Some(99999)),
        (b"-0.9", None, Some(0)),
        (b".5", None, None),
        (b"123456", Some(123456), None),
        (b"1.2.3", None, None),
        (b"+-1", None, None),
    ];

    #[test]
    fn values_of_tags(rt: HostRuntime) {
        for (value, whole, height) in VALUES {
            assert_eq!(rt; read_whole(value), whole, "in {value:?}");
            assert_eq!(rt; read_height(value), height, "in {value:?}");
        }
    }

    // A word, and the number that it tells from 0 up, and from -90,000,000 to 90,000,000.
    const WORDS: [(&str, Option<u64>, Option<i32>); 11] = [
        ("18446744073709551615", Some(u64::MAX), None),
        ("18446744073709551616", None, None),
        ("00000000000000000007", Some(7), Some(7)),
        ("000000000000000000007", None, None),
        ("-7", None, Some(-7)),
        ("-0", None, Some(0)),
        ("-90000000", None, Some(-90000000)),
        ("-90000001", None, None),
        ("90000001", Some(90000001), None),
        ("+5", None, None),
        ("", None, None),
    ];

    #[test]
    fn numbers_of_words(rt: HostRuntime) {
        for (word, number, signed) in WORDS {
            assert_eq!(rt;
                read_number(word.as_bytes(), 0, u64::MAX),
                number,
                "in {word}"
            );
            assert_eq!(rt;
                read_signed(word.as_bytes(), -90000000, 90000000),
                signed,
                "in {word}"
            );
        }
    }
}
