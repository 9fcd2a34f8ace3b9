//! What a message has in a field: its last number, and the place of its bytes.

ghost use Rattle.std.specs.Prelude.{◌≡◌, ◌≤◌, List, [], ◌∷◌, length, IfSome, None};
ghost use Rattle.osm_model.specs.Wire as wire;
ghost use Rattle.osm_model.specs.Wire.{fields};
ghost use Rattle.osm_model.specs.Tables.{once_of, number_of, bytes_of};
ghost use Rattle.pbf_wire.specs.Shown.{ShowsField};
ghost use Rattle.pbf_wire.specs.Lookup.{place_shown, HasBytes, numbers_behind};

use crate::fields::{Field, Fields, Value};

/// Where in a message the bytes of the first field with this number stand, of those that have bytes: the places of the
/// first and behind the last.
pub fn bytes_place(message: &[u8], number: u32) -> Option<(usize, usize)>
    ensures found { place_shown message.now result ≡ once_of number (fields message.now).items }
    ensures within { IfSome result (λ place. (place.0 ≤ place.1) × (place.1 ≤ length message.now)) }
{
    let mut fields = Fields::new(message);
    while let Ok(Some(field)) = fields.next() {
        if let Some(size) = bytes_in(&field, number) {
            let end = message.len() - fields.left().len();
            return Some((end - size, end));
        }
    }
    None
}

/// The number of the last field with this number, of those that are varints.
pub fn number_in(message: &[u8], number: u32) -> Option<u64>
    ensures { result ≡ number_of number (fields message.now).items }
{
    let mut last = None;
    let mut fields = Fields::new(message);
    while let Ok(Some(field)) = fields.next() {
        last = number_or(last, &field, number);
    }
    last
}

/// How many bytes a field has, where it has this number and has bytes.
pub fn bytes_in(field: &Field, number: u32) -> Option<usize>
    ensures some { (shown : wire.Field) → ShowsField field.now shown
        → IfSome result (λ size. HasBytes number size shown) }
    ensures none { (shown : wire.Field) → ShowsField field.now shown
        → result ≡ None → bytes_of number (shown ∷ []) ≡ [] }
{
    match field.value {
        Value::Bytes(bytes) if field.number == number => Some(bytes.len()),
        _ => None,
    }
}

/// The number of a field, where it has this number and is a varint, or else the one before: so a pass over the fields
/// has the last of each number that it wants.
pub fn number_or(last: Option<u64>, field: &Field, number: u32) -> Option<u64>
    ensures { (shown : wire.Field) (later : List wire.Field) → ShowsField field.now shown
        → numbers_behind last number (shown ∷ later) ≡ numbers_behind result number later }
{
    match field.value {
        Value::Number(value) if field.number == number => Some(value),
        _ => last,
    }
}

#[cfg(test)]
mod tests {
    use super::{bytes_place, number_in};

    // A message, a field number, the place of its bytes and its last number.
    const FOUND: [(&[u8], u32, Option<(usize, usize)>, Option<u64>); 5] = [
        (b"", 1, None, None),
        (b"\x08\x05\x0A\x01A\x08\x07", 1, Some((4, 5)), Some(7)),
        (b"\x0A\x00\x0A\x01A", 1, Some((2, 2)), None),
        (b"\x12\x02AB\x18\x05", 2, Some((2, 4)), None),
        // Behind a field that is cut nothing is found.
        (b"\x18\x05\x12\x02A", 2, None, None),
    ];

    #[test]
    fn found(rt: HostRuntime) {
        for (message, number, place, last) in FOUND {
            assert_eq!(rt; bytes_place(message, number), place, "of {message:?}");
            assert_eq!(rt; number_in(message, number), last, "of {message:?}");
        }
    }
}
