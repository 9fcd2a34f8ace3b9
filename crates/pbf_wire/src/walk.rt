//! A walk over the bytes of a field that may stand often.

ghost use Rattle.std.specs.Prelude.{◌≡◌, ◌<◌, [], ◌∷◌, length, MatchOption, IfSome};
ghost use Rattle.osm_model.specs.Wire as wire;
ghost use Rattle.osm_model.specs.Wire.{fields};
ghost use Rattle.osm_model.specs.Tables.{bytes_of};
ghost use Rattle.pbf_wire.specs.Shown.{ShowsField};

use crate::fields::{Field, Fields, Value};

/// The bytes of the next field with this number, of those that have bytes, or None behind the last.
pub fn next_bytes<'a>(left: &mut Fields<'a>, number: u32) -> Option<&'a [u8]>
    ensures bytes { MatchOption result (bytes_of number (fields left.old).items ≡ [])
        (λ bytes. bytes_of number (fields left.old).items ≡ bytes.now ∷ bytes_of number (fields left.new).items) }
    ensures shorter { IfSome result (λ _. length left.new < length left.old) }
{
    loop {
        match left.next() {
            Ok(Some(field)) => {
                if let Some(bytes) = bytes_in(field, number) {
                    return Some(bytes);
                }
            }
            Ok(None) => return None,
            Err(_) => return None,
        }
    }
}

/// The bytes of a field, where it has this number and has bytes.
pub fn bytes_in<'a>(field: Field<'a>, number: u32) -> Option<&'a [u8]>
    ensures some { (f : wire.Field) → ShowsField field.entry f
        → IfSome result (λ bytes. (f.number ≡ number) × (f.value ≡ wire.len bytes.now)) }
    ensures bytes { (f : wire.Field) → ShowsField field.entry f
        → MatchOption result (bytes_of number (f ∷ []) ≡ []) (λ bytes. bytes_of number (f ∷ []) ≡ bytes.now ∷ []) }
{
    match field.value {
        Value::Bytes(bytes) if field.number == number => Some(bytes),
        _ => None,
    }
}
