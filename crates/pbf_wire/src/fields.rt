//! The fields of a message, one after another: Protocol Buffers, "Encoding", message structure.

ghost use Rattle.std.specs.Prelude.{◌≡◌, ◌≢◌, ◌↔◌, ◌<◌, ◌≤◌, ℕ, List, [], length, IfOk, IfSome, OnErr};
ghost use Rattle.osm_model.specs.Wire as wire;
ghost use Rattle.osm_model.specs.Wire.{number_front, bytes_front, value_front, field_front, fields, len};
ghost use Rattle.pbf_wire.specs.Shown.{ShowsValue, ShowsField, Gives, BeginsWith, GivesNext};

use mf_base::varint::first_varint;
pub use osm_model::faults::WireFault;
use osm_model::limits::FIELD_NUMBER_LIMIT;
use std::marker::Model;

/// The value of a field.
#[derive(Clone, Copy, Debug, PartialEq, Eq)]
pub enum Value<'a> {
    /// Wire type 0, a varint.
    Number(u64),
    /// Wire type 2, the bytes behind their length.
    Bytes(&'a [u8]),
    /// Wire types 1 and 5, eight or four bytes, which this project reads nowhere.
    Fixed,
}

/// A field: its number, in 1 to 2^29 - 1, and its value.
#[derive(Clone, Copy, Debug, PartialEq, Eq)]
pub struct Field<'a> {
    pub number: u32,
    pub value: Value<'a>,
}

/// Goes over the fields of a message. Contracts see the bytes that are left.
#[derive(Drop)]
pub struct Fields<'a> {
    rest: &'a [u8],
}

impl<'a> Model for Fields<'a> {
    ghost use Rattle.std.specs.Prelude.{List, ℕ};

    ghost Value = { List ℕ };

    ghost view = { λ s. s.rest.now };
}

impl<'a> Fields<'a> {
    /// All fields of `bytes`.
    pub fn new(bytes: &'a [u8]) -> Fields<'a>
        ensures { result ≡ bytes.now }
    {
        Fields { rest: bytes }
    }

    /// The next field, or None after the last. After a fault the next call answers the same fault.
    pub fn next(&mut self) -> Result<Option<Field<'a>>, WireFault>
        ensures found { IfOk result (λ next. IfSome next (λ field. BeginsWith self.old field self.new)) }
        ensures end { (result ≡ Ok None) ↔ (self.old ≡ []) }
        ensures fault { (fault : WireFault) → (result ≡ Err fault)
            ↔ ((self.old ≢ []) × (field_front self.old ≡ Err fault)) }

        // The same over the fields that are left.
        ensures reads { GivesNext (fields self.old) result (fields self.new) }

        // Nothing is passed over at the end or at a fault.
        ensures ended { result ≡ Ok None → self.new ≡ self.old }
        ensures again { OnErr result (self.new ≡ self.old) }
    {
        if self.rest.is_empty() {
            return Ok(None);
        }
        let (field, size) = first_field(self.rest)?;
        self.rest = &self.rest[size..];
        Ok(Some(field))
    }

    /// The bytes that are left, behind the fields that were given.
    pub fn left(&self) -> &'a [u8]
        ensures { result.now ≡ self.now }
    {
        self.rest
    }
}

// The field that the bytes begin with, and how many bytes it takes.
fn first_field(bytes: &[u8]) -> Result<(Field<'_>, usize), WireFault>
    ensures front { Gives ShowsField result (field_front bytes.now) }
    ensures within { IfOk result (λ found. (0 < found.1) × (found.1 ≤ length bytes.now)) }
{
    let (key, at) = first_number(bytes)?;
    let number = key / 8;
    if number < 1 || number >= FIELD_NUMBER_LIMIT {
        return Err(WireFault::Kind);
    }
    let (value, size) = first_value(&bytes[at..], key % 8)?;
    let field = Field {
        number: number as u32,
        value,
    };
    Ok((field, at + size))
}

// The varint that the bytes begin with, and how many bytes it takes.
fn first_number(bytes: &[u8]) -> Result<(u64, usize), WireFault>
    ensures front { result ≡ number_front bytes.now }
    ensures within { IfOk result (λ found. (0 < found.1) × (found.1 ≤ length bytes.now)) }
{
    match first_varint(bytes) {
        Ok(found) => Ok(found),
        Err(_) => Err(WireFault::Varint),
    }
}

// The value of this wire type that the bytes begin with, and how many bytes it takes.
fn first_value(bytes: &[u8], wire_type: u64) -> Result<(Value<'_>, usize), WireFault>
    ensures front { Gives ShowsValue result (value_front wire_type bytes.now) }
    ensures within { IfOk result (λ found. found.1 ≤ length bytes.now) }
{
    match wire_type {
        0 => {
            let (number, size) = first_number(bytes)?;
            Ok((Value::Number(number), size))
        }
        1 => fixed_of(bytes, 8),
        2 => {
            let (count, at) = first_number(bytes)?;
            bytes_of(bytes, at, count)
        }
        5 => fixed_of(bytes, 4),
        _ => Err(WireFault::Kind),
    }
}

// So many bytes, which nobody reads.
fn fixed_of(bytes: &[u8], count: usize) -> Result<(Value<'_>, usize), WireFault>
    ensures front { (tell : List ℕ → wire.Value) → ((fixed : List ℕ) → ShowsValue Value.Fixed (tell fixed))
        → Gives ShowsValue result (bytes_front tell count 0 bytes.now) }
    ensures within { IfOk result (λ found. found.1 ≤ length bytes.now) }
{
    if bytes.len() < count {
        return Err(WireFault::Length);
    }
    Ok((Value::Fixed, count))
}

// So many bytes from a place on, and where they end.
fn bytes_of(bytes: &[u8], at: usize, count: u64) -> Result<(Value<'_>, usize), WireFault>
    requires { at ≤ length bytes.now }
    ensures front { Gives ShowsValue result (bytes_front len count at bytes.now) }
    ensures within { IfOk result (λ found. found.1 ≤ length bytes.now) }
{
    if ((bytes.len() - at) as u64) < count {
        return Err(WireFault::Length);
    }
    let end = at + count as usize;
    Ok((Value::Bytes(&bytes[at..end]), end))
}

#[cfg(test)]
mod tests {
    use super::{Field, Fields, Value, WireFault};

    const MOST: u64 = 18446744073709551615;

    // Protocol Buffers, "Encoding": bytes, and the number and value of the field that they begin with.
    const FIELDS: [(&[u8], u32, Value); 13] = [
        (b"\x08\x96\x01", 1, Value::Number(150)),
        (b"\x12\x07testing", 2, Value::Bytes(b"testing")),
        (b"\x09\x00\x00\x00\x00\x00\x00\x00\x80", 1, Value::Fixed),
        (b"\x0D\x00\x00\x00\x80", 1, Value::Fixed),
        (b"\x08\x00\x00", 1, Value::Number(0)),
        (b"\x12\x00\x08", 2, Value::Bytes(b"")),
        // Longer spellings of a key, a number and a length.
        (b"\x88\x00\x81\x80\x00", 1, Value::Number(1)),
        (b"\x0A\x81\x00A", 1, Value::Bytes(b"A")),
        (
            b"\x88\x80\x80\x80\x80\x80\x80\x80\x80\x00\x05",
            1,
            Value::Number(5),
        ),
        // Numbers of ten bytes, and the greatest.
        (
            b"\x08\x80\x80\x80\x80\x80\x80\x80\x80\x80\x00",
            1,
            Value::Number(0),
        ),
        (
            b"\x08\xFF\xFF\xFF\xFF\xFF\xFF\xFF\xFF\xFF\x01",
            1,
            Value::Number(MOST),
        ),
        // The greatest field number, and one of two bytes.
        (b"\xF8\xFF\xFF\xFF\x0F\x07", 536870911, Value::Number(7)),
        (b"\x88\x01\x64", 17, Value::Number(100)),
    ];

    #[test]
    fn first_fields(rt: HostRuntime) {
        for (bytes, number, value) in FIELDS {
            let want = Field { number, value };
            assert_eq!(rt; Fields::new(bytes).next(), Ok(Some(want)), "of {bytes:?}");
        }
    }

    // Bytes that begin with no field, and the first fault; of each two faults that may stand together, the one that
    // counts.
    const FAULTS: [(&[u8], WireFault); 22] = [
        (b"\x80", WireFault::Varint),
        (
            b"\x88\x80\x80\x80\x80\x80\x80\x80\x80\x02\x05",
            WireFault::Varint,
        ),
        (
            b"\x80\x80\x80\x80\x80\x80\x80\x80\x80\x80\x00",
            WireFault::Varint,
        ),
        // A key of ten bytes whose tenth is 1.
        (
            b"\x88\x80\x80\x80\x80\x80\x80\x80\x80\x01\x05",
            WireFault::Kind,
        ),
        (b"\x00\x00", WireFault::Kind),
        (b"\x80\x80\x80\x80\x10\x07", WireFault::Kind),
        (b"\x0B", WireFault::Kind),
        (b"\x0C", WireFault::Kind),
        (b"\x0E\x00", WireFault::Kind),
        (b"\x0F\x00", WireFault::Kind),
        // A number that does not exist before a varint that is cut, and before bytes that end.
        (b"\x00\x80", WireFault::Kind),
        (b"\x02\x05", WireFault::Kind),
        (b"\x06", WireFault::Kind),
        (b"\x08", WireFault::Varint),
        (
            b"\x08\xFF\xFF\xFF\xFF\xFF\xFF\xFF\xFF\xFF\x02",
            WireFault::Varint,
        ),
        (b"\x0A", WireFault::Varint),
        // A length that is no number before bytes that end.
        (
            b"\x0A\xFF\xFF\xFF\xFF\xFF\xFF\xFF\xFF\xFF\x02A",
            WireFault::Varint,
        ),
        (b"\x0A\x02A", WireFault::Length),
        (
            b"\x0A\xFF\xFF\xFF\xFF\xFF\xFF\xFF\xFF\xFF\x01A",
            WireFault::Length,
        ),
        (b"\x09\x00\x00\x00\x00\x00\x00\x00", WireFault::Length),
        (b"\x0D\x00\x00\x00", WireFault::Length),
        (b"\x0D", WireFault::Length),
    ];

    #[test]
    fn first_faults(rt: HostRuntime) {
        for (bytes, fault) in FAULTS {
            let mut fields = Fields::new(bytes);
            assert_eq!(rt; fields.next(), Err(fault), "of {bytes:?}");
            assert_eq!(rt; fields.next(), Err(fault), "again, of {bytes:?}");
        }
    }

    #[test]
    fn one_after_another(rt: HostRuntime) {
        let mut fields = Fields::new(b"\x08\x05\x15\x00\x00\x00\x80\x1A\x01A\x08\x07");
        for (number, value) in [
            (1, Value::Number(5)),
            (2, Value::Fixed),
            (3, Value::Bytes(b"A")),
            (1, Value::Number(7)),
        ] {
            let want = Field { number, value };
            assert_eq!(rt; fields.next(), Ok(Some(want)));
        }
        assert_eq!(rt; fields.next(), Ok(None));
        assert_eq!(rt; fields.next(), Ok(None));
    }
}
