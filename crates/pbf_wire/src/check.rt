//! The check of a message against a table of field rules.

ghost use Rattle.std.specs.Prelude.{◌≡◌, ◌==◌, ℕ, List, [], ◌∷◌, length, OnOk, position};
ghost use Rattle.std.specs.List.{list_any};
ghost use Rattle.mf_base.specs.Steps.{fault_of};
ghost use Rattle.osm_model.specs.Wire as model;
ghost use Rattle.osm_model.specs.Wire.{fields};
ghost use Rattle.osm_model.specs.Tables.{message, FitsTable, form_fault, field_fault, message_fault};
ghost use Rattle.pbf_wire.specs.Shown.{ShowsValue, ShowsField};
ghost use Rattle.pbf_wire.specs.Check.{Notes, place_in};

use crate::fields::{Field, Fields, Value, WireFault};
use crate::packed::is_whole;
use crate::rules::{FieldRule, Form};
pub use osm_model::faults::MessageFault;

/// Whether `bytes` are a message of the table. Fields that are not in the table are passed over, of whatever type.
pub fn check_message<const N: usize>(
    bytes: &[u8],
    rules: &[FieldRule; N],
) -> Result<(), MessageFault>
    ensures exact { fault_of result ≡ message_fault rules.now bytes.now }

    // What is accepted is a message of the table: all its fields are read, and they fit it.
    ensures message { OnOk result (message rules.now bytes.now ≡ Ok (fields bytes.now).items) }
    ensures whole { OnOk result ((fields bytes.now).fault ≡ None) }
    ensures fits { OnOk result (FitsTable rules.now (fields bytes.now).items) }
{
    let mut seen = [false; N];
    check_fields(bytes, rules, &mut seen)
}

// Whether the fields are those of the table. `seen` is to have no field yet.
fn check_fields(bytes: &[u8], rules: &[FieldRule], seen: &mut [bool]) -> Result<(), MessageFault>
    requires same { length seen.old ≡ length rules.now }
    requires none { Notes rules.now [] seen.old }
    ensures { fault_of result ≡ message_fault rules.now bytes.now }
{
    let mut fields = Fields::new(bytes);
    loop {
        match fields.next() {
            Ok(Some(field)) => check_field(&field, rules, seen)?,
            Ok(None) => return Ok(()),
            Err(fault) => return Err(MessageFault::Wire(fault)),
        }
    }
}

// Whether a field fits the table, behind others; that it stood is noted.
fn check_field(field: &Field, rules: &[FieldRule], seen: &mut [bool]) -> Result<(), MessageFault>
    requires same { length seen.old ≡ length rules.now }
    ensures exact { (before : List ℕ) (shown : model.Field) → ShowsField field.now shown
        → Notes rules.now before seen.old → fault_of result ≡ field_fault rules.now before shown }
    ensures notes { (before : List ℕ) → Notes rules.now before seen.old
        → Notes rules.now (field.now.number ∷ before) seen.new }
{
    match place_of(rules, field.number) {
        Some(at) => {
            let again = seen[at];
            seen[at] = true;
            check_value(rules[at].form, again, field)
        }
        None => Ok(()),
    }
}

// The place of the first rule of a field.
pub(crate) fn place_of(rules: &[FieldRule], number: u32) -> Option<usize>
    ensures { result ≡ place_in rules.now number }
{
    rules.iter().position(|rule| rule.number == number)
}

// Whether a field has its form; `again` says that it stood already.
fn check_value(form: Form, again: bool, field: &Field) -> Result<(), MessageFault>
    ensures { (before : List ℕ) (value : model.Value) → ShowsValue field.now.value value
        → again ≡ list_any (λ j. j == field.now.number) before
        → fault_of result ≡ form_fault form before field.now.number value }
{
    match field.value {
        Value::Number(_) => check_number(form, field.number),
        Value::Bytes(bytes) => check_bytes(form, again, field.number, bytes),
        Value::Fixed => Err(MessageFault::Form {
            field: field.number,
        }),
    }
}

// Whether a varint has the form of its field.
fn check_number(form: Form, field: u32) -> Result<(), MessageFault>
    ensures { (before : List ℕ) (n : ℕ) → fault_of result ≡ form_fault form before field (model.varint n) }
{
    match form {
        Form::Number => Ok(()),
        _ => Err(MessageFault::Form { field }),
    }
}

// Whether bytes have the form of their field.
fn check_bytes(form: Form, again: bool, field: u32, bytes: &[u8]) -> Result<(), MessageFault>
    ensures { (before : List ℕ) → again ≡ list_any (λ j. j == field) before
        → fault_of result ≡ form_fault form before field (model.len bytes.now) }
{
    match form {
        Form::Number => Err(MessageFault::Form { field }),
        Form::Many => Ok(()),
        Form::Once if again => Err(MessageFault::Twice { field }),
        Form::Once => Ok(()),
        Form::Packed if again => Err(MessageFault::Twice { field }),
        Form::Packed if is_whole(bytes) => Ok(()),
        Form::Packed => Err(MessageFault::Wire(WireFault::Varint)),
    }
}

#[cfg(test)]
mod tests {
    use super::{MessageFault, check_message};
    use crate::fields::WireFault;
    use crate::tables::{BLOB_HEADER, NODE, STRING_TABLE};

    const VARINT: MessageFault = MessageFault::Wire(WireFault::Varint);

    const KIND: MessageFault = MessageFault::Wire(WireFault::Kind);

    const LENGTH: MessageFault = MessageFault::Wire(WireFault::Length);

    // Bytes as a Node: fields 1, 8 and 9 are numbers, 2 and 3 packed lists. Of each two faults of a field the one that
    // counts.
    const NODES: [(&[u8], Result<(), MessageFault>); 21] = [
        (b"", Ok(())),
        (
            b"\x08\x01\x12\x02\x80\x01\x1A\x01\x05\x40\x00\x48\x00",
            Ok(()),
        ),
        // A number that comes twice, and an empty packed list.
        (b"\x08\x01\x08\x02", Ok(())),
        (b"\x12\x00", Ok(())),
        // Fields that are not in the table, of every type, and twice.
        (
            b"\x20\x05\x21\x00\x00\x00\x00\x00\x00\x00\x00\x22\x01\x80\x25\x00\x00\x00\x00\x22\x01\x80",
            Ok(()),
        ),
        (b"\x23", Err(KIND)),
        (b"\x22\x02A", Err(LENGTH)),
        // Another wire type.
        (b"\x0A\x00", Err(MessageFault::Form { field: 1 })),
        (
            b"\x09\x00\x00\x00\x00\x00\x00\x00\x00",
            Err(MessageFault::Form { field: 1 }),
        ),
        (
            b"\x0D\x00\x00\x00\x00",
            Err(MessageFault::Form { field: 1 }),
        ),
        (b"\x10\x01", Err(MessageFault::Form { field: 2 })),
        // A value that is cut comes before its form.
        (b"\x0A\x05A", Err(LENGTH)),
        (b"\x10\x80", Err(VARINT)),
        // A packed list twice; its form comes before, and its bytes after.
        (b"\x12\x00\x12\x00", Err(MessageFault::Twice { field: 2 })),
        (b"\x12\x00\x10\x01", Err(MessageFault::Form { field: 2 })),
        (
            b"\x12\x00\x12\x01\x80",
            Err(MessageFault::Twice { field: 2 }),
        ),
        (
            b"\x12\x00\x1A\x00\x1A\x00",
            Err(MessageFault::Twice { field: 3 }),
        ),
        // Packed lists that are no whole varints.
        (b"\x12\x01\x80", Err(VARINT)),
        (
            b"\x12\x0A\x80\x80\x80\x80\x80\x80\x80\x80\x80\x02",
            Err(VARINT),
        ),
        // The first field with a fault.
        (b"\x0A\x00\x00", Err(MessageFault::Form { field: 1 })),
        (b"\x08\x01\x00\x0A\x00", Err(KIND)),
    ];

    #[test]
    fn nodes(rt: HostRuntime) {
        for (bytes, want) in NODES {
            assert_eq!(rt; check_message(bytes, &NODE), want, "of {bytes:?}");
        }
    }

    #[test]
    fn bytes_once_and_often(rt: HostRuntime) {
        let twice = b"\x0A\x01A\x0A\x01A";
        assert_eq!(rt;
            check_message(twice, &BLOB_HEADER),
            Err(MessageFault::Twice { field: 1 })
        );
        assert_eq!(rt; check_message(twice, &STRING_TABLE), Ok(()));
        assert_eq!(rt;
            check_message(b"\x0A\x01\x80\x18\x05", &BLOB_HEADER),
            Ok(())
        );
        assert_eq!(rt;
            check_message(b"\x08\x01", &BLOB_HEADER),
            Err(MessageFault::Form { field: 1 })
        );
    }
}
