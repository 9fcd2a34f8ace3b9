//! A message of a table: what it has in each field.

ghost use Rattle.std.specs.Prelude.{◌≡◌, ◌≤◌, ◌-◌, ℕ, List, ◌∷◌, length, IfOk, OnOk, MatchResult, Ok, Err, Some, None};
ghost use Rattle.std.specs.Prelude.{slice_index_or, slice_range, option_map};
ghost use Rattle.mf_base.specs.Steps.{fault_of};
ghost use Rattle.osm_model.specs.Wire as wire;
ghost use Rattle.osm_model.specs.Wire.{fields};
ghost use Rattle.osm_model.specs.Tables.{message, FitsTable, message_fault};
ghost use Rattle.pbf_wire.specs.Shown.{ShowsValue};
ghost use Rattle.pbf_wire.specs.Message.{nothing, found_bytes, IsWithin, AreFound, FoundSoFar};

use crate::check::{MessageFault, check_message, place_of};
use crate::fields::{Fields, Value};
use crate::rules::FieldRule;

/// What a message has in a field: the last number, where there is one, and where the bytes of the first that has bytes
/// begin and end.
#[derive(Clone, Copy, Debug, Default, PartialEq, Eq)]
pub struct Found {
    pub number: Option<u64>,
    pub place: Option<(usize, usize)>,
}

impl Found {
    ghost use Rattle.std.specs.Prelude.{◌≡◌, option_map};
    ghost use Rattle.pbf_wire.specs.Message.{found_bytes, IsWithin};

    /// The bytes that were found in a message, lent from it.
    pub fn bytes(self, message: &[u8]) -> Option<&[u8]>
        requires { IsWithin message.now self }
        ensures { option_map (λ bytes. bytes.now) result ≡ found_bytes message.now self }
    {
        let (start, end) = self.place?;
        Some(&message[start..end])
    }
}

/// What `bytes` have in the fields of a table, in its order, or their first fault as a message of it.
pub fn read_message<const N: usize>(
    bytes: &[u8],
    rules: &[FieldRule; N],
) -> Result<[Found; N], MessageFault>
    ensures refused { fault_of result ≡ message_fault rules.now bytes.now }
    ensures found { IfOk result (λ all. AreFound rules.now bytes.now (fields bytes.now).items all) }

    // All fields are read, and they fit the table.
    ensures message { MatchResult result (λ _. message rules.now bytes.now ≡ Ok (fields bytes.now).items)
        (λ fault. message rules.now bytes.now ≡ Err fault) }
    ensures fits { OnOk result (FitsTable rules.now (fields bytes.now).items) }
{
    if let Err(fault) = check_message(bytes, rules) {
        return Err(fault);
    }
    let mut all = [Found {
        number: None,
        place: None,
    }; N];
    gather(bytes, rules, &mut all);
    Ok(all)
}

// Puts what the fields of a message have into `all`, which has nothing yet.
fn gather(bytes: &[u8], rules: &[FieldRule], all: &mut [Found])
    requires same { length all.old ≡ length rules.now }
    requires none { (at : ℕ) → slice_index_or all.old at nothing ≡ nothing }
    ensures { AreFound rules.now bytes.now (fields bytes.now).items all.new }
{
    let mut fields = Fields::new(bytes);
    loop {
        match fields.next() {
            Ok(Some(field)) => {
                let end = bytes.len() - fields.left().len();
                if let Some(at) = place_of(rules, field.number) {
                    all[at] = with_value(all[at], &field.value, end);
                }
            }
            Ok(None) => return,
            Err(_) => return,
        }
    }
}

// What was found, and one value more of the same field, which ends there.
fn with_value(found: Found, value: &Value, end: usize) -> Found
    requires { (bytes : List ℕ) → ShowsValue value.now (wire.len bytes) → length bytes ≤ end }
    ensures { (message : List ℕ) (fs rest : List wire.Field) (k : ℕ) (f : wire.Field) → f.number ≡ k
        → ShowsValue value.now f.value
        → end ≤ length message
        → ((bytes : List ℕ) → f.value ≡ wire.len bytes → slice_range message (end - length bytes) end ≡ bytes)
        → FoundSoFar message fs k found (f ∷ rest) → FoundSoFar message fs k result rest }
{
    match value {
        Value::Number(number) => Found {
            number: Some(*number),
            place: found.place,
        },
        Value::Bytes(bytes) => Found {
            number: found.number,
            place: found.place.or(Some((end - bytes.len(), end))),
        },
        Value::Fixed => found,
    }
}
