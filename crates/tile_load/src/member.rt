//! A member of a tile, in the loose units of a desk.

ghost use Rattle.std.specs.Prelude.{◌≡◌, ◌⊎◌, ◌+◌, ◌≤◌, ◌<◌, ◌^◌, true, false, List, [], ◌++◌, length, Some, None, IfSome};
ghost use Rattle.mf_rows.specs.Desks.{used, closed};
ghost use Rattle.mf_rows.specs.Records.{Record};
ghost use Rattle.mf_rows.specs.RecordUnits.{record_in};
ghost use Rattle.mf_rows.specs.Units.{Unit16};

use byteorder::{BigEndian, ByteOrder};
use mf_rows::records::Records;

// How many units a head has.
const HEAD_UNITS: u32 = 10;

// Clears the records, where the next member passes the room beside them: the members weigh more than there is room for
// so far, or a head has no room behind them.
pub(crate) fn make_room(records: &mut Records, room: u32, weight: u64)
    requires room { room ≡ records.old.capacity }
    ensures kept { weight ≤ records.old.capacity → used records.old + 10 ≤ records.old.capacity
        → records.new ≡ records.old }
    ensures cleared { (records.old.capacity < weight) ⊎ (records.old.capacity < used records.old + 10)
        → records.new ≡ record { records = []; loose = []; capacity = records.old.capacity } }
    ensures head { 10 ≤ records.old.capacity → used records.new + 10 ≤ records.old.capacity }
    ensures none { records.old.loose ≡ [] → records.new.loose ≡ [] }
    ensures capacity { records.new.capacity ≡ records.old.capacity }
{
    if weight > u64::from(room) || records.spare() < HEAD_UNITS {
        records.clear();
    }
}

// Makes the loose units a record, if they are all units of a member, and else drops them. Answers the weight with that
// of the member.
pub(crate) fn add_member(records: &mut Records, weight: u64, whole: bool) -> Option<u64>
    ensures told { (rest : List Unit16) (r : Record) → record_in (records.old.loose ++ rest) ≡ Some r
        → IfSome result (λ sum. sum ≡ weight + r.head.weight) }
    ensures none { (rest : List Unit16) (r : Record) → record_in (records.old.loose ++ rest) ≡ Some r
        → result ≡ None → (length records.old.loose < 2) ⊎ (2 ^ 64 ≤ weight + r.head.weight)
        ⊎ ((whole ≡ true) × (record_in records.old.loose ≡ None)) }
    ensures closed { IfSome result (λ _. whole ≡ true → records.new ≡ closed records.old) }
    ensures used { IfSome result (λ _. whole ≡ true → used records.new ≡ used records.old) }
    ensures dropped { IfSome result (λ _. whole ≡ false → records.new ≡ record records.old { loose = [] }) }
    ensures loose { IfSome result (λ _. records.new.loose ≡ []) }
    ensures capacity { records.new.capacity ≡ records.old.capacity }
{
    let own = weight_in(records.loose())?;
    let sum = weight.checked_add(own)?;
    take_loose(records, whole).then_some(sum)
}

// Makes the loose units a record, or drops them. Answers whether none is loose.
fn take_loose(records: &mut Records, whole: bool) -> bool
    ensures closed { whole ≡ true → records.new ≡ closed records.old }
    ensures used { whole ≡ true → used records.new ≡ used records.old }
    ensures dropped { whole ≡ false → records.new ≡ record records.old { loose = [] } }
    ensures loose { result ≡ true → records.new.loose ≡ [] }
    ensures not { result ≡ false → (whole ≡ true) × (record_in records.old.loose ≡ None) }
    ensures capacity { records.new.capacity ≡ records.old.capacity }
{
    if whole {
        return records.close_record();
    }
    records.cut_loose(0);
    true
}

// The weight that the head of units tells, where its second unit is among them.
fn weight_in(units: &[[u8; 16]]) -> Option<u64>
    ensures told { (rest : List Unit16) (r : Record) → record_in (units.now ++ rest) ≡ Some r
        → IfSome result (λ weight. weight ≡ r.head.weight) }
    ensures none { result ≡ None → length units.now < 2 }
{
    if units.len() < 2 {
        return None;
    }
    Some(BigEndian::read_u64(&units[1]))
}
