//! The reader of a PrimitiveGroup message: the OpenStreetMap wiki, "PBF Format", on PrimitiveGroup.

ghost use Rattle.std.specs.Prelude.{◌≡◌, ℕ, List, ◌∷◌, true, false, Some};
ghost use Rattle.osm_model.specs.Wire.{fields};
ghost use Rattle.osm_model.specs.Blocks.{PrimitiveBlock};
ghost use Rattle.osm_model.specs.Objects.{group_objects, kinds_in, are_one};
ghost use Rattle.osm_entity.specs.GroupKinds as kinds;
ghost use Rattle.osm_entity.specs.GroupKinds.{GivesGroup, are_one_with};

use crate::group::Group;
use osm_model::faults::EntityFault;
use osm_model::numbers::{GROUP_CHANGESETS, GROUP_NODES};
use osm_model::tables::PRIMITIVE_GROUP;
use pbf_wire::check::check_message;
use pbf_wire::fields::Fields;

// All objects of a PrimitiveGroup message, or the fault of the message or that it has two kinds.
pub(crate) fn read_group(bytes: &[u8]) -> Result<Group<'_>, EntityFault>
    ensures { (b : PrimitiveBlock) → GivesGroup b (group_objects b bytes.now) result }
{
    match check_message(bytes, &PRIMITIVE_GROUP) {
        Err(fault) => Err(EntityFault::Wire(fault)),
        Ok(()) => {
            if !is_of_one_kind(bytes) {
                return Err(EntityFault::MixedGroup);
            }
            Ok(Group {
                fields: bytes,
                dense: None,
            })
        }
    }
}

// Whether no two fields of nodes, dense, ways, relations and changesets differ.
fn is_of_one_kind(bytes: &[u8]) -> bool
    ensures { result ≡ are_one (kinds_in (fields bytes.now).items) }
{
    let mut fields = Fields::new(bytes);
    let mut first = None;
    while let Ok(Some(field)) = fields.next() {
        if is_kind(field.number) {
            if differs(first, field.number) {
                return false;
            }
            first = Some(field.number);
        }
    }
    true
}

// Whether a number is another than the one that was seen first, where there is one.
fn differs(first: Option<u32>, number: u32) -> bool
    ensures other { (others : List ℕ) → result ≡ true → are_one_with first (number ∷ others) ≡ false }
    ensures same { (others : List ℕ) → result ≡ false
        → are_one_with first (number ∷ others) ≡ are_one_with (Some number) others }
{
    match first {
        Some(kind) => number != kind,
        None => false,
    }
}

// Whether a field with this number has nodes, dense nodes, ways, relations or changesets.
fn is_kind(number: u32) -> bool
    ensures { result ≡ kinds.is_kind number }
{
    number >= GROUP_NODES && number <= GROUP_CHANGESETS
}
