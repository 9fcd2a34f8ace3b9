//! The tags of an entity by the indices of their keys and values, in two lists: the OpenStreetMap wiki, "PBF Format",
//! on Node, Way and Relation.

ghost use Rattle.std.specs.Prelude.{◌≡◌, ◌&&◌, nat_lt, List, true, length, IfOk};
ghost use Rattle.mf_base.specs.Texts.{Text};
ghost use Rattle.mf_base.specs.Steps.{fault_of};
ghost use Rattle.mf_base.specs.Packed.{are_varints, packed_numbers};
ghost use Rattle.mf_base.specs.TagCursor.{all_tags, tags_left, block_of};
ghost use Rattle.osm_model.specs.Objects.{indexed_tags};
ghost use Rattle.osm_entity.specs.Answers.{answer_as};
ghost use Rattle.osm_entity.specs.InBlock.{block_shown};
ghost use Rattle.osm_entity.specs.TagChecks.{bad_index};

use crate::in_block::InBlock;
use mf_base::packed::first_packed;
use mf_base::tag_cursor::TagCursor;
use osm_model::faults::EntityFault;
use pbf_wire::packed::Packed;

// The tags of these indices of keys and values, or their first fault.
pub(crate) fn read_tags<'a>(
    keys: &'a [u8],
    vals: &'a [u8],
    in_block: InBlock<'a>,
) -> Result<TagCursor<'a>, EntityFault>
    requires keys { are_varints keys.now ≡ true }
    requires vals { are_varints vals.now ≡ true }
    ensures told { answer_as all_tags result
        ≡ indexed_tags (block_shown in_block.entry).strings (packed_numbers keys.now) (packed_numbers vals.now) }
    ensures left { IfOk result (λ tags. tags_left tags ≡ all_tags tags) }
    ensures lent { IfOk result (λ tags. block_of tags ≡ in_block.entry.block.now) }
{
    check_tags(keys, vals, in_block.count())?;
    Ok(TagCursor::columns(in_block.block, in_block.places, keys, vals))
}

// Whether there are as many values as keys, and each index is below the number of strings: the first fault.
fn check_tags(keys: &[u8], vals: &[u8], count: u64) -> Result<(), EntityFault>
    requires keys { are_varints keys.now ≡ true }
    requires vals { are_varints vals.now ≡ true }
    ensures { (strings : List Text) → length strings ≡ count
        → fault_of result ≡ fault_of (indexed_tags strings (packed_numbers keys.now) (packed_numbers vals.now)) }
{
    let mut left_keys = keys;
    let mut left_vals = vals;
    loop {
        match (first_packed(left_keys), first_packed(left_vals)) {
            (None, None) => return Ok(()),
            (None, Some(_)) => return Err(EntityFault::KeyWithoutValue),
            (Some(_), None) => return Err(EntityFault::KeyWithoutValue),
            (Some((key, other_keys)), Some((val, other_vals))) => {
                if !are_known(key, val, count) {
                    return Err(unknown_string(other_keys, other_vals));
                }
                left_keys = other_keys;
                left_vals = other_vals;
            }
        }
    }
}

// Whether both indices are below the number of strings.
fn are_known(key: u64, val: u64, count: u64) -> bool
    ensures { result ≡ (nat_lt key count && nat_lt val count) }
{
    key < count && val < count
}

// The fault of an index that is none, before these other keys and values.
fn unknown_string(keys: &[u8], vals: &[u8]) -> EntityFault
    requires keys { are_varints keys.now ≡ true }
    requires vals { are_varints vals.now ≡ true }
    ensures { result ≡ bad_index (packed_numbers keys.now) (packed_numbers vals.now) }
{
    if Packed::new(keys).count() == Packed::new(vals).count() {
        EntityFault::StringIndex
    } else {
        EntityFault::KeyWithoutValue
    }
}
