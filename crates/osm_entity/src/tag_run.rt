//! The tags of a dense node: the OpenStreetMap wiki, "PBF Format", on keys_vals.

ghost use Rattle.std.specs.Prelude.{◌≡◌, true, [], Some, option_map, IfOk};
ghost use Rattle.mf_base.specs.Packed.{are_varints, packed_numbers};
ghost use Rattle.mf_base.specs.TagCursor.{all_tags, tags_left, block_of};
ghost use Rattle.osm_model.specs.Objects.{run_tags, tag_runs, runs_of, next_run, other_runs};
ghost use Rattle.osm_entity.specs.Answers.{answer_as};
ghost use Rattle.osm_entity.specs.InBlock.{block_shown};
ghost use Rattle.osm_entity.specs.TagRun.{runs_of_list, run_in, others_in, are_whole};

use crate::in_block::InBlock;
use crate::run_end::run_end;
use mf_base::packed::first_packed;
use mf_base::tag_cursor::TagCursor;
use osm_model::faults::EntityFault;

// The tags of the next dense node, where there is a list of keys and values, and what is left of the list behind them,
// or the first fault of the tags.
pub(crate) fn read_run<'a>(
    keys_vals: Option<&'a [u8]>,
    in_block: InBlock<'a>,
) -> Result<(TagCursor<'a>, Option<&'a [u8]>), EntityFault>
    requires whole { are_whole (option_map (λ list. list.now) keys_vals) ≡ true }
    ensures told { answer_as (λ found. all_tags found.0) result
        ≡ run_tags (block_shown in_block.entry).strings
        (next_run (runs_of_list (option_map (λ list. list.now) keys_vals.entry))) }
    ensures behind { IfOk result (λ found. runs_of_list (option_map (λ list. list.now) found.1)
        ≡ other_runs (runs_of_list (option_map (λ list. list.now) keys_vals.entry))) }
    ensures whole { IfOk result (λ found. are_whole (option_map (λ list. list.now) found.1) ≡ true) }
    ensures left { IfOk result (λ found. tags_left found.0 ≡ all_tags found.0) }
    ensures lent { IfOk result (λ found. block_of found.0 ≡ in_block.entry.block.now) }
{
    match keys_vals {
        None => Ok((no_tags(in_block), None)),
        Some(list) => match read_list(list, in_block) {
            Ok((tags, rest)) => Ok((tags, Some(rest))),
            Err(fault) => Err(fault),
        },
    }
}

// The tags of the next dense node in a list of keys and values, and what is left of the list behind them, or the first
// fault of the tags.
fn read_list<'a>(
    list: &'a [u8],
    in_block: InBlock<'a>,
) -> Result<(TagCursor<'a>, &'a [u8]), EntityFault>
    requires whole { are_varints list.now ≡ true }
    ensures told { answer_as (λ found. all_tags found.0) result
        ≡ run_tags (block_shown in_block.entry).strings (run_in list.now) }
    ensures behind { IfOk result (λ found. Some (tag_runs (packed_numbers found.1.now)) ≡ others_in list.now) }
    ensures whole { IfOk result (λ found. are_varints found.1.now ≡ true) }
    ensures left { IfOk result (λ found. tags_left found.0 ≡ all_tags found.0) }
    ensures lent { IfOk result (λ found. block_of found.0 ≡ in_block.entry.block.now) }
{
    let (end, behind) = run_end(list, in_block.count())?;
    let tags = TagCursor::pairs(in_block.block, in_block.places, &list[..end]);
    Ok((tags, &list[behind..]))
}

// No tags.
#[tactic(auto, using(crate::proofs::RunEnds::no_numbers))]
fn no_tags<'a>(in_block: InBlock<'a>) -> TagCursor<'a>
    ensures all { all_tags result ≡ [] }
    ensures left { tags_left result ≡ all_tags result }
    ensures lent { block_of result ≡ in_block.entry.block.now }
{
    TagCursor::columns(in_block.block, in_block.places, &[], &[])
}

// A list of keys and values, where it is not empty.
pub(crate) fn some_list(keys_vals: &[u8]) -> Option<&[u8]>
    requires { are_varints keys_vals.now ≡ true }
    ensures runs { runs_of_list (option_map (λ list. list.now) result) ≡ runs_of (packed_numbers keys_vals.now) }
    ensures whole { are_whole (option_map (λ list. list.now) result) ≡ true }
{
    match first_packed(keys_vals) {
        None => None,
        Some(_) => Some(keys_vals),
    }
}
