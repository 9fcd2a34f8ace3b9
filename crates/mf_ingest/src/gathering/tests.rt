//! The rows of a block with two nodes, two ways and two relations.

ghost use Rattle.std.specs.Prelude.{◌≡◌, ◌<◌, ◌≤◌, [], true, length, codes, IfOk, IfSome, OnOk};
ghost use Rattle.mf_edge.specs.Spill.{IsNameOf};
ghost use Rattle.osm_entity.specs.EntityViews.{entity_told};
ghost use Rattle.osm_entity.specs.BlockEntities.{block_read};
ghost use Rattle.osm_entity.specs.Refs.{refs_left};
ghost use Rattle.osm_entity.specs.Members.{members_left};
ghost use Rattle.spill_parts.specs.Parts.{HasJust};
ghost use Rattle.spill_parts.specs.Handed.{ingested_pieces};
ghost use Rattle.mf_ingest.specs.Gathered.{gathered_pieces, HasFew};

use super::*;
use crate::sample::{MAPPING, NODES, RELATIONS, STRINGS, WAYS, are_parts};
use mf_edge::{MemSpill, Steps};
use osm_entity::entities::Entities;
use osm_entity::members::MemberCursor;
use osm_entity::order::Order;
use osm_entity::refs::RefCursor;
use pbf_block::head::block_head;
use pbf_block::strings::Strings;
use spill_parts::Page;
use std::marker::Brand;
use std::sync::ledger::{Blank, Ledger};
use std::test::Fail;
use tag_mapping::file::read_mapping;

// Whether there are at most so many refs.
fn are_few_refs(refs: RefCursor, most: u32) -> bool
    ensures { result ≡ true → length (refs_left refs.entry) ≤ most }
{
    let mut rest = refs;
    match rest.next() {
        None => true,
        Some(_) => most > 0 && are_few_refs(rest, most - 1),
    }
}

// Whether there are at most so many members.
fn are_few_members(members: MemberCursor, most: u32) -> bool
    ensures { result ≡ true → length (members_left members.entry) ≤ most }
{
    let mut rest = members;
    match rest.next() {
        None => true,
        Some(_) => most > 0 && are_few_members(rest, most - 1),
    }
}

// Whether an entity has at most nine refs or members.
fn has_few(entity: Entity) -> bool
    ensures { result ≡ true → HasFew (entity_told entity.entry) }
{
    match entity {
        Entity::Node(_) => true,
        Entity::Way(way) => are_few_refs(way.refs(), 9),
        Entity::Relation(relation) => are_few_members(relation.members(), 9),
    }
}

// Puts the rows of the entities of a block, of which each has few refs or members.
fn put_all<P: Spill>(
    gathering: &mut Gathering,
    mapping: &Mapping,
    entities: Entities,
    block: &[u8],
    spill: &mut P,
) -> Result<(), Failed>
    requires block { block_read entities ≡ block.now }
    requires just { HasJust (gathered_pieces gathering.old) (P.state spill.old) }
    ensures just { OnOk result (HasJust (gathered_pieces gathering.new) (P.state spill.new)) }
{
    let mut left = entities;
    let mut order = Order::new();
    while let Ok(Some(entity)) = left.next(&mut order) {
        if has_few(entity) {
            gathering.put(mapping, entity, block, spill)?;
        }
    }
    Ok(())
}

// What is gathered of a block, which has fewer bytes than a test wants.
fn gathered<P: Spill>(
    mapping: &Mapping,
    block: &[u8],
    strings: &mut Strings,
    spill: &mut P,
) -> Result<Option<Ingested>, Failed>
    requires { HasJust [] (P.state spill.old) }
    ensures { IfOk result (λ all. IfSome all (λ found. HasJust (ingested_pieces found) (P.state spill.new))) }
{
    if block.len() >= 1000 {
        return Ok(None);
    }
    let Ok(()) = strings.index(block) else {
        return Ok(None);
    };
    let Ok(head) = block_head(block) else {
        return Ok(None);
    };
    let mut gathering = Gathering::make(spill)?;
    put_all(
        &mut gathering,
        mapping,
        Entities::start(block, head, strings),
        block,
        spill,
    )?;
    Ok(Some(gathering.finish(2, 2, 2, None)))
}

// Whether the rows of the block are gathered, in a store that is started first.
fn are_gathered<P: Spill, L: Ledger>(
    mapping: &Mapping,
    block: &[u8],
    strings: &mut Strings,
    spill: &mut P,
    page: &mut Page,
    blank: Blank,
) -> Result<bool, Failed>
    requires ledger { blank.name ≡ L.name }
    requires parts { blank.parts ≡ L.parts }
    requires some { 0 < blank.parts }
    requires name { IsNameOf (codes "rows") (P.state spill.old).name }
{
    let mut steps = Steps::<L>::new(blank);
    spill.start("rows")?;
    match gathered(mapping, block, strings, spill)? {
        Some(found) => are_parts(&found, spill, page, &mut steps),
        None => Ok(false),
    }
}

#[test]
fn rows_of_a_block(rt: HostRuntime) -> Result<(), Fail> {
    let mapping = read_mapping(rt.alloc(), MAPPING)?;
    let mut strings = Strings::new(rt.alloc())?;
    let mut page = Page::new(rt.alloc(), 4)?;
    let block = [STRINGS, NODES, WAYS, RELATIONS].concat(rt.alloc())?;
    let mut store = MemSpill::new(rt.alloc(), &[])?;
    let blank = Blank::new(1);
    let found = are_gathered::<MemSpill, Brand>(
        &mapping,
        &block,
        &mut strings,
        &mut store,
        &mut page,
        blank,
    );
    assert_eq!(rt; found.ok(), Some(true));
    Ok(())
}
