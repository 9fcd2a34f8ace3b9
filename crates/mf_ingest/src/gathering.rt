//! What is gathered of the entities of an input, row by row.

ghost use Rattle.std.specs.Prelude.{◌≡◌, ◌+◌, ◌*◌, ◌≤◌, ◌∷◌, [], length, true, IfOk, OnOk, OnErr, IfSome};
ghost use Rattle.mf_edge.specs.Device.{CountsOne};
ghost use Rattle.mf_edge.specs.Spill.{SameStore, TouchesOnly, part_limit};
ghost use Rattle.osm_entity.specs.EntityViews.{entity_told, entity_block};
ghost use Rattle.osm_entity.specs.Node.{node_told, node_shown};
ghost use Rattle.osm_entity.specs.Ways.{way_told, way_shown};
ghost use Rattle.osm_entity.specs.Relations.{relation_told, relation_shown};
ghost use Rattle.feature_model.specs.Points.{point_of};
ghost use Rattle.mf_rows.specs.RowKinds.{IsOf};
ghost use Rattle.mf_rows.specs.Kinds.{node_kind, feature_kind};
ghost use Rattle.mf_rows.specs.Whole.{IsSpot};
ghost use Rattle.spill_parts.specs.Parts.{IsHeld, ArePut, HasJust};
ghost use Rattle.spill_parts.specs.Handed.{node_row_of, ingested_rows, ingested_pieces};
ghost use Rattle.mf_ingest.specs.Fronts.{IsFront};
ghost use Rattle.mf_ingest.specs.FrontRows.{front_rows};
ghost use Rattle.mf_ingest.specs.Gathered.{gathered_pieces, gathered_rows, rows_behind, no_rows, HasPut};
ghost use Rattle.mf_ingest.specs.Gathered.{HasFew, most_bytes, HaveGrown, KeepsStore};
ghost use Rattle.mf_ingest.specs.EntityRows.{whole_rows, node_parts, way_parts, relation_parts};

use crate::candidate::describe;
use crate::front::Described;
use crate::members::MemberRows;
use crate::refs::RefRows;
use crate::units::{UnitRows, row_of};
use mf_base::place::Rect;
use mf_edge::{Failed, Spill};
use mf_rows::first_units::first_units;
use mf_rows::kind::RowKind;
use mf_rows::kinds::{FeatureRow, MemberRow, NodeRow, RefRow};
use mf_rows::units::point_unit;
use osm_entity::entity::Entity;
use osm_entity::node_view::NodeView;
use osm_entity::relation::RelationView;
use osm_entity::way::WayView;
use spill_parts::{Ingested, Writer, put_rows};
use std::marker::Model;
use tag_mapping::mapping::Mapping;

/// The six parts to which the rows of entities are put: places of nodes, refs, members, and the units of candidates.
#[derive(Drop)]
pub struct Gathering {
    places: Writer<NodeRow>,
    refs: Writer<RefRow>,
    members: Writer<MemberRow>,
    node_units: Writer<FeatureRow>,
    way_units: Writer<FeatureRow>,
    relation_units: Writer<FeatureRow>,
}

impl Model for Gathering {
    ghost use Rattle.mf_ingest.specs.Gathered.{Gathered};

    ghost Value = { Gathered };

    ghost view = { λ g. record {
      places = g.places;
      refs = g.refs;
      members = g.members;
      node_units = g.node_units;
      way_units = g.way_units;
      relation_units = g.relation_units;
    } };
}

impl Gathering {
    /// Makes six parts without rows, the first of a store.
    pub fn make<P: Spill>(spill: &mut P) -> Result<Gathering, Failed>
        requires { HasJust [] (P.state spill.old) }
        ensures empty { IfOk result (λ g. gathered_rows g ≡ no_rows) }
        ensures just { IfOk result (λ g. HasJust (gathered_pieces g) (P.state spill.new)) }
        ensures same_faults { OnOk result ((P.state spill.new).faults ≡ (P.state spill.old).faults) }

        ensures failed { OnErr result (CountsOne (P.state spill.old).faults (P.state spill.new).faults) }

        ensures same { SameStore (P.state spill.old) (P.state spill.new) }
        ensures same_overrun { (P.state spill.new).is_overrun ≡ (P.state spill.old).is_overrun }
        ensures counts { (P.state spill.old).faults ≤ (P.state spill.new).faults }
    {
        Ok(Gathering {
            places: Writer::make(spill)?,
            refs: Writer::make(spill)?,
            members: Writer::make(spill)?,
            node_units: Writer::make(spill)?,
            way_units: Writer::make(spill)?,
            relation_units: Writer::make(spill)?,
        })
    }

    /// Puts the rows of an entity of this block. After `Failed` the parts are not to be read.
    pub fn put<P: Spill>(
        &mut self,
        mapping: &Mapping,
        entity: Entity,
        block: &[u8],
        spill: &mut P,
    ) -> Result<(), Failed>
        requires block { entity_block entity ≡ block.now }
        requires few { HasFew (entity_told entity) }
        requires just { HasJust (gathered_pieces self.old) (P.state spill.old) }
        ensures put { OnOk result (HasPut mapping.now (entity_told entity.entry ∷ []) self.old self.new) }
        ensures grown { OnOk result (HaveGrown (most_bytes (entity_told entity.entry)) self.old self.new) }
        ensures just { OnOk result (HasJust (gathered_pieces self.new) (P.state spill.new)) }
        ensures same_faults { OnOk result ((P.state spill.new).faults ≡ (P.state spill.old).faults) }

        ensures failed { OnErr result (CountsOne (P.state spill.old).faults (P.state spill.new).faults) }

        ensures kept { KeepsStore (most_bytes (entity_told entity.entry)) self.old (P.state spill.old)
            (P.state spill.new) }
    {
        let described = describe(mapping, entity, block);
        match entity {
            Entity::Node(node) => self.put_node(node, &described, spill),
            Entity::Way(way) => self.put_way(way, &described, spill),
            Entity::Relation(relation) => self.put_relation(relation, &described, spill),
        }
    }

    /// The parts, with these counts and this box.
    pub fn finish(self, nodes: u64, ways: u64, relations: u64, bounds: Option<Rect>) -> Ingested
        ensures nodes { result.nodes ≡ nodes }
        ensures ways { result.ways ≡ ways }
        ensures relations { result.relations ≡ relations }
        ensures bounds { result.bounds ≡ bounds }
        ensures rows { ingested_rows result ≡ gathered_rows self }
        ensures pieces { ingested_pieces result ≡ gathered_pieces self }
    {
        Ingested {
            nodes,
            ways,
            relations,
            bounds,
            places: self.places.finish(),
            refs: self.refs.finish(),
            members: self.members.finish(),
            node_units: self.node_units.finish(),
            way_units: self.way_units.finish(),
            relation_units: self.relation_units.finish(),
        }
    }

    // Puts a node, and the units of one that is a candidate, with its point.
    fn put_node<P: Spill>(
        &mut self,
        node: NodeView,
        described: &Option<Described>,
        spill: &mut P,
    ) -> Result<(), Failed>
        requires front { IfSome described.now IsFront }
        requires just { HasJust (gathered_pieces self.old) (P.state spill.old) }
        ensures put { OnOk result (gathered_rows self.new
            ≡ rows_behind (gathered_rows self.old) (node_parts (node_shown node.entry) described.now)) }
        ensures known { IsSpot (point_of (node_shown node.entry)) }
        ensures just { OnOk result (HasJust (gathered_pieces self.new) (P.state spill.new)) }
        ensures same_faults { OnOk result ((P.state spill.new).faults ≡ (P.state spill.old).faults) }
        ensures failed { OnErr result (CountsOne (P.state spill.old).faults (P.state spill.new).faults) }
        ensures kept { KeepsStore (most_bytes (node_told node.entry)) self.old (P.state spill.old) (P.state spill.new) }
    {
        self.places.put(spill, &node_row(node))?;
        match described {
            Some(front) => put_whole(&mut self.node_units, spill, front, node),
            None => Ok(()),
        }
    }

    // Puts the refs of a way, and the units of one that is a candidate.
    fn put_way<P: Spill>(
        &mut self,
        way: WayView,
        described: &Option<Described>,
        spill: &mut P,
    ) -> Result<(), Failed>
        requires few { HasFew (way_told way) }
        requires front { IfSome described.now IsFront }
        requires just { HasJust (gathered_pieces self.old) (P.state spill.old) }
        ensures put { OnOk result (gathered_rows self.new
            ≡ rows_behind (gathered_rows self.old) (way_parts (way_shown way.entry) described.now)) }
        ensures just { OnOk result (HasJust (gathered_pieces self.new) (P.state spill.new)) }
        ensures same_faults { OnOk result ((P.state spill.new).faults ≡ (P.state spill.old).faults) }
        ensures failed { OnErr result (CountsOne (P.state spill.old).faults (P.state spill.new).faults) }
        ensures kept { KeepsStore (most_bytes (way_told way.entry)) self.old (P.state spill.old) (P.state spill.new) }
    {
        put_rows(&mut self.refs, spill, &mut RefRows::of(way))?;
        match described {
            Some(front) => put_rows(&mut self.way_units, spill, &mut UnitRows::of(front)),
            None => Ok(()),
        }
    }

    // Puts the members and the units of a relation that is a candidate.
    fn put_relation<P: Spill>(
        &mut self,
        relation: RelationView,
        described: &Option<Described>,
        spill: &mut P,
    ) -> Result<(), Failed>
        requires few { HasFew (relation_told relation) }
        requires front { IfSome described.now IsFront }
        requires just { HasJust (gathered_pieces self.old) (P.state spill.old) }
        ensures put { OnOk result (gathered_rows self.new
            ≡ rows_behind (gathered_rows self.old) (relation_parts (relation_shown relation.entry) described.now)) }
        ensures just { OnOk result (HasJust (gathered_pieces self.new) (P.state spill.new)) }
        ensures same_faults { OnOk result ((P.state spill.new).faults ≡ (P.state spill.old).faults) }
        ensures failed { OnErr result (CountsOne (P.state spill.old).faults (P.state spill.new).faults) }
        ensures kept { KeepsStore (most_bytes (relation_told relation.entry)) self.old (P.state spill.old) (P.state spill.new) }
    {
        let Some(front) = described else {
            return Ok(());
        };
        put_rows(&mut self.members, spill, &mut MemberRows::of(relation))?;
        put_rows(&mut self.relation_units, spill, &mut UnitRows::of(front))
    }
}

// A node as a row.
fn node_row(node: NodeView) -> NodeRow
    ensures row { result ≡ node_row_of (node_shown node.entry) }
    ensures known { IsOf node_kind result }
{
    let place = node.place();
    let row = NodeRow {
        node: node.id(),
        lat: place.lat,
        lon: place.lon,
    };
    row.known();
    row
}

// Puts the units of a node that is a candidate, of which the last is its point.
fn put_whole<P: Spill>(
    units: &mut Writer<FeatureRow>,
    spill: &mut P,
    front: &Described,
    node: NodeView,
) -> Result<(), Failed>
    requires started { (P.state spill.old).is_started ≡ true }
    requires held { IsHeld feature_kind units.old (P.state spill.old) }
    requires front { IsFront front.now }
    ensures put { OnOk result
        (ArePut feature_kind (whole_rows (node_shown node.entry) front.now) units.old units.new (P.state spill.new)) }
    ensures same_faults { OnOk result ((P.state spill.new).faults ≡ (P.state spill.old).faults) }
    ensures failed { OnErr result (CountsOne (P.state spill.old).faults (P.state spill.new).faults) }
    ensures within { 29 * (length units.old.rows + length (front_rows front.now) + 1) ≤ part_limit
        → (P.state spill.new).is_overrun ≡ (P.state spill.old).is_overrun }
    ensures same_part { units.new.part ≡ units.old.part }
    ensures only { TouchesOnly units.old.part (P.state spill.old) (P.state spill.new) }
    ensures counts { (P.state spill.old).faults ≤ (P.state spill.new).faults }
{
    put_rows(units, spill, &mut UnitRows::of(front))?;
    let last = first_units(&front.head, &front.texts);
    let unit = point_unit(node.id(), node.place());
    units.put(spill, &row_of(&front.head, last, unit))
}

#[cfg(test)]
mod tests;
