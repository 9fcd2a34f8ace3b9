//! Laws of the points of members.

ghost use Rattle.std.specs.Prelude.{◌≡◌, ◌+◌, ◌≤◌, ℕ, List, map, length};
ghost use Rattle.std.specs.List.{AllByRecursion};
ghost use Rattle.osm_model.specs.Entities.{Entity, Relation, relations_of};
ghost use Rattle.osm_model.specs.Order.{IsRising};
ghost use Rattle.feature_model.specs.Mapping.{Mapping};
ghost use Rattle.feature_model.specs.Points.{Part, parts, relation_parts};
ghost use Rattle.feature_model.specs.Weights.{point_count};
ghost use Rattle.spill_parts.specs.Handed.{candidate_relations};
ghost use Rattle.spill_parts.specs.Join.{Climbs};
ghost use Rattle.row_runs.specs.Runs.{rows_with};
ghost use Rattle.member_points.specs.RelRows.{rel_relation, relation_point_rows, rel_rows, parts_of_rows};

/// The points of the members of all candidates stand by relation, and the rows of a relation's id are its own.
pub fn rel_rows_in_order()
    ensures climbs { (limit : ℕ) (mapping : Mapping) (entities : List Entity) → IsRising entities
        → Climbs rel_relation (rel_rows limit mapping entities) }
    ensures own { (limit : ℕ) (mapping : Mapping) (entities : List Entity) → IsRising entities
        → AllByRecursion (λ (r : Relation). rows_with rel_relation r.id (rel_rows limit mapping entities)
        ≡ relation_point_rows limit entities r) (candidate_relations mapping (relations_of entities)) }
{}

/// The rows of a relation tell its parts, where its points are no more than the limit; and else still how many parts
/// there are, and how many points each has.
pub fn parts_of_a_relation()
    ensures told { (limit : ℕ) (entities : List Entity) (r : Relation) → IsRising entities
        → point_count (parts (relation_parts entities r)) ≤ limit
        → parts_of_rows (relation_point_rows limit entities r) ≡ relation_parts entities r }
    ensures counted { (limit : ℕ) (entities : List Entity) (r : Relation) → IsRising entities
        → map (λ (part : Part). length part.points) (parts_of_rows (relation_point_rows limit entities r))
        ≡ map (λ (part : Part). length part.points) (relation_parts entities r) }
{}

/// A relation has no more rows than members and points of its parts: a member that is no part has at most one.
pub fn no_more_rel_rows()
    ensures { (limit : ℕ) (entities : List Entity) (r : Relation) → IsRising entities
        → length (relation_point_rows limit entities r)
        ≤ length r.members + point_count (parts (relation_parts entities r)) }
{}
