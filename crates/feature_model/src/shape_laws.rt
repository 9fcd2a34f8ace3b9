//! Laws of points, parts, rings and candidates, one step at a time.

ghost use Rattle.std.specs.Prelude.{◌≡◌, ℕ, pos, List, [], ◌∷◌, ◌++◌, map, filter_map, length, Some, None, Ok, Err};
ghost use Rattle.std.specs.Prelude.{true, false};
ghost use Rattle.std.specs.List.{AllByRecursion};
ghost use Rattle.osm_model.specs.Entities.{Entity, Node, Way, Member, Relation, node, way, relation, nodes_of, ways_of};
ghost use Rattle.osm_model.specs.Entities.{relations_of};
ghost use Rattle.osm_model.specs.Order.{IsRising};
ghost use Rattle.feature_model.specs.Mapping.{Mapping};
ghost use Rattle.feature_model.specs.Points.{Point, Part, node_named, way_named, way_points, member_part};
ghost use Rattle.feature_model.specs.Points.{relation_parts};
ghost use Rattle.feature_model.specs.Points.{may_be_part, numbered_points, numbered_parts, parts_of};
ghost use Rattle.feature_model.specs.Rings.{Piece, Begun, Joined, ends_meet, last_node, extended, take_first, rings};
ghost use Rattle.feature_model.specs.Rings.{grow};
ghost use Rattle.feature_model.specs.Rings.{and_then_rings, with_rings};
ghost use Rattle.feature_model.specs.Descriptions.{texts_length};
ghost use Rattle.feature_model.specs.Candidates.{Candidate, candidate_of, candidates};
ghost use Rattle.feature_model.specs.Weights.{point_count, weight, weight_of_counts};

/// Without their places the points of a way and the parts of a relation are those that stand; a member that can't be a
/// part has none.
#[tactic(auto, using(crate::proofs::ShapeLaws::shape_laws))]
pub fn points_and_parts_by_place()
    ensures points { (entities : List Entity) (w : Way)
        → map (λ (p : ℕ × Point). p.1) (numbered_points entities w) ≡ way_points entities w }
    ensures parts { (entities : List Entity) (r : Relation)
        → map (λ (p : ℕ × Part). p.1) (numbered_parts entities r) ≡ relation_parts entities r }
    ensures none { (entities : List Entity) (m : Member) → may_be_part m ≡ false → member_part entities m ≡ None }
{}

/// Under rising ids a node and a way are found by their ids, and an id that none has finds nothing.
pub fn found_by_id()
    ensures nodes { (entities : List Entity) → IsRising entities
        → AllByRecursion (λ (n : Node). node_named entities (pos n.id) ≡ Some n) (nodes_of entities) }
    ensures ways { (entities : List Entity) → IsRising entities
        → AllByRecursion (λ (w : Way). way_named entities (pos w.id) ≡ Some w) (ways_of entities) }
    ensures no_node { (entities : List Entity) (id : ℕ)
        → AllByRecursion (λ (n : Node). n.id ≡ id → ⊥) (nodes_of entities) → node_named entities (pos id) ≡ None }
    ensures no_way { (entities : List Entity) (id : ℕ)
        → AllByRecursion (λ (w : Way). w.id ≡ id → ⊥) (ways_of entities) → way_named entities (pos id) ≡ None }
{}

/// A weight is told by the numbers of parts and points and the bytes of the texts; candidates are those of nodes, then
/// of ways, then of relations.
#[tactic(auto, using(crate::proofs::ShapeLaws::shape_laws))]
pub fn candidates_by_kind()
    ensures weight { (c : Candidate)
        → weight c ≡ weight_of_counts (length (parts_of c.geometry)) (point_count c.geometry)
        (texts_length c.description) }
    ensures kinds { (mapping : Mapping) (entities : List Entity) → candidates mapping entities
        ≡ filter_map (candidate_of mapping entities) (map node (nodes_of entities))
        ++ filter_map (candidate_of mapping entities) (map way (ways_of entities))
        ++ filter_map (candidate_of mapping entities) (map relation (relations_of entities)) }
{}

/// One step of joining: a closed ring is done, a part that fits is added, and where none fits the ring is open; and
/// rings that are done stand before the others.
#[tactic(auto, using(crate::proofs::RingSteps::step_laws))]
pub fn joining_by_steps()
    ensures starts { (part : Piece) (unused : List Piece) → rings (part ∷ unused) ≡ grow part unused }
    ensures closed { (ring : Begun) (unused : List Piece) → ends_meet ring.points ≡ true
        → grow ring unused ≡ and_then_rings ring.points (rings unused) }
    ensures adds { (ring : Begun) (unused rest : List Piece) (part : Piece) → ends_meet ring.points ≡ false
        → take_first (last_node ring.points) unused ≡ Some (part, rest)
        → grow ring unused ≡ grow (extended ring part) rest }
    ensures open_ring { (ring : Begun) (unused : List Piece) → ends_meet ring.points ≡ false
        → take_first (last_node ring.points) unused ≡ None → grow ring unused ≡ Err ring.number }
    ensures done { (done : List (List Point)) (ring : List Point) (outcome : Joined)
        → with_rings (done ++ ring ∷ []) outcome ≡ with_rings done (and_then_rings ring outcome) }
    ensures all_done { (done : List (List Point)) → with_rings done (Ok []) ≡ Ok done }
    ensures stays_open { (done : List (List Point)) (start : ℕ) → with_rings done (Err start) ≡ Err start }
{}
