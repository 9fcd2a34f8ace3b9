//! Points, rings and blocks on small inputs.

ghost use Rattle.std.specs.Prelude.{◌≡◌, map, Ok, Err, true, false, pos, negsuc, [], ◌∷◌};
ghost use Rattle.mf_base.specs.declared.kind.Role.{Role};
ghost use Rattle.feature_model.specs.Rings.{rings};
ghost use Rattle.feature_model.specs.Inside.{inside};
ghost use Rattle.feature_model.specs.Blocks.{blocks_of, relation_blocks, joined_parts, blocks_in};
ghost use Rattle.feature_model.specs.declared.fault.RingFault.{RingFault};
ghost use Rattle.feature_model.specs.Samples.{at, node_at, piece, stops, part_at, outer, sides, square, points_at};
ghost use Rattle.feature_model.specs.Points.{way_points};

/// Refs below 1 name nothing, whatever their amount.
#[tactic(auto, unfolding(crate::proofs::Compute::compute))]
pub fn refs_of_a_way()
    ensures below { way_points (node_at 1 (at 0 1) [] ∷ node_at 2 (at 0 2) [] ∷ [])
        (record { id = 1; refs = pos 1 ∷ negsuc 0 ∷ pos 0 ∷ negsuc 1 ∷ pos 2 ∷ []; tags = [] }) ≡ stops (1 ∷ 2 ∷ []) }
    ensures no_id { way_points (node_at 0 (at 0 0) [] ∷ []) (record { id = 1; refs = pos 0 ∷ []; tags = [] }) ≡ [] }
{}

/// The first unused part that fits is taken, and an open ring names the part that it starts with.
#[tactic(auto, unfolding(crate::proofs::Compute::compute))]
pub fn rings_of_pieces()
    ensures first_fit { rings (piece 0 (1 ∷ 2 ∷ []) ∷ piece 1 (3 ∷ 2 ∷ []) ∷ piece 2 (2 ∷ 1 ∷ []) ∷ piece 3
        (1 ∷ 3 ∷ []) ∷ []) ≡ Err 2 }
    ensures closed_alone { rings (piece 0 (1 ∷ 2 ∷ 1 ∷ []) ∷ piece 1 (1 ∷ 3 ∷ 1 ∷ []) ∷ [])
        ≡ Ok (stops (1 ∷ 2 ∷ 1 ∷ []) ∷ stops (1 ∷ 3 ∷ 1 ∷ []) ∷ []) }
    ensures reversed { rings (piece 0 (1 ∷ 2 ∷ []) ∷ piece 1 (1 ∷ 4 ∷ 3 ∷ 2 ∷ []) ∷ [])
        ≡ Ok (stops (1 ∷ 2 ∷ 3 ∷ 4 ∷ 1 ∷ []) ∷ []) }
    ensures skips_a_ring { rings (piece 1 (1 ∷ 2 ∷ []) ∷ piece 4 (7 ∷ 8 ∷ 7 ∷ []) ∷ piece 6 (2 ∷ 1 ∷ []) ∷ [])
        ≡ Ok (stops (1 ∷ 2 ∷ 1 ∷ []) ∷ stops (7 ∷ 8 ∷ 7 ∷ []) ∷ []) }
    ensures taken_back { rings (piece 0 (1 ∷ 2 ∷ []) ∷ piece 1 (2 ∷ 5 ∷ 6 ∷ 2 ∷ []) ∷ piece 2 (2 ∷ 1 ∷ []) ∷ [])
        ≡ Ok (stops (1 ∷ 2 ∷ 5 ∷ 6 ∷ 2 ∷ 1 ∷ []) ∷ []) }
    ensures none_fits { rings (piece 3 (1 ∷ 2 ∷ []) ∷ piece 5 (4 ∷ 6 ∷ []) ∷ []) ≡ Err 3 }
    ensures names_its_start { rings (piece 3 (1 ∷ 2 ∷ []) ∷ piece 5 (2 ∷ 4 ∷ []) ∷ []) ≡ Err 3 }
    ensures none { rings [] ≡ Ok [] }
{}

/// Why a relation has no blocks: an open outer ring comes before an open inner one, and places count all parts.
#[tactic(auto, unfolding(crate::proofs::Compute::compute))]
pub fn parts_without_blocks()
    ensures no_outer { relation_blocks (part_at Role.Inner (1 ∷ 2 ∷ []) ∷ []) ≡ Err RingFault.NoOuter }
    ensures outer_first { relation_blocks
        (part_at Role.Inner (1 ∷ 2 ∷ []) ∷ part_at Role.Outer (3 ∷ 4 ∷ 3 ∷ []) ∷ part_at Role.Outer
        (5 ∷ 6 ∷ []) ∷ []) ≡ Err (RingFault.OpenRing 2) }
    ensures inner { relation_blocks (part_at Role.Outer (3 ∷ 4 ∷ 3 ∷ []) ∷ part_at Role.Inner (7 ∷ 8 ∷ 7 ∷ []) ∷ part_at
        Role.Inner (1 ∷ 2 ∷ []) ∷ []) ≡ Err (RingFault.OpenRing 2) }
{}

/// A ring within two outer rings belongs to the first of them, and the inner rings of a block stand in their order.
#[tactic(auto, unfolding(crate::proofs::Compute::compute))]
pub fn inner_rings_of_squares()
    ensures blocks { let i = points_at (at 4 4 ∷ at 4 6 ∷ at 6 6 ∷ at 4 4 ∷ []) in
        let j = points_at (at 1 1 ∷ at 1 5 ∷ at 5 5 ∷ at 1 1 ∷ []) in
        let k = points_at (at 1 21 ∷ at 1 22 ∷ at 2 22 ∷ at 1 21 ∷ []) in
        blocks_of (square 0 0 10 10 ∷ square 2 2 8 8 ∷ square 0 20 4 24 ∷ []) (i ∷ k ∷ j ∷ [])
        ≡ (square 0 0 10 10 ∷ i ∷ j ∷ []) ∷ (square 2 2 8 8 ∷ []) ∷ (square 0 20 4 24 ∷ k ∷ []) ∷ [] }
{}

/// The rings of blocks in the place of the parts.
#[tactic(auto, unfolding(crate::proofs::Compute::compute))]
pub fn parts_of_blocks()
    ensures parts { joined_parts
        ((stops (1 ∷ 2 ∷ 1 ∷ []) ∷ stops (3 ∷ 3 ∷ []) ∷ stops (4 ∷ 4 ∷ []) ∷ []) ∷ (stops (5 ∷ 5 ∷ []) ∷ []) ∷ [])
        ≡ part_at Role.Outer (1 ∷ 2 ∷ 1 ∷ []) ∷ part_at Role.Inner (3 ∷ 3 ∷ []) ∷ part_at Role.Inner
        (4 ∷ 4 ∷ []) ∷ part_at Role.Outer (5 ∷ 5 ∷ []) ∷ [] }
    ensures back { blocks_in (part_at Role.Inner (6 ∷ 6 ∷ []) ∷ part_at Role.Outer (1 ∷ 2 ∷ 1 ∷ []) ∷ part_at Role.Inner
        (3 ∷ 3 ∷ []) ∷ part_at Role.Outer (5 ∷ 5 ∷ []) ∷ part_at Role.Inner (4 ∷ 4 ∷ []) ∷ [])
        ≡ (stops (1 ∷ 2 ∷ 1 ∷ []) ∷ stops (3 ∷ 3 ∷ []) ∷ []) ∷ (stops (5 ∷ 5 ∷ []) ∷ stops (4 ∷ 4 ∷ []) ∷ []) ∷ [] }
{}

/// The edges of a square: the south and the west belong to its inside, the north and the east do not.
#[tactic(auto, unfolding(crate::proofs::Compute::compute))]
pub fn inside_of_a_square()
    ensures a_square { map (inside ((at 0 0 ∷ at 0 4 ∷ at 4 4 ∷ at 4 0 ∷ at 0 0 ∷ []) ∷ []))
        (at 2 2 ∷ at 0 2 ∷ at 2 0 ∷ at 0 0 ∷ at 4 2 ∷ at 2 4 ∷ at 4 4 ∷ at 2 5 ∷ [])
        ≡ true ∷ true ∷ true ∷ true ∷ false ∷ false ∷ false ∷ false ∷ [] }
    ensures a_hole { map
        (inside ((at 0 0 ∷ at 0 4 ∷ at 4 4 ∷ at 4 0 ∷ at 0 0 ∷ []) ∷ (at 1 1 ∷ at 3 1 ∷ at 3 3 ∷ at 1 3 ∷ at 1
        1 ∷ []) ∷ [])) (at 2 2 ∷ at 0 2 ∷ [])
        ≡ false ∷ true ∷ [] }
    ensures a_lake { inside (sides ∷ []) (at 11178401 11250000) ≡ true }
{}
