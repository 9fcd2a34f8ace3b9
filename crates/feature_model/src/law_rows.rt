//! The premises of the laws are met, by computed rows: a law that nothing meets would say nothing.

ghost use Rattle.std.specs.Prelude.{◌≡◌, [], ◌∷◌, true, false, Some, None, codes};
ghost use Rattle.std.specs.List.{All, AllByRecursion};
ghost use Rattle.osm_model.specs.Entities.{Node, Way, nodes_of, ways_of};
ghost use Rattle.osm_model.specs.Order.{IsRising};
ghost use Rattle.osm_model.specs.Accepted.{IsAccepted};
ghost use Rattle.feature_model.specs.Points.{may_be_part};
ghost use Rattle.feature_model.specs.Rings.{ends_meet, last_node, take_first};
ghost use Rattle.feature_model.specs.Samples.{bench_with, member_of, piece, stops, three_of_four};

/// A bench is an input in order, and an accepted one.
pub fn premises_are_met()
    ensures rises { IsRising (bench_with []) }
    ensures accepted { All IsAccepted (bench_with []) }
{}

/// A ring whose ends meet; one whose ends don't, with a part that fits and without one; a member that can't be a part;
/// and an id that no node and no way has.
#[tactic(auto, unfolding(crate::proofs::Compute::compute))]
pub fn premises_of_steps_are_met()
    ensures closed { ends_meet (stops (1 ∷ 2 ∷ 1 ∷ [])) ≡ true }
    ensures not_closed { ends_meet (stops (1 ∷ 2 ∷ [])) ≡ false }
    ensures fits { take_first (last_node (stops (1 ∷ 2 ∷ []))) (piece 1 (3 ∷ 4 ∷ []) ∷ piece 2 (3 ∷ 2 ∷ []) ∷ [])
        ≡ Some (piece 2 (3 ∷ 2 ∷ []), piece 1 (3 ∷ 4 ∷ []) ∷ []) }
    ensures none_fits { take_first (last_node (stops (1 ∷ 2 ∷ []))) (piece 1 (3 ∷ 4 ∷ []) ∷ []) ≡ None }
    ensures no_part { may_be_part (member_of 1 (codes "via")) ≡ false }
    ensures no_node { AllByRecursion (λ (n : Node). n.id ≡ 3 → ⊥) (nodes_of three_of_four) }
    ensures no_way { AllByRecursion (λ (w : Way). w.id ≡ 3 → ⊥) (ways_of three_of_four) }
{}
