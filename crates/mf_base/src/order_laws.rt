//! Ordered rows: their law, and a row of small ones.

ghost use Rattle.std.specs.Prelude.{◌≡◌, List, [], ◌∷◌};
ghost use Rattle.mf_base.specs.Ascending.{Bytes, IsAscendingOf, ascending};

/// Rows have one ordered list, and it is `ascending`.
pub fn one_order()
    ensures some { (rows : List Bytes) → IsAscendingOf rows (ascending rows) }
    ensures only { (rows ordered : List Bytes) → IsAscendingOf rows ordered → ordered ≡ ascending rows }
{}

/// Rows are ordered by their bytes, and a row that stands twice stays twice.
#[tactic(auto, unfolding(crate::specs::Ascending::ascending))]
pub fn ordered_rows()
    ensures { ascending ((2 ∷ 0 ∷ []) ∷ (1 ∷ 9 ∷ []) ∷ (2 ∷ 0 ∷ []) ∷ (1 ∷ 8 ∷ []) ∷ [])
        ≡ (1 ∷ 8 ∷ []) ∷ (1 ∷ 9 ∷ []) ∷ (2 ∷ 0 ∷ []) ∷ (2 ∷ 0 ∷ []) ∷ [] }
{}
