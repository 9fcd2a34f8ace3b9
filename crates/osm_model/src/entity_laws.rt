//! Laws of the entities of a block, for whoever reads them one after another; each on a function that does nothing.

ghost use Rattle.std.specs.Prelude.{◌≡◌, ◌≢◌, ◌⊎◌, Err, ℕ, List, [], ◌∷◌, length, pos, ◌+ℤ◌, ℤ, Option};
ghost use Rattle.osm_model.specs.Blocks.{PrimitiveBlock};
ghost use Rattle.osm_model.specs.Objects.{TagRun, runs_of, next_run, other_runs, left_over, dense_node, dense_from};
ghost use Rattle.osm_model.specs.Objects.{dense_columns};

use crate::faults::EntityFault;

/// The columns of DenseNodes are of one length, or refused.
pub fn columns_of_one_length()
    ensures same { (b : PrimitiveBlock) (ids lats lons : List ℤ) (keys_vals : List ℕ)
        → length ids ≡ length lats → length ids ≡ length lons
        → dense_columns b ids lats lons keys_vals
        ≡ dense_from b (pos 0, pos 0, pos 0) ids lats lons (runs_of keys_vals) }
    ensures differ { (b : PrimitiveBlock) (ids lats lons : List ℤ) (keys_vals : List ℕ)
        → (length ids ≢ length lats) ⊎ (length ids ≢ length lons)
        → dense_columns b ids lats lons keys_vals ≡ Err EntityFault.Columns ∷ [] }
{}

/// What is left of DenseNodes behind a node is DenseNodes again, with differences to that node.
pub fn next_dense_node()
    ensures next { (b : PrimitiveBlock) (n d : ℤ × ℤ × ℤ) (ids lats lons : List ℤ) (runs : Option (List TagRun))
        → dense_from b n (d.0 ∷ ids) (d.1 ∷ lats) (d.2 ∷ lons) runs
        ≡ dense_node b (n.0 +ℤ d.0, n.1 +ℤ d.1, n.2 +ℤ d.2) (next_run runs)
        ∷ dense_from b (n.0 +ℤ d.0, n.1 +ℤ d.1, n.2 +ℤ d.2) ids lats lons (other_runs runs) }
    ensures end { (b : PrimitiveBlock) (n : ℤ × ℤ × ℤ) (runs : Option (List TagRun))
        → dense_from b n [] [] [] runs ≡ left_over runs }
{}
