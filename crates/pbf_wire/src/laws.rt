//! What follows for whoever goes over the fields from front to back, each law on a function that does nothing.

ghost use Rattle.std.specs.Prelude.{◌≡◌, ◌≢◌, ℕ, List, [], ◌∷◌, ◌++◌, unwrap_or, Some};
ghost use Rattle.osm_model.specs.Wire.{Field, varint};
ghost use Rattle.osm_model.specs.Tables.{values_of, bytes_of, number_of};

/// Of a number that comes several times the last counts; one that is absent has its default.
pub fn last_number()
    ensures last { (k n : ℕ) (fs : List Field) (f : Field) → f.number ≡ k → f.value ≡ varint n
        → number_of k (fs ++ f ∷ []) ≡ Some n }
    ensures others { (k : ℕ) (fs : List Field) (f : Field) → f.number ≢ k
        → number_of k (fs ++ f ∷ []) ≡ number_of k fs }
    ensures absent { (k default : ℕ) (fs : List Field) → values_of k fs ≡ []
        → unwrap_or (number_of k fs) default ≡ default }
{}

/// The values of a field, and their bytes, stand in the order of the fields.
pub fn values_in_order()
    ensures values { (k : ℕ) (fs gs : List Field) → values_of k (fs ++ gs) ≡ values_of k fs ++ values_of k gs }
    ensures bytes { (k : ℕ) (fs gs : List Field) → bytes_of k (fs ++ gs) ≡ bytes_of k fs ++ bytes_of k gs }
{}
