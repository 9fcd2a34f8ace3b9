//! Laws of runs, each on a function that does nothing.

ghost use Rattle.std.specs.Prelude.{◌≡◌, ◌≢◌, ◌+◌, ◌<◌, ◌≤◌, ℕ, true, List, [], ◌∷◌, Bool, Some, None, map, flat_map, length};
ghost use Rattle.std.specs.List.{AllByRecursion, filter};
ghost use Rattle.spill_parts.specs.Join.{Climbs, Rises, from_key};
ghost use Rattle.row_runs.specs.Runs.{rows_with, run_of, after_run, run_keys, HasAllFrom, HasItsKey, has_rows};
ghost use Rattle.row_runs.specs.Running.{GivesOf};

/// In rows whose keys climb, those of a key are the run in front, once the lower ones are passed over; the rows behind
/// that run are those of the later keys; and of a lower key none is left.
pub fn rows_are_runs<R>()
    ensures run { (key : R → ℕ) (k : ℕ) (rows : List R) → Climbs key rows
        → rows_with key k rows ≡ run_of key k (from_key key k rows) }
    ensures behind { (key : R → ℕ) (k : ℕ) (rows : List R) → Climbs key rows
        → after_run key k (from_key key k rows) ≡ from_key key (k + 1) rows }
    ensures lower { (key : R → ℕ) (k later : ℕ) (rows : List R) → k < later → Climbs key rows
        → rows_with key k (from_key key later rows) ≡ [] }
{}

/// The keys of the runs, where the keys of the rows climb: they rise, and the runs of all of them, one behind another, are
/// the rows. The first is that of the first row, and the others are those behind its run.
pub fn keys_of_runs<R>()
    ensures rise { (key : R → ℕ) (rows : List R) → Climbs key rows → Rises (λ k. k) (run_keys key rows) }
    ensures all { (key : R → ℕ) (rows : List R) → Climbs key rows
        → flat_map (λ k. rows_with key k rows) (run_keys key rows) ≡ rows }
    ensures none { (key : R → ℕ) → run_keys key [] ≡ [] }
    ensures first { (key : R → ℕ) (row : R) (rows : List R)
        → run_keys key (row ∷ rows) ≡ key row ∷ run_keys key (after_run key (key row) rows) }
{}

/// Going on to a later key leads to the same rows, whether those below a lower key were passed over before, and whether
/// the run of a lower key was given.
pub fn later_keys<R>()
    ensures sought { (key : R → ℕ) (k later : ℕ) (rows : List R) → k ≤ later
        → from_key key later (from_key key k rows) ≡ from_key key later rows }
    ensures given { (key : R → ℕ) (k later : ℕ) (rows : List R) → k < later
        → from_key key later (after_run key k rows) ≡ from_key key later rows }
    ensures both { (key : R → ℕ) (k later : ℕ) (rows : List R) → k < later
        → from_key key later (after_run key k (from_key key k rows)) ≡ from_key key later rows }
{}

/// The invariant of a loop over rising keys: no row was passed that has the next key or a later one. So the run in front
/// of it has all rows of that key.
pub fn left_for_next_key<R>()
    ensures first { (key : R → ℕ) (rows : List R) → HasAllFrom key 0 rows rows }
    ensures sought { (key : R → ℕ) (k next : ℕ) (left rows : List R) → k ≤ next → HasAllFrom key k left rows
        → HasAllFrom key next (from_key key next left) rows }
    ensures run { (key : R → ℕ) (k : ℕ) (left rows : List R) → Climbs key rows → HasAllFrom key k left rows
        → run_of key k (from_key key k left) ≡ rows_with key k rows }
    ensures behind { (key : R → ℕ) (k : ℕ) (left rows : List R) → HasAllFrom key k left rows
        → HasAllFrom key (k + 1) (after_run key k left) rows }
{}

/// What the loop over one run goes by: a row that is given was the first of the run, and where none is given the run has
/// ended.
pub fn rows_of_a_run<R>()
    ensures given { (key : R → ℕ) (k : ℕ) (tells : Bool) (left : List R) (row : R) (left_now : List R)
        → GivesOf key k tells left (Some row) left_now → tells ≡ true
        → (run_of key k left ≡ row ∷ run_of key k left_now) × (after_run key k left ≡ after_run key k left_now) }
    ensures less { (key : R → ℕ) (k : ℕ) (tells : Bool) (left : List R) (row : R) (left_now : List R)
        → GivesOf key k tells left (Some row) left_now → length left ≡ length left_now + 1 }
    ensures ended { (key : R → ℕ) (k : ℕ) (tells : Bool) (left left_now : List R)
        → GivesOf key k tells left None left_now → (run_of key k left ≡ []) × (after_run key k left ≡ left) }
{}

/// The rows of items with rising ids, of which each has rows with its id alone: their keys climb; the rows of an item's
/// id are its own, and of any other key there is none; and the items that have rows have one run each.
pub fn rows_of_items<W, R>()
    ensures climbs { (id : W → ℕ) (key : R → ℕ) (rows_of : W → List R) (items : List W)
        → AllByRecursion (HasItsKey id key rows_of) items → Rises id items → Climbs key (flat_map rows_of items) }
    ensures of_each { (id : W → ℕ) (key : R → ℕ) (rows_of : W → List R) (items : List W)
        → AllByRecursion (HasItsKey id key rows_of) items → Rises id items
        → AllByRecursion (λ item. rows_with key (id item) (flat_map rows_of items) ≡ rows_of item) items }
    ensures of_none { (id : W → ℕ) (key : R → ℕ) (rows_of : W → List R) (items : List W) (k : ℕ)
        → AllByRecursion (HasItsKey id key rows_of) items → AllByRecursion (λ item. id item ≢ k) items
        → rows_with key k (flat_map rows_of items) ≡ [] }
    ensures runs { (id : W → ℕ) (key : R → ℕ) (rows_of : W → List R) (items : List W)
        → AllByRecursion (HasItsKey id key rows_of) items → Rises id items
        → run_keys key (flat_map rows_of items) ≡ map id (filter (has_rows rows_of) items) }
{}
