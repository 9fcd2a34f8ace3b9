//! Laws of the rows of tiles.

ghost use Rattle.std.specs.Prelude.{◌≡◌, ◌≤◌, ℕ, List, [], ◌∷◌, ◌++◌};
ghost use Rattle.std.specs.Prelude.{◌<◌, Some, None, map, length, sum_by, IsTrue, AllPairs, false, flat_map};
ghost use Rattle.std.specs.List.{AllByRecursion};
ghost use Rattle.mf_base.specs.declared.place.Rect.{Rect};
ghost use Rattle.mf_base.specs.declared.tile.Interval.{Interval};
ghost use Rattle.mf_base.specs.declared.tile.TilePlace.{TilePlace};
ghost use Rattle.mf_base.specs.declared.tile.TileRect.{TileRect};
ghost use Rattle.feature_model.specs.Features.{Feature};
ghost use Rattle.map_model.specs.Header.{HeadSettings};
ghost use Rattle.map_model.specs.MapFile.{all_tiles, tile_weight};
ghost use Rattle.map_model.specs.Intervals.{are_intervals, tile_place};
ghost use Rattle.map_model.specs.Rectangles.{rect_of};
ghost use Rattle.map_model.specs.TileRects.{common, tile_rect, from_to};
ghost use Rattle.map_model.specs.Members.{members};
ghost use Rattle.map_model.specs.NumberedMembers.{TileBelow, members_by};
ghost use Rattle.mf_rows.specs.RowKinds.{IsOf};
ghost use Rattle.mf_rows.specs.Kinds.{shape_kind, tile_kind};
ghost use Rattle.mf_rows.specs.declared.kinds.ShapeRow.{ShapeRow};
ghost use Rattle.mf_rows.specs.declared.kinds.TileRow.{TileRow};
ghost use Rattle.spill_parts.specs.Parts.{ordered_rows};
ghost use Rattle.spill_parts.specs.Shaped.{Spelled, shape_rows, IsLight, AreShapes};
ghost use Rattle.tile_rows.specs.TileRows.{shown, member_rows, interval_rows, feature_rows, put_rows};
ghost use Rattle.tile_rows.specs.TileRows.{tile_rows, rows_of_tiles, all_tile_rows, AreNumbered};
ghost use Rattle.tile_rows.specs.Reading.{is_row_of, rows_from, BeginsMember, BeginsFeature};

/// The rows that are put, in the order of a part, are tile after tile those of its members; and no more rows are put
/// than all tiles weigh.
#[tactic(auto, using(crate::proofs::RowOrder::order_laws, crate::proofs::RowCount::count_laws))]
pub fn rows_in_order()
    ensures all { (set : HeadSettings) (box : Rect) (list : List Spelled) → IsTrue (are_intervals set.intervals)
        → AreNumbered list → ordered_rows tile_kind (put_rows set box list) ≡ all_tile_rows set box list }
    ensures within { (limit : ℕ) (set : HeadSettings) (box : Rect) (list : List Spelled)
        → IsTrue (are_intervals set.intervals) → AllByRecursion (IsLight limit) list
        → length (put_rows set box list) ≤ sum_by (tile_weight (map shown list)) (all_tiles set box) }
{}

/// What is put, as loops put it: feature after feature, and for a feature in an interval row after row of the tiles
/// that the box and its rectangle have in common.
pub fn rows_are_put()
    ensures one_more { (set : HeadSettings) (box : Rect) (list : List Spelled) (s : Spelled)
        → put_rows set box (list ++ s ∷ []) ≡ put_rows set box list ++ feature_rows set box s }
    ensures above { (box : Rect) (index : ℕ) (interval : Interval) (s : Spelled) → interval.max < (shown s).zoom
        → interval_rows box index interval s ≡ [] }
    ensures none { (box : Rect) (index : ℕ) (interval : Interval) (s : Spelled) → (shown s).zoom ≤ interval.max
        → common (tile_rect box interval.base) (tile_rect (rect_of (shown s)) interval.base) ≡ None
        → interval_rows box index interval s ≡ [] }
    ensures shared { (box : Rect) (index : ℕ) (interval : Interval) (s : Spelled) (t : TileRect)
        → (shown s).zoom ≤ interval.max
        → common (tile_rect box interval.base) (tile_rect (rect_of (shown s)) interval.base) ≡ Some t
        → interval_rows box index interval s
        ≡ flat_map (λ y. flat_map (λ x. member_rows (tile_place index interval (x, y)) s)
        (from_to t.first_x t.last_x)) (from_to t.first_y t.last_y) }
{}

/// The records whose rows a tile has show its members in order, and the rows of a record have its units.
pub fn rows_of_members()
    ensures members { (list : List Spelled) (tile : TilePlace)
        → map shown (members_by shown list tile) ≡ members (map shown list) tile }
    ensures units { (tile : TilePlace) (s : Spelled) → map (λ (r : TileRow). r.unit) (member_rows tile s) ≡ s.units }

    // A tile weighs what the heads of its members tell, and has at most as many rows.
    ensures weight { (list : List Spelled) (tile : TilePlace) → tile_weight (map shown list) tile
        ≡ sum_by (λ (s : Spelled). s.told.head.weight) (members_by shown list tile) }
    ensures many { (limit : ℕ) (list : List Spelled) (tile : TilePlace) → AllByRecursion (IsLight limit) list
        → length (tile_rows list tile) ≤ tile_weight (map shown list) tile }
    ensures light { (limit : ℕ) (list : List Spelled) (tile : TilePlace) → AllByRecursion (IsLight limit) list
        → AllByRecursion (IsLight limit) (members_by shown list tile) }
{}

/// The records that rows of shapes spell are numbered, and each has rows, where the rows are those of a part.
pub fn shapes_are_numbered()
    ensures { (limit : ℕ) (list : List Feature) (rows : List ShapeRow) (is : AreShapes limit list rows)
        → AllByRecursion (IsOf shape_kind) rows → AreNumbered is.spelled }
{}

/// A reader of the ordered rows finds each tile's members in order: a row of the tile begins the next member, and any
/// other row, or none, comes behind the last.
pub fn rows_are_read_by_tile()
    ensures later { (set : HeadSettings) (box : Rect) (before : List TilePlace) (tile : TilePlace)
        (later : List TilePlace) → all_tiles set box ≡ before ++ tile ∷ later → AllPairs TileBelow (tile ∷ later) }

    // Before its first row all members of a tile are left, and behind its last the rows of the later tiles.
    ensures at_tile { (list : List Spelled) (tile : TilePlace) (later : List TilePlace)
        → rows_of_tiles list (tile ∷ later) ≡ rows_from list tile (members_by shown list tile) later }
    ensures past_tile { (list : List Spelled) (tile : TilePlace) (later : List TilePlace)
        → rows_from list tile [] later ≡ rows_of_tiles list later }

    ensures begins { (list : List Spelled) (tile : TilePlace) (rest : List Spelled) (later : List TilePlace)
        (row : TileRow) (left : List TileRow) → AllPairs TileBelow (tile ∷ later)
        → row ∷ left ≡ rows_from list tile rest later → IsTrue (is_row_of tile row)
        → BeginsMember list tile rest later row left }
    ensures tile_ends { (list : List Spelled) (tile : TilePlace) (rest : List Spelled) (later : List TilePlace)
        (row : TileRow) (left : List TileRow) → row ∷ left ≡ rows_from list tile rest later
        → is_row_of tile row ≡ false → rest ≡ [] }
    ensures rows_end { (list : List Spelled) (tile : TilePlace) (rest : List Spelled) (later : List TilePlace)
        → [] ≡ rows_from list tile rest later → rest ≡ [] }
{}

/// A reader of the rows of features finds them one behind another.
pub fn features_are_read()
    ensures begins { (list : List Spelled) (row : ShapeRow) (left : List ShapeRow)
        → row ∷ left ≡ flat_map shape_rows list → BeginsFeature list row left }
    ensures ends { (list : List Spelled) → [] ≡ flat_map shape_rows list → list ≡ [] }
{}
