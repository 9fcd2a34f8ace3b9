//! Laws of the points of ways.

ghost use Rattle.std.specs.Prelude.{◌≡◌, ◌≤◌, List, map, flat_map, length, sum_by, AllPairs};
ghost use Rattle.std.specs.List.{AllByRecursion};
ghost use Rattle.osm_model.specs.Entities.{Entity, Way, ways_of};
ghost use Rattle.osm_model.specs.Order.{IsRising};
ghost use Rattle.feature_model.specs.Points.{way_points};
ghost use Rattle.spill_parts.specs.Handed.{IsInput, ref_rows};
ghost use Rattle.spill_parts.specs.Join.{Climbs};
ghost use Rattle.row_runs.specs.Runs.{rows_with};
ghost use Rattle.way_points.specs.PointRows.{point_way, way_point_rows, point_rows, point_told};
ghost use Rattle.way_points.specs.PointRows.{IsPointBelow};

/// The points of all ways of an accepted input stand by way, and those of a way by place.
pub fn points_in_order()
    ensures rising { (entities : List Entity) → IsInput entities → IsRising entities }
    ensures rises { (entities : List Entity) → IsRising entities → AllPairs IsPointBelow (point_rows entities) }
    ensures climbs { (entities : List Entity) → IsRising entities → Climbs point_way (point_rows entities) }
{}

/// The rows of a way are its points, and the rows of its id among those of all ways are its own.
pub fn points_of_a_way()
    ensures told { (entities : List Entity) (w : Way)
        → map point_told (way_point_rows entities w) ≡ way_points entities w }
    ensures own { (entities : List Entity) → IsRising entities
        → AllByRecursion (λ (w : Way). rows_with point_way w.id (point_rows entities) ≡ way_point_rows entities w)
        (ways_of entities) }
{}

/// There are no more points than rows of refs, and no more of these than refs.
pub fn no_more_points_than_refs()
    ensures points { (entities : List Entity)
        → length (point_rows entities) ≤ length (flat_map ref_rows (ways_of entities)) }
    ensures rows { (entities : List Entity)
        → length (flat_map ref_rows (ways_of entities)) ≤ sum_by (λ (w : Way). length w.refs) (ways_of entities) }
{}
