//! The definitions on small rows.

ghost use Rattle.std.specs.Prelude.{◌≡◌, map, pos, negsuc, [], ◌∷◌};
ghost use Rattle.mf_rows.specs.Fields.{Row, fields_width, fields_of};
ghost use Rattle.mf_rows.specs.RowKinds.{bytes_of};
ghost use Rattle.mf_rows.specs.Kinds.{node_row, ref_row, point_row, member_row, rel_row, feature_row, shape_row};
ghost use Rattle.mf_rows.specs.Kinds.{tile_row, index_row, node_kind, index_kind};
ghost use Rattle.mf_rows.specs.declared.kinds.NodeRow.{NodeRow};
ghost use Rattle.mf_rows.specs.declared.kinds.RefRow.{RefRow};
ghost use Rattle.mf_rows.specs.declared.kinds.PointRow.{PointRow};
ghost use Rattle.mf_rows.specs.declared.kinds.MemberRow.{MemberRow};
ghost use Rattle.mf_rows.specs.declared.kinds.RelRow.{RelRow};
ghost use Rattle.mf_rows.specs.declared.kinds.FeatureRow.{FeatureRow};
ghost use Rattle.mf_rows.specs.declared.kinds.ShapeRow.{ShapeRow};
ghost use Rattle.mf_rows.specs.declared.kinds.TileRow.{TileRow};
ghost use Rattle.mf_rows.specs.declared.kinds.IndexRow.{IndexRow};

/// A row of a node south of the equator, and one of a tile.
#[tactic(auto, unfolding(crate::proofs::Compute::compute))]
pub fn bytes_of_rows()
    ensures node { bytes_of node_kind (record { node = 258; lat = negsuc 0; lon = pos 180000000 }) ≡ 0 ∷ 0 ∷ 0 ∷ 0 ∷ 0
        ∷ 0 ∷ 1 ∷ 2 ∷ 255 ∷ 255 ∷ 255 ∷ 255 ∷ 10 ∷ 186 ∷ 149 ∷ 0 ∷ [] }
    ensures index { bytes_of index_kind (record { interval = 2; y = 1; x = 256; water = 1; size = 5 }) ≡ 2 ∷ 0 ∷ 0 ∷ 0
        ∷ 1 ∷ 0 ∷ 0 ∷ 1 ∷ 0 ∷ 1 ∷ 0 ∷ 0 ∷ 0 ∷ 0 ∷ 0 ∷ 0 ∷ 0 ∷ 5 ∷ [] }
{}

/// How many bytes a row of each kind takes, and how many of them its key.
#[tactic(auto, unfolding(crate::proofs::Compute::compute))]
pub fn widths_of_rows()
    ensures widths { (n : NodeRow) (r : RefRow) (p : PointRow) (m : MemberRow) (l : RelRow) (f : FeatureRow)
        (s : ShapeRow) (t : TileRow) (i : IndexRow) →
        map (λ row. fields_width (fields_of row)) (node_row n ∷ ref_row r ∷ point_row p ∷ member_row m ∷ rel_row
        l ∷ feature_row f ∷ shape_row s ∷ tile_row t ∷ index_row i ∷ [])
        ≡ 16 ∷ 20 ∷ 28 ∷ 21 ∷ 33 ∷ 29 ∷ 28 ∷ 39 ∷ 18 ∷ [] }
    ensures keys { (n : NodeRow) (r : RefRow) (p : PointRow) (m : MemberRow) (l : RelRow) (f : FeatureRow)
        (s : ShapeRow) (t : TileRow) (i : IndexRow) →
        map (λ (row : Row). fields_width row.key) (node_row n ∷ ref_row r ∷ point_row p ∷ member_row m ∷ rel_row
        l ∷ feature_row f ∷ shape_row s ∷ tile_row t ∷ index_row i ∷ [])
        ≡ 8 ∷ 20 ∷ 12 ∷ 20 ∷ 16 ∷ 13 ∷ 12 ∷ 23 ∷ 9 ∷ [] }
{}
