//! How each kind of rows is put and read: its fields at their places. The last field is put first, so that what is put
//! stands before what was put.

use crate::fields::{
    get_i32, get_u8, get_u32, get_u64, get_unit, put_i32, put_u8, put_u32, put_u64, put_unit,
};
use crate::kind::RowKind;
use crate::kinds::{
    FeatureRow, IndexRow, MemberRow, NodeRow, PointRow, RefRow, RelRow, ShapeRow, TileRow,
};

impl RowKind for NodeRow {
    ghost use Rattle.std.proofs.Common.{refl};
    ghost use Rattle.mf_rows.specs.Kinds.{node_kind};
    ghost use Rattle.mf_rows.specs.Laws.{node-laws};

    ghost kind = { node_kind };

    ghost WIDTH = { 16 };

    const WIDTH: usize = 16;

    ghost KEY = { 8 };

    const KEY: usize = 8;

    fn known(self) {}

    fn put(&self, out: &mut [u8]) {
        put_i32(out, 12, self.lon);
        put_i32(out, 8, self.lat);
        put_u64(out, 0, self.node);
    }

    fn get(bytes: &[u8]) -> Self {
        NodeRow {
            node: get_u64(bytes, 0),
            lat: get_i32(bytes, 8),
            lon: get_i32(bytes, 12),
        }
    }

    ghost width = { refl };

    ghost key = { refl };

    ghost laws = { node-laws };
}

impl RowKind for RefRow {
    ghost use Rattle.std.proofs.Common.{refl};
    ghost use Rattle.mf_rows.specs.Kinds.{ref_kind};
    ghost use Rattle.mf_rows.specs.Laws.{ref-laws};

    ghost kind = { ref_kind };

    ghost WIDTH = { 20 };

    const WIDTH: usize = 20;

    ghost KEY = { 20 };

    const KEY: usize = 20;

    fn known(self) {}

    fn put(&self, out: &mut [u8]) {
        put_u32(out, 16, self.place);
        put_u64(out, 8, self.way);
        put_u64(out, 0, self.node);
    }

    fn get(bytes: &[u8]) -> Self {
        RefRow {
            node: get_u64(bytes, 0),
            way: get_u64(bytes, 8),
            place: get_u32(bytes, 16),
        }
    }

    ghost width = { refl };

    ghost key = { refl };

    ghost laws = { ref-laws };
}

impl RowKind for PointRow {
    ghost use Rattle.std.proofs.Common.{refl};
    ghost use Rattle.mf_rows.specs.Kinds.{point_kind};
    ghost use Rattle.mf_rows.specs.Laws.{point-laws};

    ghost kind = { point_kind };

    ghost WIDTH = { 28 };

    const WIDTH: usize = 28;

    ghost KEY = { 12 };

    const KEY: usize = 12;

    fn known(self) {}

    fn put(&self, out: &mut [u8]) {
        put_i32(out, 24, self.lon);
        put_i32(out, 20, self.lat);
        put_u64(out, 12, self.node);
        put_u32(out, 8, self.place);
        put_u64(out, 0, self.way);
    }

    fn get(bytes: &[u8]) -> Self {
        PointRow {
            way: get_u64(bytes, 0),
            place: get_u32(bytes, 8),
            node: get_u64(bytes, 12),
            lat: get_i32(bytes, 20),
            lon: get_i32(bytes, 24),
        }
    }

    ghost width = { refl };

    ghost key = { refl };

    ghost laws = { point-laws };
}

impl RowKind for MemberRow {
    ghost use Rattle.std.proofs.Common.{refl};
    ghost use Rattle.mf_rows.specs.Kinds.{member_kind};
    ghost use Rattle.mf_rows.specs.Laws.{member-laws};

    ghost kind = { member_kind };

    ghost WIDTH = { 21 };

    const WIDTH: usize = 21;

    ghost KEY = { 20 };

    const KEY: usize = 20;

    fn known(self) {}

    fn put(&self, out: &mut [u8]) {
        put_u8(out, 20, self.role);
        put_u32(out, 16, self.member);
        put_u64(out, 8, self.relation);
        put_u64(out, 0, self.way);
    }

    fn get(bytes: &[u8]) -> Self {
        MemberRow {
            way: get_u64(bytes, 0),
            relation: get_u64(bytes, 8),
            member: get_u32(bytes, 16),
            role: get_u8(bytes, 20),
        }
    }

    ghost width = { refl };

    ghost key = { refl };

    ghost laws = { member-laws };
}

impl RowKind for RelRow {
    ghost use Rattle.std.proofs.Common.{refl};
    ghost use Rattle.mf_rows.specs.Kinds.{rel_kind};
    ghost use Rattle.mf_rows.specs.Laws.{rel-laws};

    ghost kind = { rel_kind };

    ghost WIDTH = { 33 };

    const WIDTH: usize = 33;

    ghost KEY = { 16 };

    const KEY: usize = 16;

    fn known(self) {}

    fn put(&self, out: &mut [u8]) {
        put_i32(out, 29, self.lon);
        put_i32(out, 25, self.lat);
        put_u64(out, 17, self.node);
        put_u8(out, 16, self.role);
        put_u32(out, 12, self.place);
        put_u32(out, 8, self.member);
        put_u64(out, 0, self.relation);
    }

    fn get(bytes: &[u8]) -> Self {
        RelRow {
            relation: get_u64(bytes, 0),
            member: get_u32(bytes, 8),
            place: get_u32(bytes, 12),
            role: get_u8(bytes, 16),
            node: get_u64(bytes, 17),
            lat: get_i32(bytes, 25),
            lon: get_i32(bytes, 29),
        }
    }

    ghost width = { refl };

    ghost key = { refl };

    ghost laws = { rel-laws };
}

impl RowKind for FeatureRow {
    ghost use Rattle.std.proofs.Common.{refl};
    ghost use Rattle.mf_rows.specs.Kinds.{feature_kind};
    ghost use Rattle.mf_rows.specs.Laws.{feature-laws};

    ghost kind = { feature_kind };

    ghost WIDTH = { 29 };

    const WIDTH: usize = 29;

    ghost KEY = { 13 };

    const KEY: usize = 13;

    fn known(self) {}

    fn put(&self, out: &mut [u8]) {
        put_unit(out, 13, &self.unit);
        put_u32(out, 9, self.place);
        put_u64(out, 1, self.id);
        put_u8(out, 0, self.kind);
    }

    fn get(bytes: &[u8]) -> Self {
        FeatureRow {
            kind: get_u8(bytes, 0),
            id: get_u64(bytes, 1),
            place: get_u32(bytes, 9),
            unit: get_unit(bytes, 13),
        }
    }

    ghost width = { refl };

    ghost key = { refl };

    ghost laws = { feature-laws };
}

impl RowKind for ShapeRow {
    ghost use Rattle.std.proofs.Common.{refl};
    ghost use Rattle.mf_rows.specs.Kinds.{shape_kind};
    ghost use Rattle.mf_rows.specs.Laws.{shape-laws};

    ghost kind = { shape_kind };

    ghost WIDTH = { 28 };

    const WIDTH: usize = 28;

    ghost KEY = { 12 };

    const KEY: usize = 12;

    fn known(self) {}

    fn put(&self, out: &mut [u8]) {
        put_unit(out, 12, &self.unit);
        put_u32(out, 8, self.place);
        put_u64(out, 0, self.number);
    }

    fn get(bytes: &[u8]) -> Self {
        ShapeRow {
            number: get_u64(bytes, 0),
            place: get_u32(bytes, 8),
            unit: get_unit(bytes, 12),
        }
    }

    ghost width = { refl };

    ghost key = { refl };

    ghost laws = { shape-laws };
}

impl RowKind for TileRow {
    ghost use Rattle.std.proofs.Common.{refl};
    ghost use Rattle.mf_rows.specs.Kinds.{tile_kind};
    ghost use Rattle.mf_rows.specs.Laws.{tile-laws};

    ghost kind = { tile_kind };

    ghost WIDTH = { 39 };

    const WIDTH: usize = 39;

    ghost KEY = { 23 };

    const KEY: usize = 23;

    fn known(self) {}

    fn put(&self, out: &mut [u8]) {
        put_unit(out, 23, &self.unit);
        put_u32(out, 19, self.place);
        put_u64(out, 11, self.number);
        put_u8(out, 10, self.zoom);
        put_u8(out, 9, self.class);
        put_u32(out, 5, self.x);
        put_u32(out, 1, self.y);
        put_u8(out, 0, self.interval);
    }

    fn get(bytes: &[u8]) -> Self {
        TileRow {
            interval: get_u8(bytes, 0),
            y: get_u32(bytes, 1),
            x: get_u32(bytes, 5),
            class: get_u8(bytes, 9),
            zoom: get_u8(bytes, 10),
            number: get_u64(bytes, 11),
            place: get_u32(bytes, 19),
            unit: get_unit(bytes, 23),
        }
    }

    ghost width = { refl };

    ghost key = { refl };

    ghost laws = { tile-laws };
}

impl RowKind for IndexRow {
    ghost use Rattle.std.proofs.Common.{refl};
    ghost use Rattle.mf_rows.specs.Kinds.{index_kind};
    ghost use Rattle.mf_rows.specs.Laws.{index-laws};

    ghost kind = { index_kind };

    ghost WIDTH = { 18 };

    const WIDTH: usize = 18;

    ghost KEY = { 9 };

    const KEY: usize = 9;

    fn known(self) {}

    fn put(&self, out: &mut [u8]) {
        put_u64(out, 10, self.size);
        put_u8(out, 9, self.water);
        put_u32(out, 5, self.x);
        put_u32(out, 1, self.y);
        put_u8(out, 0, self.interval);
    }

    fn get(bytes: &[u8]) -> Self {
        IndexRow {
            interval: get_u8(bytes, 0),
            y: get_u32(bytes, 1),
            x: get_u32(bytes, 5),
            water: get_u8(bytes, 9),
            size: get_u64(bytes, 10),
        }
    }

    ghost width = { refl };

    ghost key = { refl };

    ghost laws = { index-laws };
}

#[cfg(test)]
mod tests;
