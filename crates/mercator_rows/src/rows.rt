//! The table of the edges of all rows, and what it tells. Places are in microdegrees.

ghost use Rattle.std.specs.Prelude.{◌≡◌, ◌+◌, ◌-◌, ◌*◌, ◌^◌, ◌<◌, ◌≤◌, max, nat_abs, pos, IfOk};
ghost use Rattle.map_model.specs.Mercator.{north_lat, fine_row, row, column, corner, corner_lat, corner_lon};
ghost use Rattle.mercator_rows.specs.Edges.{AreEdges};
ghost use Rattle.mercator_rows.specs.Search.{IsReach};

use crate::latitude::Roots;
use mf_base::place::Place;
use std::alloc::{AllocError, Global};
use std::marker::Model;

/// The northern edges of the finest rows, those of zoom 18, from the pole to the equator.
#[derive(Drop)]
pub struct Rows {
    edges: Vec<u32>,
}

impl Model for Rows {
    ghost use Rattle.std.specs.Prelude.{ℕ, List};
    ghost use Rattle.mercator_rows.specs.Edges.{AreEdges};

    ghost Value = { List ℕ };

    ghost view = { λ rows. rows.edges.items };

    ghost invariant = { λ rows. AreEdges rows.edges.items };
}

impl Rows {
    /// Computes all edges, 131,073 numbers of four bytes.
    pub fn new(alloc: Global) -> Result<Rows, AllocError>
        ensures { IfOk result AreEdges }
    {
        let roots = Roots::new();
        let mut edges = Vec::with_capacity(alloc, 131_073)?;
        let mut edge = u32::MAX;
        for k in 0..131_073 {
            edge = edge.min(roots.latitude(131_072 - k));
            edges.push_reserved(edge);
        }
        Ok(Rows { edges })
    }

    /// The row of a latitude at zoom `z`, row 0 lying in the north. What is beyond the table is in the first or the
    /// last row.
    pub fn row(&self, z: u8, lat: i32) -> u32
        requires { z ≤ 18 }
        ensures { result ≡ row z lat }
    {
        self.fine_row(lat) >> (18 - z)
    }

    /// The column of a longitude at zoom `z`, column 0 lying in the west. The date line in the east is in the last
    /// column.
    pub fn column(&self, z: u8, lon: i32) -> u32
        requires { z ≤ 18 }
        ensures { result ≡ column z lon }
    {
        let east = (i64::from(lon) + 180_000_000).max(0) as u64;
        let columns = 1 << z;
        (east * columns / 360_000_000).min(columns - 1) as u32
    }

    /// The north-western corner of tile (x, y) at zoom `z`.
    pub fn corner(&self, z: u8, x: u32, y: u32) -> Place
        requires zoom { z ≤ 18 }
        requires x { x < 2 ^ z }
        requires y { y < 2 ^ z }
        ensures { result ≡ corner z x y }
    {
        Place {
            lat: self.northern_edge(z, y),
            lon: western_edge(z, x),
        }
    }

    // The row at zoom 18.
    fn fine_row(&self, lat: i32) -> u32
        ensures { result ≡ fine_row lat }
    {
        let reach = self.reach(lat.unsigned_abs());
        if lat < 0 {
            262_144 - reach.max(1)
        } else {
            reach.saturating_sub(1)
        }
    }

    // How many edges are so far from the equator.
    fn reach(&self, distance: u32) -> u32
        ensures { IsReach distance result }
    {
        self.edges.partition_point(|edge| *edge >= distance) as u32
    }

    // The latitude of the northern edge of a row.
    fn northern_edge(&self, z: u8, y: u32) -> i32
        requires zoom { z ≤ 18 }
        requires y { y < 2 ^ z }
        ensures { result ≡ corner_lat z y }
    {
        let k = y << (18 - z);
        if k <= 131_072 {
            self.edge(k)
        } else {
            -self.edge(262_144 - k)
        }
    }

    // The latitude of the northern edge of a finest row in the north.
    fn edge(&self, k: u32) -> i32
        requires { k ≤ 131072 }
        ensures { result ≡ pos (north_lat k) }
    {
        self.edges[k as usize] as i32
    }
}

// The longitude of the western edge of a column, towards zero.
fn western_edge(z: u8, x: u32) -> i32
    requires zoom { z ≤ 18 }
    requires x { x < 2 ^ z }
    ensures { result ≡ corner_lon z x }
{
    let columns = i64::from(1_u32 << z);
    ((360_000_000 * i64::from(x) - 180_000_000 * columns) / columns) as i32
}

#[cfg(test)]
mod tests {
    use super::*;
    use std::test::Fail;

    #[test]
    fn corners(rt: HostRuntime) -> Result<(), Fail> {
        let rows = Rows::new(rt.alloc())?;
        for (z, x, y, lat, lon) in [
            (0, 0, 0, 85_051_128, -180_000_000),
            (2, 0, 1, 66_513_260, -180_000_000),
            (3, 0, 1, 79_171_334, -180_000_000),
            (3, 0, 3, 40_979_898, -180_000_000),
            (4, 0, 7, 21_943_045, -180_000_000),
            (1, 1, 1, 0, 0),
            (2, 0, 3, -66_513_260, -180_000_000),
            (18, 262_143, 262_143, -85_051_010, 179_998_626),
            (14, 1, 0, 85_051_128, -179_978_027),
        ] {
            assert!(rt; z <= 18 && x < 1 << z && y < 1 << z);
            assert_eq!(rt; rows.corner(z, x, y), Place { lat, lon }, "{z} {x} {y}");
        }
        Ok(())
    }

    #[test]
    fn rows_and_columns(rt: HostRuntime) -> Result<(), Fail> {
        let rows = Rows::new(rt.alloc())?;
        for (z, lat, row) in [
            (1, 0, 1),
            (0, -90_000_000, 0),
            (18, 90_000_000, 0),
            (18, 89_000_000, 0),
            (18, 85_051_128, 0),
            (18, 85_051_011, 0),
            (18, 85_051_010, 1),
            (18, 1, 131_071),
            (18, 0, 131_072),
            (18, -1, 131_072),
            (18, -85_051_010, 262_142),
            (18, -85_051_011, 262_143),
            (18, -90_000_000, 262_143),
            (2, 66_513_260, 1),
            (2, 66_513_261, 0),
            (2, -66_513_260, 2),
            (2, -66_513_261, 3),
        ] {
            assert!(rt; z <= 18);
            assert_eq!(rt; rows.row(z, lat), row, "{z} {lat}");
        }
        for (z, lon, column) in [
            (5, 11_250_000, 17),
            (5, 11_249_999, 16),
            (5, 12_000_000, 17),
            (5, 180_000_000, 31),
            (5, -180_000_000, 0),
            (0, 180_000_000, 0),
            (18, 179_999_999, 262_143),
            (18, -1, 131_071),
        ] {
            assert!(rt; z <= 18);
            assert_eq!(rt; rows.column(z, lon), column, "{z} {lon}");
        }
        Ok(())
    }
}
