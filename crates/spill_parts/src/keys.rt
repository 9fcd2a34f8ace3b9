//! By which numbers rows of nodes, refs, points and members are found, and the point that a ref and its node are.

use crate::lookup::Keyed;
use crate::merge::JoinOf;
use mf_rows::kinds::{MemberRow, NodeRow, PointRow, RefRow, RelRow};

// By its id.
impl Keyed for NodeRow {
    ghost key_of = { λ n. n.node };

    fn key(&self) -> u64 {
        self.node
    }
}

// By the id of its node.
impl Keyed for RefRow {
    ghost key_of = { λ r. r.node };

    fn key(&self) -> u64 {
        self.node
    }
}

// By the id of its way.
impl Keyed for PointRow {
    ghost key_of = { λ p. p.way };

    fn key(&self) -> u64 {
        self.way
    }
}

// By the id of its way.
impl Keyed for MemberRow {
    ghost key_of = { λ m. m.way };

    fn key(&self) -> u64 {
        self.way
    }
}

// By the id of its relation.
impl Keyed for RelRow {
    ghost key_of = { λ p. p.relation };

    fn key(&self) -> u64 {
        self.relation
    }
}

// The node at the place of its ref.
impl JoinOf<RefRow, NodeRow> for PointRow {
    ghost join_of = { λ r n. record { way = r.way; place = r.place; node = n.node; lat = n.lat; lon = n.lon } };

    fn join(r: &RefRow, n: &NodeRow) -> PointRow {
        PointRow {
            way: r.way,
            place: r.place,
            node: n.node,
            lat: n.lat,
            lon: n.lon,
        }
    }
}
