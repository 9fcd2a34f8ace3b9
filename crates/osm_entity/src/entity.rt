//! An entity that is lent from its block.

use crate::node_view::NodeView;
use crate::relation::RelationView;
use crate::way::WayView;

/// A node, a way or a relation, lent from its block. It is plain data.
#[derive(Clone, Copy, Debug, PartialEq, Eq)]
pub enum Entity<'a> {
    Node(NodeView<'a>),
    Way(WayView<'a>),
    Relation(RelationView<'a>),
}
