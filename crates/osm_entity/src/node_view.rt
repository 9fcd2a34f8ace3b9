//! A node that is lent from its block.

ghost use Rattle.std.specs.Prelude.{◌≡◌};
ghost use Rattle.mf_base.specs.TagCursor.{tags_left, all_tags};

use mf_base::place::Place;
use mf_base::tag_cursor::TagCursor;

/// A node, lent from its block. It is plain data.
#[derive(Clone, Copy, Debug, PartialEq, Eq)]
pub struct NodeView<'a> {
    id: u64,
    place: Place,
    tags: TagCursor<'a>,
    ghost fresh: { tags_left tags ≡ all_tags tags },
}

impl<'a> NodeView<'a> {
    ghost use Rattle.std.specs.Prelude.{◌≡◌};
    ghost use Rattle.mf_base.specs.TagCursor.{tags_left, all_tags, block_of};
    ghost use Rattle.osm_entity.specs.Node.{node_shown, node_block};

    // A node of these tags, none of which was given.
    pub(crate) fn new(id: u64, place: Place, tags: TagCursor<'a>) -> NodeView<'a>
        requires { tags_left tags ≡ all_tags tags }
        ensures shown { node_shown result ≡ record { id = id; place = place; tags = all_tags tags.entry } }
        ensures block { node_block result ≡ block_of tags.entry }
    {
        NodeView { id, place, tags }
    }

    /// The id, in 1 to 2^63 - 1.
    pub fn id(&self) -> u64
        ensures { result ≡ (node_shown self.now).id }
    {
        self.id
    }

    /// The place, in microdegrees.
    pub fn place(&self) -> Place
        ensures { result ≡ (node_shown self.now).place }
    {
        self.place
    }

    /// The tags, lent from the block.
    pub fn tags(&self) -> TagCursor<'a>
        ensures all { all_tags result ≡ (node_shown self.now).tags }
        ensures left { tags_left result ≡ all_tags result }
        ensures block { block_of result ≡ node_block self.now }
    {
        self.tags
    }
}
