//! What the entities of a block share: its bytes, its strings and its head.

ghost use Rattle.std.specs.Prelude.{◌≡◌, ◌<◌, ◌^◌, true, length};
ghost use Rattle.mf_base.specs.Entries.{are_texts};

use pbf_block::head::BlockHead;

// A block, where its strings stand in it, and its head. It is plain data.
#[derive(Clone, Copy, Debug, PartialEq, Eq)]
pub(crate) struct InBlock<'a> {
    pub block: &'a [u8],
    // For each string the place of its length in the block, in bytes.
    pub places: &'a [u32],
    pub head: BlockHead,
    pub ghost near: { length block.now < 2 ^ 32 },
    pub ghost texts: { are_texts block.now places.now ≡ true },
}

impl<'a> InBlock<'a> {
    ghost use Rattle.std.specs.Prelude.{◌≡◌, length};

    // How many strings there are.
    pub fn count(&self) -> u64
        ensures { result ≡ length self.now.places.now }
    {
        self.places.len() as u64
    }
}
