//! What a block has besides its entities: the box of a HeaderBlock, and the head and the strings of a PrimitiveBlock.
//!
//! Read `header`, then `head` and `strings`. `micro` is below them.
#![tactic(auto)]

pub mod head;
pub mod header;
pub mod micro;
pub mod strings;

pub use osm_model::faults::BlockFault;
