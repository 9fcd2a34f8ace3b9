//! Laws of the blocks, for whoever reads the head, the strings and the groups one by one; each on a function that does
//! nothing.

ghost use Rattle.std.specs.Prelude.{◌≡◌, ◌↔◌, Ok, Err, ℕ, List};
ghost use Rattle.osm_model.specs.Wire.{fields};
ghost use Rattle.osm_model.specs.Tables.{message, bytes_of};
ghost use Rattle.osm_model.specs.Blocks.{PrimitiveBlock, block, block_head, block_strings};

use crate::faults::{BlockFault, MessageFault};
use crate::numbers::BLOCK_PRIMITIVEGROUP;
use crate::tables::PRIMITIVE_BLOCK;

/// A PrimitiveBlock is read exactly where its head and its strings are, and its groups are those of its message.
pub fn block_in_parts()
    ensures { (raw : List ℕ) (b : PrimitiveBlock) → (block raw ≡ Ok b)
        ↔ ((block_head raw ≡ Ok b.head) × (block_strings raw ≡ Ok b.strings)
        × (b.groups ≡ bytes_of BLOCK_PRIMITIVEGROUP (fields raw).items)) }
{}

/// A block and its strings have the same fault; its head has that of the message alone.
pub fn faults_of_a_block()
    ensures strings { (raw : List ℕ) (fault : BlockFault) → (block raw ≡ Err fault) ↔ (block_strings raw ≡ Err fault) }
    ensures head { (raw : List ℕ) (fault : BlockFault) → (block_head raw ≡ Err fault)
        ↔ ((told : MessageFault) × (message PRIMITIVE_BLOCK raw ≡ Err told) × (fault ≡ BlockFault.Wire told)) }
{}
