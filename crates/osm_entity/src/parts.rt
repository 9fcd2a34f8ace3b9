//! What the message of an entity has in a field of its table.

ghost use Rattle.std.specs.Prelude.{◌≡◌, [], unwrap_or};
ghost use Rattle.pbf_wire.specs.Message.{IsWithin, found_bytes};

use pbf_wire::message::Found;

// The bytes of a packed list: none where it is absent.
pub(crate) fn packed_at(found: Found, message: &[u8]) -> &[u8]
    requires { IsWithin message.now found }
    ensures { result.now ≡ unwrap_or (found_bytes message.now found) [] }
{
    match found.bytes(message) {
        Some(bytes) => bytes,
        None => &[],
    }
}
