//! The fields of a Blob with compressed data.

ghost use Rattle.std.specs.Prelude.{◌≡◌};
ghost use Rattle.osm_model.specs.Wire.{fields};
ghost use Rattle.osm_model.specs.Frames.{compressed_of};

use osm_model::numbers::{BLOB_ZLIB_DATA, BLOB_ZSTD_DATA};
use pbf_wire::fields::Fields;

// The number of the first field with compressed data.
pub(crate) fn compressed_in(blob: &[u8]) -> Option<u32>
    ensures { result ≡ compressed_of (fields blob.now).items }
{
    let mut fields = Fields::new(blob);
    while let Ok(Some(field)) = fields.next() {
        if field.number >= BLOB_ZLIB_DATA && field.number <= BLOB_ZSTD_DATA {
            return Some(field.number);
        }
    }
    None
}
