//! The Blob: where its raw bytes stand.

ghost use Rattle.std.specs.Prelude.{◌≡◌, ◌≤◌, length, IfOk, Some, None};
ghost use Rattle.mf_base.specs.Steps.{fault_of};
ghost use Rattle.osm_model.specs.Frames.{raw_bytes, raw_size_fault};
ghost use Rattle.pbf_frame.specs.BlobSteps.{raw_shown};

use crate::blob_fields::compressed_in;
use crate::frame_fault::FrameFault;
use osm_model::numbers::{BLOB_RAW, BLOB_RAW_SIZE};
use pbf_wire::check::check_message;
use pbf_wire::lookup::{bytes_place, number_in};
use pbf_wire::tables::BLOB;

// Where in a Blob its raw bytes stand.
pub(crate) fn raw_place(blob: &[u8]) -> Result<(usize, usize), FrameFault>
    ensures tells { raw_shown blob.now result ≡ raw_bytes blob.now }
    ensures within { IfOk result (λ place. (place.0 ≤ place.1) × (place.1 ≤ length blob.now)) }
{
    if let Err(fault) = check_message(blob, &BLOB) {
        return Err(FrameFault::BlobWire(fault));
    }
    if let Some(field) = compressed_in(blob) {
        return Err(FrameFault::Compressed { field });
    }
    let Some((start, end)) = bytes_place(blob, BLOB_RAW) else {
        return Err(FrameFault::NoBytes);
    };
    check_raw_size(number_in(blob, BLOB_RAW_SIZE), (end - start) as u64)?;
    Ok((start, end))
}

// Whether a raw_size that is there is the number of raw bytes found.
fn check_raw_size(told: Option<u64>, found: u64) -> Result<(), FrameFault>
    ensures { fault_of result ≡ raw_size_fault told found }
{
    match told {
        Some(told) if told != found => Err(FrameFault::RawSize { told, found }),
        _ => Ok(()),
    }
}
