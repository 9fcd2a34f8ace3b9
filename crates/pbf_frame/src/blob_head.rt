//! The BlobHeader: the type of a blob, and how many bytes it has.

ghost use Rattle.std.specs.Prelude.{◌≡◌, ◌≤◌, length, IfOk, IfSome};
ghost use Rattle.pbf_frame.specs.BlobSteps.{head_of, TellsHead, IsKind};

use crate::frame::BlobKind;
use crate::frame_fault::FrameFault;
use osm_model::limits::BLOB_LIMIT;
use osm_model::numbers::{BLOB_HEADER_DATASIZE, BLOB_HEADER_TYPE};
use pbf_wire::check::check_message;
use pbf_wire::lookup::{bytes_place, number_in};
use pbf_wire::tables::BLOB_HEADER;

// What a BlobHeader tells: the type, where it is one that is read, and how many bytes the Blob has.
#[derive(Clone, Copy)]
pub(crate) struct BlobHead {
    pub(crate) kind: Option<BlobKind>,
    pub(crate) size: usize,
}

// Reads a BlobHeader.
pub(crate) fn blob_head(head: &[u8]) -> Result<BlobHead, FrameFault>
    ensures tells { TellsHead result (head_of head.now) }
    ensures within { IfOk result (λ found. found.size ≤ BLOB_LIMIT) }
{
    if let Err(fault) = check_message(head, &BLOB_HEADER) {
        return Err(FrameFault::HeaderWire(fault));
    }
    let Some((start, end)) = bytes_place(head, BLOB_HEADER_TYPE) else {
        return Err(FrameFault::NoKind);
    };
    let Some(size) = number_in(head, BLOB_HEADER_DATASIZE) else {
        return Err(FrameFault::NoSize);
    };
    if size > BLOB_LIMIT {
        return Err(FrameFault::BlobSize);
    }
    Ok(BlobHead {
        kind: kind_of(&head[start..end]),
        size: size as usize,
    })
}

// The type of a blob, where it is one that is read.
fn kind_of(kind: &[u8]) -> Option<BlobKind>
    ensures { IsKind result kind.now }
{
    if kind == b"OSMHeader".as_slice() {
        return Some(BlobKind::Header);
    }
    if kind == b"OSMData".as_slice() {
        return Some(BlobKind::Primitive);
    }
    None
}
