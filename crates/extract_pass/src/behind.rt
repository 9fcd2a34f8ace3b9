//! Where a pass stands between two blobs.

use crate::block_pass::read_all;
use crate::fault::BlobStop;
use crate::reader::EntityReader;
use mf_base::place::Rect;
use osm_entity::entities::Entities;
use osm_entity::order::Order;
use osm_model::faults::InputCode;
use pbf_block::head::block_head;
use pbf_block::header::read_header;
use pbf_block::strings::Strings;
use pbf_frame::frame::BlobKind;

// What is kept of the blobs so far: the order of their entities, and the first box.
#[derive(Clone, Copy, Debug, PartialEq, Eq)]
pub(crate) struct Behind {
    order: Order,
    bounds: Option<Rect>,
}

impl Behind {
    ghost use Rattle.std.specs.Prelude.{◌≡◌, ◌<◌, ◌≤◌, ◌^◌, List, Option, true, [], Ok, None, length};
    ghost use Rattle.mf_base.specs.declared.place.Rect.{Rect};
    ghost use Rattle.mf_base.specs.Entries.{are_texts};
    ghost use Rattle.osm_model.specs.declared.limits.TheConstants.{BLOB_LIMIT};
    ghost use Rattle.osm_model.specs.Frames.{header, primitive};
    ghost use Rattle.osm_model.specs.Blocks.{block_strings};
    ghost use Rattle.osm_model.specs.Entities.{Entity};
    ghost use Rattle.osm_entity.specs.InBlock.{texts_at};
    ghost use Rattle.pbf_frame.specs.FrameReading.{content_shown};
    ghost use Rattle.extract_pass.specs.Behind.{IsBehind};
    ghost use Rattle.extract_pass.specs.BlobReading.{NotesBlob, ReadsBlob};

    // Before the first blob.
    pub(crate) fn new() -> Behind
        ensures { IsBehind result [] None }
    {
        Behind {
            order: Order::new(),
            bounds: None,
        }
    }

    // The first box.
    pub(crate) fn bounds(&self) -> Option<Rect>
        ensures { result ≡ self.now.bounds }
    {
        self.bounds
    }

    // Hands the entities of a blob with these raw bytes to a reader, and keeps what is to be kept. The strings are those
    // of the last block.
    pub(crate) fn read<R: EntityReader>(
        &mut self,
        kind: BlobKind,
        raw: &[u8],
        strings: &mut Strings,
        reader: &mut R,
    ) -> Result<(), BlobStop>
        requires near { length raw.now ≤ BLOB_LIMIT }
        requires stood { (first : R) × (entities : List Entity) × (bounds : Option Rect)
            × IsBehind self.old entities bounds × R.stands first reader.old entities }
        ensures { (first : R) (entities : List Entity) (bounds : Option Rect) → IsBehind self.old entities bounds
            → R.stands first reader.old entities
            → ReadsBlob (IsBehind self.new) (R.stands first reader.new) (R.stopped first reader.new) entities bounds
            (content_shown kind raw.now) result }
    {
        match kind {
            BlobKind::Header => match self.note_header(raw) {
                Ok(()) => Ok(()),
                Err(code) => Err(BlobStop::Fault(code)),
            },
            BlobKind::Primitive => self.read_block(raw, strings, reader),
        }
    }

    // Keeps the box of a HeaderBlock, where none was before it.
    fn note_header(&mut self, raw: &[u8]) -> Result<(), InputCode>
        ensures { (entities : List Entity) (bounds : Option Rect) → IsBehind self.old entities bounds
            → NotesBlob (IsBehind self.new) entities bounds (header raw.now) result }
    {
        match read_header(raw) {
            Err(fault) => Err(InputCode::Block(fault)),
            Ok(found) => {
                self.bounds = self.bounds.or(found);
                Ok(())
            }
        }
    }

    // Hands the entities of a PrimitiveBlock to a reader.
    fn read_block<R: EntityReader>(
        &mut self,
        raw: &[u8],
        strings: &mut Strings,
        reader: &mut R,
    ) -> Result<(), BlobStop>
        requires near { length raw.now < 2 ^ 32 }
        requires stood { (first : R) × (entities : List Entity) × (bounds : Option Rect)
            × IsBehind self.old entities bounds × R.stands first reader.old entities }
        ensures { (first : R) (entities : List Entity) (bounds : Option Rect) → IsBehind self.old entities bounds
            → R.stands first reader.old entities
            → ReadsBlob (IsBehind self.new) (R.stands first reader.new) (R.stopped first reader.new) entities bounds
            (primitive raw.now) result }
    {
        match strings.index(raw) {
            Err(fault) => Err(BlobStop::Fault(InputCode::Block(fault))),
            Ok(()) => self.read_indexed(raw, strings, reader),
        }
    }

    // Hands the entities of a PrimitiveBlock with these strings to a reader.
    fn read_indexed<R: EntityReader>(
        &mut self,
        raw: &[u8],
        strings: &Strings,
        reader: &mut R,
    ) -> Result<(), BlobStop>
        requires near { length raw.now < 2 ^ 32 }
        requires strings { block_strings raw.now ≡ Ok (texts_at raw.now strings.now) }
        requires held { are_texts raw.now strings.now ≡ true }
        requires stood { (first : R) × (entities : List Entity) × (bounds : Option Rect)
            × IsBehind self.old entities bounds × R.stands first reader.old entities }
        ensures { (first : R) (entities : List Entity) (bounds : Option Rect) → IsBehind self.old entities bounds
            → R.stands first reader.old entities
            → ReadsBlob (IsBehind self.new) (R.stands first reader.new) (R.stopped first reader.new) entities bounds
            (primitive raw.now) result }
    {
        match block_head(raw) {
            Err(fault) => Err(BlobStop::Fault(InputCode::Block(fault))),
            Ok(head) => {
                let entities = Entities::start(raw, head, strings);
                read_all(entities, raw, &mut self.order, reader)
            }
        }
    }
}
