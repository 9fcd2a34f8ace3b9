//! A job: what the words say, and all the memory that a run takes.

ghost use Rattle.std.specs.Prelude.{◌≡◌, ◌≤◌, ◌↔◌, false, [], replicate, IfOk};
ghost use Rattle.job_words.specs.Settings.{IsJob};
ghost use Rattle.job_words.specs.Shown.{settings_of};
ghost use Rattle.mf_compile.specs.Jobs.{desk_rooms};

use job_words::settings::Settings;
use map_header::header::header_size;
use mercator_rows::rows::Rows;
use mf_base::kind::List;
use mf_base::out_buf::OutBuf;
use mf_edge::Block;
use mf_rows::desk::Desk;
use osm_model::limits::BLOB_LIMIT;
use pbf_block::strings::Strings;
use spill_parts::Page;
use std::alloc::{AllocError, Global};
use std::marker::Model;
use tag_mapping::mapping::Mapping;

/// What the words say, and all the memory that a run takes: a desk for each worker and a page, each with room for as
/// many rows as the words say, the table of the rows of tiles, a blob with its strings, and the header.
///
/// Contracts see what the words say.
#[derive(Drop)]
pub struct Job {
    pub(crate) settings: Settings,
    pub(crate) rows: Rows,
    pub(crate) block: Block,
    pub(crate) strings: Strings,
    pub(crate) desks: Vec<Desk>,
    pub(crate) page: Page,
    pub(crate) head: OutBuf,
}

impl Model for Job {
    ghost use Rattle.job_words.specs.Settings.{JobSettings};
    ghost use Rattle.job_words.specs.Shown.{settings_of};
    ghost use Rattle.mf_compile.specs.Jobs.{IsReady, HasRooms};

    ghost Value = { JobSettings };

    ghost view = { λ j. settings_of j.settings };

    ghost invariant = { λ j. IsReady (settings_of j.settings)
        × HasRooms (settings_of j.settings) j.desks.items j.page j.block j.head };
}

impl Job {
    /// A job of these settings, whose mapping has no entry for ways. All its memory is taken here.
    pub fn new(alloc: Global, settings: Settings) -> Result<Job, AllocError>
        requires said { IsJob (settings_of settings) }
        requires no_ways { settings.mapping.way ≡ [] }
        ensures { IfOk result (λ j. j ≡ settings_of settings) }
    {
        let head = header_size(&settings.head, &settings.mapping);
        Ok(Job {
            rows: Rows::new(alloc)?,
            block: Block::new(alloc, BLOB_LIMIT as usize)?,
            strings: Strings::new(alloc)?,
            desks: new_desks(alloc, settings.workers, settings.rows)?,
            page: Page::new(alloc, settings.rows)?,
            head: OutBuf::new(alloc, head as usize)?,
            settings,
        })
    }
}

/// Whether a mapping has entries for ways.
pub fn has_ways(mapping: &Mapping) -> bool
    ensures { (result ≡ false) ↔ (mapping.now.way ≡ []) }
{
    mapping.entries(List::Way).count() > 0
}

// Empty desks of so many rows.
fn new_desks(alloc: Global, count: u32, rows: u32) -> Result<Vec<Desk>, AllocError>
    requires some { 1 ≤ rows }
    requires most { rows ≤ 16777216 }
    ensures { IfOk result (λ desks. desk_rooms desks.items ≡ replicate count rows) }
{
    let mut desks = Vec::with_capacity(alloc, count as usize)?;
    for _ in 0..count {
        desks.push_reserved(Desk::new(alloc, rows)?);
    }
    Ok(desks)
}
