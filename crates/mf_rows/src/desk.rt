//! A desk: records, and the bytes that are written of them.

ghost use Rattle.std.specs.Prelude.{◌≡◌, ◌+◌, ◌*◌, ◌≤◌, ◌<◌, [], false, IfOk};

use crate::records::Records;
use mf_base::out_buf::OutBuf;
use std::alloc::{AllocError, Global};

/// Room for the records of a tile, or of one candidate, and for the bytes of the tile. `water` keeps the tile's answer.
///
/// For each row there are 16 bytes in the output, and 256 more.
#[derive(Drop)]
pub struct Desk {
    pub records: Records,
    pub out: OutBuf,
    pub water: bool,
    pub ghost matched: { out.capacity ≡ 16 * records.capacity + 256 },
}

impl Desk {
    /// An empty desk of so many rows.
    pub fn new(alloc: Global, rows: u32) -> Result<Desk, AllocError>
        requires some { 1 ≤ rows }
        requires most { rows ≤ 16777216 }
        ensures records { IfOk result (λ d. d.records ≡ record { records = []; loose = []; capacity = rows }) }
        ensures out { IfOk result (λ d. d.out ≡ record { bytes = []; capacity = 16 * rows + 256 }) }
        ensures water { IfOk result (λ d. d.water ≡ false) }
    {
        let records = Records::new(alloc, rows)?;
        let out = OutBuf::new(alloc, 16 * rows as usize + 256)?;
        Ok(Desk {
            records,
            out,
            water: false,
        })
    }
}
