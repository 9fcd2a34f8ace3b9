//! What a run has to answer, to say and to write.

use crate::trial::{Device, Seen};
use mf_run::say::line_for;
use mf_run::status::{LIMIT, READ, SPILL, WRITE, WRITTEN, status_of};

/// Whether a run in which a call of this device fails has the status, says the text and writes what it has to, where
/// this is the whole map: nothing, or a front that is not all of it. Of a store that answers zeros, what it hides is
/// lost, or passes a limit, and then nothing is written; or the rows can't have been written, and the store is blamed.
pub fn is_right(device: Device, seen: &Seen, map: &[u8]) -> bool {
    let written = seen.output.taken();
    match device {
        Device::Input => is_told(seen, READ, b"mfwrite: read\n") && written.is_empty(),
        Device::Output => is_told(seen, WRITE, b"mfwrite: write\n") && is_begun(written, map),
        Device::Store => is_told(seen, SPILL, b"mfwrite: spill\n") && is_begun(written, map),
        Device::Zeros => match status_of(&seen.answer) {
            WRITTEN => true,
            LIMIT => written.is_empty(),
            SPILL => is_told(seen, SPILL, b"mfwrite: spill\n"),
            _ => false,
        },
    }
}

/// Whether a run made this map.
pub fn is_made(seen: &Seen, map: &[u8]) -> bool {
    status_of(&seen.answer) == WRITTEN && seen.output.taken() == map
}

// Whether a run has this status, and says this.
fn is_told(seen: &Seen, status: u8, text: &[u8]) -> bool {
    status_of(&seen.answer) == status && line_for(&seen.answer).bytes() == text
}

// Whether a map was begun, but not made whole.
fn is_begun(written: &[u8], map: &[u8]) -> bool {
    written.len() < map.len() && map.starts_with(written)
}
