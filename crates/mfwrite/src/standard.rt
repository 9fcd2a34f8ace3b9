//! The standard streams.

use std::fs::File;
use std::rt::HostRuntime;

// What can be opened, but neither read nor written: the root folder.
const CLOSED: &str = "/";

/// Takes the numbers of those standard streams that the caller closed, and holds them. Else a file of the spill store
/// would get one, and the map or a text would go into it. Reading or writing such a stream fails, as if it were closed.
pub(crate) fn hold_standard(rt: &HostRuntime) -> [Option<File>; 3] {
    [held(rt), held(rt), held(rt)]
}

// What is opened takes the least number that is free.
fn held(rt: &HostRuntime) -> Option<File> {
    File::open(rt, CLOSED).ok()
}
