//! The clock of the system.

ghost use Rattle.std.specs.Prelude.{◌<◌, ◌^◌};

use std::rt::HostRuntime;
use std::time::{SystemTime, UNIX_EPOCH};

/// The milliseconds since 1970, or 0 where the clock fails or shows a time that no map can have.
pub(crate) fn milliseconds_now(rt: &HostRuntime) -> u64
    ensures { result < 2 ^ 63 }
{
    let Ok(now) = SystemTime::now(rt) else {
        return 0;
    };
    let Ok(passed) = now.duration_since(UNIX_EPOCH) else {
        return 0;
    };
    let millis = passed.as_millis();
    if millis < 1 << 63 { millis as u64 } else { 0 }
}
