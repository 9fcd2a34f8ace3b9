//! The file of a mapping, read from a shelf.

ghost use Rattle.std.specs.Prelude.{◌≡◌, ◌<◌, ◌≤◌, length, take, IfOk, OnOk, OnErr, true};
ghost use Rattle.mf_edge.specs.Device.{Takes, HasNone, CountsOne};
ghost use Rattle.mf_edge.specs.Shelves.{KeepsName};

use mf_edge::{Failed, Shelf};

/// Reads an open file until `room` is full or nothing is left, and answers how many bytes it has read.
pub(crate) fn read_up_to<H: Shelf>(shelf: &mut H, room: &mut [u8]) -> Result<usize, Failed>
    requires { (H.state shelf.old).is_open ≡ true }
    ensures within { IfOk result (λ n. n ≤ length room.new) }
    ensures takes { IfOk result (λ n. Takes (H.state shelf.old).left (take n room.new) (H.state shelf.new).left) }
    ensures end { IfOk result (λ n. n < length room.new → HasNone (H.state shelf.new).left) }
    ensures room { length room.new ≡ length room.old }
    ensures failed { OnErr result (CountsOne (H.state shelf.old).faults (H.state shelf.new).faults) }
    ensures same_faults { OnOk result ((H.state shelf.new).faults ≡ (H.state shelf.old).faults) }
    ensures keeps { KeepsName (H.state shelf.old) (H.state shelf.new) }
{
    let mut have = 0;
    while have < room.len() {
        let more = shelf.read(&mut room[have..])?;
        if more == 0 {
            return Ok(have);
        }
        have += more;
    }
    Ok(have)
}
