//! Where parts are kept and ordered.

ghost use Rattle.std.specs.Prelude.{◌≡◌, ℕ, ◌+◌, ◌*◌, ◌<◌, ◌≤◌, true, false, length, Some, IfOk, OnOk, OnErr, IsErr};
ghost use Rattle.std.specs.Prelude.{IsSome};
ghost use Rattle.mf_base.specs.Ascending.{cut_rows, joined, ascending};
ghost use Rattle.mf_edge.specs.Device.{CountsOne};
ghost use Rattle.mf_edge.specs.Spill.{SpillState, IsNameOf, HasBytes, IsRestarted, HasNoPart, SameStore, TouchesOnly};
ghost use Rattle.mf_edge.specs.Spill.{IsMade, IsAppended, SameParts, stretch, IsForgotten, most_parts, part_limit};

use crate::{Failed, Steps};
use std::sync::ledger::Ledger;

/// A store of parts, each a list of bytes under a number.
///
/// `Failed` is answered exactly where the call counts a fault. Every call but `start` asks that the last start was
/// answered Ok.
pub trait Spill {
    /// What the store tells at one time. Its count of faults stands still at 2^64 - 1.
    ghost state: { Self → SpillState };

    /// Empties the store, and puts it into a folder, which is the same at each start. After `Failed` it is not started.
    fn start(&mut self, dir: &str) -> Result<(), Failed>
        requires short { length dir.now ≤ 4095 }
        requires name { IsNameOf dir.now (state self.old).name }
        ensures ok { OnOk result (IsRestarted dir.now true (state self.old) (state self.new)) }
        ensures empty { OnOk result (HasNoPart (state self.new)) }
        ensures same_faults { OnOk result ((state self.new).faults ≡ (state self.old).faults) }

        ensures not_started { OnErr result (IsRestarted dir.now false (state self.old) (state self.new)) }
        ensures failed { OnErr result (CountsOne (state self.old).faults (state self.new).faults) }

        ensures counts { (state self.old).faults ≤ (state self.new).faults };

    /// Adds an empty part, and answers its number.
    fn make(&mut self) -> Result<u32, Failed>
        requires started { (state self.old).is_started ≡ true }
        requires few { (state self.old).count < most_parts }
        ensures made { IfOk result (λ part. IsMade part (state self.old) (state self.new)) }
        ensures same_faults { OnOk result ((state self.new).faults ≡ (state self.old).faults) }

        ensures none { OnErr result (SameParts (state self.old) (state self.new)) }
        ensures failed { OnErr result (CountsOne (state self.old).faults (state self.new).faults) }

        ensures same { SameStore (state self.old) (state self.new) }
        ensures same_overrun { (state self.new).is_overrun ≡ (state self.old).is_overrun }
        ensures counts { (state self.old).faults ≤ (state self.new).faults };

    /// Puts bytes to the end of a part. Where it would pass 2^62 bytes the call fails, and the store is overrun;
    /// nothing else makes it so. After `Failed` the part is not to be read again.
    fn append(&mut self, part: u32, bytes: &[u8]) -> Result<(), Failed>
        requires started { (state self.old).is_started ≡ true }
        requires there { IsSome ((state self.old).size part) }
        ensures appended { OnOk result (IsAppended part bytes.now (state self.old) (state self.new)) }
        ensures same_faults { OnOk result ((state self.new).faults ≡ (state self.old).faults) }

        ensures failed { OnErr result (CountsOne (state self.old).faults (state self.new).faults) }

        ensures within { (n : ℕ) → (state self.old).size part ≡ Some n → n + length bytes.now ≤ part_limit
            → (state self.new).is_overrun ≡ (state self.old).is_overrun }
        ensures past { (n : ℕ) → (state self.old).size part ≡ Some n → part_limit < n + length bytes.now
            → IsErr result }
        ensures overrun { (n : ℕ) → (state self.old).size part ≡ Some n → part_limit < n + length bytes.now
            → (state self.new).is_overrun ≡ true }

        ensures still_there { IsSome ((state self.new).size part) }
        ensures only { TouchesOnly part (state self.old) (state self.new) }
        ensures counts { (state self.old).faults ≤ (state self.new).faults };

    /// Reads bytes of a part from a place on, a step for each.
    fn read<L: Ledger>(
        &mut self,
        part: u32,
        at: u64,
        out: &mut [u8],
        steps: &mut Steps<L>,
    ) -> Result<(), Failed>
        requires started { (state self.old).is_started ≡ true }
        requires range { HasBytes (state self.old) part (at + length out.old) }
        ensures read { OnOk result ((state self.old).tells ≡ true
            → out.new ≡ stretch (state self.old) part at (length out.old)) }
        ensures same_faults { OnOk result ((state self.new).faults ≡ (state self.old).faults) }

        ensures failed { OnErr result (CountsOne (state self.old).faults (state self.new).faults) }

        ensures steps { steps.new ≡ steps.old + length out.old }
        ensures same { SameParts (state self.old) (state self.new) }
        ensures counts { (state self.old).faults ≤ (state self.new).faults };

    /// Orders the rows of a part, each of `width` bytes, by their bytes. After `Failed` the part is not to be read
    /// again.
    fn order(&mut self, part: u32, width: u32) -> Result<(), Failed>
        requires started { (state self.old).is_started ≡ true }
        requires width { (1 ≤ width) × (width ≤ 39) }
        requires rows { (n : ℕ) × ((state self.old).size part ≡ Some (width * n)) }
        ensures ordered { OnOk result ((n : ℕ) → (state self.old).size part ≡ Some (width * n)
            → (state self.old).tells ≡ true → (state self.new).bytes part ≡ joined (ascending
            (cut_rows width n ((state self.old).bytes part)))) }
        ensures same_faults { OnOk result ((state self.new).faults ≡ (state self.old).faults) }

        ensures failed { OnErr result (CountsOne (state self.old).faults (state self.new).faults) }

        ensures same_size { (state self.new).size part ≡ (state self.old).size part }
        ensures only { TouchesOnly part (state self.old) (state self.new) }
        ensures same_overrun { (state self.new).is_overrun ≡ (state self.old).is_overrun }
        ensures counts { (state self.old).faults ≤ (state self.new).faults };

    /// Lets a part go.
    fn forget(&mut self, part: u32)
        requires started { (state self.old).is_started ≡ true }
        requires there { IsSome ((state self.old).size part) }
        ensures gone { IsForgotten part (state self.old) (state self.new) }
        ensures same { SameStore (state self.old) (state self.new) }
        ensures same_overrun { (state self.new).is_overrun ≡ (state self.old).is_overrun }
        ensures same_faults { (state self.new).faults ≡ (state self.old).faults };

    /// Counts a fault: bytes were read that were not written. A store that tells its bytes is never asked.
    fn damaged(&mut self) -> Failed
        requires started { (state self.old).is_started ≡ true }
        requires untold { (state self.old).tells ≡ false }
        ensures failed { CountsOne (state self.old).faults (state self.new).faults }
        ensures same { SameParts (state self.old) (state self.new) }
        ensures counts { (state self.old).faults ≤ (state self.new).faults };
}
