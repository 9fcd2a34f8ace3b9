//! A file that is opened by its name and read.

ghost use Rattle.std.specs.Prelude.{◌≡◌, ◌<◌, ◌≤◌, false, true, length, take, IfOk, OnOk, OnErr, Ok};
ghost use Rattle.mf_edge.specs.Device.{Takes, HasNone, CountsOne};
ghost use Rattle.mf_edge.specs.Shelves.{ShelfState, CanOpen, IsNamed, IsOpened, KeepsName};

use crate::Failed;

/// One file, that is opened by its name and then read from the front.
pub trait Shelf {
    /// What the shelf tells at one time. Its count of faults stands still at 2^64 - 1.
    ghost state: { Self → ShelfState };

    /// Opens the file of this name, of at most 4,095 bytes. The first call fixes the name, also where it fails.
    ///
    /// `Failed` is answered exactly where the call counts a fault.
    fn open_name(&mut self, name: &str) -> Result<(), Failed>
        requires { CanOpen (state self.old) name.now }
        ensures named { IsNamed (state self.old) name.now (state self.new) }
        ensures opened { OnOk result (IsOpened (state self.new)) }

        ensures failed { OnErr result (CountsOne (state self.old).faults (state self.new).faults) }
        ensures closed { OnErr result ((state self.new).is_open ≡ false) }
        ensures same_faults { OnOk result ((state self.new).faults ≡ (state self.old).faults) }

        ensures counts { (state self.old).faults ≤ (state self.new).faults };

    /// Moves bytes from the front of what is left of the file to the front of `out`, and answers how many. 0 is the end
    /// of the file, where `out` is not empty. The last opening has succeeded.
    ///
    /// `Failed` is answered exactly where the call counts a fault.
    fn read(&mut self, out: &mut [u8]) -> Result<usize, Failed>
        requires { (state self.old).is_open ≡ true }
        ensures within { IfOk result (λ n. n ≤ length out.new) }
        ensures takes { IfOk result (λ n. Takes (state self.old).left (take n out.new) (state self.new).left) }
        ensures end { result ≡ Ok 0 → 0 < length out.old → HasNone (state self.new).left }

        ensures failed { OnErr result (CountsOne (state self.old).faults (state self.new).faults) }
        ensures same_faults { OnOk result ((state self.new).faults ≡ (state self.old).faults) }

        ensures counts { (state self.old).faults ≤ (state self.new).faults }
        ensures keeps { KeepsName (state self.old) (state self.new) };
}
