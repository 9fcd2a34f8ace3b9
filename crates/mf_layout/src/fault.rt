//! Why there are no sub-files.

ghost use Rattle.std.specs.Prelude.{◌≡◌};
ghost use Rattle.mf_layout.specs.declared.fault.LayoutFault.TheVariants.{Spill};

use mf_edge::Failed;
use mf_rows::LimitFault;

/// Why there are no sub-files.
#[derive(Clone, Copy, Debug, PartialEq, Eq)]
pub enum LayoutFault {
    /// The first tile that weighs more than the limit, or the first sub-file that has too many bytes.
    Limit(LimitFault),
    /// The store failed.
    Spill,
}

impl From<Failed> for LayoutFault {
    ghost from_gives = { λ _ fault. fault ≡ Spill };

    fn from(_failed: Failed) -> LayoutFault {
        LayoutFault::Spill
    }
}
