//! Why there are no features.

ghost use Rattle.std.specs.Prelude.{◌≡◌};
ghost use Rattle.mf_shape.specs.declared.fault.ShapeFault.TheVariants.{Spill};

use mf_edge::Failed;
use mf_rows::LimitFault;

/// Why there are no features.
#[derive(Clone, Copy, Debug, PartialEq, Eq)]
pub enum ShapeFault {
    /// The first candidate that weighs more than the limit.
    Limit(LimitFault),
    /// The store failed.
    Spill,
}

impl From<Failed> for ShapeFault {
    ghost from_gives = { λ _ fault. fault ≡ Spill };

    fn from(_failed: Failed) -> ShapeFault {
        ShapeFault::Spill
    }
}
