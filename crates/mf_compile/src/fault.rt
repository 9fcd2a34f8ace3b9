//! Why there is no map, or not all of it.

use mf_ingest::ingest::IngestFault;
use mf_layout::emit::EmitFault;
use mf_layout::fault::LayoutFault;
use mf_rows::LimitFault;
use mf_shape::fault::ShapeFault;
use osm_model::faults::InputFault;
use thiserror::Error;

/// Why there is no map, or not all of it.
#[derive(Clone, Copy, Debug, PartialEq, Eq, Error)]
pub enum Fault {
    /// The first fault of the input.
    #[error("{0}")]
    Input(InputFault),
    /// The first candidate, tile or sub-file that passes its limit.
    #[error("{0}")]
    Limit(LimitFault),
    /// Neither the words nor the input tell a box.
    #[error("no box")]
    NoBox,
    /// The input could not be read.
    #[error("the input could not be read")]
    Read,
    /// The map could not be written.
    #[error("the map could not be written")]
    Write,
    /// The store of parts failed.
    #[error("the spill store failed")]
    Spill,
}

impl From<IngestFault> for Fault {
    ghost use Rattle.std.specs.Prelude.{◌≡◌};
    ghost use Rattle.mf_compile.specs.Faults.{ingest_told};

    ghost from_gives = { λ why fault. fault ≡ ingest_told why };

    fn from(why: IngestFault) -> Fault {
        match why {
            IngestFault::Input(fault) => Fault::Input(fault),
            IngestFault::Read => Fault::Read,
            IngestFault::Spill => Fault::Spill,
        }
    }
}

impl From<ShapeFault> for Fault {
    ghost use Rattle.std.specs.Prelude.{◌≡◌};
    ghost use Rattle.mf_compile.specs.Faults.{shape_told};

    ghost from_gives = { λ why fault. fault ≡ shape_told why };

    fn from(why: ShapeFault) -> Fault {
        match why {
            ShapeFault::Limit(fault) => Fault::Limit(fault),
            ShapeFault::Spill => Fault::Spill,
        }
    }
}

impl From<LayoutFault> for Fault {
    ghost use Rattle.std.specs.Prelude.{◌≡◌};
    ghost use Rattle.mf_compile.specs.Faults.{layout_told};

    ghost from_gives = { λ why fault. fault ≡ layout_told why };

    fn from(why: LayoutFault) -> Fault {
        match why {
            LayoutFault::Limit(fault) => Fault::Limit(fault),
            LayoutFault::Spill => Fault::Spill,
        }
    }
}

impl From<EmitFault> for Fault {
    ghost use Rattle.std.specs.Prelude.{◌≡◌};
    ghost use Rattle.mf_compile.specs.Faults.{emit_told};

    ghost from_gives = { λ why fault. fault ≡ emit_told why };

    fn from(why: EmitFault) -> Fault {
        match why {
            EmitFault::Write => Fault::Write,
            EmitFault::Spill => Fault::Spill,
        }
    }
}
