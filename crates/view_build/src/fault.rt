ghost use Rattle.std.specs.Prelude.{◌≡◌};
ghost use Rattle.view_build.specs.declared.fault.ViewFault.TheVariants.{NoMemory as no_memory};

use plan_base::NoMemory;
use std::error::Error;
use std::fmt;

/// Why there is no view, in the order of the tests.
#[derive(Clone, Copy, Debug, PartialEq, Eq)]
pub enum ViewFault {
    /// No direction of the view touches the source.
    SourceUnknown,
    /// No direction of the view touches the destination.
    DestinationUnknown,
    /// Out of memory.
    NoMemory,
}

impl fmt::Display for ViewFault {
    fn fmt<W: fmt::Write>(&self, f: &mut fmt::Formatter<W>) -> fmt::Result {
        f.write_str(match self {
            ViewFault::SourceUnknown => "unknown source",
            ViewFault::DestinationUnknown => "unknown destination",
            ViewFault::NoMemory => "out of memory",
        })
    }
}

impl Error for ViewFault {}

impl From<NoMemory> for ViewFault {
    ghost from_gives = { λ _ fault. fault ≡ no_memory };

    fn from(_: NoMemory) -> Self {
        ViewFault::NoMemory
    }
}
