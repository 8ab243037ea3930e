use std::alloc::AllocError;
use std::error::Error;
use std::fmt;

/// A read, a write or an accept failed. The object's count of faults has risen.
#[derive(Clone, Copy, Debug, PartialEq, Eq)]
pub struct Failed;

impl fmt::Display for Failed {
    fn fmt<W: fmt::Write>(&self, f: &mut fmt::Formatter<W>) -> fmt::Result {
        f.write_str("the outside failed")
    }
}

impl Error for Failed {}

/// Why the bytes of a file or source could not be read whole.
#[derive(Clone, Copy, Debug, PartialEq, Eq)]
pub enum PlaceFault {
    /// The file could not be opened or read. The count of faults has risen.
    Failed,
    /// The file has more bytes than the limit.
    Long,
    /// Out of memory.
    NoMemory,
}

impl fmt::Display for PlaceFault {
    fn fmt<W: fmt::Write>(&self, f: &mut fmt::Formatter<W>) -> fmt::Result {
        f.write_str(match self {
            PlaceFault::Failed => "the file could not be read",
            PlaceFault::Long => "the file is too long",
            PlaceFault::NoMemory => "out of memory",
        })
    }
}

impl Error for PlaceFault {}

impl From<AllocError> for PlaceFault {
    ghost use Rattle.std.specs.Prelude.{◌≡◌};
    ghost use Rattle.port_io.specs.declared.fault.PlaceFault.TheVariants.{NoMemory};

    ghost from_gives = { λ _ e. e ≡ NoMemory };

    fn from(_: AllocError) -> Self {
        PlaceFault::NoMemory
    }
}
