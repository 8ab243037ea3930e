use plan_base::NoMemory;
use std::alloc::{AllocError, AllocFailed};
use std::error::Error;
use std::fmt;

/// Why a text can't be read.
#[derive(Clone, Copy, Debug, PartialEq, Eq)]
pub enum CertFault {
    /// The text is no certificate.
    Line {
        /// The first line, counted from 1, that isn't in the grammar; a missing line counts.
        line: u64,
    },
    /// Out of memory.
    NoMemory,
}

impl fmt::Display for CertFault {
    fn fmt<W: fmt::Write>(&self, f: &mut fmt::Formatter<W>) -> fmt::Result {
        match self {
            CertFault::Line { line } => write!(f, "no certificate from line {line} on"),
            CertFault::NoMemory => f.write_str("out of memory"),
        }
    }
}

impl Error for CertFault {}

impl From<NoMemory> for CertFault {
    ghost use Rattle.std.specs.Prelude.{◌≡◌};
    ghost use Rattle.certificate.specs.declared.fault.CertFault.TheVariants.{NoMemory};

    ghost from_gives = { λ _ e. e ≡ NoMemory };

    fn from(_: NoMemory) -> Self {
        CertFault::NoMemory
    }
}

impl From<AllocError> for CertFault {
    ghost use Rattle.std.specs.Prelude.{◌≡◌};
    ghost use Rattle.certificate.specs.declared.fault.CertFault.TheVariants.{NoMemory};

    ghost from_gives = { λ _ e. e ≡ NoMemory };

    fn from(_: AllocError) -> Self {
        CertFault::NoMemory
    }
}

impl<T: Drop> From<AllocFailed<T>> for CertFault {
    ghost use Rattle.std.specs.Prelude.{◌≡◌};
    ghost use Rattle.certificate.specs.declared.fault.CertFault.TheVariants.{NoMemory};

    ghost from_gives = { λ _ e. e ≡ NoMemory };

    fn from(_: AllocFailed<T>) -> Self {
        CertFault::NoMemory
    }
}

/// Why an instance has no certificate.
#[derive(Clone, Copy, Debug, PartialEq, Eq)]
pub enum CertRefusal {
    /// The instance has too many arcs or nodes for a certificate.
    TooLarge {
        /// The number of arcs of the instance.
        arcs: u64,
        /// The number of nodes of the instance.
        nodes: u64,
    },
    /// Out of memory.
    NoMemory,
}

impl fmt::Display for CertRefusal {
    fn fmt<W: fmt::Write>(&self, f: &mut fmt::Formatter<W>) -> fmt::Result {
        match self {
            CertRefusal::TooLarge { arcs, nodes } => {
                write!(
                    f,
                    "{arcs} arcs and {nodes} nodes are too many for a certificate"
                )
            }
            CertRefusal::NoMemory => f.write_str("out of memory"),
        }
    }
}

impl Error for CertRefusal {}

impl From<NoMemory> for CertRefusal {
    ghost use Rattle.std.specs.Prelude.{◌≡◌};
    ghost use Rattle.certificate.specs.declared.fault.CertRefusal.TheVariants.{NoMemory};

    ghost from_gives = { λ _ e. e ≡ NoMemory };

    fn from(_: NoMemory) -> Self {
        CertRefusal::NoMemory
    }
}
