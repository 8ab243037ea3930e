use certificate::{CertFault, CertRefusal};
use plan_base::NoMemory;

/// Why nothing was solved or written.
#[derive(Clone, Copy, Debug, PartialEq, Eq)]
pub(crate) enum Fault {
    /// The words after the program's name are none that it knows.
    Words,
    /// This line of the input is the first that is not that of a certificate.
    Unreadable { line: u64 },
    /// The arcs are not in order by direction.
    Unsorted,
    /// The input can't be read, or is too long.
    Input,
    Output,
    Clock,
    /// The solution is too large for a certificate.
    TooLarge,
    NoMemory,
}

impl Fault {
    /// What went wrong, in words.
    pub(crate) fn text(&self) -> &str {
        match self {
            Fault::Words => "use: solve_flow correcting|keeping|none [COUNT] < CERTIFICATE",
            Fault::Unreadable { .. } => "the input is no certificate",
            Fault::Unsorted => "the arcs of the input are not in order by direction",
            Fault::Input => "the input can't be read, or is too long",
            Fault::Output => "the output can't be written",
            Fault::Clock => "the clock can't be read",
            Fault::TooLarge => "the solution is too large for a certificate",
            Fault::NoMemory => "out of memory",
        }
    }

    /// The status of the program.
    pub(crate) fn status(&self) -> u8 {
        match self {
            Fault::Words | Fault::Unreadable { .. } | Fault::Unsorted => 2,
            _ => 1,
        }
    }
}

impl From<NoMemory> for Fault {
    fn from(_: NoMemory) -> Fault {
        Fault::NoMemory
    }
}

impl From<CertFault> for Fault {
    fn from(fault: CertFault) -> Fault {
        match fault {
            CertFault::Line { line } => Fault::Unreadable { line },
            CertFault::NoMemory => Fault::NoMemory,
        }
    }
}

impl From<CertRefusal> for Fault {
    fn from(refusal: CertRefusal) -> Fault {
        match refusal {
            CertRefusal::TooLarge { .. } => Fault::TooLarge,
            CertRefusal::NoMemory => Fault::NoMemory,
        }
    }
}
