ghost use Rattle.std.specs.Prelude.{◌≡◌};
ghost use Rattle.reservations.specs.declared.refusal.ReserveRefusal.TheVariants.{NoMemory as no_memory};

use plan_base::NoMemory;
use std::error::Error;
use std::fmt;

/// Why nothing was reserved.
#[derive(Clone, Copy, Debug, PartialEq, Eq)]
pub enum ReserveRefusal {
    /// The limit would be exceeded.
    Full {
        /// How many reservations are held.
        length: usize,
    },
    /// Out of memory.
    NoMemory,
}

impl fmt::Display for ReserveRefusal {
    fn fmt<W: fmt::Write>(&self, f: &mut fmt::Formatter<W>) -> fmt::Result {
        match self {
            ReserveRefusal::Full { length } => {
                write!(f, "too many reservations, of which {length} stand")
            }
            ReserveRefusal::NoMemory => f.write_str("out of memory"),
        }
    }
}

impl Error for ReserveRefusal {}

impl From<NoMemory> for ReserveRefusal {
    ghost from_gives = { λ _ refusal. refusal ≡ no_memory };

    fn from(_: NoMemory) -> Self {
        ReserveRefusal::NoMemory
    }
}

/// An item has no matching reservation that no earlier item has taken.
#[derive(Clone, Copy, Debug, PartialEq, Eq)]
pub struct NotReserved {
    /// The first such item, from 0.
    pub index: usize,
}

impl fmt::Display for NotReserved {
    fn fmt<W: fmt::Write>(&self, f: &mut fmt::Formatter<W>) -> fmt::Result {
        write!(f, "item {} is not reserved", self.index)
    }
}

impl Error for NotReserved {}
