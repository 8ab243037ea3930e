ghost use Rattle.std.specs.Prelude.{◌≡◌, ℕ, length, All, IfOk};
ghost use Rattle.server.specs.Bind.{HasBindCause};

use crate::worker::Worker;
use port_io::{Acceptor, Clock};
use std::alloc::{AllocError, Global};
use std::error::Error;
use std::fmt;

/// Gives workers that accept connections at one socket.
pub trait Bind {
    type Acceptor: Acceptor;

    type Clock: Clock;

    /// How often a bind has failed, up to the last value of a `u64`.
    ghost bind_faults: { Self → ℕ };

    /// Returns so many workers, whose acceptors have not failed yet and accept at the socket with this path.
    fn bind(
        &mut self,
        alloc: Global,
        path: &str,
        workers: u32,
    ) -> Result<Vec<Worker<Self::Acceptor, Self::Clock>>, Unbound>
        ensures count { IfOk result (λ given. length given.items ≡ workers) }
        ensures fresh { IfOk result (λ given. All (λ w. Self.Acceptor.accept_faults w.acceptor ≡ 0) given.items) }
        ensures cause { HasBindCause (bind_faults self.old) (bind_faults self.new) result };
}

/// Why no workers were given.
#[derive(Clone, Copy, Debug, PartialEq, Eq)]
pub enum Unbound {
    /// The socket could not be bound. The count of faults has risen.
    Failed,
    /// Out of memory.
    NoMemory,
}

impl fmt::Display for Unbound {
    fn fmt<W: fmt::Write>(&self, f: &mut fmt::Formatter<W>) -> fmt::Result {
        f.write_str(match self {
            Unbound::Failed => "the socket could not be bound",
            Unbound::NoMemory => "out of memory",
        })
    }
}

impl Error for Unbound {}

impl From<AllocError> for Unbound {
    ghost use Rattle.std.specs.Prelude.{◌≡◌};
    ghost use Rattle.server.specs.declared.bind.Unbound.TheVariants.{NoMemory};

    ghost from_gives = { λ _ e. e ≡ NoMemory };

    fn from(_: AllocError) -> Self {
        Unbound::NoMemory
    }
}
