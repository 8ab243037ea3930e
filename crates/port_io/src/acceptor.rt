ghost use Rattle.std.specs.Prelude.{◌≡◌, ◌+◌, ◌-◌, ◌^◌, min, ℕ, OnOk, OnErr};
ghost use Rattle.port_io.specs.Faults.{HasCause};

use crate::{Failed, Link};

/// Gives connections, one after another.
pub trait Acceptor {
    type Link: Link;

    /// How often an accept has failed, up to the last value of a `u64`.
    ghost accept_faults: { Self → ℕ };

    /// How many connections it has given, up to the last value of a `u64`.
    ghost accepted: { Self → ℕ };

    /// Returns the next connection.
    fn accept(&mut self) -> Result<Self::Link, Failed>
        ensures cause { HasCause (accept_faults self.old) (accept_faults self.new) result }
        ensures given { OnOk result (accepted self.new ≡ min (accepted self.old + 1) (2 ^ 64 - 1)) }
        ensures err { OnErr result (accepted self.new ≡ accepted self.old) };
}
