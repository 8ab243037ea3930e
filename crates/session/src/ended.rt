ghost use Rattle.std.specs.Prelude.{◌≡◌};

use port_io::SessionEnd;
use std::marker::Model;

/// How the serving of one connection ended, for which caller, and how many entries it has committed.
#[derive(Debug, Drop)]
pub struct Ended {
    pub(crate) end: SessionEnd,
    pub(crate) caller: u32,
    pub(crate) calls: u64,
}

impl Model for Ended {
    ghost use Rattle.session.specs.Ended.{EndedSession};

    ghost Value = { EndedSession };

    ghost view = { λ ended. record { end = ended.end; caller = ended.caller; calls = ended.calls } };
}

impl Ended {
    /// How the session ended.
    pub fn end(&self) -> SessionEnd
        ensures { result ≡ self.now.end }
    {
        self.end
    }

    /// The number of the pass on which the connection was served.
    pub fn caller(&self) -> u32
        ensures { result ≡ self.now.caller }
    {
        self.caller
    }

    /// How many entries were committed while the connection was served.
    pub fn calls(&self) -> u64
        ensures { result ≡ self.now.calls }
    {
        self.calls
    }
}
