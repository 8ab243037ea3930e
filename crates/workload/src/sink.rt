ghost use Rattle.std.specs.Prelude.{◌≡◌, [], ℕ, Some, None, IfOk, OnOk, length};
ghost use Rattle.std.specs.Io.{WritesAtMost};
ghost use Rattle.std.specs.Io.KnownBytes.{WriteAppends};
ghost use Rattle.port_io.specs.Faults.{HasCause, TakesSome};

use port_io::{Failed, Sink};
use std::alloc::Global;

/// A sink in memory that grows. A write takes all bytes, or it fails because there is no memory.
#[derive(Debug, Drop)]
pub struct GrowingSink {
    bytes: Vec<u8>,
    faults: u64,
}

impl GrowingSink {
    ghost use Rattle.workload.specs.Sink.{kept_bytes, refused_growths};

    /// Creates an empty sink.
    pub fn new(alloc: Global) -> GrowingSink
        ensures bytes { kept_bytes result ≡ [] }
        ensures faults { refused_growths result ≡ 0 }
    {
        GrowingSink {
            bytes: Vec::new(alloc),
            faults: 0,
        }
    }

    /// Returns the bytes that were taken.
    pub fn bytes(&self) -> &[u8]
        ensures { result.now ≡ kept_bytes self.now }
    {
        &self.bytes
    }
}

impl Sink for GrowingSink {
    ghost use Rattle.workload.specs.Sink.{kept_bytes, refused_growths};

    ghost written = { λ s. Some (kept_bytes s) };

    ghost write_faults = { refused_growths };

    ghost beside_writing = { λ s. (None, 0) };

    fn write(&mut self, from: &[u8]) -> Result<usize, Failed>
        ensures bound { WritesAtMost result from.now }
        ensures bytes { WriteAppends (Some (kept_bytes self.old)) (Some (kept_bytes self.new)) result from.now }
        ensures cause { HasCause (refused_growths self.old) (refused_growths self.new) result }
        ensures nothing { TakesSome (refused_growths self.old) (refused_growths self.new) from.now result }
        ensures whole { IfOk result (λ count. count ≡ length from.now) }
        ensures counted { OnOk result (refused_growths self.new ≡ refused_growths self.old) }
    {
        match self.bytes.extend_from_slice(from) {
            Ok(()) => Ok(from.len()),
            Err(_) => {
                self.faults = self.faults.saturating_add(1);
                Err(Failed)
            }
        }
    }
}
