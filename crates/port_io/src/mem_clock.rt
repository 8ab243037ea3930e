ghost use Rattle.std.specs.Prelude.{◌≡◌, Some};

use crate::Clock;

/// A clock in memory: it returns its moments in order, repeats the last, and returns 0 if it has none.
#[derive(Debug, Drop)]
pub struct MemClock {
    moments: Vec<u64>,
    at: usize,
}

impl MemClock {
    ghost use Rattle.port_io.specs.MemClock.{clock_left};

    /// Creates a clock with these moments.
    pub fn new(moments: Vec<u64>) -> MemClock
        ensures { clock_left result ≡ moments.items }
    {
        MemClock { moments, at: 0 }
    }
}

impl Clock for MemClock {
    ghost use Rattle.port_io.specs.MemClock.{clock_left};

    ghost moments = { λ c. Some (clock_left c) };

    fn now(&mut self) -> u64 {
        let Some(moment) = self.moments.get(self.at) else {
            return 0;
        };
        let moment = *moment;
        if self.at + 1 < self.moments.len() {
            self.at += 1;
        }
        moment
    }
}
