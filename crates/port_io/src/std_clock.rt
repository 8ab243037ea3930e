ghost use Rattle.std.specs.Prelude.{None};

use crate::Clock;
use std::time;
use std::time::{SystemTime, UNIX_EPOCH};

/// The clock of the system. Its moments are unspecified.
#[derive(Drop)]
pub struct StdClock<K> {
    inner: K,
}

impl<K: time::Clock> StdClock<K> {
    /// Creates a clock over the runtime's own.
    pub fn new(inner: K) -> StdClock<K> {
        StdClock { inner }
    }
}

impl<K: time::Clock> Clock for StdClock<K> {
    ghost moments = { λ c. None };

    /// Returns 0 if the clock cannot be read or shows a time before 1970.
    fn now(&mut self) -> u64 {
        let Ok(moment) = SystemTime::now(&self.inner) else {
            return 0;
        };
        match moment.duration_since(UNIX_EPOCH) {
            Ok(since) => since.as_secs(),
            Err(_) => 0,
        }
    }
}
