//! Bells at which passes sleep while they wait for their turns.
//!
//! No ring is missed: a pass counts itself as a sleeper before its last look at the ticket that is served, and the pass
//! that leaves serves the next ticket before it looks for sleepers. So one of them sees what the other did: the bell is
//! rung, or the last look finds that the turn has come. The rings are counted before that look, so a ring that comes
//! after it ends the sleep.

use std::sync::Wait;
use std::sync::atomic::{AtomicU64, Ordering};
use std::{array, hint};

/// The number of bells. A pass sleeps at the bell of its ticket, which tickets this far apart share.
const BELLS: u64 = 64;

/// The number of looks before a waiting pass sleeps.
const LOOKS: u32 = 100;

#[derive(Drop)]
struct Bell {
    rings: AtomicU64,
    sleepers: AtomicU64,
}

impl Bell {
    fn new() -> Bell {
        Bell {
            rings: AtomicU64::new(0),
            sleepers: AtomicU64::new(0),
        }
    }
}

#[derive(Drop)]
pub struct Bells {
    bells: [Bell; BELLS as usize],
}

impl Bells {
    pub fn new() -> Bells {
        Bells {
            bells: array::from_fn(|_| Bell::new()),
        }
    }

    fn of(&self, ticket: u64) -> &Bell {
        &self.bells[(ticket % BELLS) as usize]
    }

    /// Before a look. After enough looks the pass counts as a sleeper, and hears how often its bell has rung.
    pub fn listen(&self, ticket: u64, looks: u32) -> Option<u32> {
        if looks < LOOKS {
            return None;
        }
        let bell = self.of(ticket);
        bell.sleepers.fetch_add(1, Ordering::SeqCst);
        let rings = bell.rings.load(Ordering::SeqCst);
        Some((rings % 4_294_967_296) as u32)
    }

    /// After a look that did not find the turn: sleeps until the bell has rung since, if the pass counts as a sleeper.
    pub fn rest<R: Wait>(&self, rt: &R, ticket: u64, heard: Option<u32>) {
        match heard {
            None => hint::spin_loop(),
            Some(rings) => self.of(ticket).rings.park(rt, rings),
        }
        self.stop_listening(ticket, heard);
    }

    /// The pass no longer counts as a sleeper.
    pub fn stop_listening(&self, ticket: u64, heard: Option<u32>) {
        if heard.is_some() {
            self.of(ticket).sleepers.fetch_sub(1, Ordering::SeqCst);
        }
    }

    /// Wakes the passes that sleep at the bell of the ticket.
    pub fn ring(&self, ticket: u64) {
        let bell = self.of(ticket);
        if bell.sleepers.load(Ordering::SeqCst) > 0 {
            bell.rings.fetch_add(1, Ordering::SeqCst);
            bell.rings.wake_all();
        }
    }
}
