use std::sync::Wait;
use std::thread::Threads;

/// Called after an ask has its position in the history and before it is answered. It sees no state.
pub trait Gate {
    /// Returns when the ask of this caller at this position may go on.
    fn hold<R: Threads + Wait + Sync>(&self, rt: &R, caller: u32, at: u64);
}

/// A gate that never holds.
#[derive(Clone, Copy, Debug, PartialEq, Eq)]
pub struct Open;

impl Gate for Open {
    fn hold<R: Threads + Wait + Sync>(&self, _rt: &R, _caller: u32, _at: u64) {}
}
