ghost use Rattle.std.specs.Prelude.{◌≡◌, length};

use crate::Snapshot;
use std::thread::{self, Threads};

/// Snapshots may go between threads, by value and by reference: the numbers of layers of two, counted on threads.
pub fn snapshots_on_threads<R: Threads + Sync>(
    rt: &R,
    lent: &Snapshot,
    moved: Snapshot,
) -> (usize, usize)
    ensures { result ≡ (length lent.now.layers, length moved.layers) }
{
    thread::join(rt, || lent.layers().len(), move || moved.layers().len())
}
