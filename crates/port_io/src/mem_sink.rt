ghost use Rattle.std.specs.Prelude.{ℕ, List, ◌≡◌, ◌<◌, ◌≤◌, ◌+◌, ◌-◌, ◌^◌, [], min, length, Some, IfOk, OnOk, OnErr, is_err, None, nat_lt, ◌==◌, ◌||◌, ◌&&◌};
ghost use Rattle.std.specs.List.{list_any};
ghost use Rattle.std.specs.Io.{WritesAtMost};
ghost use Rattle.std.specs.Io.KnownBytes.{WriteAppends};
ghost use Rattle.port_io.specs.Faults.{HasCause, TakesSome};

use crate::{Failed, Sink};
use plan_base::NoMemory;
use std::alloc::Global;

/// A sink in memory: it takes at most `piece` bytes in a call. A call fails if its number, counted from 0, is in
/// `fails`, or if no room is left. `reserve` makes room.
#[derive(Debug, Drop)]
pub struct MemSink {
    bytes: Vec<u8>,
    piece: usize,
    fails: Vec<u64>,
    calls: u64,
    faults: u64,
    ghost moves: { 0 < piece },
}

impl MemSink {
    ghost use Rattle.port_io.specs.MemSink.{sink_bytes, sink_room, sink_piece, sink_fails, sink_calls, sink_faults};

    /// Creates an empty sink that takes at most `piece` bytes in a call; `piece` is at least 1.
    pub fn new(alloc: Global, piece: usize, fails: Vec<u64>) -> MemSink
        requires { 0 < piece }
        ensures bytes { sink_bytes result ≡ [] }
        ensures piece { sink_piece result ≡ piece }
        ensures fails { sink_fails result ≡ fails.items }
        ensures calls { sink_calls result ≡ 0 }
        ensures faults { sink_faults result ≡ 0 }
    {
        MemSink {
            bytes: Vec::new(alloc),
            piece,
            fails,
            calls: 0,
            faults: 0,
        }
    }

    /// Returns the bytes that were taken.
    pub fn bytes(&self) -> &[u8]
        ensures { result.now ≡ sink_bytes self.now }
    {
        &self.bytes
    }

    /// Makes room for `bytes` more bytes.
    pub fn reserve(&mut self, bytes: usize) -> Result<(), NoMemory>
        ensures room { OnOk result (bytes ≤ sink_room self.new) }
        ensures bytes { sink_bytes self.new ≡ sink_bytes self.old }
        ensures piece { sink_piece self.new ≡ sink_piece self.old }
        ensures fails { sink_fails self.new ≡ sink_fails self.old }
        ensures calls { sink_calls self.new ≡ sink_calls self.old }
        ensures faults { sink_faults self.new ≡ sink_faults self.old }
    {
        self.bytes.reserve(bytes)?;
        Ok(())
    }
}

impl Sink for MemSink {
    ghost use Rattle.port_io.specs.MemSink.{sink_bytes, sink_room, sink_piece, sink_fails, sink_calls, sink_faults};

    ghost written = { λ s. Some (sink_bytes s) };

    ghost write_faults = { sink_faults };

    ghost beside_writing = { λ s. (None, 0) };

    fn write(&mut self, from: &[u8]) -> Result<usize, Failed>
        ensures bound { WritesAtMost result from.now }
        ensures bytes { WriteAppends (Some (sink_bytes self.old)) (Some (sink_bytes self.new)) result from.now }
        ensures cause { HasCause (sink_faults self.old) (sink_faults self.new) result }
        ensures nothing { TakesSome (sink_faults self.old) (sink_faults self.new) from.now result }
        ensures failing { is_err result ≡ (list_any (λ call. call == sink_calls self.old) (sink_fails self.old) || (sink_room self.old == 0 && nat_lt 0 (length from.now))) }
        ensures count { IfOk result (λ n. n ≡ min (sink_piece self.old) (min (length from.now) (sink_room self.old))) }
        ensures room { IfOk result (λ n. sink_room self.old ≤ sink_room self.new + n) }
        ensures same_room { OnErr result (sink_room self.new ≡ sink_room self.old) }
        ensures piece { sink_piece self.new ≡ sink_piece self.old }
        ensures fails { sink_fails self.new ≡ sink_fails self.old }
        ensures calls { sink_calls self.new ≡ min (sink_calls self.old + 1) (2 ^ 64 - 1) }
        ensures counted { OnOk result (sink_faults self.new ≡ sink_faults self.old) }
    {
        let call = self.calls;
        self.calls = call.saturating_add(1);
        if self.fails.contains(&call) {
            self.faults = self.faults.saturating_add(1);
            return Err(Failed);
        }
        let room = self.bytes.capacity() - self.bytes.len();
        if room == 0 && !from.is_empty() {
            self.faults = self.faults.saturating_add(1);
            return Err(Failed);
        }
        let count = self.piece.min(from.len().min(room));
        self.bytes.extend_from_slice(&from[..count]).unwrap();
        Ok(count)
    }
}
