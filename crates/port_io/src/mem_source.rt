ghost use Rattle.std.specs.Prelude.{ℕ, List, ◌≡◌, ◌<◌, ◌≤◌, ◌+◌, ◌-◌, ◌^◌, [], min, length, take, Some, IfOk, OnOk, is_err, ◌==◌, None};
ghost use Rattle.std.specs.List.{list_any};
ghost use Rattle.std.specs.Io.{ReadsAtMost};
ghost use Rattle.std.specs.Io.KnownBytes.{ReadConsumes};
ghost use Rattle.port_io.specs.Faults.{HasCause};

use crate::{Failed, Source};

/// A source in memory: it returns at most `piece` bytes in a call. A call fails if its number, counted from 0, is in
/// `fails`.
#[derive(Debug, Drop)]
pub struct MemSource {
    bytes: Vec<u8>,
    at: usize,
    piece: usize,
    fails: Vec<u64>,
    calls: u64,
    faults: u64,
    ghost within: { at ≤ length bytes.items },
    ghost moves: { 0 < piece },
}

impl MemSource {
    ghost use Rattle.port_io.specs.MemSource.{source_left, source_piece, source_fails, source_calls, source_faults};

    /// Creates a source of these bytes, in pieces of at most `piece` bytes; `piece` is at least 1.
    pub fn new(bytes: Vec<u8>, piece: usize, fails: Vec<u64>) -> MemSource
        requires { 0 < piece }
        ensures left { source_left result ≡ bytes.items }
        ensures piece { source_piece result ≡ piece }
        ensures fails { source_fails result ≡ fails.items }
        ensures calls { source_calls result ≡ 0 }
        ensures faults { source_faults result ≡ 0 }
    {
        MemSource {
            bytes,
            at: 0,
            piece,
            fails,
            calls: 0,
            faults: 0,
        }
    }
}

impl Source for MemSource {
    ghost use Rattle.port_io.specs.MemSource.{source_left, source_piece, source_fails, source_calls, source_faults};

    ghost left = { λ s. Some (source_left s) };

    ghost read_faults = { source_faults };

    ghost beside_reading = { λ s. (None, 0) };

    fn read(&mut self, into: &mut [u8]) -> Result<usize, Failed>
        requires room { 0 < length into.old }
        ensures bound { ReadsAtMost result into.new }
        ensures bytes { ReadConsumes (Some (source_left self.old)) (Some (source_left self.new)) result into.new }
        ensures cause { HasCause (source_faults self.old) (source_faults self.new) result }
        ensures listed { is_err result ≡ list_any (λ call. call == source_calls self.old) (source_fails self.old) }
        ensures count { IfOk result (λ n. n ≡ min (source_piece self.old) (min (length into.new) (length (source_left self.old)))) }
        ensures piece { source_piece self.new ≡ source_piece self.old }
        ensures fails { source_fails self.new ≡ source_fails self.old }
        ensures calls { source_calls self.new ≡ min (source_calls self.old + 1) (2 ^ 64 - 1) }
        ensures counted { OnOk result (source_faults self.new ≡ source_faults self.old) }
    {
        let call = self.calls;
        self.calls = call.saturating_add(1);
        if self.fails.contains(&call) {
            self.faults = self.faults.saturating_add(1);
            return Err(Failed);
        }
        let count = copy_front(&self.bytes[self.at..], into, self.piece);
        self.at += count;
        Ok(count)
    }
}

// Copies the first bytes of `rest`, at most `most` of them, to the start of `into`, and returns how many.
fn copy_front(rest: &[u8], into: &mut [u8], most: usize) -> usize
    ensures count { result ≡ min most (min (length into.new) (length rest.now)) }
    ensures bytes { take result into.new ≡ take result rest.now }
{
    let count = most.min(into.len().min(rest.len()));
    into[..count].copy_from_slice(&rest[..count]);
    count
}
