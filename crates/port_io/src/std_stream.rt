ghost use Rattle.std.specs.Prelude.{◌≡◌, ◌<◌, length, None};
ghost use Rattle.std.specs.Io.{ReadsAtMost, WritesAtMost};
ghost use Rattle.std.specs.Io.KnownBytes.{ReadConsumes, WriteAppends};
ghost use Rattle.port_io.specs.Faults.{HasCause, TakesSome};

use crate::{Failed, Sink, Source};
use std::io::{ErrorKind, Read, Write};

/// A source over any reader of std. Its bytes are known if those of the reader are. It counts every `Err` of the reader
/// as a fault, also of an interrupted read, which it tries again.
#[derive(Drop)]
pub struct StdSource<R> {
    inner: R,
    faults: u64,
}

impl<R: Read> StdSource<R> {
    /// Creates a source that reads from `inner` and has not failed yet.
    pub fn new(inner: R) -> StdSource<R>
        ensures { result ≡ record { inner = inner; faults = 0 } }
    {
        StdSource { inner, faults: 0 }
    }

    /// Returns how often a read has failed.
    pub(crate) fn faults(&self) -> u64
        ensures { result ≡ self.now.faults }
    {
        self.faults
    }
}

impl<R: Read> Source for StdSource<R> {
    ghost left = { λ s. R.remaining s.inner };

    ghost read_faults = { λ s. s.faults };

    ghost beside_reading = { λ s. (None, 0) };

    fn read(&mut self, into: &mut [u8]) -> Result<usize, Failed> {
        read_counted(&mut self.inner, &mut self.faults, into)
    }
}

/// A sink over any writer of std. Its bytes are known if those of the writer are. It counts every `Err` of the writer as a
/// fault, also of an interrupted write, which it tries again.
#[derive(Drop)]
pub struct StdSink<W> {
    inner: W,
    faults: u64,
}

impl<W: Write> StdSink<W> {
    /// Creates a sink that writes to `inner` and has not failed yet.
    pub fn new(inner: W) -> StdSink<W>
        ensures { result ≡ record { inner = inner; faults = 0 } }
    {
        StdSink { inner, faults: 0 }
    }
}

impl<W: Write> Sink for StdSink<W> {
    ghost written = { λ s. W.contents s.inner };

    ghost write_faults = { λ s. s.faults };

    ghost beside_writing = { λ s. (None, 0) };

    fn write(&mut self, from: &[u8]) -> Result<usize, Failed> {
        write_counted(&mut self.inner, &mut self.faults, from)
    }
}

// Reads once, and again while a read is interrupted. Counts each `Err`.
pub(crate) fn read_counted<R: Read>(
    inner: &mut R,
    faults: &mut u64,
    into: &mut [u8],
) -> Result<usize, Failed>
    requires room { 0 < length into.old }
    ensures bound { ReadsAtMost result into.new }
    ensures bytes { ReadConsumes (R.remaining inner.old) (R.remaining inner.new) result into.new }
    ensures cause { HasCause faults.old faults.new result }
{
    'tries: for _ in 0..u64::MAX {
        match inner.read(into) {
            Ok(count) => return Ok(count),
            Err(fault) => {
                *faults = faults.saturating_add(1);
                if fault.kind() != ErrorKind::Interrupted {
                    return Err(Failed);
                }
            }
        }
    }
    *faults = faults.saturating_add(1);
    Err(Failed)
}

// Writes once, and again while a write is interrupted. Counts each `Err`, and a write that takes nothing of a piece that
// is not empty.
pub(crate) fn write_counted<W: Write>(
    inner: &mut W,
    faults: &mut u64,
    from: &[u8],
) -> Result<usize, Failed>
    ensures bound { WritesAtMost result from.now }
    ensures bytes { WriteAppends (W.contents inner.old) (W.contents inner.new) result from.now }
    ensures cause { HasCause faults.old faults.new result }
    ensures nothing { TakesSome faults.old faults.new from.now result }
{
    'tries: for _ in 0..u64::MAX {
        match inner.write(from) {
            Ok(count) if count > 0 || from.is_empty() => return Ok(count),
            Err(fault) if fault.kind() == ErrorKind::Interrupted => {
                *faults = faults.saturating_add(1);
            }
            Ok(_) | Err(_) => break 'tries,
        }
    }
    *faults = faults.saturating_add(1);
    Err(Failed)
}
