ghost use Rattle.std.specs.Prelude.{ℕ, List, ◌≡◌, ◌<◌, ◌+◌, ◌-◌, ◌^◌, ◌≤◌, min, length, nat_lt, Some, IfOk, OnOk, OnErr, is_err, ◌==◌, ◌||◌, ◌&&◌};
ghost use Rattle.std.specs.List.{list_any};
ghost use Rattle.std.specs.Io.{ReadsAtMost, WritesAtMost};
ghost use Rattle.std.specs.Io.KnownBytes.{ReadConsumes, WriteAppends};
ghost use Rattle.std.proofs.Common.{refl};
ghost use Rattle.port_io.specs.Faults.{HasCause, TakesSome};
ghost use Rattle.port_io.specs.MemSource.{source_left, source_piece, source_fails, source_calls, source_faults};
ghost use Rattle.port_io.specs.MemSink.{sink_bytes, sink_room, sink_piece, sink_fails, sink_calls, sink_faults};

use crate::{Failed, Link, MemSink, MemSource, Sink, Source};

/// A connection in memory: it reads from a source and writes to a sink.
#[derive(Debug, Drop)]
pub struct MemLink {
    source: MemSource,
    sink: MemSink,
}

impl MemLink {
    ghost use Rattle.port_io.specs.MemLink.{link_source, link_sink};

    /// Creates a connection with these two ends.
    pub fn new(source: MemSource, sink: MemSink) -> MemLink
        ensures source { link_source result ≡ source }
        ensures sink { link_sink result ≡ sink }
    {
        MemLink { source, sink }
    }

    /// Returns the sink, which has the bytes that were written.
    pub fn sink(&self) -> &MemSink
        ensures { result.now ≡ link_sink self.now }
    {
        &self.sink
    }
}

impl Source for MemLink {
    ghost use Rattle.port_io.specs.MemLink.{link_source, link_sink};

    ghost left = { λ l. Some (source_left (link_source l)) };

    ghost read_faults = { λ l. source_faults (link_source l) };

    ghost beside_reading = { λ l. (Some (sink_bytes (link_sink l)), sink_faults (link_sink l)) };

    fn read(&mut self, into: &mut [u8]) -> Result<usize, Failed>
        requires room { 0 < length into.old }
        ensures bound { ReadsAtMost result into.new }
        ensures bytes { ReadConsumes (Some (source_left (link_source self.old))) (Some (source_left (link_source self.new))) result into.new }
        ensures cause { HasCause (source_faults (link_source self.old)) (source_faults (link_source self.new)) result }
        ensures listed { is_err result ≡ list_any (λ call. call == source_calls (link_source self.old)) (source_fails (link_source self.old)) }
        ensures count { IfOk result (λ n. n ≡ min (source_piece (link_source self.old)) (min (length into.new) (length (source_left (link_source self.old))))) }
        ensures piece { source_piece (link_source self.new) ≡ source_piece (link_source self.old) }
        ensures fails { source_fails (link_source self.new) ≡ source_fails (link_source self.old) }
        ensures calls { source_calls (link_source self.new) ≡ min (source_calls (link_source self.old) + 1) (2 ^ 64 - 1) }
        ensures counted { OnOk result (source_faults (link_source self.new) ≡ source_faults (link_source self.old)) }
        ensures sink { link_sink self.new ≡ link_sink self.old }
    {
        self.source.read(into)
    }
}

impl Sink for MemLink {
    ghost use Rattle.port_io.specs.MemLink.{link_source, link_sink};

    ghost written = { λ l. Some (sink_bytes (link_sink l)) };

    ghost write_faults = { λ l. sink_faults (link_sink l) };

    ghost beside_writing = { λ l. (Some (source_left (link_source l)), source_faults (link_source l)) };

    fn write(&mut self, from: &[u8]) -> Result<usize, Failed>
        ensures bound { WritesAtMost result from.now }
        ensures bytes { WriteAppends (Some (sink_bytes (link_sink self.old))) (Some (sink_bytes (link_sink self.new))) result from.now }
        ensures cause { HasCause (sink_faults (link_sink self.old)) (sink_faults (link_sink self.new)) result }
        ensures nothing { TakesSome (sink_faults (link_sink self.old)) (sink_faults (link_sink self.new)) from.now result }
        ensures failing { is_err result ≡ (list_any (λ call. call == sink_calls (link_sink self.old)) (sink_fails (link_sink self.old)) || (sink_room (link_sink self.old) == 0 && nat_lt 0 (length from.now))) }
        ensures count { IfOk result (λ n. n ≡ min (sink_piece (link_sink self.old)) (min (length from.now) (sink_room (link_sink self.old)))) }
        ensures room { IfOk result (λ n. sink_room (link_sink self.old) ≤ sink_room (link_sink self.new) + n) }
        ensures same_room { OnErr result (sink_room (link_sink self.new) ≡ sink_room (link_sink self.old)) }
        ensures piece { sink_piece (link_sink self.new) ≡ sink_piece (link_sink self.old) }
        ensures fails { sink_fails (link_sink self.new) ≡ sink_fails (link_sink self.old) }
        ensures calls { sink_calls (link_sink self.new) ≡ min (sink_calls (link_sink self.old) + 1) (2 ^ 64 - 1) }
        ensures counted { OnOk result (sink_faults (link_sink self.new) ≡ sink_faults (link_sink self.old)) }
        ensures source { link_source self.new ≡ link_source self.old }
    {
        self.sink.write(from)
    }
}

impl Link for MemLink {
    ghost reading_leaves = { λ l. refl };

    ghost writing_leaves = { λ l. refl };
}
