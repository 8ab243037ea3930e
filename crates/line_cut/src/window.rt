ghost use Rattle.std.specs.Prelude.{◌≡◌, ◌<◌, ◌≤◌, ◌+◌, ◌-◌, [], length, take, drop, slice_range, IfOk, OnErr};
ghost use Rattle.std.specs.Io.KnownBytes.{Keeps, IsAtEnd, ReadConsumes, prepend_known};
ghost use Rattle.port_io.specs.Faults.{HasCause};
ghost use Rattle.line_cut.specs.FirstLen.{first_len};
ghost use Rattle.line_cut.specs.Layout.{IsLaidOut};

use crate::limits::{LINE_MAX, SIZE};
use memchr::memchr;
use plan_base::NoMemory;
use port_io::{Failed, PIECE, Source};
use std::alloc::Global;

/// A buffer of `SIZE` bytes with the last line that was cut and, after it, the bytes that are not yet cut. It remembers how
/// many of these are known to contain no LF, so that each byte is searched once.
#[derive(Drop)]
pub(crate) struct Window {
    bytes: Vec<u8>,
    line: usize,
    line_end: usize,
    start: usize,
    end: usize,
    first: usize,
    ghost laid_out: { IsLaidOut bytes.items line line_end start end first },
}

impl Window {
    ghost use Rattle.line_cut.specs.Window.{line_in, rest_in, room_in};

    /// Creates an empty window.
    pub(crate) fn new(alloc: Global) -> Result<Window, NoMemory>
        ensures line { IfOk result (λ window. line_in window ≡ []) }
        ensures rest { IfOk result (λ window. rest_in window ≡ []) }
    {
        let mut bytes = Vec::with_capacity(alloc, SIZE)?;
        bytes.resize(SIZE, 0)?;
        Ok(Window {
            bytes,
            line: 0,
            line_end: 0,
            start: 0,
            end: 0,
            first: 0,
        })
    }

    /// Returns the last line that was cut.
    pub(crate) fn line(&self) -> &[u8]
        ensures { result.now ≡ line_in self.now }
    {
        &self.bytes[self.line..self.line_end]
    }

    /// Returns how many bytes are not yet cut.
    pub(crate) fn len(&self) -> usize
        ensures { result ≡ length (rest_in self.now) }
    {
        self.end - self.start
    }

    /// Returns how many of them come before the first LF, or how many there are if there is no LF.
    pub(crate) fn first(&self) -> usize
        ensures { result ≡ first_len (rest_in self.now) }
    {
        self.first
    }

    /// Makes room for a piece: moves the contents to the start of the buffer if that is cheap, or if there is no other
    /// room.
    pub(crate) fn make_room(&mut self)
        requires { length (rest_in self.old) ≤ LINE_MAX }
        ensures line { line_in self.new ≡ line_in self.old }
        ensures rest { rest_in self.new ≡ rest_in self.old }
        ensures room { PIECE ≤ room_in self.new }
    {
        let (line, end) = (self.line, self.end);
        if line < end - line && end + PIECE <= SIZE {
            return;
        }
        self.bytes.copy_within(line..end, 0);
        self.line = 0;
        self.line_end -= line;
        self.start -= line;
        self.end = end - line;
    }

    /// Reads once, at most one piece, after bytes that contain no LF.
    pub(crate) fn read<S: Source>(&mut self, source: &mut S) -> Result<usize, Failed>
        requires room { PIECE ≤ room_in self.old }
        requires no_feed { first_len (rest_in self.old) ≡ length (rest_in self.old) }
        ensures line { line_in self.new ≡ line_in self.old }
        ensures bytes { Keeps (prepend_known (rest_in self.old) (S.left source.old))
            (prepend_known (rest_in self.new) (S.left source.new)) }
        ensures len { IfOk result (λ n. length (rest_in self.new) ≡ length (rest_in self.old) + n) }
        ensures end { IfOk result (λ n. n ≡ 0 → IsAtEnd (S.left source.new)) }
        ensures err { OnErr result (rest_in self.new ≡ rest_in self.old) }
        ensures cause { HasCause (S.read_faults source.old) (S.read_faults source.new) result }
        ensures beside { S.beside_reading source.new ≡ S.beside_reading source.old }
    {
        let end = self.end;
        let Ok(count) = read_at(&mut self.bytes, end, source) else {
            return Err(Failed);
        };
        let more = first_len(&self.bytes[end..end + count]);
        self.end = end + count;
        self.first += more;
        Ok(count)
    }

    /// Cuts the first line.
    pub(crate) fn cut(&mut self)
        requires some { 0 < length (rest_in self.old) }
        requires short { first_len (rest_in self.old) ≤ LINE_MAX }
        ensures line { line_in self.new ≡ take (first_len (rest_in self.old)) (rest_in self.old) }
        ensures rest { rest_in self.new ≡ drop (first_len (rest_in self.old) + 1) (rest_in self.old) }
    {
        self.line = self.start;
        self.line_end = self.start + self.first;
        self.start = self.end.min(self.line_end + 1);
        self.first = first_len(&self.bytes[self.start..self.end]);
    }
}

// Reads at most one piece into `bytes`, from `at` on.
fn read_at<S: Source>(bytes: &mut Vec<u8>, at: usize, source: &mut S) -> Result<usize, Failed>
    requires { at + PIECE ≤ length bytes.old.items }
    ensures len { length bytes.new.items ≡ length bytes.old.items }
    ensures front { take at bytes.new.items ≡ take at bytes.old.items }
    ensures bytes { ReadConsumes (S.left source.old) (S.left source.new) result (drop at bytes.new.items) }
    ensures few { IfOk result (λ n. n ≤ PIECE) }
    ensures cause { HasCause (S.read_faults source.old) (S.read_faults source.new) result }
    ensures beside { S.beside_reading source.new ≡ S.beside_reading source.old }
{
    source.read(&mut bytes[at..at + PIECE])
}

// Returns how many bytes come before the first LF, or how many there are if there is no LF.
fn first_len(bytes: &[u8]) -> usize
    ensures len { result ≡ first_len bytes.now }
    ensures within { result ≤ length bytes.now }
{
    match memchr(b'\n', bytes) {
        Some(place) => place,
        None => bytes.len(),
    }
}
