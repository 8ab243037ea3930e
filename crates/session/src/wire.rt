ghost use Rattle.std.specs.Prelude.{◌≡◌, ℕ, List, OnOk, OnErr};
ghost use Rattle.std.specs.declared.option.Option.{Option};
ghost use Rattle.std.specs.Io.KnownBytes.{Appends};
ghost use Rattle.port_io.specs.Faults.{HasCause};
ghost use Rattle.transfer.specs.Transfer.{AppendsPart};
ghost use Rattle.session.specs.Loop.{CutFinds, KeepsSource};

use line_cut::{Cut, Lines, ReadFault};
use port_io::{Failed, Sink, Source};
use transfer::write_all;

/// The two ends of a session: where its lines come from, and where its replies go to.
pub trait Wire {
    /// The bytes that are left to read, if they are known.
    ghost left: { Self → Option (List ℕ) };

    /// The bytes that were written, if they are known.
    ghost written: { Self → Option (List ℕ) };

    /// How often a read has failed, up to the last value of a `u64`.
    ghost read_faults: { Self → ℕ };

    /// How often a write has failed, up to the last value of a `u64`.
    ghost write_faults: { Self → ℕ };

    /// Which references the value holds, if it holds some.
    ghost references: { Self → ℕ × ℕ };

    /// Cuts one more line. `ReadFault` leaves the bytes that were taken for the next call.
    fn next_line(&mut self, lines: &mut Lines) -> Result<Cut, ReadFault>
        ensures found { CutFinds lines.old (left self.old) result lines.new (left self.new) }
        ensures source { KeepsSource lines.old (left self.old) lines.new (left self.new) }
        ensures cause { HasCause (read_faults self.old) (read_faults self.new) result }
        ensures written { written self.new ≡ written self.old }
        ensures write_faults { write_faults self.new ≡ write_faults self.old }
        ensures references { references self.new ≡ references self.old };

    /// Writes all bytes. If that fails, a proper prefix of them is written.
    fn send(&mut self, bytes: &[u8]) -> Result<(), Failed>
        ensures ok { OnOk result (Appends (written self.old) (written self.new) bytes.now) }
        ensures err { OnErr result (AppendsPart (written self.old) (written self.new) bytes.now) }
        ensures cause { HasCause (write_faults self.old) (write_faults self.new) result }
        ensures left { left self.new ≡ left self.old }
        ensures read_faults { read_faults self.new ≡ read_faults self.old }
        ensures references { references self.new ≡ references self.old };
}

/// A source and a sink that know nothing of each other.
#[derive(Drop)]
pub struct Pair<'a, I, O> {
    pub input: &'a mut I,
    pub output: &'a mut O,
}

impl<'a, I: Source, O: Sink> Wire for Pair<'a, I, O> {
    ghost left = { λ pair. I.left pair.input.now };

    ghost written = { λ pair. O.written pair.output.now };

    ghost read_faults = { λ pair. I.read_faults pair.input.now };

    ghost write_faults = { λ pair. O.write_faults pair.output.now };

    ghost references = { λ pair. (pair.input.ghost_name, pair.output.ghost_name) };

    fn next_line(&mut self, lines: &mut Lines) -> Result<Cut, ReadFault> {
        next_of(lines, self.input)
    }

    fn send(&mut self, bytes: &[u8]) -> Result<(), Failed> {
        write_all(self.output, bytes)
    }
}

// Cuts one more line off a source.
#[tactic(auto, using(crate::proofs::Cuts::cut_finds, crate::proofs::Cuts::source_is_kept))]
pub(crate) fn next_of<I: Source>(lines: &mut Lines, input: &mut I) -> Result<Cut, ReadFault>
    ensures found { CutFinds lines.old (I.left input.old) result lines.new (I.left input.new) }
    ensures source { KeepsSource lines.old (I.left input.old) lines.new (I.left input.new) }
    ensures cause { HasCause (I.read_faults input.old) (I.read_faults input.new) result }
    ensures beside { I.beside_reading input.new ≡ I.beside_reading input.old }
{
    lines.next(input)
}
