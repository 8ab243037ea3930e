ghost use Rattle.std.specs.Prelude.{◌≡◌, ◌<◌, ℕ, List, length};
ghost use Rattle.std.specs.declared.option.Option.{Option};
ghost use Rattle.std.specs.Io.{ReadsAtMost, WritesAtMost};
ghost use Rattle.std.specs.Io.KnownBytes.{ReadConsumes, WriteAppends};
ghost use Rattle.port_io.specs.Faults.{HasCause, TakesSome};

use crate::Failed;

/// A source of bytes.
pub trait Source {
    /// The bytes that are left to read, if they are known.
    ghost left: { Self → Option (List ℕ) };

    /// How often a read has failed, up to the last value of a `u64`.
    ghost read_faults: { Self → ℕ };

    /// What no read changes, whatever its result.
    ghost beside_reading: { Self → Option (List ℕ) × ℕ };

    /// Takes the next bytes into a piece that is not empty, and returns how many; 0 means the end. After `Failed` no byte
    /// was taken.
    fn read(&mut self, into: &mut [u8]) -> Result<usize, Failed>
        requires room { 0 < length into.old }
        ensures bound { ReadsAtMost result into.new }
        ensures bytes { ReadConsumes (left self.old) (left self.new) result into.new }
        ensures cause { HasCause (read_faults self.old) (read_faults self.new) result }
        ensures beside { beside_reading self.new ≡ beside_reading self.old };
}

/// A sink of bytes.
pub trait Sink {
    /// The bytes that were taken, if they are known.
    ghost written: { Self → Option (List ℕ) };

    /// How often a write has failed, up to the last value of a `u64`.
    ghost write_faults: { Self → ℕ };

    /// What no write changes, whatever its result.
    ghost beside_writing: { Self → Option (List ℕ) × ℕ };

    /// Takes some first bytes of `from`, after those taken before, and returns how many. After `Failed` none was taken. If
    /// none is taken of a piece that is not empty, that is also a fault.
    fn write(&mut self, from: &[u8]) -> Result<usize, Failed>
        ensures bound { WritesAtMost result from.now }
        ensures bytes { WriteAppends (written self.old) (written self.new) result from.now }
        ensures cause { HasCause (write_faults self.old) (write_faults self.new) result }
        ensures nothing { TakesSome (write_faults self.old) (write_faults self.new) from.now result }
        ensures beside { beside_writing self.new ≡ beside_writing self.old };
}
