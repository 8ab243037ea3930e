ghost use Rattle.std.specs.Prelude.{◌≡◌};

use crate::{Sink, Source};

/// Both ends of one connection. A read leaves what was written and the count of write faults unchanged, and a write
/// leaves what is left to read and the count of read faults unchanged, whatever their results.
pub trait Link: Source + Sink {
    ghost reading_leaves: { (l : Self) → Self.beside_reading l ≡ (Self.written l, Self.write_faults l) };

    ghost writing_leaves: { (l : Self) → Self.beside_writing l ≡ (Self.left l, Self.read_faults l) };
}
