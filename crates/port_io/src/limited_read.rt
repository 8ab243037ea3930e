ghost use Rattle.std.specs.Prelude.{◌≡◌, ◌≤◌, ◌+◌, length, OnOk, IfOk, IsErrOf};
ghost use Rattle.std.specs.Io.KnownBytes.{Consumes, IsAtEnd};
ghost use Rattle.port_io.specs.Faults.{Rose};
ghost use Rattle.port_io.specs.Taken.{TakesMore, TakesAtMost};

use crate::{PlaceFault, Source};
use std::alloc::Global;

/// The most bytes that one read takes.
pub const PIECE: usize = 65_536;

/// Reads a source to its end. If it has more than `limit` bytes, the result is `Long`, and reading stops there.
pub fn read_limited<I: Source>(
    alloc: Global,
    input: &mut I,
    limit: usize,
) -> Result<Vec<u8>, PlaceFault>
    ensures bytes { IfOk result (λ bytes. Consumes (I.left input.old) (I.left input.new) bytes.items) }
    ensures end { OnOk result (IsAtEnd (I.left input.new)) }
    ensures short { IfOk result (λ bytes. length bytes.items ≤ limit) }
    ensures long { IsErrOf result PlaceFault.Long → TakesMore limit (I.left input.old) (I.left input.new) }
    ensures stops { IsErrOf result PlaceFault.Long → TakesAtMost (limit + PIECE) (I.left input.old) (I.left input.new) }
    ensures failed { IsErrOf result PlaceFault.Failed → Rose (I.read_faults input.old) (I.read_faults input.new) }
    ensures failed_early { IsErrOf result PlaceFault.Failed → TakesAtMost limit (I.left input.old) (I.left input.new) }
    ensures counts { I.read_faults input.old ≤ I.read_faults input.new }
    ensures beside { I.beside_reading input.new ≡ I.beside_reading input.old }
{
    let mut bytes = Vec::new(alloc);
    let mut piece = [0; PIECE];
    while bytes.len() <= limit {
        match input.read(&mut piece) {
            Ok(0) => return Ok(bytes),
            Ok(count) => bytes.extend_from_slice(&piece[..count])?,
            Err(_) => return Err(PlaceFault::Failed),
        }
    }
    Err(PlaceFault::Long)
}
