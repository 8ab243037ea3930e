ghost use Rattle.std.specs.Prelude.{◌≡◌, ◌≤◌, ◌+◌, length, OnOk, IfOk, IsErrOf};
ghost use Rattle.std.specs.Io.KnownBytes.{Consumes, IsAtEnd};
ghost use Rattle.port_io.specs.Faults.{Rose};
ghost use Rattle.port_io.specs.declared.limited_read.TheConstants.{PIECE};
ghost use Rattle.transfer.specs.Transfer.{TakesMore, TakesAtMost};

use port_io::{PlaceFault, Source, read_limited};
use std::alloc::Global;

/// Why an input was not read whole.
#[derive(Clone, Copy, Debug, PartialEq, Eq)]
pub enum InputFault {
    /// A read failed.
    Failed,
    /// The input has more bytes than the limit.
    Long,
    /// Out of memory.
    NoMemory,
}

/// Reads an input to its end. If it has more than `limit` bytes, the result is `Long`, and reading stops there.
pub fn read_all<I: Source>(
    alloc: Global,
    input: &mut I,
    limit: usize,
) -> Result<Vec<u8>, InputFault>
    ensures bytes { IfOk result (λ bytes. Consumes (I.left input.old) (I.left input.new) bytes.items) }
    ensures end { OnOk result (IsAtEnd (I.left input.new)) }
    ensures short { IfOk result (λ bytes. length bytes.items ≤ limit) }
    ensures failed { IsErrOf result InputFault.Failed → Rose (I.read_faults input.old) (I.read_faults input.new) }
    ensures failed_early { IsErrOf result InputFault.Failed → TakesAtMost limit (I.left input.old) (I.left input.new) }
    ensures long { IsErrOf result InputFault.Long → TakesMore limit (I.left input.old) (I.left input.new) }
    ensures stops { IsErrOf result InputFault.Long → TakesAtMost (limit + PIECE) (I.left input.old) (I.left input.new) }
    ensures counts { I.read_faults input.old ≤ I.read_faults input.new }
    ensures beside { I.beside_reading input.new ≡ I.beside_reading input.old }
{
    match read_limited(alloc, input, limit) {
        Ok(bytes) => Ok(bytes),
        Err(PlaceFault::Failed) => Err(InputFault::Failed),
        Err(PlaceFault::Long) => Err(InputFault::Long),
        Err(PlaceFault::NoMemory) => Err(InputFault::NoMemory),
    }
}
