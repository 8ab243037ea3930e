ghost use Rattle.std.specs.Prelude.{◌≡◌, ◌≢◌, ◌≤◌, IsSomeAnd, length};
ghost use Rattle.port_io.specs.Faults.{Rose};
ghost use Rattle.check_command.specs.Check.{HasFinding, IsCheck};

use crate::{CheckEnd, Finding};
use port_io::{Sink, Source};
use std::alloc::Global;
use transfer::{InputFault, read_all, write_all};

/// The most bytes of a certificate's text.
pub const TEXT_MAX: usize = 134_217_728;

/// Reads a text to its end, checks it as a certificate, and writes what it shows in one line.
#[tactic(auto, using(crate::proofs::Lengths::short_is_not_long))]
pub fn check<I: Source, O: Sink>(alloc: Global, input: &mut I, output: &mut O) -> CheckEnd
    ensures check { IsCheck result (I.left input.old) (I.left input.new) (O.written output.old) (O.written output.new) }
    ensures read_fault { result ≡ CheckEnd.ReadFault → Rose (I.read_faults input.old) (I.read_faults input.new) }
    ensures write_fault { result ≡ CheckEnd.WriteFault → Rose (O.write_faults output.old) (O.write_faults output.new) }
    ensures short { IsSomeAnd (I.left input.old) (λ bytes. length bytes ≤ TEXT_MAX) → result ≢ CheckEnd.Long }
    ensures limit { TEXT_MAX ≡ 134217728 }
{
    match read_all(alloc, input, TEXT_MAX) {
        Ok(text) => write_finding(alloc, &text, output),
        Err(InputFault::Failed) => CheckEnd::ReadFault,
        Err(InputFault::Long) => CheckEnd::Long,
        Err(InputFault::NoMemory) => CheckEnd::NoMemory,
    }
}

/// Checks a text and writes what it shows.
fn write_finding<O: Sink>(alloc: Global, text: &[u8], output: &mut O) -> CheckEnd
    ensures finding { HasFinding text.now result (O.written output.old) (O.written output.new) }
    ensures write_fault { result ≡ CheckEnd.WriteFault → Rose (O.write_faults output.old) (O.write_faults output.new) }
{
    let Ok(finding) = Finding::of(alloc, text) else {
        return CheckEnd::NoMemory;
    };
    let Ok(line) = finding.line(alloc) else {
        return CheckEnd::NoMemory;
    };
    if write_all(output, &line).is_err() {
        return CheckEnd::WriteFault;
    }
    finding.end()
}
