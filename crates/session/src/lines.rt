ghost use Rattle.std.specs.Prelude.{◌≡◌, ◌≤◌};
ghost use Rattle.port_io.specs.Faults.{Rose};
ghost use Rattle.session.specs.Session.{IsToldSession};
ghost use Rattle.session.specs.declared.limits.TheConstants as Limits;

use crate::answerer::Answerer;
use crate::caller::Caller;
use crate::limits::LINES_MAX;
use crate::turn::{after_last, serve_next};
use crate::wire::Wire;
use line_cut::Lines;
use port_io::{Clock, SessionEnd};
use std::alloc::Global;

/// Serves the lines of one session, each reply written whole before the next line is read.
#[tactic(auto, using(crate::proofs::Going::told_none, crate::proofs::Going::going_none, crate::proofs::Going::told_on, crate::proofs::Going::rose_later))]
pub fn serve_lines<H: Caller, A: Answerer, W: Wire, C: Clock>(
    alloc: Global,
    caller: &mut H,
    answerer: &A,
    wire: &mut W,
    clock: &mut C,
) -> SessionEnd
    requires allowed { Limits.LINES_MAX ≤ H.commands_left caller.old }
    requires ready { H.ready caller.old }
    ensures session { IsToldSession (A.answers answerer.now) (H.who caller.old) result (record {
      input = W.left wire.old;
      rest = W.left wire.new;
      output = W.written wire.old;
      written = W.written wire.new;
      before = record { log = H.seen caller.old; clock = C.moments clock.old };
      after = record { log = H.seen caller.new; clock = C.moments clock.new };
    }) }
    ensures read_fault { result ≡ SessionEnd.ReadFault → Rose (W.read_faults wire.old) (W.read_faults wire.new) }
    ensures write_fault { result ≡ SessionEnd.WriteFault → Rose (W.write_faults wire.old) (W.write_faults wire.new) }
    ensures reference { H.reference caller.new ≡ H.reference caller.old }
    ensures goes_on { H.goes_on caller.old caller.new }
    ensures references { W.references wire.new ≡ W.references wire.old }
{
    let Ok(mut lines) = Lines::new(alloc) else {
        return SessionEnd::NoMemory;
    };
    'lines: for _served in 0..LINES_MAX {
        if let Some(end) = serve_next(alloc, &mut lines, caller, answerer, wire, clock) {
            return end;
        }
    }
    after_last(&mut lines, wire)
}
