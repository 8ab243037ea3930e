ghost use Rattle.std.specs.Prelude.{◌≡◌, ◌<◌, ◌≤◌, ◌+◌, Some, IfOk};
ghost use Rattle.port_io.specs.Faults.{Rose};
ghost use Rattle.session.specs.Session.{long_line};
ghost use Rattle.session.specs.Outcome.{SessionState};
ghost use Rattle.session.specs.Loop.{KeepsSource, TurnOutcome, LastOutcome, SaysTooLong};

use crate::answerer::Answerer;
use crate::caller::Caller;
use crate::reply::serve_line;
use crate::wire::Wire;
use line_cut::{Cut, Lines};
use plan_answer::line_too_long;
use plan_base::NoMemory;
use port_io::{Clock, SessionEnd};
use rpc_lines::{Id, Reply, write_reply};
use std::alloc::Global;

/// Serves the next line, and returns an end if the session ends with it.
pub fn serve_next<H: Caller, A: Answerer, W: Wire, C: Clock>(
    alloc: Global,
    lines: &mut Lines,
    caller: &mut H,
    answerer: &A,
    wire: &mut W,
    clock: &mut C,
) -> Option<SessionEnd>
    requires allowed { 0 < H.commands_left caller.old }
    requires ready { H.ready caller.old }
    ensures outcome { TurnOutcome (A.answers answerer.now) (H.who caller.old) result
        (record { lines = lines.old; left = W.left wire.old; written = W.written wire.old; state = record { log = H.seen caller.old; clock = C.moments clock.old } })
        (record { lines = lines.new; left = W.left wire.new; written = W.written wire.new; state = record { log = H.seen caller.new; clock = C.moments clock.new } }) }
    ensures source { KeepsSource lines.old (W.left wire.old) lines.new (W.left wire.new) }
    ensures read_fault { result ≡ Some SessionEnd.ReadFault → Rose (W.read_faults wire.old) (W.read_faults wire.new) }
    ensures write_fault { result ≡ Some SessionEnd.WriteFault → Rose (W.write_faults wire.old) (W.write_faults wire.new) }
    ensures read_counts { W.read_faults wire.old ≤ W.read_faults wire.new }
    ensures write_counts { W.write_faults wire.old ≤ W.write_faults wire.new }
    ensures who { H.who caller.new ≡ H.who caller.old }
    ensures counted { H.commands_left caller.old ≤ H.commands_left caller.new + 1 }
    ensures reference { H.reference caller.new ≡ H.reference caller.old }
    ensures ready { H.ready caller.new }
    ensures goes_on { H.goes_on caller.old caller.new }
    ensures references { W.references wire.new ≡ W.references wire.old }
{
    match wire.next_line(lines) {
        Ok(Cut::Line) => {}
        Ok(Cut::End) => return Some(SessionEnd::Done),
        Ok(Cut::Long) => return Some(say_too_long(alloc, wire)),
        Err(_) => return Some(SessionEnd::ReadFault),
    }
    let Ok(text) = serve_line(alloc, caller, answerer, lines.line(), clock) else {
        return Some(SessionEnd::NoMemory);
    };
    match wire.send(&text) {
        Ok(()) => None,
        Err(_) => Some(SessionEnd::WriteFault),
    }
}

/// Whether the input ends after the greatest number of lines.
pub fn after_last<W: Wire>(lines: &mut Lines, wire: &mut W) -> SessionEnd
    ensures outcome { (state : SessionState) → LastOutcome result
        (record { lines = lines.old; left = W.left wire.old; written = W.written wire.old; state = state })
        (record { lines = lines.new; left = W.left wire.new; written = W.written wire.new; state = state }) }
    ensures source { KeepsSource lines.old (W.left wire.old) lines.new (W.left wire.new) }
    ensures read_fault { result ≡ SessionEnd.ReadFault → Rose (W.read_faults wire.old) (W.read_faults wire.new) }
    ensures write_fault { result ≡ SessionEnd.WriteFault → Rose (W.write_faults wire.old) (W.write_faults wire.new) }
    ensures references { W.references wire.new ≡ W.references wire.old }
{
    match wire.next_line(lines) {
        Ok(Cut::End) => SessionEnd::Done,
        Ok(Cut::Line) => SessionEnd::Full,
        Ok(Cut::Long) => SessionEnd::Full,
        Err(_) => SessionEnd::ReadFault,
    }
}

// Says that a line is too long, which ends the session.
fn say_too_long<W: Wire>(alloc: Global, wire: &mut W) -> SessionEnd
    ensures said { SaysTooLong result (W.written wire.old) (W.written wire.new) }
    ensures left { W.left wire.new ≡ W.left wire.old }
    ensures cause { result ≡ SessionEnd.WriteFault → Rose (W.write_faults wire.old) (W.write_faults wire.new) }
    ensures read_faults { W.read_faults wire.new ≡ W.read_faults wire.old }
    ensures write_counts { W.write_faults wire.old ≤ W.write_faults wire.new }
    ensures references { W.references wire.new ≡ W.references wire.old }
{
    let Ok(text) = too_long(alloc) else {
        return SessionEnd::NoMemory;
    };
    match wire.send(&text) {
        Ok(()) => SessionEnd::Long,
        Err(_) => SessionEnd::WriteFault,
    }
}

#[tactic(auto, unfolding(crate::specs::Session::long_line))]
fn too_long(alloc: Global) -> Result<Vec<u8>, NoMemory>
    ensures { IfOk result (λ text. text.items ≡ long_line) }
{
    let body = line_too_long(alloc)?;
    write_reply(alloc, &Reply { id: Id::Null, body })
}
