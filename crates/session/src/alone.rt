ghost use Rattle.std.specs.Prelude.{◌≡◌, IfSome};
ghost use Rattle.port_io.specs.Faults.{Rose};
ghost use Rattle.session.specs.Answers.{Answers};
ghost use Rattle.session.specs.Caller.{only_caller};
ghost use Rattle.session.specs.Session.{IsToldSession, IsServable, EndsWell};
ghost use Rattle.session.specs.declared.limits.TheConstants.{LINES_MAX};

use crate::answerer::RouteAnswers;
use crate::lines::serve_lines;
use crate::wire::Pair;
use askrene_state::State;
use channel_map::{ChannelMap, Local};
use flow_model::Solve;
use one_history::Journal;
use port_io::{Clock, SessionEnd, Sink, Source};
use std::alloc::Global;

/// Serves the lines of an input, at most 1,000,000, each reply written whole before the next line is read. Commits as caller
/// 0 and waits for nobody. Routes are computed over the map and the local file, with the solver. A fault of the input or the output, a line that is too long, and one line more end the session.
#[tactic(auto, using(crate::proofs::Complete::ends_well))]
pub fn ask_loop<I: Source, O: Sink, C: Clock, S: Solve>(
    alloc: Global,
    journal: &mut Journal<State>,
    map: &ChannelMap,
    local: &Local,
    input: &mut I,
    output: &mut O,
    clock: &mut C,
    solver: &S,
) -> SessionEnd
    ensures session { IsToldSession (Answers map.now local.now) only_caller result (record {
      input = I.left input.old;
      rest = I.left input.new;
      output = O.written output.old;
      written = O.written output.new;
      before = record { log = journal.old; clock = C.moments clock.old };
      after = record { log = journal.new; clock = C.moments clock.new };
    }) }
    ensures read_fault { result ≡ SessionEnd.ReadFault → Rose (I.read_faults input.old) (I.read_faults input.new) }
    ensures write_fault { result ≡ SessionEnd.WriteFault → Rose (O.write_faults output.old) (O.write_faults output.new) }
    ensures limit { LINES_MAX ≡ 1000000 }
    ensures complete { IfSome (I.left input.old) (λ bytes. IsServable bytes
        → (Rose (I.read_faults input.old) (I.read_faults input.new) → ⊥)
        → (Rose (O.write_faults output.old) (O.write_faults output.new) → ⊥) → EndsWell result) }
{
    serve_streams(alloc, journal, map, local, input, output, clock, solver)
}

// The session without its completeness.
fn serve_streams<I: Source, O: Sink, C: Clock, S: Solve>(
    alloc: Global,
    journal: &mut Journal<State>,
    map: &ChannelMap,
    local: &Local,
    input: &mut I,
    output: &mut O,
    clock: &mut C,
    solver: &S,
) -> SessionEnd
    ensures session { IsToldSession (Answers map.now local.now) only_caller result (record {
      input = I.left input.old;
      rest = I.left input.new;
      output = O.written output.old;
      written = O.written output.new;
      before = record { log = journal.old; clock = C.moments clock.old };
      after = record { log = journal.new; clock = C.moments clock.new };
    }) }
    ensures read_fault { result ≡ SessionEnd.ReadFault → Rose (I.read_faults input.old) (I.read_faults input.new) }
    ensures write_fault { result ≡ SessionEnd.WriteFault → Rose (O.write_faults output.old) (O.write_faults output.new) }
{
    let mut wire = Pair { input, output };
    let answerer = RouteAnswers { map, local, solver };
    serve_lines(alloc, journal, &answerer, &mut wire, clock)
}
