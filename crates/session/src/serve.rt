ghost use Rattle.std.specs.Prelude.{◌≡◌, ◌≤◌, ◌+◌, ◌-◌, length, IfSome};
ghost use Rattle.port_io.specs.Faults.{Rose};
ghost use Rattle.turn_desk.specs.declared.limits.TheConstants.{TURNS_MAX};
ghost use Rattle.session.specs.Answers.{Answers};
ghost use Rattle.session.specs.Caller.{one_of_many};
ghost use Rattle.session.specs.Session.{IsToldSession, IsServable, EndsWell};
ghost use Rattle.session.specs.declared.limits.TheConstants.{LINES_MAX};

use crate::among::Among;
use crate::answerer::RouteAnswers;
use crate::ended::Ended;
use crate::gated::GatedAnswers;
use crate::lines::serve_lines;
use crate::link::Ends;
use askrene_state::State;
use channel_map::{ChannelMap, Local};
use flow_model::Solve;
use port_io::{Clock, Gate, Link, SessionEnd};
use std::alloc::Global;
use std::sync::Wait;
use std::thread::Threads;
use turn_desk::{Desk, Pass};

/// Serves the lines of a connection, at most 1,000,000, each reply written whole before the next line is read. Commits by the
/// pass, in turn with other callers of the desk, and may wait for them. A getroutes command passes the gate after its commit;
/// then routes are computed over the map and the local file, with the solver, while others may commit.
#[tactic(auto, using(crate::proofs::Complete::ends_well))]
pub fn serve_link<R: Threads + Wait + Sync, L: Link, C: Clock, G: Gate, S: Solve>(
    rt: &R,
    alloc: Global,
    desk: &Desk<State>,
    pass: &mut Pass<State>,
    map: &ChannelMap,
    local: &Local,
    link: &mut L,
    clock: &mut C,
    gate: &G,
    solver: &S,
) -> Ended
    requires desk { pass.old.0 ≡ desk.now }
    requires draws { pass.old.1.draws + LINES_MAX ≤ TURNS_MAX }
    ensures session { IsToldSession (Answers map.now local.now) (one_of_many pass.old.1.number) result.end (record {
      input = L.left link.old;
      rest = L.left link.new;
      output = L.written link.old;
      written = L.written link.new;
      before = record { log = pass.old.1.seen; clock = C.moments clock.old };
      after = record { log = pass.new.1.seen; clock = C.moments clock.new };
    }) }
    ensures read_fault { result.end ≡ SessionEnd.ReadFault → Rose (L.read_faults link.old) (L.read_faults link.new) }
    ensures write_fault { result.end ≡ SessionEnd.WriteFault → Rose (L.write_faults link.old) (L.write_faults link.new) }
    ensures limit { LINES_MAX ≡ 1000000 }
    ensures complete { IfSome (L.left link.old) (λ bytes. IsServable bytes
        → (Rose (L.read_faults link.old) (L.read_faults link.new) → ⊥)
        → (Rose (L.write_faults link.old) (L.write_faults link.new) → ⊥) → EndsWell result.end) }
    ensures caller { result.caller ≡ pass.old.1.number }
    ensures calls { result.calls ≡ length pass.new.1.calls - length pass.old.1.calls }
    ensures desk { pass.new.0 ≡ pass.old.0 }
    ensures number { pass.new.1.number ≡ pass.old.1.number }
    ensures made_from { pass.new.1.made_from ≡ pass.old.1.made_from }
    ensures taken_in { pass.new.1.taken_in ≡ pass.old.1.taken_in }
{
    serve_by_pass(rt, alloc, desk, pass, map, local, link, clock, gate, solver)
}

// The session without its completeness.
fn serve_by_pass<R: Threads + Wait + Sync, L: Link, C: Clock, G: Gate, S: Solve>(
    rt: &R,
    alloc: Global,
    desk: &Desk<State>,
    pass: &mut Pass<State>,
    map: &ChannelMap,
    local: &Local,
    link: &mut L,
    clock: &mut C,
    gate: &G,
    solver: &S,
) -> Ended
    requires desk { pass.old.0 ≡ desk.now }
    requires draws { pass.old.1.draws + LINES_MAX ≤ TURNS_MAX }
    ensures session { IsToldSession (Answers map.now local.now) (one_of_many pass.old.1.number) result.end (record {
      input = L.left link.old;
      rest = L.left link.new;
      output = L.written link.old;
      written = L.written link.new;
      before = record { log = pass.old.1.seen; clock = C.moments clock.old };
      after = record { log = pass.new.1.seen; clock = C.moments clock.new };
    }) }
    ensures read_fault { result.end ≡ SessionEnd.ReadFault → Rose (L.read_faults link.old) (L.read_faults link.new) }
    ensures write_fault { result.end ≡ SessionEnd.WriteFault → Rose (L.write_faults link.old) (L.write_faults link.new) }
    ensures caller { result.caller ≡ pass.old.1.number }
    ensures calls { result.calls ≡ length pass.new.1.calls - length pass.old.1.calls }
    ensures desk { pass.new.0 ≡ pass.old.0 }
    ensures number { pass.new.1.number ≡ pass.old.1.number }
    ensures made_from { pass.new.1.made_from ≡ pass.old.1.made_from }
    ensures taken_in { pass.new.1.taken_in ≡ pass.old.1.taken_in }
{
    let caller = pass.number();
    let routes = RouteAnswers { map, local, solver };
    let answerer = GatedAnswers {
        rt,
        gate,
        caller,
        routes,
    };
    let mut among = Among {
        rt,
        desk,
        pass,
        calls: 0,
    };
    let mut wire = Ends { link };
    let end = serve_lines(alloc, &mut among, &answerer, &mut wire, clock);
    Ended {
        end,
        caller,
        calls: u64::from(among.calls),
    }
}
