ghost use Rattle.std.specs.Prelude.{◌≡◌, ◌≤◌, ◌<◌, ◌+◌, [], ◌∷◌, length, All, IfOk, vec_capacity};
ghost use Rattle.std.specs.List.Sorted.{IsStrictlyIncreasing};
ghost use Rattle.server.specs.Work.{HasAccepted, HasRisenCount, NoneFell, callers_of, fault_workers, session_numbers, worker_of};
ghost use Rattle.server.specs.declared.limits.TheConstants.{CONNECTIONS_MAX, WORKERS_MAX};
ghost use Rattle.turn_desk.specs.Closing.{Closes, HasAllMadeFrom};
ghost use Rattle.turn_desk.specs.Numbers.{AreDistinct};
ghost use Rattle.turn_desk.specs.View.{numbers_of};
ghost use Rattle.turn_desk.specs.declared.limits.TheConstants.{TURNS_MAX};
ghost use Rattle.serve_command.specs.Served.{AllHaveAnswered, HasOwnEnd, HasRisenSum, HasSession, HasToldEntries, IsOutOfMemory, NoneRose};

use crate::line_server::LineServer;
use askrene_state::State;
use channel_map::{ChannelMap, Local};
use flow_model::Solve;
use one_history::Journal;
use plan_base::NoMemory;
use port_io::{Acceptor, Clock, Gate};
use server::{Session, WorkFault, Worked, Worker, work};
use session::Ended;
use std::alloc::Global;
use std::sync::Wait;
use std::thread::Threads;
use turn_desk::{Desk, Pass};

/// What serving connections leaves: the history of all of them, the workers at their places, the sessions and the faults.
#[derive(Drop)]
pub struct Served<A, C> {
    pub journal: Journal<State>,
    pub workers: Vec<Worker<A, C>>,
    pub sessions: Vec<Session<Ended>>,
    pub faults: Vec<WorkFault>,
}

/// Serves 1 to 65,000 connections by 1 to 64 workers, each in a thread of its own, and returns the one history of their
/// commands.
///
/// A worker accepts a connection, serves its lines to the end, and accepts the next one, until there are no connections left. A
/// worker that fails stops, and the others go on. Routes are computed over the map and the local file, with the solver; each
/// ask passes the gate first, after its commit. Meanwhile other connections may commit. If there is no memory before the workers
/// begin, nothing is served, and the workers are dropped.
pub fn serve_all<
    R: Threads + Wait + Sync,
    A: Acceptor + Send + Drop,
    C: Clock + Send + Drop,
    G: Gate + Sync,
    S: Solve + Sync,
>(
    rt: &R,
    alloc: Global,
    workers: Vec<Worker<A, C>>,
    connections: u32,
    map: &ChannelMap,
    local: &Local,
    gate: &G,
    solver: &S,
) -> Result<Served<A, C>, NoMemory>
where
    A::Link: Send + Drop,
    requires workers { (0 < length workers.items) × (length workers.items ≤ WORKERS_MAX) }
    requires connections { (0 < connections) × (connections ≤ CONNECTIONS_MAX) }
    ensures ends { IfOk result (λ served. All HasOwnEnd served.sessions.items) }
    ensures answered { IfOk result (λ served. AllHaveAnswered A.Link.left A.Link.written C.moments map.now local.now served.journal served.sessions.items) }
    ensures calls { IfOk result (λ served. All (HasToldEntries served.journal) served.sessions.items) }
    ensures entries { IfOk result (λ served. All (HasSession served.sessions.items) served.journal) }
    ensures ascending { IfOk result (λ served. IsStrictlyIncreasing (session_numbers served.sessions.items)) }
    ensures numbers { IfOk result (λ served. All (λ s. s.number < connections) served.sessions.items) }
    ensures callers { IfOk result (λ served. AreDistinct (callers_of served.sessions.items)) }
    ensures missing { IfOk result (λ served. length served.faults.items < length workers.items → connections ≤ length served.sessions.items + length served.faults.items) }
    ensures fault_order { IfOk result (λ served. IsStrictlyIncreasing (fault_workers served.faults.items)) }
    ensures fault_workers { IfOk result (λ served. All (λ f. worker_of f < length workers.items) served.faults.items) }
    ensures accept_cause { IfOk result (λ served. All (HasRisenCount A.accept_faults workers.items served.workers.items) served.faults.items) }
    ensures accept_sum { IfOk result (λ served. All (HasRisenSum A.accept_faults workers.items served.workers.items) served.faults.items) }
    ensures complete { IfOk result (λ served. NoneRose A.accept_faults workers.items served.workers.items → All IsOutOfMemory served.faults.items) }
    ensures workers { IfOk result (λ served. length served.workers.items ≡ length workers.items) }
    ensures counts { IfOk result (λ served. NoneFell A.accept_faults workers.items served.workers.items) }
    ensures accepted { IfOk result (λ served. HasAccepted A.accepted workers.items served.workers.items (length served.sessions.items)) }
{
    let (desk, pass) = Desk::open(alloc)?;
    let room = Vec::with_capacity(alloc, 1)?;
    let server = LineServer {
        map,
        local,
        gate,
        solver,
    };
    let Ok(worked) = work(rt, alloc, &desk, pass, workers, connections, &server) else {
        return Err(NoMemory);
    };
    let Worked {
        pass,
        workers,
        sessions,
        faults,
    } = worked;
    let journal = close_with(rt, desk, pass, room);
    Ok(Served {
        journal,
        workers,
        sessions,
        faults,
    })
}

// Closes the desk with pass 0, which has taken in all that was made from it.
fn close_with<R: Wait>(
    rt: &R,
    desk: Desk<State>,
    pass: Pass<State>,
    mut room: Vec<Pass<State>>,
) -> Journal<State>
    requires desk { pass.0 ≡ desk }
    requires number { pass.1.number ≡ 0 }
    requires taken_in { HasAllMadeFrom (numbers_of pass.1) pass.1 }
    requires draws { pass.1.draws < TURNS_MAX }
    requires empty { room.items ≡ [] }
    requires room { 0 < vec_capacity room }
    ensures { Closes (pass ∷ []) result }
{
    room.push_reserved(pass);
    match desk.close(rt, room) {
        Ok(journal) => journal,
        Err(_) => unreachable!(),
    }
}
