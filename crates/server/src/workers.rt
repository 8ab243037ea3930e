//! All workers, each in a thread of its own.
ghost use Rattle.std.specs.Prelude.{◌≡◌, ℕ, ◌≤◌, ◌<◌, ◌+◌, [], length, map, slice_index_or, All, IfOk, IfErr, vec_capacity};
ghost use Rattle.std.specs.List.Sorted.{IsStrictlyIncreasing};
ghost use Rattle.server.specs.Place.{MayRun, Ran};
ghost use Rattle.server.specs.Work.{Follows, HasAccepted, HasPass, HasRisenCount, NoneFell, OthersAreSilent, TakesBack, callers_of, fault_workers, session_numbers, taken_since, worker_of};
ghost use Rattle.server.specs.Works.{IsPreparedFrom, Works};
ghost use Rattle.server.specs.declared.limits.TheConstants.{CONNECTIONS_MAX, WORKERS_MAX};
ghost use Rattle.turn_desk.specs.Numbers.{AreDistinct};
ghost use Rattle.turn_desk.specs.View.{numbers_of};
ghost use Rattle.turn_desk.specs.declared.limits.TheConstants.{TURNS_MAX};

use crate::counter::Counter;
use crate::gathering::{Gathered, gather, sort_sessions, take_back};
use crate::place::{Place, run_worker};
use crate::preparing::prepare;
use crate::serve::Serve;
use crate::worker::{Session, Unworked, WorkFault, Worked, Worker};
use one_history::Object;
use plan_base::NoMemory;
use port_io::{Acceptor, Clock};
use std::alloc::Global;
use std::sync::Wait;
use std::thread::{Threads, for_each_mut};
use turn_desk::{Desk, Pass};

// Runs each worker in a thread of its own.
fn run_places<
    O: Object + Send,
    A: Acceptor + Send,
    C: Clock + Send,
    V: Serve<O, A::Link, C> + Sync,
    R: Threads + Wait + Sync,
>(
    rt: &R,
    alloc: Global,
    desk: &Desk<O>,
    counter: &Counter,
    server: &V,
    connections: u32,
    places: &mut [Place<O, A, C, V::End>],
)
where
    A::Link: Send + Drop,
    O::Command: Send,
    O::Reply: Send,
    requires { All (MayRun (V.relates server.now) connections desk.now counter.now) places.old }
    ensures len { length places.new ≡ length places.old }
    ensures each { (i : ℕ) (d : _) → i < length places.old → Ran (V.relates server.now) A.accept_faults A.accepted connections (slice_index_or places.old i d) (slice_index_or places.new i d) }
{
    let threads = places.len();
    if threads > 0 {
        for_each_mut(
            rt,
            places,
            threads,
            &|_: usize, place: &mut Place<O, A, C, V::End>|
                requires { MayRun (V.relates server.now) connections desk.now counter.now place.now }
                ensures { Ran (V.relates server.entry.now) A.accept_faults A.accepted connections place.entry.now place.exit.now }
            { run_worker(rt, alloc, desk, counter, server, connections, place) },
        );
    }
}

// The same for places in a `Vec`.
fn run_all<
    O: Object + Send,
    A: Acceptor + Send,
    C: Clock + Send,
    V: Serve<O, A::Link, C> + Sync,
    R: Threads + Wait + Sync,
>(
    rt: &R,
    alloc: Global,
    desk: &Desk<O>,
    counter: &Counter,
    server: &V,
    connections: u32,
    places: &mut Vec<Place<O, A, C, V::End>>,
)
where
    A::Link: Send + Drop,
    O::Command: Send,
    O::Reply: Send,
    requires { All (MayRun (V.relates server.now) connections desk.now counter.now) places.old.items }
    ensures len { length places.new.items ≡ length places.old.items }
    ensures each { (i : ℕ) (d : _) → i < length places.old.items → Ran (V.relates server.now) A.accept_faults A.accepted connections (slice_index_or places.old.items i d) (slice_index_or places.new.items i d) }
{
    run_places(
        rt,
        alloc,
        desk,
        counter,
        server,
        connections,
        places.as_mut_slice(),
    );
}

// Runs the workers at their places, and takes in what they have done.
fn finish<
    O: Object + Send,
    A: Acceptor + Send + Drop,
    C: Clock + Send + Drop,
    V: Serve<O, A::Link, C> + Sync,
    R: Threads + Wait + Sync,
>(
    rt: &R,
    alloc: Global,
    desk: &Desk<O>,
    counter: &Counter,
    server: &V,
    connections: u32,
    mut places: Vec<Place<O, A, C, V::End>>,
    mut all: Gathered<O, A, C, V::End>,
) -> Worked<O, A, C, V::End>
where
    A::Link: Send + Drop,
    O::Command: Send,
    O::Reply: Send,
    requires desk { all.pass.0 ≡ desk.now }
    requires counter { all.drawer.0 ≡ counter.now }
    requires on_desk { All (λ p. p.pass.0 ≡ desk.now) places.items }
    requires on_counter { All (λ p. p.drawer.0 ≡ counter.now) places.items }
    requires ready { All (MayRun (V.relates server.now) connections desk.now counter.now) places.items }
    requires parts { all.drawer.1.parts ≡ 1 }
    requires numbers { all.drawer.1.numbers ≡ [] }
    requires splits { all.drawer.1.splits + length places.items ≡ WORKERS_MAX }
    requires no_workers { all.workers.items ≡ [] }
    requires no_sessions { all.sessions.items ≡ [] }
    requires no_faults { all.faults.items ≡ [] }
    requires workers_room { length places.items ≤ vec_capacity all.workers }
    requires sessions_room { connections ≤ vec_capacity all.sessions }
    requires faults_room { length places.items ≤ vec_capacity all.faults }
    ensures desk { result.pass.0 ≡ all.pass.0 }
    ensures works { (workers : _) (v : _) → IsPreparedFrom workers v all.pass.1 places.items → Works (V.relates server.now) A.accept_faults A.accepted connections workers v (record { pass = result.pass.1; workers = result.workers.items; sessions = result.sessions.items; faults = result.faults.items }) }
{
    run_all(rt, alloc, desk, counter, server, connections, &mut places);
    gather(desk, counter, connections, places, &mut all);
    counter.tell(&mut all.drawer);
    sort_sessions(&mut all.sessions);
    let Gathered {
        pass,
        drawer: _,
        workers,
        sessions,
        faults,
    } = all;
    Worked {
        pass,
        workers,
        sessions,
        faults,
    }
}

/// Empty lists with room for all that comes of the workers.
#[derive(Drop)]
struct Room<O: Object, A, C, E> {
    places: Vec<Place<O, A, C, E>>,
    workers: Vec<Worker<A, C>>,
    sessions: Vec<Session<E>>,
    faults: Vec<WorkFault>,
}

// Takes all memory that is needed once workers have begun.
fn make_room<O: Object, A: Drop, C: Drop, E: Drop>(
    alloc: Global,
    workers: usize,
    connections: u32,
) -> Result<Room<O, A, C, E>, NoMemory>
    ensures places { IfOk result (λ room. (room.places.items ≡ []) × (workers ≤ vec_capacity room.places)) }
    ensures workers { IfOk result (λ room. (room.workers.items ≡ []) × (workers ≤ vec_capacity room.workers)) }
    ensures sessions { IfOk result (λ room. (room.sessions.items ≡ []) × (connections ≤ vec_capacity room.sessions)) }
    ensures faults { IfOk result (λ room. (room.faults.items ≡ []) × (workers ≤ vec_capacity room.faults)) }
{
    Ok(Room {
        places: Vec::with_capacity(alloc, workers)?,
        workers: Vec::with_capacity(alloc, workers)?,
        sessions: Vec::with_capacity(alloc, connections as usize)?,
        faults: Vec::with_capacity(alloc, workers)?,
    })
}

/// Serves connections by workers, each in a thread of its own and with a pass of its own, which has been taken in again in the
/// end.
///
/// Each worker draws a number, accepts a connection for it and serves it, until it draws a number that is no connection's. A
/// worker that fails stops, and the others go on. If there is no memory before the workers begin, nothing is served, and the
/// workers are dropped.
pub fn work<
    O: Object + Send,
    A: Acceptor + Send + Drop,
    C: Clock + Send + Drop,
    V: Serve<O, A::Link, C> + Sync,
    R: Threads + Wait + Sync,
>(
    rt: &R,
    alloc: Global,
    desk: &Desk<O>,
    mut pass: Pass<O>,
    workers: Vec<Worker<A, C>>,
    connections: u32,
    server: &V,
) -> Result<Worked<O, A, C, V::End>, Unworked<O>>
where
    A::Link: Send + Drop,
    O::Command: Send,
    O::Reply: Send,
    requires desk { pass.0 ≡ desk.now }
    requires workers { (0 < length workers.items) × (length workers.items ≤ WORKERS_MAX) }
    requires connections { (0 < connections) × (connections ≤ CONNECTIONS_MAX) }
    requires draws { pass.1.draws + WORKERS_MAX + 1 ≤ TURNS_MAX }
    ensures workers_limit { WORKERS_MAX ≡ 64 }
    ensures connections_limit { CONNECTIONS_MAX ≡ 65000 }
    ensures desk { IfOk result (λ w. w.pass.0 ≡ pass.0) }
    ensures follows { IfOk result (λ w. Follows pass.1 w.pass.1) }
    ensures draws { IfOk result (λ w. w.pass.1.draws ≤ pass.1.draws + length workers.items) }
    ensures takes_back { IfOk result (λ w. TakesBack pass.1 w.pass.1) }
    ensures distinct { IfOk result (λ w. AreDistinct (numbers_of w.pass.1)) }
    ensures ascending { IfOk result (λ w. IsStrictlyIncreasing (session_numbers w.sessions.items)) }
    ensures numbers { IfOk result (λ w. All (λ s. s.number < connections) w.sessions.items) }
    ensures callers { IfOk result (λ w. AreDistinct (callers_of w.sessions.items)) }
    ensures ends { IfOk result (λ w. All (HasPass (V.relates server.now) (taken_since pass.1 w.pass.1)) w.sessions.items) }
    ensures silent { IfOk result (λ w. OthersAreSilent w.sessions.items (taken_since pass.1 w.pass.1)) }
    ensures missing { IfOk result (λ w. length w.faults.items < length workers.items → connections ≤ length w.sessions.items + length w.faults.items) }
    ensures fault_order { IfOk result (λ w. IsStrictlyIncreasing (fault_workers w.faults.items)) }
    ensures fault_workers { IfOk result (λ w. All (λ f. worker_of f < length workers.items) w.faults.items) }
    ensures accept_cause { IfOk result (λ w. All (HasRisenCount A.accept_faults workers.items w.workers.items) w.faults.items) }
    ensures workers { IfOk result (λ w. length w.workers.items ≡ length workers.items) }
    ensures counts { IfOk result (λ w. NoneFell A.accept_faults workers.items w.workers.items) }
    ensures accepted { IfOk result (λ w. HasAccepted A.accepted workers.items w.workers.items (length w.sessions.items)) }
    ensures unworked_desk { IfErr result (λ u. u.pass.0 ≡ pass.0) }
    ensures unworked_follows { IfErr result (λ u. Follows pass.1 u.pass.1) }
    ensures unworked_draws { IfErr result (λ u. u.pass.1.draws ≤ pass.1.draws + length workers.items) }
    ensures unworked_takes_back { IfErr result (λ u. TakesBack pass.1 u.pass.1) }
    ensures unworked_silent { IfErr result (λ u. All (λ kept. kept.calls ≡ []) (taken_since pass.1 u.pass.1)) }
{
    let Ok(room) = make_room(alloc, workers.len(), connections) else {
        return Err(Unworked { pass });
    };
    let Ok((counter, mut drawer)) = Counter::open(alloc, u64::from(connections)) else {
        return Err(Unworked { pass });
    };
    let Room {
        mut places,
        workers: back,
        sessions,
        faults,
    } = room;
    let Ok(()) = prepare(
        rt,
        alloc,
        desk,
        &counter,
        workers,
        &mut pass,
        &mut drawer,
        &mut places,
    ) else {
        take_back(desk, places, &mut pass);
        return Err(Unworked { pass });
    };
    let all = Gathered {
        pass,
        drawer,
        workers: back,
        sessions,
        faults,
    };
    Ok(finish(rt, alloc, desk, &counter, server, connections, places, all))
}
