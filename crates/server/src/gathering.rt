//! Takes in what the workers have done, one place after another.
ghost use Rattle.std.specs.Prelude.{◌≡◌, ℕ, ◌≤◌, ◌<◌, ◌+◌, ◌++◌, [], length, map, All, vec_len, vec_capacity};
ghost use Rattle.std.specs.List.{flat_map};
ghost use Rattle.std.specs.List.Sorted.{IsPermutation, IsNonDecreasingBy};
ghost use Rattle.server.specs.Gathering.{Drew, fault_of, faults_from};
ghost use Rattle.server.specs.Work.{Follows};
ghost use Rattle.server.specs.declared.limits.TheConstants.{WORKERS_MAX};
ghost use Rattle.turn_desk.specs.Numbers.{AreDistinct};
ghost use Rattle.turn_desk.specs.Rule.{total};
ghost use Rattle.turn_desk.specs.View.{kept_by, numbers_of};

use crate::counter::{Counter, Drawer};
use crate::place::{Place, Stop};
use crate::worker::{Session, WorkFault, Worker};
use one_history::Object;
use turn_desk::{Desk, Pass};

/// What was taken in of all workers. There is room for all sessions, workers and faults from the start.
#[derive(Drop)]
pub struct Gathered<O: Object, A, C, E> {
    pub pass: Pass<O>,
    pub drawer: Drawer,
    pub workers: Vec<Worker<A, C>>,
    pub sessions: Vec<Session<E>>,
    pub faults: Vec<WorkFault>,
}

/// Takes in what is at the places, in order.
pub fn gather<O: Object, A: Drop, C: Drop, E: Drop>(
    desk: &Desk<O>,
    counter: &Counter,
    connections: u32,
    places: Vec<Place<O, A, C, E>>,
    all: &mut Gathered<O, A, C, E>,
)
    requires desk { all.old.pass.0 ≡ desk.now }
    requires counter { all.old.drawer.0 ≡ counter.now }
    requires on_desk { All (λ p. p.pass.0 ≡ desk.now) places.items }
    requires on_counter { All (λ p. p.drawer.0 ≡ counter.now) places.items }
    requires parts { all.old.drawer.1.parts ≡ 1 }
    requires numbers { all.old.drawer.1.numbers ≡ [] }
    requires drew { All (λ p. Drew connections p.drawer.1 p.sessions.items) places.items }
    requires few { length places.items ≤ WORKERS_MAX }
    requires no_workers { all.old.workers.items ≡ [] }
    requires no_sessions { all.old.sessions.items ≡ [] }
    requires no_faults { all.old.faults.items ≡ [] }
    requires workers_room { length places.items ≤ vec_capacity all.old.workers }
    requires sessions_room { connections ≤ vec_capacity all.old.sessions }
    requires faults_room { length places.items ≤ vec_capacity all.old.faults }
    ensures desk { all.new.pass.0 ≡ all.old.pass.0 }
    ensures follows { Follows all.old.pass.1 all.new.pass.1 }
    ensures draws { all.new.pass.1.draws ≡ all.old.pass.1.draws }
    ensures taken_in { all.new.pass.1.taken_in ≡ all.old.pass.1.taken_in ++ flat_map (λ p. kept_by p.pass.1) places.items }
    ensures made_from { all.new.pass.1.made_from ≡ all.old.pass.1.made_from ++ flat_map (λ p. p.pass.1.made_from) places.items }
    ensures distinct { 0 < length places.items → AreDistinct (numbers_of all.new.pass.1) }
    ensures counter { all.new.drawer.0 ≡ all.old.drawer.0 }
    ensures connections { all.new.drawer.1.connections ≡ all.old.drawer.1.connections }
    ensures numbers { all.new.drawer.1.numbers ≡ flat_map (λ p. p.drawer.1.numbers) places.items }
    ensures parts { all.new.drawer.1.parts ≡ 1 + total (λ p. p.drawer.1.parts) places.items }
    ensures splits { all.old.drawer.1.splits ≤ all.new.drawer.1.splits }
    ensures workers { all.new.workers.items ≡ map (λ p. p.worker) places.items }
    ensures sessions { all.new.sessions.items ≡ flat_map (λ p. p.sessions.items) places.items }
    ensures faults { all.new.faults.items ≡ faults_from 0 (map (λ p. p.stop) places.items) }
{
    let mut number: u32 = 0;
    for place in places {
        let Place {
            pass,
            drawer,
            worker,
            mut sessions,
            stop,
        } = place;
        desk.join(&mut all.pass, pass);
        counter.join(&mut all.drawer, drawer);
        all.workers.push_reserved(worker);
        let Ok(()) = all.sessions.append(&mut sessions) else {
            unreachable!()
        };
        add_fault(&mut all.faults, number, stop);
        number += 1;
    }
}

// Adds the fault of a worker that had to stop.
fn add_fault(faults: &mut Vec<WorkFault>, worker: u32, stop: Option<Stop>)
    requires room { vec_len faults.old < vec_capacity faults.old }
    ensures items { faults.new.items ≡ faults.old.items ++ fault_of worker stop }
    ensures len { vec_len faults.new ≤ vec_len faults.old + 1 }
    ensures capacity { vec_capacity faults.new ≡ vec_capacity faults.old }
{
    match stop {
        None => {}
        Some(Stop::Accept) => faults.push_reserved(WorkFault::Accept { worker }),
        Some(Stop::NoMemory) => faults.push_reserved(WorkFault::NoMemory { worker }),
    }
}

/// Takes the passes of places back at which no worker has run.
pub fn take_back<O: Object, A: Drop, C: Drop, E: Drop>(
    desk: &Desk<O>,
    places: Vec<Place<O, A, C, E>>,
    pass: &mut Pass<O>,
)
    requires desk { pass.old.0 ≡ desk.now }
    requires on_desk { All (λ p. p.pass.0 ≡ desk.now) places.items }
    ensures desk { pass.new.0 ≡ pass.old.0 }
    ensures follows { Follows pass.old.1 pass.new.1 }
    ensures draws { pass.new.1.draws ≡ pass.old.1.draws }
    ensures taken_in { pass.new.1.taken_in ≡ pass.old.1.taken_in ++ flat_map (λ p. kept_by p.pass.1) places.items }
    ensures made_from { pass.new.1.made_from ≡ pass.old.1.made_from ++ flat_map (λ p. p.pass.1.made_from) places.items }
{
    for place in places {
        let Place {
            pass: own,
            drawer: _,
            worker: _,
            sessions: _,
            stop: _,
        } = place;
        desk.join(pass, own);
    }
}

/// Puts the sessions in the order of their numbers.
pub fn sort_sessions<E>(sessions: &mut Vec<Session<E>>)
    ensures permutation { IsPermutation sessions.old.items sessions.new.items }
    ensures ascending { IsNonDecreasingBy (λ s. s.number) sessions.new.items }
{
    sessions.sort_unstable_by_key(|session| session.number);
}
