//! Makes the places of the workers, each with a pass and a drawer of its own.
ghost use Rattle.std.specs.Prelude.{◌≡◌, ◌≤◌, ◌+◌, ◌++◌, [], length, map, All, OnOk, vec_capacity};
ghost use Rattle.server.specs.Place.{IsReady};
ghost use Rattle.server.specs.Work.{Follows};

use crate::counter::{Counter, Drawer};
use crate::place::Place;
use crate::worker::Worker;
use one_history::Object;
use plan_base::NoMemory;
use std::alloc::Global;
use std::sync::Wait;
use turn_desk::{Desk, Pass};

/// Makes a place for each worker, in order, in a list that has room for them. Also after a refusal the list has the places
/// that were made.
pub fn prepare<O: Object, A: Drop, C: Drop, E, R: Wait>(
    rt: &R,
    alloc: Global,
    desk: &Desk<O>,
    counter: &Counter,
    workers: Vec<Worker<A, C>>,
    pass: &mut Pass<O>,
    drawer: &mut Drawer,
    places: &mut Vec<Place<O, A, C, E>>,
) -> Result<(), NoMemory>
    requires desk { pass.old.0 ≡ desk.now }
    requires counter { drawer.old.0 ≡ counter.now }
    requires parts { drawer.old.1.parts ≡ 1 }
    requires numbers { drawer.old.1.numbers ≡ [] }
    requires splits { length workers.items ≤ drawer.old.1.splits }
    requires empty { places.old.items ≡ [] }
    requires room { length workers.items ≤ vec_capacity places.old }
    ensures desk { pass.new.0 ≡ pass.old.0 }
    ensures on_desk { All (λ p. p.pass.0 ≡ desk.now) places.new.items }
    ensures on_counter { All (λ p. p.drawer.0 ≡ counter.now) places.new.items }
    ensures ready { All (λ p. IsReady drawer.old.1.connections p.sessions.items p.drawer.1 p.pass.1 p.stop) places.new.items }
    ensures workers { OnOk result (map (λ p. p.worker) places.new.items ≡ workers.items) }
    ensures follows { Follows pass.old.1 pass.new.1 }
    ensures draws { pass.new.1.draws ≤ pass.old.1.draws + length workers.items }
    ensures taken_in { pass.new.1.taken_in ≡ pass.old.1.taken_in }
    ensures made_from { pass.new.1.made_from ≡ pass.old.1.made_from ++ map (λ p. p.pass.1.number) places.new.items }
    ensures counter { drawer.new.0 ≡ drawer.old.0 }
    ensures connections { drawer.new.1.connections ≡ drawer.old.1.connections }
    ensures parts { drawer.new.1.parts ≡ 1 }
    ensures numbers { drawer.new.1.numbers ≡ [] }
    ensures splits { drawer.new.1.splits + length places.new.items ≡ drawer.old.1.splits }
{
    for worker in workers {
        let Ok(own) = desk.pass(rt, pass) else {
            return Err(NoMemory);
        };
        let theirs = counter.split(drawer);
        places.push_reserved(Place {
            pass: own,
            drawer: theirs,
            worker,
            sessions: Vec::new(alloc),
            stop: None,
        });
    }
    Ok(())
}
