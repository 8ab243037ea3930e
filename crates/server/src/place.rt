//! One worker at its place: it draws numbers and serves their connections, until it draws one that is no connection's.
ghost use Rattle.std.specs.Prelude.{◌≡◌, ℕ, ◌≤◌, ◌+◌, ◌-◌, ◌^◌, min, length, None, Some, true, false};
ghost use Rattle.port_io.specs.Faults.{Rose};
ghost use Rattle.server.specs.Place.{Going, Ended, AcceptedFrom, MayRun, Ran};
ghost use Rattle.server.specs.Work.{Follows};
ghost use Rattle.server.specs.declared.place.Stop.TheVariants.{Accept};

use crate::counter::{Counter, Drawer};
use crate::serve::Serve;
use crate::worker::{Session, Worker};
use one_history::Object;
use port_io::{Acceptor, Clock};
use std::alloc::Global;
use std::sync::Wait;
use std::thread::Threads;
use turn_desk::{Desk, Pass};

/// Why a worker stopped while there were connections left.
#[derive(Drop)]
pub enum Stop {
    Accept,
    NoMemory,
}

/// What one worker has at its place.
#[derive(Drop)]
pub struct Place<O: Object, A, C, E> {
    pub pass: Pass<O>,
    pub drawer: Drawer,
    pub worker: Worker<A, C>,
    pub sessions: Vec<Session<E>>,
    pub stop: Option<Stop>,
}

// Draws a number and serves its connection. Returns false if the worker ends in place of that.
fn serve_one<O: Object, A: Acceptor, C: Clock, V: Serve<O, A::Link, C>, R: Threads + Wait + Sync>(
    rt: &R,
    alloc: Global,
    desk: &Desk<O>,
    counter: &Counter,
    server: &V,
    connections: u32,
    place: &mut Place<O, A, C, V::End>,
) -> bool
where
    A::Link: Drop,
    requires desk { place.old.pass.0 ≡ desk.now }
    requires counter { place.old.drawer.0 ≡ counter.now }
    requires going { Going (V.relates server.now) connections place.old.sessions.items place.old.drawer.1 place.old.pass.1 }
    requires running { place.old.stop ≡ None }
    ensures desk { place.new.pass.0 ≡ place.old.pass.0 }
    ensures counter { place.new.drawer.0 ≡ place.old.drawer.0 }
    ensures going { result ≡ true → Going (V.relates server.now) connections place.new.sessions.items place.new.drawer.1 place.new.pass.1 }
    ensures running { result ≡ true → place.new.stop ≡ None }
    ensures ended { result ≡ false → Ended (V.relates server.now) connections place.new.sessions.items place.new.drawer.1 place.new.pass.1 place.new.stop }
    ensures never_falls { A.accept_faults place.old.worker.acceptor ≤ A.accept_faults place.new.worker.acceptor }
    ensures cause { place.new.stop ≡ Some Accept → Rose (A.accept_faults place.old.worker.acceptor) (A.accept_faults place.new.worker.acceptor) }
    ensures accepted { (start : ℕ) → AcceptedFrom start (length place.old.sessions.items) (A.accepted place.old.worker.acceptor) → AcceptedFrom start (length place.new.sessions.items) (A.accepted place.new.worker.acceptor) }
    ensures follows { Follows place.old.pass.1 place.new.pass.1 }
{
    let number = counter.draw(&mut place.drawer);
    if number >= connections as u64 {
        return false;
    }
    if place.sessions.reserve(1).is_err() {
        place.stop = Some(Stop::NoMemory);
        return false;
    }
    let Ok(mut link) = place.worker.acceptor.accept() else {
        place.stop = Some(Stop::Accept);
        return false;
    };
    let Ok(mut own) = desk.pass(rt, &mut place.pass) else {
        place.stop = Some(Stop::NoMemory);
        return false;
    };
    let end = server.serve(
        rt,
        alloc,
        desk,
        &mut own,
        &mut link,
        &mut place.worker.clock,
    );
    let caller = own.number();
    desk.join(&mut place.pass, own);
    place.sessions.push_reserved(Session {
        number: number as u32,
        caller,
        end,
    });
    true
}

/// Runs a worker until there are no connections left or it has to stop.
pub fn run_worker<
    O: Object,
    A: Acceptor,
    C: Clock,
    V: Serve<O, A::Link, C>,
    R: Threads + Wait + Sync,
>(
    rt: &R,
    alloc: Global,
    desk: &Desk<O>,
    counter: &Counter,
    server: &V,
    connections: u32,
    place: &mut Place<O, A, C, V::End>,
)
where
    A::Link: Drop,
    requires { MayRun (V.relates server.now) connections desk.now counter.now place.old }
    ensures { Ran (V.relates server.now) A.accept_faults A.accepted connections place.old place.new }
{
    for _ in rt.forever() {
        if !serve_one(rt, alloc, desk, counter, server, connections, place) {
            return;
        }
    }
    unreachable!()
}
