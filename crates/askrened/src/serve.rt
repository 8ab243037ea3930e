ghost use Rattle.std.specs.Prelude.{◌≡◌, ◌≢◌, ◌⊎◌, ◌<◌, ◌≤◌, Some, None, Bool, IfSome, map, option_map, string_bytes, List, ℕ};
ghost use Rattle.channel_map.specs.Reading.{map_reading, local_reading};
ghost use Rattle.channel_map.specs.declared.fault.MapFault.{MapFault};
ghost use Rattle.port_io.specs.Faults.{Rose};
ghost use Rattle.serve_command.specs.Served.{AllHaveAnswered};
ghost use Rattle.askrened.specs.Form.{Invocation, Bytes, invocation_of, AreRefused, AsksForOther, AsksToServe, IfServes};
ghost use Rattle.askrened.specs.Load.{IsKnownGood, TellsFiles};
ghost use Rattle.askrened.specs.Serving.{HasServed, HaveAnsweredOver, IsUnserved, NoneFailed, workers_or};
ghost use Rattle.askrened.specs.ServingSteps.{LoadsNothing};
ghost use Rattle.askrened.specs.Status.{IsGoodEnd, accept_of, first_accept, served_status};
ghost use Rattle.askrened.specs.Words.{IsPlain, IsService, service_by, spelling_of};

use crate::load::load;
use crate::status::Status;
use crate::words::{Service, Task, WordsFault, read_words};
use channel_map::{ChannelMap, Local};
use flow_solver::Keeping;
use port_io::{Acceptor, Gate, Places};
use serve_command::{Served, serve_all};
use server::{Bind, Unbound, WorkFault};
use std::alloc::Global;
use std::sync::Wait;
use std::thread::Threads;

/// How many workers serve if the words do not say.
pub const WORKERS: u32 = 4;

/// How serving the connections of a socket ended, and what is left of it if it began.
#[derive(Drop)]
pub struct Serving<A, C> {
    pub status: Status,
    pub served: Option<Served<A, C>>,
}

/// Runs `serve`, if the words after the program's name ask for it: loads the map and the local file, binds the socket, and serves
/// so many connections, with routes over these files.
///
/// If connections were served, the status is `AcceptFault` of the first worker whose acceptor failed, or else `NoMemory` if a
/// worker stopped for that, or else `Ok`. Otherwise it is `Usage`, one of `load`, `BindFault` or `NoMemory`.
#[tactic(auto, using(crate::proofs::Asking::refused_asks_none, crate::proofs::Asking::if_serves, crate::proofs::Asking::serves_asked, crate::proofs::Asking::serves_no_other, crate::proofs::Asking::other_serves, crate::proofs::Asking::ask_is_other, crate::proofs::Asking::check_is_other, crate::proofs::Asking::gen_is_other, crate::proofs::Asking::other_is_not_to_serve, crate::proofs::Asking::if_serves_all, crate::proofs::Spelled::plain_is_taken, crate::proofs::Spelled::plain_serve_is_no_other))]
pub fn run_serve<R: Threads + Wait + Sync, P: Places, B: Bind, G: Gate + Sync>(
    rt: &R,
    alloc: Global,
    words: &[String],
    places: &mut P,
    bind: &mut B,
    gate: &G,
) -> Serving<B::Acceptor, B::Clock>
where
    B::Acceptor: Send + Drop,
    B::Clock: Send + Drop,
    <B::Acceptor as Acceptor>::Link: Send + Drop,
    ensures usage { result.status ≡ Status.Usage → AreRefused (map string_bytes words.now) ⊎ AsksForOther (invocation_of (map string_bytes words.now)) }
    ensures refused { AreRefused (map string_bytes words.now) → (result.status ≡ Status.Usage) ⊎ (result.status ≡ Status.NoMemory) }
    ensures other { AsksForOther (invocation_of (map string_bytes words.now)) → (result.status ≡ Status.Usage) ⊎ (result.status ≡ Status.NoMemory) }
    ensures not_asked_leaves { (AsksToServe (invocation_of (map string_bytes words.now)) → ⊥)
        → (places.new ≡ places.old) × (bind.new ≡ bind.old) × (result.served ≡ None) }
    ensures spelled { (wanted : Invocation) → IsPlain wanted → AsksToServe (Some wanted) → map string_bytes words.now ≡ spelling_of wanted
        → result.status ≢ Status.Usage }
    ensures loaded { IfServes (invocation_of (map string_bytes words.now)) (λ service map_name local_name.
        TellsFiles (P.file places.old) map_name local_name result.status) }
    ensures map_refused_leaves { (local : Bool) (fault : MapFault) → result.status ≡ Status.MapRefused local fault → bind.new ≡ bind.old }
    ensures unread_leaves { result.status ≡ Status.ReadFault → bind.new ≡ bind.old }
    ensures read_fault { result.status ≡ Status.ReadFault → Rose (P.place_faults places.old) (P.place_faults places.new) }
    ensures bind_fault { result.status ≡ Status.BindFault → Rose (B.bind_faults bind.old) (B.bind_faults bind.new) }
    ensures unserved { result.served ≡ None → IsUnserved result.status }
    ensures served { IfServes (invocation_of (map string_bytes words.now)) (λ service map_name local_name.
        IfSome result.served (HasServed B.Acceptor.accept_faults B.Acceptor.accepted service)) }
    ensures answered { IfServes (invocation_of (map string_bytes words.now)) (λ service map_name local_name.
        IfSome result.served (λ served. HaveAnsweredOver B.Acceptor.Link.left B.Acceptor.Link.written B.Clock.moments (P.file places.old) map_name local_name served.journal served.sessions.items)) }
    ensures status { IfSome result.served (λ served. result.status ≡ served_status served.faults.items) }
    ensures complete { IfServes (invocation_of (map string_bytes words.now)) (λ service map_name local_name.
        IsKnownGood map_reading (P.file places.old) map_name
        → IsKnownGood local_reading (P.file places.old) local_name
        → (Rose (P.place_faults places.old) (P.place_faults places.new) → ⊥)
        → (Rose (B.bind_faults bind.old) (B.bind_faults bind.new) → ⊥)
        → IfSome result.served (λ served. NoneFailed B.Acceptor.accept_faults served.workers.items)
        → IsGoodEnd result.status) }
    ensures files { (name : Bytes) → P.file places.new name ≡ P.file places.old name }
{
    match read_words(alloc, words) {
        Err(WordsFault::Refused) => unserved(Status::Usage),
        Err(WordsFault::NoMemory) => unserved(Status::NoMemory),
        Ok(Task::Ask { .. }) => unserved(Status::Usage),
        Ok(Task::Check) => unserved(Status::Usage),
        Ok(Task::Gen { .. }) => unserved(Status::Usage),
        Ok(
            Task::Serve {
                service,
                map,
                local,
            },
        ) => load_and_serve(rt, alloc, &service, map, local, places, bind, gate),
    }
}

// No connection was served.
fn unserved<A, C>(status: Status) -> Serving<A, C>
    ensures { result ≡ record { status = status; served = None } }
{
    Serving {
        status,
        served: None,
    }
}

// Loads the files, and then serves the connections.
#[tactic(auto, using(crate::proofs::ServingEnds::bound_tells, crate::proofs::ServingEnds::nothing_is_no_usage, crate::proofs::ServingEnds::nothing_reads_nothing, crate::proofs::ServingEnds::nothing_refuses_nothing, crate::proofs::ServingEnds::load_fault_is_unserved, crate::proofs::ServingEnds::load_fault_is_no_usage, crate::proofs::ServingEnds::load_fault_is_not_bound, crate::proofs::Ends::load_ends_well, crate::proofs::ServingEnds::answered_over))]
fn load_and_serve<R: Threads + Wait + Sync, P: Places, B: Bind, G: Gate + Sync>(
    rt: &R,
    alloc: Global,
    service: &Service<'_>,
    map: Option<&str>,
    local: Option<&str>,
    places: &mut P,
    bind: &mut B,
    gate: &G,
) -> Serving<B::Acceptor, B::Clock>
where
    B::Acceptor: Send + Drop,
    B::Clock: Send + Drop,
    <B::Acceptor as Acceptor>::Link: Send + Drop,
    requires service { IsService (service_by service.now) }
    ensures other { result.status ≢ Status.Usage }
    ensures loaded { TellsFiles (P.file places.old)
        (option_map (λ name. name.now) map.entry) (option_map (λ name. name.now) local.entry) result.status }
    ensures map_refused_leaves { (local : Bool) (fault : MapFault) → result.status ≡ Status.MapRefused local fault → bind.new ≡ bind.old }
    ensures unread_leaves { result.status ≡ Status.ReadFault → bind.new ≡ bind.old }
    ensures read_fault { result.status ≡ Status.ReadFault → Rose (P.place_faults places.old) (P.place_faults places.new) }
    ensures bind_fault { result.status ≡ Status.BindFault → Rose (B.bind_faults bind.old) (B.bind_faults bind.new) }
    ensures unserved { result.served ≡ None → IsUnserved result.status }
    ensures served { IfSome result.served (HasServed B.Acceptor.accept_faults B.Acceptor.accepted (service_by service.now)) }
    ensures answered { IfSome result.served (λ served. HaveAnsweredOver B.Acceptor.Link.left B.Acceptor.Link.written B.Clock.moments
        (P.file places.old) (option_map (λ name. name.now) map.entry) (option_map (λ name. name.now) local.entry) served.journal served.sessions.items) }
    ensures status { IfSome result.served (λ served. result.status ≡ served_status served.faults.items) }
    ensures complete { IsKnownGood map_reading (P.file places.old) (option_map (λ name. name.now) map.entry)
        → IsKnownGood local_reading (P.file places.old) (option_map (λ name. name.now) local.entry)
        → (Rose (P.place_faults places.old) (P.place_faults places.new) → ⊥)
        → (Rose (B.bind_faults bind.old) (B.bind_faults bind.new) → ⊥)
        → IfSome result.served (λ served. NoneFailed B.Acceptor.accept_faults served.workers.items)
        → IsGoodEnd result.status }
    ensures files { (name : Bytes) → P.file places.new name ≡ P.file places.old name }
{
    match load(alloc, places, map, local) {
        Ok((map, local)) => bind_and_serve(rt, alloc, service, &map, &local, bind, gate),
        Err(status) => unserved(status),
    }
}

// Binds the socket, and then serves the connections.
#[tactic(auto, using(crate::proofs::ServingEnds::served_loads_nothing, crate::proofs::ServingEnds::served_not_bound, crate::proofs::ServingEnds::served_ends_well, crate::proofs::ServingEnds::none_rose))]
fn bind_and_serve<R: Threads + Wait + Sync, B: Bind, G: Gate + Sync>(
    rt: &R,
    alloc: Global,
    service: &Service<'_>,
    map: &ChannelMap,
    local: &Local,
    bind: &mut B,
    gate: &G,
) -> Serving<B::Acceptor, B::Clock>
where
    B::Acceptor: Send + Drop,
    B::Clock: Send + Drop,
    <B::Acceptor as Acceptor>::Link: Send + Drop,
    requires service { IsService (service_by service.now) }
    ensures loads_nothing { LoadsNothing result.status }
    ensures bind_fault { result.status ≡ Status.BindFault → Rose (B.bind_faults bind.old) (B.bind_faults bind.new) }
    ensures unserved { result.served ≡ None → IsUnserved result.status }
    ensures served { IfSome result.served (HasServed B.Acceptor.accept_faults B.Acceptor.accepted (service_by service.now)) }
    ensures answered { IfSome result.served (λ served. AllHaveAnswered B.Acceptor.Link.left B.Acceptor.Link.written B.Clock.moments map.now local.now served.journal served.sessions.items) }
    ensures status { IfSome result.served (λ served. result.status ≡ served_status served.faults.items) }
    ensures complete { (Rose (B.bind_faults bind.old) (B.bind_faults bind.new) → ⊥)
        → IfSome result.served (λ served. NoneFailed B.Acceptor.accept_faults served.workers.items)
        → IsGoodEnd result.status }
{
    let workers = workers_or_usual(service.workers);
    match bind.bind(alloc, service.socket, workers) {
        Err(Unbound::Failed) => unserved(Status::BindFault),
        Err(Unbound::NoMemory) => unserved(Status::NoMemory),
        Ok(workers) => {
            match serve_all(
                rt,
                alloc,
                workers,
                service.connections,
                map,
                local,
                gate,
                &Keeping,
            ) {
                Ok(served) => end_of(served),
                Err(_) => unserved(Status::NoMemory),
            }
        }
    }
}

fn workers_or_usual(said: Option<u32>) -> u32
    ensures { result ≡ workers_or WORKERS said }
{
    match said {
        None => WORKERS,
        Some(workers) => workers,
    }
}

// The end of connections that were served.
fn end_of<A, C>(served: Served<A, C>) -> Serving<A, C>
    ensures { result ≡ record { status = served_status served.faults.items; served = Some served } }
{
    Serving {
        status: faults_status(&served.faults),
        served: Some(served),
    }
}

fn faults_status(faults: &[WorkFault]) -> Status
    ensures { result ≡ served_status faults.now }
{
    match first_accept(faults) {
        Some(worker) => Status::AcceptFault { worker },
        None => {
            if faults.is_empty() {
                Status::Ok
            } else {
                Status::NoMemory
            }
        }
    }
}

// The worker of the first fault of an acceptor.
fn first_accept(faults: &[WorkFault]) -> Option<u32>
    ensures { result ≡ first_accept faults.now }
{
    for fault in faults {
        match accept_of(*fault) {
            Some(worker) => return Some(worker),
            None => (),
        }
    }
    None
}

fn accept_of(fault: WorkFault) -> Option<u32>
    ensures { result ≡ accept_of fault }
{
    match fault {
        WorkFault::Accept { worker } => Some(worker),
        WorkFault::NoMemory { .. } => None,
    }
}
