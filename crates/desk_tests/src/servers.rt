ghost use Rattle.std.specs.Prelude.{◌≡◌, ℕ, ◌+◌, ◌%◌, ◌^◌, IfOk};
ghost use Rattle.port_io.specs.MemAcceptor.{acceptor_faults};

use one_history::{Entry, Object};
use plan_base::NoMemory;
use port_io::{
    Acceptor, Clock, Link, MemAcceptor, MemClock, MemLink, MemSink, MemSource, Sink, Source,
};
use server::{Bind, MemBind, Serve, Unbound, UnixBind, WorkFault, Worked, Worker, work};
use std::alloc::Global;
use std::os::unix::fs::PermissionsExt;
use std::os::unix::net::UnixStream;
use std::sync::Wait;
use std::sync::atomic::{AtomicU64, Ordering};
use std::test::*;
use std::thread::Threads;
use std::{fs, thread};
use turn_desk::{Desk, Pass};

/// Adds amounts up. A reply is the sum before.
#[derive(Debug, Drop)]
struct Sum {
    total: u64,
}

impl Object for Sum {
    type Command = u64;

    type Reply = u64;

    ghost start = { record { total = 0 } };

    ghost good = { λ _. Unit {0} };

    ghost next = { λ sum caller moment amount. record { total = (sum.total + amount) % 2 ^ 64 } };

    ghost reply = { λ sum caller moment amount. sum.total };

    fn fresh(_alloc: Global) -> Result<Self, NoMemory> {
        Ok(Sum { total: 0 })
    }

    fn step(
        &mut self,
        _alloc: Global,
        _caller: u32,
        _moment: u64,
        amount: &u64,
    ) -> Result<u64, NoMemory> {
        let before = self.total;
        self.total = before.wrapping_add(*amount);
        Ok(before)
    }
}

/// How a connection ended: its caller, and how many entries it has committed.
#[derive(Debug, Drop)]
struct Added {
    caller: u32,
    calls: u64,
}

/// Commits the first byte of a connection as an amount, and writes it back.
struct AddFirst;

impl<L: Link, C: Clock> Serve<Sum, L, C> for AddFirst {
    type End = Added;

    ghost relates = { λ server added caller calls seen. (added.caller ≡ caller) × (added.calls ≡ calls) };

    fn serve<R: Threads + Wait + Sync>(
        &self,
        rt: &R,
        _alloc: Global,
        desk: &Desk<Sum>,
        pass: &mut Pass<Sum>,
        link: &mut L,
        clock: &mut C,
    ) -> Added {
        let caller = pass.number();
        let mut piece = [0; 1];
        let Ok(_) = link.read(&mut piece) else {
            return Added { caller, calls: 0 };
        };
        let Ok(_) = desk.event(rt, pass, clock.now(), u64::from(piece[0])) else {
            return Added { caller, calls: 0 };
        };
        let _ = link.write(&piece);
        Added { caller, calls: 1 }
    }
}

/// Waits for another connection that is served at the same time, at most a million turns.
#[derive(Drop)]
struct Meet<'a> {
    arrived: &'a AtomicU64,
}

impl<'a, L: Link, C: Clock> Serve<Sum, L, C> for Meet<'a> {
    type End = bool;

    ghost relates = { λ server met caller calls seen. calls ≡ 0 };

    fn serve<R: Threads + Wait + Sync>(
        &self,
        _rt: &R,
        _alloc: Global,
        _desk: &Desk<Sum>,
        _pass: &mut Pass<Sum>,
        _link: &mut L,
        _clock: &mut C,
    ) -> bool {
        self.arrived.fetch_add(1, Ordering::SeqCst);
        for _ in 0..1_000_000 {
            if self.arrived.load(Ordering::SeqCst) > 1 {
                return true;
            }
            thread::yield_now();
        }
        false
    }
}

// A worker whose connections have one of these bytes each.
fn mem_worker(
    alloc: Global,
    bytes: &[u8],
    fails: &[u64],
) -> Result<Worker<MemAcceptor, MemClock>, Fail>
    ensures { IfOk result (λ w. acceptor_faults w.acceptor ≡ 0) }
{
    let mut links = Vec::new(alloc);
    for byte in bytes {
        let source = MemSource::new(vec![in alloc; *byte]?, 1, Vec::new(alloc));
        let mut sink = MemSink::new(alloc, 1, Vec::new(alloc));
        sink.reserve(1)?;
        links.push(MemLink::new(source, sink))?;
    }
    Ok(Worker {
        acceptor: MemAcceptor::new(links, fails.to_vec(alloc)?),
        clock: MemClock::new(vec![in alloc; 7]?),
    })
}

#[test]
fn each_connection_is_a_session_of_its_own(rt: HostRuntime) -> Result<(), Fail> {
    let alloc = rt.alloc();
    let (desk, pass) = Desk::<Sum>::open(alloc)?;
    let workers = vec![in alloc; mem_worker(alloc, b"\x05\x06", &[])?]?;
    let Ok(worked) = work(&rt, alloc, &desk, pass, workers, 2, &AddFirst) else {
        panic!(rt; "no worker began")
    };
    let Worked {
        pass,
        mut workers,
        sessions,
        faults,
    } = worked;
    assert!(rt; faults.is_empty());
    for (number, session) in sessions.iter().enumerate() {
        assert_eq!(rt; session.number as usize, number);
        assert_eq!(rt; session.caller as usize, number + 2);
        assert_eq!(rt; session.end.caller, session.caller);
        assert_eq!(rt; session.end.calls, 1);
    }
    assert_eq!(rt; (sessions.len(), workers.len()), (2, 1));
    assert!(rt; workers.remove(0).acceptor.accept().is_err());
    let Ok(journal) = desk.close(&rt, vec![in alloc; pass]?) else {
        panic!(rt; "the desk stays open")
    };
    let entry = |caller, command| Entry {
        caller,
        moment: 7,
        command,
    };
    assert_eq!(rt; journal.entries(), [entry(2, 5), entry(3, 6)].as_slice());
    Ok(())
}

#[test]
fn a_worker_that_fails_stops(rt: HostRuntime) -> Result<(), Fail> {
    // the calls that fail at each of the workers, how many workers there are, and how many sessions they have
    const ROWS: &[(&[u64], u32, usize)] = &[(&[0], 1, 0), (&[1], 1, 1), (&[0], 2, 0)];
    let alloc = rt.alloc();
    for (fails, count, served) in ROWS {
        let (desk, pass) = Desk::<Sum>::open(alloc)?;
        let mut workers = vec![in alloc; mem_worker(alloc, b"\x01\x02", fails)?]?;
        if *count == 2 {
            workers.push(mem_worker(alloc, b"\x01\x02", fails)?)?;
        }
        let Ok(worked) = work(&rt, alloc, &desk, pass, workers, 2, &AddFirst) else {
            panic!(rt; "no worker began")
        };
        assert_eq!(rt; worked.sessions.len(), *served);
        for (worker, fault) in worked.faults.iter().enumerate() {
            let WorkFault::Accept { worker: at } = *fault else {
                panic!(rt; "memory ran out")
            };
            assert_eq!(rt; at as usize, worker);
        }
        assert_eq!(rt; worked.faults.len(), *count as usize);
    }
    Ok(())
}

#[test]
fn workers_serve_at_the_same_time(rt: HostRuntime) -> Result<(), Fail> {
    let alloc = rt.alloc();
    let (desk, pass) = Desk::<Sum>::open(alloc)?;
    let workers = vec![in alloc;
        mem_worker(alloc, b"\x01", &[])?,
        mem_worker(alloc, b"\x02", &[])?,
    ]?;
    let arrived = AtomicU64::new(0);
    let meet = Meet { arrived: &arrived };
    let Ok(worked) = work(&rt, alloc, &desk, pass, workers, 2, &meet) else {
        panic!(rt; "no worker began")
    };
    assert!(rt; worked.sessions.iter().all(|session| session.end));
    assert_eq!(rt; (worked.sessions.len(), worked.faults.len()), (2, 0));
    Ok(())
}

#[test]
fn a_binder_in_memory_gives_its_workers_once(rt: HostRuntime) -> Result<(), Fail> {
    let alloc = rt.alloc();
    let workers = vec![in alloc;
        mem_worker(alloc, b"\x01", &[])?,
        mem_worker(alloc, b"", &[])?,
    ]?;
    let mut bind = MemBind::new(workers, vec![in alloc; 0]?);
    assert!(rt; matches!(bind.bind(alloc, "s", 1), Err(Unbound::Failed)));
    let Ok(mut given) = bind.bind(alloc, "s", 1) else {
        panic!(rt; "no worker was given")
    };
    assert_eq!(rt; given.len(), 1);
    assert!(rt; given.remove(0).acceptor.accept().is_ok());
    assert!(rt; matches!(bind.bind(alloc, "s", 2), Err(Unbound::Failed)));
    Ok(())
}

#[test]
fn a_socket_is_bound_for_its_owner_alone(rt: HostRuntime) -> Result<(), Fail> {
    let alloc = rt.alloc();
    let path = "bound.socket";
    let _ = fs::remove_file(&rt, path);
    let mut bind = UnixBind::new(&rt, alloc);
    let Ok(workers) = bind.bind(alloc, path, 2) else {
        panic!(rt; "the socket is not bound")
    };
    let mode = fs::metadata(&rt, path)?.permissions().mode();
    assert_eq!(rt; mode & 0o777, 0o600);
    assert!(rt; matches!(bind.bind(alloc, path, 1), Err(Unbound::Failed)));
    let mut client = port_io::UnixLink::new(UnixStream::connect(&rt, path)?);
    assert_eq!(rt; client.write(b"\x05"), Ok(1));
    let (desk, pass) = Desk::<Sum>::open(alloc)?;
    assert_eq!(rt; workers.len(), 2);
    // the bind that was refused has connected too
    let Ok(worked) = work(&rt, alloc, &desk, pass, workers, 2, &AddFirst) else {
        panic!(rt; "no worker began")
    };
    assert_eq!(rt; (worked.sessions.len(), worked.faults.len()), (2, 0));
    let mut piece = [0; 2];
    assert_eq!(rt; client.read(&mut piece), Ok(1));
    assert_eq!(rt; piece[0], 5);
    bind.remove_sockets();
    Ok(())
}

#[test]
fn a_socket_that_nobody_answers_is_bound_anew(rt: HostRuntime) -> Result<(), Fail> {
    let alloc = rt.alloc();
    let path = "left.socket";
    let _ = fs::remove_file(&rt, path);
    let mut bind = UnixBind::new(&rt, alloc);
    assert!(rt; bind.bind(alloc, path, 1).is_ok());
    assert!(rt; bind.bind(alloc, path, 1).is_ok());
    bind.remove_sockets();
    assert!(rt; fs::metadata(&rt, path).is_err());
    fs::write(&rt, path, b"a file".as_slice())?;
    assert!(rt; matches!(bind.bind(alloc, path, 1), Err(Unbound::Failed)));
    assert!(rt; fs::metadata(&rt, path)?.is_file());
    fs::remove_file(&rt, path)?;
    Ok(())
}
