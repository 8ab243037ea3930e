ghost use Rattle.std.specs.Prelude.{◌≡◌, ◌==◌, ◌<◌, ◌≤◌, ◌+◌, ◌-◌, ◌^◌, ◌++◌, min, length, All, true, false, IfOk, OnErr, IsErrOf};
ghost use Rattle.std.specs.List.{list_any};
ghost use Rattle.port_io.specs.MemAcceptor.{acceptor_faults};
ghost use Rattle.server.specs.Bind.{HasBindCause};

use crate::bind::{Bind, Unbound};
use crate::worker::Worker;
use port_io::{MemAcceptor, MemClock};
use std::alloc::Global;
use std::mem;

/// Workers in memory: a bind gives the first ones that are left. It fails if its number, counted from 0, is in `fails`, or if
/// too few workers are left.
#[derive(Debug, Drop)]
pub struct MemBind {
    workers: Vec<Worker<MemAcceptor, MemClock>>,
    fails: Vec<u64>,
    calls: u64,
    faults: u64,
    ghost fresh: { All (λ w. acceptor_faults w.acceptor ≡ 0) workers.items },
}

impl MemBind {
    ghost use Rattle.server.specs.MemBind.{binder_workers, binder_fails, binder_calls, binder_faults};

    /// Creates a binder of these workers, whose acceptors have not failed yet.
    pub fn new(workers: Vec<Worker<MemAcceptor, MemClock>>, fails: Vec<u64>) -> MemBind
        requires fresh { All (λ w. acceptor_faults w.acceptor ≡ 0) workers.items }
        ensures workers { binder_workers result ≡ workers.items }
        ensures fails { binder_fails result ≡ fails.items }
        ensures calls { binder_calls result ≡ 0 }
        ensures faults { binder_faults result ≡ 0 }
    {
        MemBind {
            workers,
            fails,
            calls: 0,
            faults: 0,
        }
    }
}

impl Bind for MemBind {
    ghost use Rattle.server.specs.MemBind.{binder_workers, binder_fails, binder_calls, binder_faults};

    type Acceptor = MemAcceptor;

    type Clock = MemClock;

    ghost bind_faults = { binder_faults };

    /// The path does not matter.
    fn bind(
        &mut self,
        _alloc: Global,
        _path: &str,
        workers: u32,
    ) -> Result<Vec<Worker<MemAcceptor, MemClock>>, Unbound>
        ensures count { IfOk result (λ given. length given.items ≡ workers) }
        ensures fresh { IfOk result (λ given. All (λ w. acceptor_faults w.acceptor ≡ 0) given.items) }
        ensures cause { HasBindCause (binder_faults self.old) (binder_faults self.new) result }
        ensures first { IfOk result (λ given. binder_workers self.old ≡ given.items ++ binder_workers self.new) }
        ensures kept { OnErr result (binder_workers self.new ≡ binder_workers self.old) }
        ensures listed { list_any (λ call. call == binder_calls self.old) (binder_fails self.old) ≡ true → IsErrOf result Unbound.Failed }
        ensures too_few { length (binder_workers self.old) < workers → IsErrOf result Unbound.Failed }
        ensures enough { list_any (λ call. call == binder_calls self.old) (binder_fails self.old) ≡ false
            → workers ≤ length (binder_workers self.old) → ¬ (IsErrOf result Unbound.Failed) }
        ensures fails { binder_fails self.new ≡ binder_fails self.old }
        ensures calls { ¬ (IsErrOf result Unbound.NoMemory) → binder_calls self.new ≡ min (binder_calls self.old + 1) (2 ^ 64 - 1) }
        ensures counted { ¬ (IsErrOf result Unbound.Failed) → binder_faults self.new ≡ binder_faults self.old }
        ensures memory { IsErrOf result Unbound.NoMemory → binder_calls self.new ≡ binder_calls self.old }
    {
        let call = self.calls;
        let count = workers as usize;
        if self.fails.contains(&call) || self.workers.len() < count {
            self.calls = call.saturating_add(1);
            self.faults = self.faults.saturating_add(1);
            return Err(Unbound::Failed);
        }
        let rest = self.workers.split_off(count)?;
        self.calls = call.saturating_add(1);
        Ok(mem::replace(&mut self.workers, rest))
    }
}
