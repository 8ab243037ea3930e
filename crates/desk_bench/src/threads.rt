ghost use Rattle.std.specs.Prelude.{◌≡◌, All, IfSome};

use crate::counter::Counter;
use std::alloc::Global;
use std::sync::Wait;
use std::thread;
use std::thread::Threads;
use std::time::{Clock, Instant};
use turn_desk::{Desk, Pass};

/// Each of `threads` threads commits `commits` amounts of 1 by a pass of its own. Returns the sum of all that were
/// committed, or nothing if a pass is refused or memory fails.
pub fn commit_by_all<R: Threads + Wait + Sync>(
    rt: &R,
    alloc: Global,
    threads: u32,
    commits: u64,
) -> Option<u64> {
    let (desk, mut first) = Desk::<Counter>::open(alloc).ok()?;
    let mut passes = make_passes(rt, alloc, &desk, &mut first, threads)?;
    commit_by_each(rt, &desk, &mut passes, commits);
    join_all(&desk, &mut first, passes);
    if first.left() == 0 {
        return None;
    }
    let journal = desk.close(rt, vec![in alloc; first].ok()?).ok()?;
    Some(journal.object().total)
}

fn make_passes<R: Wait>(
    rt: &R,
    alloc: Global,
    desk: &Desk<Counter>,
    first: &mut Pass<Counter>,
    count: u32,
) -> Option<Vec<Pass<Counter>>>
    requires { first.old.0 ≡ desk.now }
    ensures first { first.new.0 ≡ desk.now }
    ensures passes { IfSome result (λ v. All (λ p. p.0 ≡ desk.now) v.items) }
{
    let mut passes = Vec::new(alloc);
    for _ in 0..count {
        passes.push(desk.pass(rt, first).ok()?).ok()?;
    }
    Some(passes)
}

fn commit_by_each<R: Threads + Wait + Sync>(
    rt: &R,
    desk: &Desk<Counter>,
    passes: &mut [Pass<Counter>],
    commits: u64,
)
    requires { All (λ p. p.0 ≡ desk.now) passes.old }
    ensures { All (λ p. p.0 ≡ desk.now) passes.new }
{
    let count = passes.len();
    if count == 0 {
        return;
    }
    thread::for_each_mut(
        rt,
        passes,
        count,
        &|_place: usize, pass: &mut Pass<Counter>|
            requires { pass.old.0 ≡ desk.now }
            ensures { pass.new.0 ≡ desk.entry.now }
        { commit_many(rt, desk, pass, commits) },
    );
}

fn commit_many<R: Wait>(rt: &R, desk: &Desk<Counter>, pass: &mut Pass<Counter>, commits: u64)
    requires { pass.old.0 ≡ desk.now }
    ensures { pass.new.0 ≡ desk.now }
{
    for moment in 0..commits {
        let _told = desk.event(rt, pass, moment, 1);
    }
}

fn join_all(desk: &Desk<Counter>, first: &mut Pass<Counter>, mut passes: Vec<Pass<Counter>>)
    requires first { first.old.0 ≡ desk.now }
    requires passes { All (λ p. p.0 ≡ desk.now) passes.items }
    ensures { first.new.0 ≡ desk.now }
{
    while let Some(pass) = passes.pop() {
        desk.join(first, pass);
    }
}

/// One thread commits an amount and then computes for some seconds. Another commits one too, and then waits for the
/// end of the first. Returns what was computed, or nothing if a pass is refused, memory fails or the clock fails.
pub fn commit_and_compute<R: Threads + Wait + Clock + Sync>(
    rt: &R,
    alloc: Global,
    seconds: u64,
) -> Option<u64> {
    let (desk, mut first) = Desk::<Counter>::open(alloc).ok()?;
    let second = desk.pass(rt, &mut first).ok()?;
    compute_beside(rt, &desk, first, second, seconds)
}

fn compute_beside<R: Threads + Wait + Clock + Sync>(
    rt: &R,
    desk: &Desk<Counter>,
    idle: Pass<Counter>,
    busy: Pass<Counter>,
    seconds: u64,
) -> Option<u64>
    requires { (idle.0 ≡ desk.now) × (busy.0 ≡ desk.now) }
{
    let ((), computed) = thread::join(
        rt,
        ||
            requires { idle.0 ≡ desk.now }
        { commit_once(rt, desk, idle) },
        || -> Option<u64>
            requires { busy.0 ≡ desk.now }
        {
            commit_once(rt, desk, busy);
            compute(rt, seconds)
        },
    );
    computed
}

fn commit_once<R: Wait>(rt: &R, desk: &Desk<Counter>, mut pass: Pass<Counter>)
    requires { pass.0 ≡ desk.now }
{
    commit_many(rt, desk, &mut pass, 1);
}

fn compute<R: Wait + Clock>(rt: &R, seconds: u64) -> Option<u64> {
    let start = Instant::now(rt).ok()?;
    let mut number = 1;
    for _ in rt.forever() {
        number = mixed(number);
        if start.elapsed(rt).ok()?.as_secs() >= seconds {
            return Some(number);
        }
    }
    unreachable!()
}

fn mixed(number: u64) -> u64 {
    let mut mixed = number;
    for _ in 0..1_000_000 {
        mixed = mixed
            .wrapping_mul(6_364_136_223_846_793_005)
            .wrapping_add(1);
    }
    mixed
}
