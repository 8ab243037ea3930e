//! Times commits of many threads to one desk. `desk_bench THREADS COMMITS`: each of 1 to 64 threads commits that many amounts
//! to one counter, and the time goes to standard error. `desk_bench idle SECONDS`: one thread commits once and then computes
//! for 1 to 60 seconds, while another waits for its end. The status is 1 if memory or the clock fails. Without words it ends
//! at once; other words end it with status 2.
#![tactic(auto)]

ghost use Rattle.std.specs.Prelude.{◌≤◌, ◌<◌, IfSome};

mod counter;
mod threads;

use std::alloc::Global;
use std::env;
use std::io::{self, Eprint};
use std::process::ExitCode;
use std::sync::Wait;
use std::thread::Threads;
use std::time::{Clock, Instant};
use threads::{commit_and_compute, commit_by_all};

enum Run {
    Commits { threads: u32, commits: u64 },
    Idle { seconds: u64 },
}

fn main(rt: HostRuntime) -> io::Result<ExitCode> {
    let words: Vec<String> = env::args(&rt)?.skip(1).collect(rt.alloc())?;
    if words.is_empty() {
        return Ok(ExitCode::SUCCESS);
    }
    let done = match read_words(&words) {
        None => return Ok(ExitCode::from(2)),
        Some(Run::Commits { threads, commits }) => measure(&rt, rt.alloc(), threads, commits),
        Some(Run::Idle { seconds }) => wait_idle(&rt, rt.alloc(), seconds),
    };
    match done {
        Some(()) => Ok(ExitCode::SUCCESS),
        None => Ok(ExitCode::FAILURE),
    }
}

fn read_words(words: &[String]) -> Option<Run> {
    let [first, second] = words else {
        return None;
    };
    if first.as_str() == "idle" {
        let seconds = second.parse::<u64>().ok()?;
        if 1 <= seconds && seconds <= 60 {
            return Some(Run::Idle { seconds });
        }
        return None;
    }
    let threads = first.parse::<u32>().ok()?;
    let commits = second.parse::<u64>().ok()?;
    if 1 <= threads && threads <= 64 && 1 <= commits && commits <= 4_194_304 {
        Some(Run::Commits { threads, commits })
    } else {
        None
    }
}

// The status tells whether all amounts were committed.
fn measure<R: Threads + Wait + Sync + Clock + Eprint>(
    rt: &R,
    alloc: Global,
    threads: u32,
    commits: u64,
) -> Option<()> {
    let start = Instant::now(rt).ok()?;
    let total = commit_by_all(rt, alloc, threads, commits)?;
    let micros = start.elapsed(rt).ok()?.as_micros().max(1);
    let all = u128::from(threads) * u128::from(commits);
    if u128::from(total) != all {
        return None;
    }
    eprintln!(rt;
        "{threads} threads, {commits} commits each: {micros} us, {} commits/s",
        all * 1_000_000 / micros
    )
    .ok()
}

fn wait_idle<R: Threads + Wait + Sync + Clock + Eprint>(
    rt: &R,
    alloc: Global,
    seconds: u64,
) -> Option<()> {
    let start = Instant::now(rt).ok()?;
    let number = commit_and_compute(rt, alloc, seconds)?;
    let micros = start.elapsed(rt).ok()?.as_micros();
    eprintln!(rt; "one thread computed {number}, one waited for its end: {micros} us").ok()
}
