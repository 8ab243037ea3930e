//! Solves the flow problem of a certificate: `solve_flow correcting` and `solve_flow keeping` read a certificate of either
//! version from standard input, write the certificate of what the solver finds to standard output, and the microseconds
//! of opening and solving to standard error. `solve_flow none` only reads. A count after the word repeats the solving.
//! Without words it ends at once. The status is 2 if the words are wrong, or if the input is no certificate or its arcs
//! are not in order by direction; 1 if anything fails.
#![tactic(auto)]

mod choice;
mod fault;
mod solution;

use choice::{Choice, Order, read_order};
use fault::Fault;
use flow_model::Instance;
use flow_solver::{Correcting, Keeping};
use port_io::{StdSink, StdSource};
use solution::{print_solution, read_instance, solve_timed};
use std::alloc::Global;
use std::env;
use std::io::{self, Eprint};
use std::process::ExitCode;
use std::time::{Clock, Instant};
use transfer::{read_all, write_all};

/// The most bytes of a certificate's text.
const TEXT_MAX: usize = 134_217_728;

fn main(rt: HostRuntime) -> io::Result<ExitCode> {
    let words: Vec<String> = env::args(&rt)?.skip(1).collect(rt.alloc())?;
    if words.is_empty() {
        return Ok(ExitCode::SUCCESS);
    }
    let Some(order) = read_order(&words) else {
        return tell(&rt, &Fault::Words);
    };
    let text = match read_all(rt.alloc(), &mut StdSource::new(rt.reader()), TEXT_MAX) {
        Ok(text) => text,
        Err(_) => return tell(&rt, &Fault::Input),
    };
    match follow(&rt, rt.alloc(), order, text) {
        Ok(solution) => match write_all(&mut StdSink::new(io::writer(&rt)), &solution) {
            Ok(()) => Ok(ExitCode::SUCCESS),
            Err(_) => tell(&rt, &Fault::Output),
        },
        Err(fault) => tell(&rt, &fault),
    }
}

/// Writes what went wrong; the status that follows.
fn tell(rt: &impl Eprint, fault: &Fault) -> io::Result<ExitCode> {
    match fault {
        Fault::Unreadable { line } => {
            eprintln!(rt; "solve_flow: line {line} of the input is not that of a certificate")?;
        }
        other => eprintln!(rt; "solve_flow: {}", other.text())?,
    }
    Ok(ExitCode::from(fault.status()))
}

/// Solves the problem of a text as often as ordered; the certificate of the solution, or nothing if none is ordered. The
/// text is gone before the first solving.
fn follow(
    rt: &(impl Clock + Eprint),
    alloc: Global,
    order: Order,
    text: Vec<u8>,
) -> Result<Vec<u8>, Fault> {
    let start = Instant::now(rt).map_err(|_| Fault::Clock)?;
    let instance = read_instance(alloc, &text)?;
    drop(text);
    let read = Instant::now(rt).map_err(|_| Fault::Clock)?;
    let micros = read.duration_since(start).as_micros();
    eprintln!(rt; "read {micros} us").map_err(|_| Fault::Output)?;
    for _ in 1..order.times {
        solve(rt, alloc, order.choice, &instance)?;
    }
    solve(rt, alloc, order.choice, &instance)
}

/// Solves an instance once; the certificate of the solution, or nothing if none is ordered.
fn solve(
    rt: &(impl Clock + Eprint),
    alloc: Global,
    choice: Choice,
    instance: &Instance,
) -> Result<Vec<u8>, Fault> {
    let solved = match choice {
        Choice::Correcting => solve_timed(rt, alloc, &Correcting, instance)?,
        Choice::Keeping => solve_timed(rt, alloc, &Keeping, instance)?,
        Choice::None => return Ok(Vec::new(alloc)),
    };
    print_solution(alloc, instance, &solved)
}
