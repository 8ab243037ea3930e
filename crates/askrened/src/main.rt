//! The program: words, files, streams, connections and a clock come in, a status goes out. `run` and `run_serve` do the work; `main`
//! passes them the real things, prints help, and says on standard error what is wrong with words, with files and with a socket.
#![tactic(auto)]

mod help;
mod load;
mod report;
#[cfg(test)]
mod rows;
mod run;
mod serve;
#[cfg(test)]
mod serve_tests;
mod status;
#[cfg(test)]
mod tests;
mod words;

use help::help_for;
use port_io::{Open, StdClock, StdPlaces, StdSink, StdSource};
use report::{hint, report};
use run::run;
use serve::run_serve;
use server::UnixBind;
use status::Status;
use std::alloc::AllocGlobal;
use std::fs::Files;
use std::io::{ErrorKind, Print};
use std::net::Net;
use std::process::ExitCode;
use std::rt::Env;
use std::sync::Wait;
use std::thread::Threads;
use std::{env, time};
use transfer::write_all;

fn main(rt: HostRuntime) -> ExitCode {
    let status = match collect_words(&rt) {
        Err(status) => {
            if status == Status::Usage {
                hint(&rt);
            }
            status
        }
        Ok(words) => match help_for(&words) {
            Some(text) => print_help(&rt, text),
            None => {
                let status = if is_serve(&words) {
                    serve_words(&rt, &words)
                } else {
                    serve_input(&rt, &words)
                };
                report(&rt, &words, &status);
                status
            }
        },
    };
    ExitCode::from(status.code())
}

fn is_serve(words: &[String]) -> bool {
    match words {
        [first, ..] => first.as_str() == "serve",
        [] => false,
    }
}

fn serve_input(rt: &HostRuntime, words: &[String]) -> Status {
    let mut places = StdPlaces::new(rt);
    let mut input = StdSource::new(rt.reader());
    let mut output = StdSink::new(std::io::writer(rt));
    let mut clock = StdClock::new(rt);
    run(
        rt.alloc(),
        words,
        &mut places,
        &mut input,
        &mut output,
        &mut clock,
    )
}

// What is left of the connections is dropped before the socket file goes.
fn serve_words<R: AllocGlobal + Files + Net + time::Clock + Threads + Wait + Sync>(
    rt: &R,
    words: &[String],
) -> Status {
    let mut places = StdPlaces::new(rt);
    let mut bind = UnixBind::new(rt, rt.alloc());
    let status = run_serve(rt, rt.alloc(), words, &mut places, &mut bind, &Open).status;
    bind.remove_sockets();
    status
}

// The words after the program's name. A word that is not UTF-8 is no command.
fn collect_words(rt: &(impl Env + AllocGlobal)) -> Result<Vec<String>, Status> {
    match env::args(rt) {
        Ok(words) => Ok(words.skip(1).collect(rt.alloc())?),
        Err(fault) if fault.kind() == ErrorKind::OutOfMemory => Err(Status::NoMemory),
        Err(_) => Err(Status::Usage),
    }
}

fn print_help<R: Print>(rt: &R, text: &str) -> Status {
    let mut output = StdSink::new(std::io::writer(rt));
    match write_all(&mut output, text.as_bytes()) {
        Ok(()) => Status::Ok,
        Err(_) => Status::WriteFault,
    }
}
