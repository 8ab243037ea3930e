//! Times views and plans: `route_bench MAP [LOCAL]` loads the files and commits the requests of standard input, one a line, to
//! a journal. For each ask it builds the view and plans on it, and writes to standard error the microseconds of both, those
//! of the solver alone, and how many rounds and solves the plan took. The status is 1 if a file, a line, memory or the clock
//! fails. Without words it ends at once; other words end it with status 2.
#![tactic(auto)]

ghost use Rattle.layer.specs.Ask.{IsGoodAsk};

mod watched;

use askrene_state::{EventReply, State};
use channel_map::{ChannelMap, Local, read_local, read_map};
use flow_solver::Keeping;
use layer::{Ask, Snapshot};
use limit_rounds::plan;
use one_history::Journal;
use params::command_of;
use port_io::{Places, StdPlaces, StdSource};
use rpc_lines::read_request;
use std::alloc::Global;
use std::env;
use std::io::{self, Eprint};
use std::process::ExitCode;
use std::time::{Clock, Instant};
use transfer::read_all;
use view_build::{View, ViewFault, build};
use watched::Watched;

/// The most bytes of a file, and of the requests.
const BYTES_MAX: usize = 268_435_456;

fn main(rt: HostRuntime) -> io::Result<ExitCode> {
    let words: Vec<String> = env::args(&rt)?.skip(1).collect(rt.alloc())?;
    let (map, local) = match words.as_slice() {
        [] => return Ok(ExitCode::SUCCESS),
        [map] => (map, None),
        [map, local] => (map, Some(local)),
        _ => return Ok(ExitCode::from(2)),
    };
    let mut places = StdPlaces::new(&rt);
    let loaded = load(
        &rt,
        rt.alloc(),
        &mut places,
        map.as_str(),
        local.map(|name| name.as_str()),
    );
    let Some((map, local)) = loaded else {
        return Ok(ExitCode::FAILURE);
    };
    let Ok(lines) = read_all(rt.alloc(), &mut StdSource::new(rt.reader()), BYTES_MAX) else {
        return Ok(ExitCode::FAILURE);
    };
    match serve(&rt, rt.alloc(), &map, &local, &lines) {
        Some(()) => Ok(ExitCode::SUCCESS),
        None => Ok(ExitCode::FAILURE),
    }
}

fn load<P: Places>(
    rt: &(impl Clock + Eprint),
    alloc: Global,
    places: &mut P,
    map: &str,
    local: Option<&str>,
) -> Option<(ChannelMap, Local)> {
    let start = Instant::now(rt).ok()?;
    let text = places.read_whole(alloc, map, BYTES_MAX).ok()?;
    let read = Instant::now(rt).ok()?;
    let map = read_map(alloc, &text).ok()?;
    let loaded = Instant::now(rt).ok()?;
    let local = match local {
        None => Local::empty(alloc),
        Some(name) => read_local(alloc, &places.read_whole(alloc, name, BYTES_MAX).ok()?).ok()?,
    };
    eprintln!(rt;
        "map {} directions, file {} us, reading {} us",
        map.dirs().len(),
        read.duration_since(start).as_micros(),
        loaded.duration_since(read).as_micros()
    )
    .ok()?;
    Some((map, local))
}

fn serve(
    rt: &(impl Clock + Eprint),
    alloc: Global,
    map: &ChannelMap,
    local: &Local,
    lines: &[u8],
) -> Option<()> {
    let mut journal = Journal::<State>::open(alloc).ok()?;
    for line in lines.split(|byte| *byte == b'\n') {
        if line.is_empty() {
            continue;
        }
        if let EventReply::Routes(snapshot) = told(alloc, &mut journal, line)? {
            time_routes(rt, alloc, &snapshot, map, local)?;
        }
    }
    Some(())
}

// What the state says to a request.
fn told(alloc: Global, journal: &mut Journal<State>, line: &[u8]) -> Option<EventReply> {
    let request = read_request(alloc, line).ok()?;
    let command = command_of(alloc, &request).ok()?;
    let told = journal.commit(0, 0, command).ok()?;
    Some(told.reply)
}

// Builds a view and plans on it.
fn time_routes(
    rt: &(impl Clock + Eprint),
    alloc: Global,
    snapshot: &Snapshot,
    map: &ChannelMap,
    local: &Local,
) -> Option<()> {
    let start = Instant::now(rt).ok()?;
    let view = match build(alloc, snapshot, map, local) {
        Ok(view) => view,
        Err(ViewFault::NoMemory) => return None,
        Err(fault) => return eprintln!(rt; "{fault}").ok(),
    };
    let micros = start.elapsed(rt).ok()?.as_micros();
    let (dirs, nodes) = (view.dirs().len(), view.nodes().len());
    eprintln!(rt; "view of {dirs} directions and {nodes} nodes: {micros} us").ok()?;
    time_plan(rt, alloc, &view, snapshot.ask())
}

fn time_plan(rt: &(impl Clock + Eprint), alloc: Global, view: &View, ask: &Ask) -> Option<()>
    requires { IsGoodAsk ask.now }
{
    let solver = Watched::new(rt, &Keeping);
    let start = Instant::now(rt).ok()?;
    let run = plan(alloc, view, ask, &solver).ok()?;
    let micros = start.elapsed(rt).ok()?.as_micros();
    eprintln!(rt;
        "plan of {} rounds and {} solves: {micros} us, of these the solver {} us",
        run.rounds.as_slice().len(),
        solver.solves(),
        solver.micros()
    )
    .ok()
}
