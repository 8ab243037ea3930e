//! Times views: `view_bench MAP ENTRIES RESERVATIONS` reads a map, makes a layer with so many entries, and
//! so many reservations, on directions of the map, builds the view of an ask five times, and writes the times to standard
//! error. The status is 1 if a file, memory or the clock fails. Without words it ends at once; other words end it with
//! status 2.
#![tactic(auto)]

mod asks;

use crate::asks::{filled, held, snapshot};
use channel_map::{ChannelMap, Local, read_map};
use layer::Snapshot;
use plan_base::NodeId;
use port_io::{Places, StdPlaces};
use std::alloc::Global;
use std::env;
use std::fs::Files;
use std::io::{self, Eprint};
use std::process::ExitCode;
use std::time::{Clock, Instant};
use view_build::build;

fn main(rt: HostRuntime) -> io::Result<ExitCode> {
    let words: Vec<String> = env::args(&rt)?.skip(1).collect(rt.alloc())?;
    if words.is_empty() {
        return Ok(ExitCode::SUCCESS);
    }
    let [map, entries, reservations] = words.as_slice() else {
        return Ok(ExitCode::from(2));
    };
    let (Ok(entries), Ok(reservations)) = (entries.parse::<u32>(), reservations.parse::<u32>())
    else {
        return Ok(ExitCode::from(2));
    };
    match measure(&rt, rt.alloc(), map, entries, reservations) {
        Some(()) => Ok(ExitCode::SUCCESS),
        None => Ok(ExitCode::FAILURE),
    }
}

fn measure(
    rt: &(impl Clock + Eprint + Files),
    alloc: Global,
    name: &str,
    entries: u32,
    reservations: u32,
) -> Option<()> {
    let mut places = StdPlaces::new(rt);
    let text = places.read_whole(alloc, name, 268_435_456).ok()?;
    let map = read_map(alloc, &text).ok()?;
    let first = map.dirs().first()?;
    let snapshot = snapshot_of(
        alloc,
        &map,
        first.source,
        first.destination,
        entries,
        reservations,
    )?;
    for _ in 0..5 {
        time_build(rt, alloc, &snapshot, &map)?;
    }
    Some(())
}

fn time_build(
    rt: &(impl Clock + Eprint),
    alloc: Global,
    snapshot: &Snapshot,
    map: &ChannelMap,
) -> Option<()> {
    let start = Instant::now(rt).ok()?;
    let view = build(alloc, snapshot, map, &Local::empty(alloc)).ok()?;
    let built = Instant::now(rt).ok()?;
    eprintln!(rt;
        "{} directions, {} nodes, {} us",
        view.dirs().len(),
        view.nodes().len(),
        built.duration_since(start).as_micros()
    )
    .ok()
}

// An ask between the ends of a direction of the map.
fn snapshot_of(
    alloc: Global,
    map: &ChannelMap,
    source: NodeId,
    destination: NodeId,
    entries: u32,
    reservations: u32,
) -> Option<Snapshot> {
    let layer = filled(alloc, map.dirs(), entries)?;
    let held = held(alloc, map.dirs(), reservations)?;
    if source == destination {
        return None;
    }
    snapshot(alloc, source, destination, layer, held)
}
