//! Connections in memory, served as the words ask.
ghost use Rattle.std.specs.Prelude.{◌≡◌, IfOk};
ghost use Rattle.port_io.specs.MemAcceptor.{acceptor_faults};

use crate::serve::{Serving, run_serve};
use port_io::{MemAcceptor, MemClock, MemLink, MemPlaces, MemSink, MemSource, Open, SessionEnd};
use server::{MemBind, Session, Worker};
use session::Ended;
use std::alloc::{AllocGlobal, Global};
use std::sync::Wait;
use std::test::Fail;
use std::thread::Threads;

const LINE: &[u8] =
    b"{\"id\":1,\"method\":\"askrene-create-layer\",\"params\":{\"layer\":\"x\"}}\n";

const NODES: &[u8] = b"{\"channels\":[]}";

/// A connection of one line; the writes that are listed fail.
fn link(alloc: Global, fails: &[u64]) -> Result<MemLink, Fail> {
    let source = MemSource::new(LINE.to_vec(alloc)?, 64, Vec::new(alloc));
    let mut sink = MemSink::new(alloc, 64, fails.to_vec(alloc)?);
    sink.reserve(1_024)?;
    Ok(MemLink::new(source, sink))
}

/// A worker that accepts a connection for each of these, whose writes that are listed fail.
fn worker(alloc: Global, connections: &[&[u64]]) -> Result<Worker<MemAcceptor, MemClock>, Fail>
    ensures { IfOk result (λ w. acceptor_faults w.acceptor ≡ 0) }
{
    let mut links = Vec::new(alloc);
    for fails in connections {
        links.push(link(alloc, fails)?)?;
    }
    Ok(Worker {
        acceptor: MemAcceptor::new(links, Vec::new(alloc)),
        clock: MemClock::new(Vec::new(alloc)),
    })
}

/// Words, the calls of the binder that fail, the status, and how many sessions and entries there are.
const SERVED: &[(&[&str], &[u64], u8, usize)] = &[
    (
        &[
            "serve",
            "--socket",
            "s",
            "--connections",
            "2",
            "--workers",
            "1",
        ],
        &[],
        0,
        2,
    ),
    (
        &[
            "serve",
            "--local=map",
            "--connections=2",
            "--workers=1",
            "--map=map",
            "--socket=s",
        ],
        &[],
        0,
        2,
    ),
    (
        &[
            "serve",
            "--socket",
            "s",
            "--connections",
            "3",
            "--workers",
            "1",
        ],
        &[],
        10,
        2,
    ),
    (
        &[
            "serve",
            "--socket",
            "s",
            "--connections",
            "2",
            "--workers",
            "1",
        ],
        &[0],
        13,
        0,
    ),
    (
        &["serve", "--socket", "s", "--connections", "2"],
        &[],
        13,
        0,
    ),
    (
        &[
            "serve",
            "--socket",
            "s",
            "--connections",
            "2",
            "--map",
            "none",
        ],
        &[],
        4,
        0,
    ),
    (
        &[
            "serve",
            "--socket",
            "s",
            "--connections",
            "2",
            "--local",
            "bad",
        ],
        &[],
        3,
        0,
    ),
    (&["ask"], &[], 2, 0),
    (&["check"], &[], 2, 0),
    (&["gen", "7", "100", "200", "20"], &[], 2, 0),
    (&["serve"], &[], 2, 0),
    (&["serve", "--socket", "s"], &[], 2, 0),
    (&["serve", "--connections", "2"], &[], 2, 0),
    (
        &[
            "serve",
            "--socket",
            "s",
            "--connections",
            "0",
            "--workers",
            "1",
        ],
        &[],
        2,
        0,
    ),
    (
        &[
            "serve",
            "--socket",
            "s",
            "--connections",
            "65001",
            "--workers",
            "1",
        ],
        &[],
        2,
        0,
    ),
    (
        &[
            "serve",
            "--socket",
            "s",
            "--connections",
            "2",
            "--workers",
            "0",
        ],
        &[],
        2,
        0,
    ),
    (
        &[
            "serve",
            "--socket",
            "s",
            "--connections",
            "2",
            "--workers",
            "65",
        ],
        &[],
        2,
        0,
    ),
    (
        &[
            "serve",
            "--socket",
            "s",
            "--socket",
            "s",
            "--connections",
            "2",
        ],
        &[],
        2,
        0,
    ),
];

/// Runs the words over one worker that accepts these connections; the calls of the binder that are listed fail.
fn go<R: AllocGlobal + Threads + Wait + Sync>(
    rt: &R,
    words: &[&str],
    connections: &[&[u64]],
    fails: &[u64],
) -> Result<Serving<MemAcceptor, MemClock>, Fail> {
    let alloc = rt.alloc();
    let mut texts = Vec::new(alloc);
    for word in words {
        texts.push(word.to_string(alloc)?)?;
    }
    let mut files = Vec::new(alloc);
    for (name, text) in [("map", NODES), ("bad", b"?" as &[u8])] {
        files.push((name.to_string(alloc)?, text.to_vec(alloc)?))?;
    }
    let mut places = MemPlaces::new(files, Vec::new(alloc));
    let workers = vec![in alloc; worker(alloc, connections)?]?;
    let mut bind = MemBind::new(workers, fails.to_vec(alloc)?);
    Ok(run_serve(rt, alloc, &texts, &mut places, &mut bind, &Open))
}

fn is_served<R: AllocGlobal + Threads + Wait + Sync>(
    rt: &R,
    words: &[&str],
    fails: &[u64],
    code: u8,
    sessions: usize,
) -> Result<bool, Fail> {
    let serving = go(rt, words, &[&[], &[]], fails)?;
    let counts = match &serving.served {
        Some(served) => (served.sessions.len(), served.journal.entries().len()),
        None => (0, 0),
    };
    Ok(serving.status.code() == code && counts == (sessions, sessions))
}

#[test]
fn connections_are_served_as_the_words_ask(rt: HostRuntime) -> Result<(), Fail> {
    for (words, fails, code, sessions) in SERVED {
        assert!(rt; is_served(&rt, words, fails, *code, *sessions)?, "{code}");
    }
    Ok(())
}

const TWO_BY_ONE: &[&str] = &["serve", "--socket=s", "--connections=2", "--workers=1"];

/// For each connection the writes that fail, the status of a service of two, and the ends of its sessions, each of which has
/// committed its line.
const ENDS: &[(&[&[u64]], u8, &[SessionEnd])] = &[
    (&[&[], &[]], 0, &[SessionEnd::Done, SessionEnd::Done]),
    (&[&[0], &[]], 0, &[SessionEnd::WriteFault, SessionEnd::Done]),
    (&[&[]], 10, &[SessionEnd::Done]),
];

fn are_ends(sessions: &[Session<Ended>], wanted: &[SessionEnd]) -> bool {
    for (session, end) in sessions.iter().zip(wanted) {
        if session.end.end() != *end {
            return false;
        }
    }
    sessions.len() == wanted.len()
}

fn has_ends<R: AllocGlobal + Threads + Wait + Sync>(
    rt: &R,
    connections: &[&[u64]],
    code: u8,
    wanted: &[SessionEnd],
) -> Result<bool, Fail> {
    let serving = go(rt, TWO_BY_ONE, connections, &[])?;
    let Some(served) = &serving.served else {
        return Ok(false);
    };
    Ok(
        serving.status.code() == code
            && are_ends(&served.sessions, wanted)
            && served.journal.entries().len() == wanted.len(),
    )
}

#[test]
fn a_fault_ends_one_connection(rt: HostRuntime) -> Result<(), Fail> {
    for (connections, code, wanted) in ENDS {
        assert!(rt; has_ends(&rt, connections, *code, wanted)?, "{code}");
    }
    Ok(())
}
