//! Connections that are served over one desk: each alone, two at the same time, and none.
ghost use Rattle.std.specs.Prelude.{None, Some};
ghost use Rattle.std.proofs.Common.{refl};
ghost use Rattle.port_io.specs.MemSource.{source_left, source_faults};

use channel_map::{Local, read_map};
use flow_solver::Keeping;
use port_io::{Acceptor, Failed, Gate, Link, MemClock, MemSource, Open, SessionEnd, Sink, Source};
use serve_command::serve_all;
use server::{WorkFault, Worker};
use std::alloc::Global;
use std::sync::Wait;
use std::sync::atomic::{AtomicUsize, Ordering};
use std::test::Fail;
use std::thread;
use std::thread::Threads;

/// Two channels in a row.
const MAP: &str =
    r#"{"channels":[{"active":true,"amount_msat":1000000,"base_fee_millisatoshi":1000,"delay":6,"destination":"02bbbbbbbbbbbbbbbbbbbbbbbbbbbbbbbbbbbbbbbbbbbbbbbbbbbbbbbbbbbbbbbb","direction":0,"fee_per_millionth":1000,"htlc_minimum_msat":0,"short_channel_id":"100x1x0","source":"02aaaaaaaaaaaaaaaaaaaaaaaaaaaaaaaaaaaaaaaaaaaaaaaaaaaaaaaaaaaaaaaa"},{"active":true,"amount_msat":1000000,"base_fee_millisatoshi":0,"delay":6,"destination":"02cccccccccccccccccccccccccccccccccccccccccccccccccccccccccccccccc","direction":0,"fee_per_millionth":1000,"htlc_minimum_msat":0,"short_channel_id":"100x2x0","source":"02bbbbbbbbbbbbbbbbbbbbbbbbbbbbbbbbbbbbbbbbbbbbbbbbbbbbbbbbbbbbbbbb"}]}"#;

const ASK: &str =
    r#"{"id":3,"method":"getroutes","params":{"amount_msat":100000,"destination":"02cccccccccccccccccccccccccccccccccccccccccccccccccccccccccccccccc","final_cltv":18,"layers":[],"maxfee_msat":5000,"source":"02aaaaaaaaaaaaaaaaaaaaaaaaaaaaaaaaaaaaaaaaaaaaaaaaaaaaaaaaaaaaaaaa"}}
"#;

/// What an ask is answered at position 0.
const ROUTES: &str =
    r#"{"id":3,"jsonrpc":"2.0","result":{"at":0,"fee_msat":1200,"probability_ppm":809910,"rounds":[{"caps":[],"delay_level":0,"fault":{"kind":"none"},"fee_level":0,"part_max":100000,"parts":[{"path":["100x1x0/0","100x2x0/0"],"units":100000}],"unit_msat":1}],"routes":[{"amount_msat":100000,"final_cltv":18,"path":[{"amount_msat":101200,"carried_msat":100100,"delay":30,"next_node_id":"02bbbbbbbbbbbbbbbbbbbbbbbbbbbbbbbbbbbbbbbbbbbbbbbbbbbbbbbbbbbbbbbb","short_channel_id_dir":"100x1x0/0"},{"amount_msat":100100,"carried_msat":100000,"delay":24,"next_node_id":"02cccccccccccccccccccccccccccccccccccccccccccccccccccccccccccccccc","short_channel_id_dir":"100x2x0/0"}]}]}}
"#;

const RESERVE: &str =
    r#"{"id":1,"method":"askrene-reserve","params":{"path":[{"amount_msat":950000,"short_channel_id_dir":"100x2x0/0"}]}}
"#;

const RESERVED: &str = r#"{"id":1,"jsonrpc":"2.0","result":{"at":0}}
"#;

/// What an ask is answered at position 1, after a reserve.
const NO_FLOW: &str =
    r#"{"error":{"code":205,"data":{"at":1,"cut":["02aaaaaaaaaaaaaaaaaaaaaaaaaaaaaaaaaaaaaaaaaaaaaaaaaaaaaaaaaaaaaaaa","02bbbbbbbbbbbbbbbbbbbbbbbbbbbbbbbbbbbbbbbbbbbbbbbbbbbbbbbbbbbbbbbb"],"limit":"flow","rounds":[{"caps":[],"delay_level":0,"fault":{"kind":"no_flow"},"fee_level":0,"part_max":100000,"parts":[],"unit_msat":1}]},"message":"no flow"},"id":3,"jsonrpc":"2.0"}
"#;

/// What a reserve is answered at position 1.
const RESERVED_LATER: &str = r#"{"id":1,"jsonrpc":"2.0","result":{"at":1}}
"#;

// Waits for a count, at most a million turns.
fn wait_for(count: &AtomicUsize, least: usize) {
    for _ in 0..1_000_000 {
        if count.load(Ordering::SeqCst) >= least {
            return;
        }
        thread::yield_now();
    }
}

/// A connection in memory that takes the replies that are expected and no others, and counts their bytes.
#[derive(Drop)]
struct Expecting<'a> {
    source: MemSource,
    expected: &'a str,
    taken: &'a AtomicUsize,
    faults: u64,
}

impl<'a> Source for Expecting<'a> {
    ghost left = { λ link. Some (source_left link.source) };

    ghost read_faults = { λ link. source_faults link.source };

    ghost beside_reading = { λ link. (None, link.faults) };

    fn read(&mut self, into: &mut [u8]) -> Result<usize, Failed> {
        self.source.read(into)
    }
}

impl<'a> Sink for Expecting<'a> {
    ghost written = { λ link. None };

    ghost write_faults = { λ link. link.faults };

    ghost beside_writing = { λ link. (Some (source_left link.source), source_faults link.source) };

    fn write(&mut self, from: &[u8]) -> Result<usize, Failed> {
        let taken = self.taken.load(Ordering::SeqCst);
        let is_expected = match self.expected.as_bytes().get(taken..) {
            Some(rest) => rest.starts_with(from),
            None => false,
        };
        if !is_expected || from.is_empty() {
            self.faults = self.faults.saturating_add(1);
            return Err(Failed);
        }
        self.taken.fetch_add(from.len(), Ordering::SeqCst);
        Ok(from.len())
    }
}

impl<'a> Link for Expecting<'a> {
    ghost reading_leaves = { λ link. refl };

    ghost writing_leaves = { λ link. refl };
}

/// Gives at most one connection, after a count has risen.
#[derive(Drop)]
struct OneLink<'a> {
    link: Option<Expecting<'a>>,
    after: Option<&'a AtomicUsize>,
    accepted: u64,
    faults: u64,
}

impl<'a> Acceptor for OneLink<'a> {
    type Link = Expecting<'a>;

    ghost accept_faults = { λ acceptor. acceptor.faults };

    ghost accepted = { λ acceptor. acceptor.accepted };

    fn accept(&mut self) -> Result<Expecting<'a>, Failed> {
        if let Some(count) = self.after {
            wait_for(count, 1);
        }
        let Some(link) = self.link.take() else {
            self.faults = self.faults.saturating_add(1);
            return Err(Failed);
        };
        self.accepted = self.accepted.saturating_add(1);
        Ok(link)
    }
}

/// Tells that an ask is held, and holds it until these replies are taken.
#[derive(Drop)]
struct HoldUntil<'a> {
    held: &'a AtomicUsize,
    taken: &'a AtomicUsize,
    replies: &'a str,
}

impl<'a> Gate for HoldUntil<'a> {
    fn hold<R: Threads + Wait + Sync>(&self, _rt: &R, _caller: u32, _at: u64) {
        self.held.fetch_add(1, Ordering::SeqCst);
        wait_for(self.taken, self.replies.len());
    }
}

// A worker whose one connection sends these lines and expects these replies.
fn worker<'a>(
    alloc: Global,
    lines: &str,
    expected: &'a str,
    taken: &'a AtomicUsize,
    after: Option<&'a AtomicUsize>,
) -> Result<Worker<OneLink<'a>, MemClock>, Fail> {
    let link = Expecting {
        source: MemSource::new(lines.as_bytes().to_vec(alloc)?, 64, Vec::new(alloc)),
        expected,
        taken,
        faults: 0,
    };
    Ok(Worker {
        acceptor: OneLink {
            link: Some(link),
            after,
            accepted: 0,
            faults: 0,
        },
        clock: MemClock::new(vec![in alloc; 7]?),
    })
}

#[test]
fn a_connection_is_served_to_its_end(rt: HostRuntime) -> Result<(), Fail> {
    let alloc = rt.alloc();
    let (map, local) = (read_map(alloc, MAP.as_bytes())?, Local::empty(alloc));
    let lines = format!(in alloc; "{RESERVE}{ASK}")?;
    let replies = format!(in alloc; "{RESERVED}{NO_FLOW}")?;
    let taken = AtomicUsize::new(0);
    let workers = vec![in alloc; worker(alloc, &lines, &replies, &taken, None)?]?;
    let Ok(served) = serve_all(&rt, alloc, workers, 1, &map, &local, &Open, &Keeping) else {
        panic!(rt; "no worker began")
    };
    assert_eq!(rt; taken.load(Ordering::SeqCst), replies.len());
    assert_eq!(rt; (served.sessions.len(), served.faults.len()), (1, 0));
    for session in &served.sessions {
        assert_eq!(rt; session.end.end(), SessionEnd::Done);
        assert_eq!(rt; (session.number, session.end.calls()), (0, 2));
        assert_eq!(rt; session.end.caller(), session.caller);
    }
    assert_eq!(rt; served.journal.entries().len(), 2);
    Ok(())
}

#[test]
fn routes_are_computed_while_others_commit(rt: HostRuntime) -> Result<(), Fail> {
    let alloc = rt.alloc();
    let (map, local) = (read_map(alloc, MAP.as_bytes())?, Local::empty(alloc));
    let (held, routes, reserved) = (
        AtomicUsize::new(0),
        AtomicUsize::new(0),
        AtomicUsize::new(0),
    );
    let gate = HoldUntil {
        held: &held,
        taken: &reserved,
        replies: RESERVED_LATER,
    };
    let workers = vec![in alloc;
        worker(alloc, ASK, ROUTES, &routes, None)?,
        worker(alloc, RESERVE, RESERVED_LATER, &reserved, Some(&held))?,
    ]?;
    let Ok(served) = serve_all(&rt, alloc, workers, 2, &map, &local, &gate, &Keeping) else {
        panic!(rt; "no worker began")
    };
    assert_eq!(rt; routes.load(Ordering::SeqCst), ROUTES.len());
    assert_eq!(rt; reserved.load(Ordering::SeqCst), RESERVED_LATER.len());
    assert_eq!(rt; (served.sessions.len(), served.faults.len()), (2, 0));
    assert!(rt;
        served
            .sessions
            .iter()
            .all(|session| session.end.end() == SessionEnd::Done)
    );
    assert_eq!(rt; served.journal.entries().len(), 2);
    Ok(())
}

#[test]
fn an_acceptor_that_fails_leaves_no_session(rt: HostRuntime) -> Result<(), Fail> {
    let alloc = rt.alloc();
    let (map, local) = (read_map(alloc, MAP.as_bytes())?, Local::empty(alloc));
    let acceptor = OneLink {
        link: None,
        after: None,
        accepted: 0,
        faults: 0,
    };
    let clock = MemClock::new(Vec::new(alloc));
    let workers = vec![in alloc; Worker { acceptor, clock }]?;
    let Ok(served) = serve_all(&rt, alloc, workers, 1, &map, &local, &Open, &Keeping) else {
        panic!(rt; "no worker began")
    };
    assert_eq!(rt;
        served.faults.as_slice(),
        [WorkFault::Accept { worker: 0 }].as_slice()
    );
    assert_eq!(rt;
        (served.sessions.len(), served.journal.entries().len()),
        (0, 0)
    );
    assert!(rt;
        served
            .workers
            .iter()
            .all(|worker| worker.acceptor.faults == 1)
    );
    Ok(())
}
