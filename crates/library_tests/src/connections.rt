ghost use Rattle.std.specs.Prelude.{◌≡◌, ◌+◌, ◌≤◌};
ghost use Rattle.turn_desk.specs.declared.limits.TheConstants.{TURNS_MAX};
ghost use Rattle.session.specs.declared.limits.TheConstants.{LINES_MAX};

use askrene_state::State;
use channel_map::{ChannelMap, Local};
use flow_solver::Keeping;
use port_io::{MemClock, MemLink, MemSink, MemSource, Open, SessionEnd};
use session::{Ended, serve_link};
use std::alloc::Global;
use std::sync::Wait;
use std::test::Fail;
use std::thread::Threads;
use turn_desk::{Desk, Pass};

const FIRST: &str = "{\"id\":1,\"method\":\"askrene-create-layer\",\"params\":{\"layer\":\"x\"}}\n";

const SECOND: &str =
    "{\"id\":2,\"method\":\"askrene-create-layer\",\"params\":{\"layer\":\"x\"}}\n";

const CREATED: &str = "{\"id\":1,\"jsonrpc\":\"2.0\",\"result\":{\"at\":0}}\n";

const EXISTS: &str =
    "{\"error\":{\"code\":301,\"data\":{\"at\":1,\"layer\":\"x\"},\"message\":\"layer exists\"},\"id\":2,\"jsonrpc\":\"2.0\"}\n";

// A connection that sends both lines, one in each read. These reads fail.
fn two_lines(alloc: Global, fails: &[u64]) -> Result<MemLink, Fail> {
    let mut lines = FIRST.as_bytes().to_vec(alloc)?;
    lines.extend_from_slice(SECOND.as_bytes())?;
    let source = MemSource::new(lines, FIRST.len(), fails.to_vec(alloc)?);
    let mut sink = MemSink::new(alloc, 16, Vec::new(alloc));
    sink.reserve(1_024)?;
    Ok(MemLink::new(source, sink))
}

// Serves the two lines on a pass of this desk, at these moments, with a map without channels.
fn serve_two<R: Threads + Wait + Sync>(
    rt: &R,
    alloc: Global,
    desk: &Desk<State>,
    pass: &mut Pass<State>,
    fails: &[u64],
    moments: Vec<u64>,
) -> Result<(Ended, MemLink), Fail>
    requires desk { pass.old.0 ≡ desk.now }
    requires draws { pass.old.1.draws + LINES_MAX ≤ TURNS_MAX }
    ensures { pass.new.0 ≡ desk.now }
{
    let (map, local) = (ChannelMap::empty(alloc), Local::empty(alloc));
    let mut link = two_lines(alloc, fails)?;
    let mut clock = MemClock::new(moments);
    let ended = serve_link(
        rt, alloc, desk, pass, &map, &local, &mut link, &mut clock, &Open, &Keeping,
    );
    Ok((ended, link))
}

#[test]
fn a_connection_is_one_caller_of_the_desk(rt: HostRuntime) -> Result<(), Fail> {
    let alloc = rt.alloc();
    let (desk, mut first) = Desk::<State>::open(alloc)?;
    let Ok(mut pass) = desk.pass(&rt, &mut first) else {
        panic!(rt; "a pass is refused")
    };
    let (ended, link) = serve_two(&rt, alloc, &desk, &mut pass, &[], vec![in alloc; 7, 8]?)?;
    assert!(rt; ended.end() == SessionEnd::Done);
    assert!(rt; (ended.caller(), ended.calls()) == (1, 2));
    assert!(rt; link.sink().bytes().strip_prefix(CREATED.as_bytes()) == Some(EXISTS.as_bytes()));
    desk.join(&mut first, pass);
    let Ok(journal) = desk.close(&rt, vec![in alloc; first]?) else {
        panic!(rt; "the desk stays open")
    };
    let [created, refused] = journal.entries() else {
        panic!(rt; "not two entries")
    };
    assert!(rt; (created.caller, created.moment) == (1, 7));
    assert!(rt; (refused.caller, refused.moment) == (1, 8));
    Ok(())
}

#[test]
fn a_read_fault_ends_a_connection_between_two_lines(rt: HostRuntime) -> Result<(), Fail> {
    let alloc = rt.alloc();
    let (desk, mut pass) = Desk::<State>::open(alloc)?;
    let (ended, link) = serve_two(&rt, alloc, &desk, &mut pass, &[1], Vec::new(alloc))?;
    assert!(rt; ended.end() == SessionEnd::ReadFault);
    assert!(rt; (ended.caller(), ended.calls()) == (0, 1));
    assert!(rt; link.sink().bytes() == CREATED.as_bytes());
    Ok(())
}
