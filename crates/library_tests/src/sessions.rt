use askrene_state::{Command, State};
use channel_map::{ChannelMap, Local};
use flow_solver::Keeping;
use one_history::{JOURNAL_MAX, Journal, Machine};
use port_io::{MemClock, MemSink, MemSource, SessionEnd};
use rpc_lines::{Id, Reply, write_reply};
use session::{RouteAnswers, answer_of, ask_loop};
use std::alloc::Global;
use std::test::Fail;

const LINES: &str = "{\"id\":7,\"method\":\"askrene-listlayers\"}\n?\n";

const LISTED: &str = "{\"id\":7,\"jsonrpc\":\"2.0\",\"result\":{\"at\":0,\"layers\":[]}}
{\"error\":{\"code\":-32700,\"data\":{},\"message\":\"parse error\"},\"id\":null,\"jsonrpc\":\"2.0\"}
";

const ANSWER: &str = "{\"id\":7,\"jsonrpc\":\"2.0\",\"result\":{\"at\":0,\"layers\":[]}}\n";

const FULL: &str =
    "{\"error\":{\"code\":306,\"data\":{\"length\":4194304},\"message\":\"journal full\"},\"id\":7,\"jsonrpc\":\"2.0\"}
{\"error\":{\"code\":-32700,\"data\":{},\"message\":\"parse error\"},\"id\":null,\"jsonrpc\":\"2.0\"}
";

// A session over the lines, with a journal; whether it ends well with this output.
fn writes(alloc: Global, journal: &mut Journal<State>, output: &str) -> Result<bool, Fail> {
    let mut source = MemSource::new(LINES.as_bytes().to_vec(alloc)?, 16, Vec::new(alloc));
    let mut sink = MemSink::new(alloc, 16, Vec::new(alloc));
    sink.reserve(1_024)?;
    let mut clock = MemClock::new(Vec::new(alloc));
    let (map, local) = (ChannelMap::empty(alloc), Local::empty(alloc));
    let end = ask_loop(
        alloc,
        journal,
        &map,
        &local,
        &mut source,
        &mut sink,
        &mut clock,
        &Keeping,
    );
    Ok(end == SessionEnd::Done && sink.bytes() == output.as_bytes())
}

#[test]
fn lines_are_served(rt: HostRuntime) -> Result<(), Fail> {
    let mut journal = Journal::open(rt.alloc())?;
    assert!(rt; writes(rt.alloc(), &mut journal, LISTED)?);
    Ok(())
}

#[test]
fn a_full_journal_takes_no_command(rt: HostRuntime) -> Result<(), Fail> {
    let mut journal = Journal::<State>::open(rt.alloc())?;
    for _entry in 0..JOURNAL_MAX {
        let told = journal.commit(0, 0, Command::ListReservations);
        assert!(rt; told.is_ok());
    }
    assert!(rt; writes(rt.alloc(), &mut journal, FULL)?);
    Ok(())
}

// Whether the machine answers the caller's event with the body of this line.
fn is_answered(
    alloc: Global,
    machine: &mut Machine<State>,
    caller: u32,
    line: &str,
) -> Result<bool, Fail> {
    let answers = RouteAnswers {
        map: &ChannelMap::empty(alloc),
        local: &Local::empty(alloc),
        solver: &Keeping,
    };
    let Some(body) = answer_of(alloc, &answers, machine, caller)? else {
        return Ok(false);
    };
    let id = Id::Unsigned(7);
    Ok(write_reply(alloc, &Reply { id, body })?.as_slice() == line.as_bytes())
}

#[test]
fn an_event_of_a_machine_is_answered_once(rt: HostRuntime) -> Result<(), Fail> {
    let alloc = rt.alloc();
    let mut machine = Machine::<State>::open(alloc)?;
    assert!(rt; machine.event(5, 100, Command::ListLayers { layer: None }) == Ok(0));
    assert!(rt; is_answered(alloc, &mut machine, 5, ANSWER)?);
    assert!(rt; !is_answered(alloc, &mut machine, 5, ANSWER)?);
    Ok(())
}
