use askrene_state::{EventReply, Refusal, State, layers_on_threads};
use layer::Name;
use one_history::Object;
use params::command_of;
use plan_base::{Reservation, Scid};
use rpc_lines::read_request;
use std::alloc::Global;
use std::test::Fail;

// What a caller is told.
#[derive(Clone, Copy)]
enum Told {
    Done,
    Informed,
    ChannelExists,
    LayerExists,
    LayerFull,
    LayerUnknown(&'static str),
    SecondNotReserved,
    // The only reservation is the one of caller 3 at moment 100.
    MadeAlone { now: u64 },
    Routes { layers: usize, asked: usize },
}

fn is_made_alone(list: &[Reservation]) -> bool {
    match list {
        [one] => one.amount == 5 && one.caller == 3 && one.moment == 100,
        _ => false,
    }
}

fn is_refused(refusal: &Refusal, told: Told) -> bool {
    match refusal {
        Refusal::ChannelExists { scid, .. } => {
            matches!(told, Told::ChannelExists) && Scid::read("100x3x0") == Ok(*scid)
        }
        Refusal::LayerUnknown { layer } => {
            matches!(told, Told::LayerUnknown(name) if layer.text() == name)
        }
        Refusal::LayerExists { .. } => matches!(told, Told::LayerExists),
        Refusal::LayerFull { .. } => matches!(told, Told::LayerFull),
        Refusal::NotReserved { index } => *index == 1 && matches!(told, Told::SecondNotReserved),
        _ => false,
    }
}

fn is_told(reply: &EventReply, told: Told) -> bool {
    match reply {
        EventReply::Done => matches!(told, Told::Done),
        EventReply::Informed { .. } => matches!(told, Told::Informed),
        EventReply::Refused(refusal) => is_refused(refusal, told),
        EventReply::Reservations { now, list } => {
            is_made_alone(list.as_slice())
                && matches!(told, Told::MadeAlone { now: at } if at == *now)
        }
        EventReply::Routes(snapshot) => {
            let counts = (
                snapshot.layers().len(),
                snapshot.ask().layers.as_slice().len(),
            );
            matches!(told, Told::Routes { layers, asked } if counts == (layers, asked))
        }
        _ => false,
    }
}

fn step(
    alloc: Global,
    state: &mut State,
    caller: u32,
    moment: u64,
    line: &str,
) -> Option<EventReply> {
    let request = read_request(alloc, line.as_bytes()).ok()?;
    let command = command_of(alloc, &request).ok()?;
    state.step(alloc, caller, moment, &command).ok()
}

// A line, who sends it and when, and what that caller is told.
type Row = (u32, u64, &'static str, Told);

fn tells(alloc: Global, state: &mut State, row: &Row) -> bool {
    let (caller, moment, line, told) = *row;
    step(alloc, state, caller, moment, line).is_some_and(|reply| is_told(&reply, told))
}

const RESERVED: &[Row] = &[
    (
        3,
        100,
        r#"{"method":"askrene-reserve","params":[[{"short_channel_id_dir":"100x1x0/0","amount_msat":5}]]}"#,
        Told::Done,
    ),
    (
        4,
        110,
        r#"{"method":"askrene-unreserve","params":[[{"short_channel_id_dir":"100x1x0/0","amount_msat":5},{"short_channel_id_dir":"100x1x0/0","amount_msat":5}]]}"#,
        Told::SecondNotReserved,
    ),
    (
        4,
        130,
        r#"{"method":"askrene-listreservations"}"#,
        Told::MadeAlone { now: 130 },
    ),
];

#[test]
fn a_refused_step_changes_nothing(rt: HostRuntime) -> Result<(), Fail> {
    let mut state = State::fresh(rt.alloc())?;
    for row in RESERVED {
        assert!(rt; tells(rt.alloc(), &mut state, row), "{}", row.2);
    }
    assert!(rt; is_made_alone(state.held()));
    Ok(())
}

const CREATE: &str = r#"{"method":"askrene-create-layer","params":["x"]}"#;

#[test]
fn a_layer_is_created_once(rt: HostRuntime) -> Result<(), Fail> {
    let mut state = State::fresh(rt.alloc())?;
    for row in &[
        (0, 1, CREATE, Told::Done),
        (0, 2, CREATE, Told::LayerExists),
    ] {
        assert!(rt; tells(rt.alloc(), &mut state, row));
    }
    let name = Name::read(rt.alloc(), "x")?;
    assert!(rt; state.layers() == 1 && state.layer(&name).is_some());
    Ok(())
}

const INFORM: &str =
    r#"{"method":"askrene-inform-channel","params":["x","100x1x0/0",5,"unconstrained"]}"#;

#[test]
fn a_full_layer_takes_no_report(rt: HostRuntime) -> Result<(), Fail> {
    let mut state = State::fresh(rt.alloc())?;
    assert!(rt; tells(rt.alloc(), &mut state, &(0, 1, CREATE, Told::Done)));
    for moment in 0..65_536 {
        assert!(rt; tells(rt.alloc(), &mut state, &(0, moment, INFORM, Told::Informed)));
    }
    assert!(rt; tells(rt.alloc(), &mut state, &(0, 1, INFORM, Told::LayerFull)));
    let name = Name::read(rt.alloc(), "x")?;
    assert!(rt;
        state
            .layer(&name)
            .is_some_and(|layer| layer.entries() == 65_536)
    );
    Ok(())
}

#[test]
fn between_threads(rt: HostRuntime) -> Result<(), Fail> {
    let (state, moved) = (State::fresh(rt.alloc())?, State::fresh(rt.alloc())?);
    assert!(rt; layers_on_threads(&rt, &state, moved) == (0, 0));
    Ok(())
}

const CHANNELS_AND_ASKS: &[Row] = &[
    (
        0,
        100,
        r#"{"method":"askrene-create-layer","params":["x"]}"#,
        Told::Done,
    ),
    (
        0,
        100,
        r#"{"method":"askrene-create-channel","params":["x","02aaaaaaaaaaaaaaaaaaaaaaaaaaaaaaaaaaaaaaaaaaaaaaaaaaaaaaaaaaaaaaaa","02dddddddddddddddddddddddddddddddddddddddddddddddddddddddddddddddd","100x3x0",1000]}"#,
        Told::Done,
    ),
    (
        0,
        100,
        r#"{"method":"askrene-create-channel","params":["x","02dddddddddddddddddddddddddddddddddddddddddddddddddddddddddddddddd","02aaaaaaaaaaaaaaaaaaaaaaaaaaaaaaaaaaaaaaaaaaaaaaaaaaaaaaaaaaaaaaaa","100x3x0",5]}"#,
        Told::ChannelExists,
    ),
    (
        0,
        100,
        r#"{"method":"getroutes","params":["02aaaaaaaaaaaaaaaaaaaaaaaaaaaaaaaaaaaaaaaaaaaaaaaaaaaaaaaaaaaaaaaa","02dddddddddddddddddddddddddddddddddddddddddddddddddddddddddddddddd",10,["x","auto.sourcefree","x"],0,18]}"#,
        Told::Routes {
            layers: 1,
            asked: 2,
        },
    ),
    (
        0,
        100,
        r#"{"method":"getroutes","params":["02aaaaaaaaaaaaaaaaaaaaaaaaaaaaaaaaaaaaaaaaaaaaaaaaaaaaaaaaaaaaaaaa","02dddddddddddddddddddddddddddddddddddddddddddddddddddddddddddddddd",10,["x","y","z"],0,18]}"#,
        Told::LayerUnknown("y"),
    ),
];

#[test]
fn channels_and_asks(rt: HostRuntime) -> Result<(), Fail> {
    let mut state = State::fresh(rt.alloc())?;
    for row in CHANNELS_AND_ASKS {
        assert!(rt; tells(rt.alloc(), &mut state, row), "{}", row.2);
    }
    Ok(())
}
