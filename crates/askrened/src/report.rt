//! What standard error says of words that are no command, of a file that is refused, and of a socket that fails.
use crate::status::Status;
use crate::words::{Task, matches_in, read_words};
use channel_map::{Field, MapFault};
use plan_base::NoMemory;
use std::alloc::{AllocGlobal, Global};
use std::io::{Eprint, Print};

/// Says why a run of these words ended, if it is a matter of the words, of a file that they name, or of the socket.
pub fn report<R: AllocGlobal + Print + Eprint>(rt: &R, words: &[String], status: &Status) {
    match status {
        Status::Usage => report_words(rt, words),
        Status::MapRefused { local, fault } => report_file(rt, words, *local, fault),
        Status::BindFault => report_bind(rt, words),
        Status::AcceptFault { worker } => {
            let _written = eprintln!(rt; "askrened: worker {worker} could not accept a connection");
        }
        _ => (),
    }
}

/// Says where help is to be found.
pub fn hint<R: Eprint>(rt: &R) {
    let _written = eprintln!(rt; "askrened --help lists the commands.");
}

fn report_words<R: AllocGlobal + Print + Eprint>(rt: &R, words: &[String]) {
    if let Err(error) = matches_in(rt.alloc(), words) {
        let _written = error.print(rt);
    }
    hint(rt);
}

fn report_file<R: AllocGlobal + Eprint>(rt: &R, words: &[String], local: bool, fault: &MapFault) {
    let (map, other) = match read_words(rt.alloc(), words) {
        Ok(Task::Ask { map, local }) => (map, local),
        Ok(Task::Serve { map, local, .. }) => (map, local),
        _ => return,
    };
    let name = if local { other } else { map };
    if let (Some(name), Ok(text)) = (name, fault_text(rt.alloc(), fault)) {
        let _written = eprintln!(rt; "askrened: {name}: {text}");
    }
}

fn report_bind<R: AllocGlobal + Eprint>(rt: &R, words: &[String]) {
    if let Ok(Task::Serve { service, .. }) = read_words(rt.alloc(), words) {
        let _written = eprintln!(rt;
            "askrened: {}: the socket could not be bound",
            service.socket
        );
    }
}

fn fault_text(alloc: Global, fault: &MapFault) -> Result<String, NoMemory> {
    Ok(match fault {
        MapFault::NotJson => format!(in alloc; "not a JSON text")?,
        MapFault::NoChannels => format!(in alloc; "no array channels")?,
        MapFault::Entry { index, field } => {
            format!(in alloc; "entry {index}: {}", field_text(field))?
        }
        MapFault::Twice { dir } => {
            let dir = dir.write(alloc)?;
            format!(in alloc; "direction {dir} is listed twice")?
        }
        MapFault::TooMany { directions, nodes } => {
            format!(in alloc; "too many: {directions} directions, {nodes} nodes")?
        }
        MapFault::Long => format!(in alloc; "more than 268435456 bytes")?,
        MapFault::NoMemory => format!(in alloc; "out of memory")?,
    })
}

fn field_text(field: &Field) -> &'static str {
    match field {
        Field::NotObject => "not an object",
        Field::Source => "bad source",
        Field::Destination => "bad destination",
        Field::ShortChannelId => "bad short_channel_id",
        Field::Direction => "bad direction",
        Field::Amount => "bad amount_msat",
        Field::Active => "bad active",
        Field::BaseFee => "bad base_fee_millisatoshi",
        Field::FeePerMillionth => "bad fee_per_millionth",
        Field::Delay => "bad delay",
        Field::HtlcMinimum => "bad htlc_minimum_msat",
        Field::HtlcMaximum => "bad htlc_maximum_msat",
    }
}
