//! Input, output, connections, files and the clock as traits, each with an implementation in memory and one over std. Every object
//! counts its faults. The contents of the in-memory versions are specified completely; those of the system's own
//! streams and files are unspecified.
#![tactic(auto)]

mod acceptor;
mod clock;
mod fault;
mod gate;
mod limited_read;
mod link;
mod mem_acceptor;
mod mem_clock;
mod mem_link;
mod mem_places;
mod mem_sink;
mod mem_source;
mod places;
mod session_end;
mod std_clock;
mod std_places;
mod std_stream;
mod stream;
mod unix;

pub use acceptor::Acceptor;
pub use clock::Clock;
pub use fault::{Failed, PlaceFault};
pub use gate::{Gate, Open};
pub use limited_read::{PIECE, read_limited};
pub use link::Link;
pub use mem_acceptor::MemAcceptor;
pub use mem_clock::MemClock;
pub use mem_link::MemLink;
pub use mem_places::MemPlaces;
pub use mem_sink::MemSink;
pub use mem_source::MemSource;
pub use places::Places;
pub use session_end::SessionEnd;
pub use std_clock::StdClock;
pub use std_places::StdPlaces;
pub use std_stream::{StdSink, StdSource};
pub use stream::{Sink, Source};
pub use unix::{UnixAcceptor, UnixLink};
