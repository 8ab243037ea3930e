ghost use Rattle.std.specs.Prelude.{◌≡◌, None};
ghost use Rattle.std.proofs.Common.{refl};

use crate::std_stream::{read_counted, write_counted};
use crate::{Acceptor, Failed, Link, Sink, Source};
use std::io::ErrorKind;
use std::os::unix::net::{UnixListener, UnixStream};

/// A connection over a Unix socket. Its bytes are unspecified. Every `Err` of the stream counts as a fault, also of an
/// interrupted call, which is tried again.
#[derive(Drop)]
pub struct UnixLink {
    stream: UnixStream,
    read_faults: u64,
    write_faults: u64,
}

impl UnixLink {
    /// A connection over this stream that has not failed yet.
    pub fn new(stream: UnixStream) -> UnixLink
        ensures { result ≡ record { stream = stream; read_faults = 0; write_faults = 0 } }
    {
        UnixLink {
            stream,
            read_faults: 0,
            write_faults: 0,
        }
    }
}

impl Source for UnixLink {
    ghost left = { λ l. None };

    ghost read_faults = { λ l. l.read_faults };

    ghost beside_reading = { λ l. (None, l.write_faults) };

    fn read(&mut self, into: &mut [u8]) -> Result<usize, Failed> {
        read_counted(&mut self.stream, &mut self.read_faults, into)
    }
}

impl Sink for UnixLink {
    ghost written = { λ l. None };

    ghost write_faults = { λ l. l.write_faults };

    ghost beside_writing = { λ l. (None, l.read_faults) };

    fn write(&mut self, from: &[u8]) -> Result<usize, Failed> {
        write_counted(&mut self.stream, &mut self.write_faults, from)
    }
}

impl Link for UnixLink {
    ghost reading_leaves = { λ l. refl };

    ghost writing_leaves = { λ l. refl };
}

/// Accepts connections at a Unix socket. Every `Err` of the listener counts as a fault, also of an interrupted accept,
/// which is tried again.
#[derive(Drop)]
pub struct UnixAcceptor {
    listener: UnixListener,
    accepted: u64,
    faults: u64,
}

impl UnixAcceptor {
    /// An acceptor at this listener that has given no connection and has not failed yet.
    pub fn new(listener: UnixListener) -> UnixAcceptor
        ensures { result ≡ record { listener = listener; accepted = 0; faults = 0 } }
    {
        UnixAcceptor {
            listener,
            accepted: 0,
            faults: 0,
        }
    }
}

impl Acceptor for UnixAcceptor {
    type Link = UnixLink;

    ghost accept_faults = { λ a. a.faults };

    ghost accepted = { λ a. a.accepted };

    fn accept(&mut self) -> Result<UnixLink, Failed> {
        'tries: for _ in 0..u64::MAX {
            match self.listener.accept() {
                Ok((stream, _)) => {
                    self.accepted = self.accepted.saturating_add(1);
                    return Ok(UnixLink::new(stream));
                }
                Err(fault) => {
                    self.faults = self.faults.saturating_add(1);
                    if fault.kind() != ErrorKind::Interrupted {
                        return Err(Failed);
                    }
                }
            }
        }
        self.faults = self.faults.saturating_add(1);
        Err(Failed)
    }
}
