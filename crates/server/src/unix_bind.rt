ghost use Rattle.std.specs.Prelude.{◌≡◌};

use crate::bind::{Bind, Unbound};
use crate::worker::Worker;
use port_io::{StdClock, UnixAcceptor};
use std::alloc::Global;
use std::fs::{Files, Permissions};
use std::io::ErrorKind;
use std::net::Net;
use std::os::unix::fs::{FileTypeExt, PermissionsExt};
use std::os::unix::net::{UnixListener, UnixStream};
use std::{fs, io, time};

/// The mode of a socket file: only its owner may connect.
const OWNER_ALONE: u32 = 0o600;

/// Binds Unix sockets. Every bind that does not give its workers counts as a fault, unless memory ran out.
#[derive(Drop)]
pub struct UnixBind<'a, R> {
    rt: &'a R,
    made: Vec<String>,
    faults: u64,
}

impl<'a, R: Files + Net> UnixBind<'a, R> {
    /// A binder that has bound nothing and has not failed yet.
    pub fn new(rt: &'a R, alloc: Global) -> UnixBind<'a, R>
        ensures { result.faults ≡ 0 }
    {
        UnixBind {
            rt,
            made: Vec::new(alloc),
            faults: 0,
        }
    }

    /// Removes the socket files that it has made.
    pub fn remove_sockets(&mut self)
        ensures { self.new.faults ≡ self.old.faults }
    {
        for path in &self.made {
            let _ = fs::remove_file(self.rt, path.as_str());
        }
        self.made.clear();
    }
}

impl<'a, R: Files + Net + time::Clock> Bind for UnixBind<'a, R> {
    type Acceptor = UnixAcceptor;

    type Clock = StdClock<&'a R>;

    ghost bind_faults = { λ b. b.faults };

    /// If a socket is at the path at which nobody answers, it is removed and bound anew. If somebody answers, or anything else is
    /// at the path, the bind fails, and the file stays.
    fn bind(
        &mut self,
        alloc: Global,
        path: &str,
        workers: u32,
    ) -> Result<Vec<Worker<UnixAcceptor, StdClock<&'a R>>>, Unbound> {
        let mut given = Vec::with_capacity(alloc, workers as usize)?;
        let name = path.to_string(alloc)?;
        self.made.reserve(1)?;
        let Ok(listener) = listen(self.rt, path) else {
            self.faults = self.faults.saturating_add(1);
            return Err(Unbound::Failed);
        };
        self.made.push_reserved(name);
        while given.len() < workers as usize {
            let Ok(own) = listener.try_clone() else {
                self.faults = self.faults.saturating_add(1);
                return Err(Unbound::Failed);
            };
            given.push_reserved(Worker {
                acceptor: UnixAcceptor::new(own),
                clock: StdClock::new(self.rt),
            });
        }
        Ok(given)
    }
}

// Binds a socket that only the owner may use. Until its mode is set, right after the bind, it is that of the umask.
fn listen<R: Files + Net>(rt: &R, path: &str) -> io::Result<UnixListener> {
    if is_left_over(rt, path) {
        fs::remove_file(rt, path)?;
    }
    let listener = UnixListener::bind(rt, path)?;
    if let Err(fault) = fs::set_permissions(rt, path, Permissions::from_mode(OWNER_ALONE)) {
        let _ = fs::remove_file(rt, path);
        return Err(fault);
    }
    Ok(listener)
}

// Whether a socket is at the path at which nobody answers.
fn is_left_over<R: Files + Net>(rt: &R, path: &str) -> bool {
    let Ok(about) = fs::symlink_metadata(rt, path) else {
        return false;
    };
    if !about.file_type().is_socket() {
        return false;
    }
    match UnixStream::connect(rt, path) {
        Ok(_) => false,
        Err(fault) => fault.kind() == ErrorKind::ConnectionRefused,
    }
}
