ghost use Rattle.std.specs.Prelude.{ℕ, List, ◌≡◌, ◌∷◌, ◌+◌, ◌-◌, ◌^◌, min, length, IfOk, OnOk, OnErr, is_err, ◌==◌, ◌||◌};
ghost use Rattle.std.specs.List.{list_any};
ghost use Rattle.port_io.specs.Faults.{HasCause};

use crate::{Acceptor, Failed, MemLink};

/// Connections in memory, given in order. A call fails if its number, counted from 0, is in `fails`, or if no connection
/// is left.
#[derive(Debug, Drop)]
pub struct MemAcceptor {
    links: Vec<MemLink>,
    fails: Vec<u64>,
    calls: u64,
    accepted: u64,
    faults: u64,
}

impl MemAcceptor {
    ghost use Rattle.port_io.specs.MemAcceptor.{acceptor_links, acceptor_fails, acceptor_calls, acceptor_accepted, acceptor_faults};

    /// Creates an acceptor that has these connections and has given none.
    pub fn new(links: Vec<MemLink>, fails: Vec<u64>) -> MemAcceptor
        ensures links { acceptor_links result ≡ links.items }
        ensures fails { acceptor_fails result ≡ fails.items }
        ensures calls { acceptor_calls result ≡ 0 }
        ensures accepted { acceptor_accepted result ≡ 0 }
        ensures faults { acceptor_faults result ≡ 0 }
    {
        MemAcceptor {
            links,
            fails,
            calls: 0,
            accepted: 0,
            faults: 0,
        }
    }
}

impl Acceptor for MemAcceptor {
    ghost use Rattle.port_io.specs.MemAcceptor.{acceptor_links, acceptor_fails, acceptor_calls, acceptor_accepted, acceptor_faults};

    type Link = MemLink;

    ghost accept_faults = { acceptor_faults };

    ghost accepted = { acceptor_accepted };

    fn accept(&mut self) -> Result<MemLink, Failed>
        ensures cause { HasCause (acceptor_faults self.old) (acceptor_faults self.new) result }
        ensures given { OnOk result (acceptor_accepted self.new ≡ min (acceptor_accepted self.old + 1) (2 ^ 64 - 1)) }
        ensures err { OnErr result (acceptor_accepted self.new ≡ acceptor_accepted self.old) }
        ensures failing { is_err result ≡ (list_any (λ call. call == acceptor_calls self.old) (acceptor_fails self.old) || length (acceptor_links self.old) == 0) }
        ensures first { IfOk result (λ link. acceptor_links self.old ≡ link ∷ acceptor_links self.new) }
        ensures kept { OnErr result (acceptor_links self.new ≡ acceptor_links self.old) }
        ensures fails { acceptor_fails self.new ≡ acceptor_fails self.old }
        ensures calls { acceptor_calls self.new ≡ min (acceptor_calls self.old + 1) (2 ^ 64 - 1) }
        ensures counted { OnOk result (acceptor_faults self.new ≡ acceptor_faults self.old) }
    {
        let call = self.calls;
        self.calls = call.saturating_add(1);
        if self.fails.contains(&call) || self.links.is_empty() {
            self.faults = self.faults.saturating_add(1);
            return Err(Failed);
        }
        self.accepted = self.accepted.saturating_add(1);
        Ok(self.links.remove(0))
    }
}
