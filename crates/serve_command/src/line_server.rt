ghost use Rattle.serve_command.specs.Served.{IsEndOf};

use askrene_state::State;
use channel_map::{ChannelMap, Local};
use flow_model::Solve;
use port_io::{Clock, Gate, Link};
use server::Serve;
use session::{Ended, serve_link};
use std::alloc::Global;
use std::sync::Wait;
use std::thread::Threads;
use turn_desk::{Desk, Pass};

/// Serves the lines of a connection, with routes over these files.
#[derive(Drop)]
pub struct LineServer<'a, G, S> {
    pub map: &'a ChannelMap,
    pub local: &'a Local,
    pub gate: &'a G,
    pub solver: &'a S,
}

impl<'a, L: Link, C: Clock, G: Gate, S: Solve> Serve<State, L, C> for LineServer<'a, G, S> {
    type End = Ended;

    ghost relates = { λ server. IsEndOf L.left L.written C.moments server.map.now server.local.now };

    fn serve<R: Threads + Wait + Sync>(
        &self,
        rt: &R,
        alloc: Global,
        desk: &Desk<State>,
        pass: &mut Pass<State>,
        link: &mut L,
        clock: &mut C,
    ) -> Ended {
        // what is seen before and after holds the caller's calls of then, and so the end counts the calls between
        let _ = pass.seen();
        let ended = serve_link(
            rt,
            alloc,
            desk,
            pass,
            self.map,
            self.local,
            link,
            clock,
            self.gate,
            self.solver,
        );
        let _ = pass.seen();
        ended
    }
}
