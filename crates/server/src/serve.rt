ghost use Rattle.std.specs.Prelude.{◌≡◌, ℕ, List, ◌≤◌, ◌+◌};
ghost use Rattle.std.specs.Thread.{IsSync};
ghost use Rattle.one_history.specs.declared.entry.Entry.{Entry};
ghost use Rattle.server.specs.Serving.{calls_gained};
ghost use Rattle.server.specs.declared.limits.TheConstants.{SERVING_TURNS};
ghost use Rattle.turn_desk.specs.declared.limits.TheConstants.{TURNS_MAX};

use one_history::Object;
use port_io::{Clock, Link};
use std::alloc::Global;
use std::sync::Wait;
use std::thread::Threads;
use turn_desk::{Desk, Pass};

/// Serves one connection at a time. Many threads share it.
pub trait Serve<O: Object, L: Link, C: Clock> {
    /// How the serving of a connection ended.
    type End: Send + Drop;

    /// Whether an end, answered by this server, is one of this caller that has made so many calls and has then seen this
    /// first part of the history.
    ghost relates: { Self → Self.End → ℕ → ℕ → List (Entry O.Command) → Type 0 };

    /// Serves a connection on a pass of this desk, and returns how it ended. Nothing is made from the pass, and it takes nothing
    /// in.
    fn serve<R: Threads + Wait + Sync>(
        &self,
        rt: &R,
        alloc: Global,
        desk: &Desk<O>,
        pass: &mut Pass<O>,
        link: &mut L,
        clock: &mut C,
    ) -> Self::End
        requires sync { IsSync R.row }
        requires desk { pass.old.0 ≡ desk.now }
        requires draws { pass.old.1.draws + SERVING_TURNS ≤ TURNS_MAX }
        ensures limit { SERVING_TURNS ≡ 1000000 }
        ensures desk { pass.new.0 ≡ pass.old.0 }
        ensures number { pass.new.1.number ≡ pass.old.1.number }
        ensures made_from { pass.new.1.made_from ≡ pass.old.1.made_from }
        ensures taken_in { pass.new.1.taken_in ≡ pass.old.1.taken_in }
        ensures end { relates self.now result pass.old.1.number (calls_gained pass.old.1 pass.new.1) pass.new.1.seen };
}
