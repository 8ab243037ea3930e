ghost use Rattle.std.specs.Prelude.{◌≡◌, ◌≤◌, ◌+◌, length};
ghost use Rattle.one_history.specs.declared.journal.TheConstants.{JOURNAL_MAX};
ghost use Rattle.one_history.specs.History.{HasSeen};

use crate::TURNS_MAX;
use crate::steps::Slot;
use crate::view::View;
use atomic_table::Seat;
use one_history::Object;
use std::marker::Model;

/// A caller's right to commit to the history of its desk, one call at a time. It can move to another thread.
///
/// Contracts see which desk made it, and what it knows: its number, the part of the history that it has seen, its own
/// entries there, what it has taken in and what was made from it. These lists take no memory: the pass holds four
/// numbers.
#[derive(Drop)]
pub struct Pass<O: Object> {
    pub(crate) seat: Seat<Slot<O>, View<O::Command>>,
    pub(crate) number: u32,
    pub(crate) draws: u32,
    pub(crate) seen: u64,
    pub(crate) taken_in: u32,
}

impl<O: Object> Model for Pass<O> {
    ghost use Rattle.atomic_table.specs.Seated.{TableId};
    ghost use Rattle.turn_desk.specs.declared.view.View.{View};

    ghost Value = { TableId × View O.Command };

    ghost use Rattle.turn_desk.specs.Steps.{IsPassWith};

    ghost view = { λ p. (p.seat.table_id, p.seat.me.0) };

    ghost invariant = { λ p. IsPassWith p.seat.me p.number p.draws p.seen p.taken_in };
}

/// What a pass had seen when the note was made, to be handed to another pass.
///
/// Contracts see it as a pass: it has a number of its own, under which nothing is ever committed.
#[derive(Drop)]
pub struct Note<O: Object> {
    pub(crate) seat: Seat<Slot<O>, View<O::Command>>,
    pub(crate) number: u32,
    pub(crate) seen: u64,
}

impl<O: Object> Model for Note<O> {
    ghost use Rattle.atomic_table.specs.Seated.{TableId};
    ghost use Rattle.turn_desk.specs.declared.view.View.{View};

    ghost Value = { TableId × View O.Command };

    ghost use Rattle.turn_desk.specs.Steps.{IsPassWith};

    ghost view = { λ n. (n.seat.table_id, n.seat.me.0) };

    ghost invariant = { λ n. IsPassWith n.seat.me n.number 0 n.seen 0 };
}

impl<O: Object> Pass<O> {
    /// The number under which its entries are committed.
    pub fn number(&self) -> u32
        ensures { result ≡ self.now.1.number }
    {
        self.number
    }

    /// How many entries of the history it has seen. Its own entries among them are its calls.
    pub fn seen(&self) -> u64
        ensures length { result ≡ length self.now.1.seen }
        ensures bounded { result ≤ JOURNAL_MAX }
        ensures own { HasSeen self.now.1.seen self.now.1.number self.now.1.calls }
    {
        self.seen
    }

    /// How many turns it may still draw.
    pub fn left(&self) -> u32
        ensures limit { TURNS_MAX ≡ 4294967295 }
        ensures left { result + self.now.1.draws ≡ TURNS_MAX }
    {
        TURNS_MAX - self.draws
    }
}
