//! The rule of a desk's table, and the steps that its passes take on it.
ghost use Rattle.std.specs.Prelude.{[]};
ghost use Rattle.turn_desk.specs.Rule.{TurnRule};
ghost use Rattle.turn_desk.specs.Steps.{commits, draws, learns, learns_in_turn, leaves, looks, reads};
ghost use Rattle.turn_desk.specs.View.{after_join, after_split, new_view, spent_view, split_off};

use crate::view::View;
use atomic_table::{Join, Play, Seat, Split, TableRule};
use one_history::{Journal, Object};

/// What the slot holds: the journal, and how many passes and notes were made.
pub type Slot<O> = Option<(Journal<O>, u32)>;

/// A pass's place at the table of its desk.
pub type PassSeat<O> = Seat<Slot<O>, View<<O as Object>::Command>>;

/// The word that is the next ticket.
pub const NEXT: usize = 0;

/// The word that is the ticket which is served.
pub const SERVING: usize = 1;

/// The word that is the length of the history.
pub const LENGTH: usize = 2;

/// The only slot.
pub const JOURNAL: usize = 0;

pub struct ByTurns;

impl<O: Object> TableRule<Slot<O>, View<O::Command>, ()> for ByTurns {
    ghost holds = { λ _. TurnRule };

    ghost first = { λ _. new_view 0 [] };
}

/// Draws a ticket.
pub struct Draw;

impl<O: Object> Play<Slot<O>, View<O::Command>> for Draw {
    ghost then = { draws };
}

/// Looks which ticket is served, and is handed the slot if it is its own.
pub struct Look;

impl<O: Object> Play<Slot<O>, View<O::Command>> for Look {
    ghost then = { looks };
}

/// Reads the history, in its turn.
pub struct Read;

impl<O: Object> Play<Slot<O>, View<O::Command>> for Read {
    ghost then = { reads };
}

/// Commits the entry that it has added to the journal.
pub struct Commit;

impl<O: Object> Play<Slot<O>, View<O::Command>> for Commit {
    ghost then = { commits };
}

/// Gives the slot back, and leaves the turn to the next ticket.
pub struct Leave;

impl<O: Object> Play<Slot<O>, View<O::Command>> for Leave {
    ghost then = { leaves };
}

/// Learns that all that it keeps agrees with one history.
pub struct Learn;

impl<O: Object> Play<Slot<O>, View<O::Command>> for Learn {
    ghost then = { learns };
}

/// Learns, in its turn, that all that it keeps agrees with the whole history.
pub struct LearnInTurn;

impl<O: Object> Play<Slot<O>, View<O::Command>> for LearnInTurn {
    ghost then = { learns_in_turn };
}

/// Makes a new pass.
pub struct MakePass;

impl<M> Split<View<M>> for MakePass {
    ghost left = { after_split };

    ghost right = { split_off };
}

/// Takes in another pass.
pub struct TakeIn;

impl<M> Join<View<M>> for TakeIn {
    ghost both = { after_join };

    ghost spent = { spent_view };
}
