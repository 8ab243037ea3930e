//! A turn: the passes have the journal one at a time, in the order of their tickets.
ghost use Rattle.std.specs.Prelude.{◌≡◌, ℕ, ◌<◌, ◌≤◌, [], ◌∷◌, length, None, true, false};
ghost use Rattle.one_history.specs.declared.journal.TheConstants.{JOURNAL_MAX};
ghost use Rattle.one_history.specs.History.{HasSeen};
ghost use Rattle.turn_desk.specs.Steps.{IsHanded, IsOneMore, TakesTurn};
ghost use Rattle.turn_desk.specs.View.{after_commit, after_leave, in_turn, IsIdle};

use crate::desk::Desk;
use crate::limits::{PASSES_MAX, TURNS_MAX};
use crate::steps::{Commit, Draw, JOURNAL, LENGTH, Leave, Look, NEXT, Read, SERVING, Slot};
use crate::view::View;
use atomic_table::Seat;
use one_history::{Journal, Object};
use std::sync::Wait;

impl<O: Object> Desk<O> {
    /// Draws a ticket, waits until it is served, and takes the content out of the slot.
    pub(crate) fn take_turn<R: Wait>(
        &self,
        rt: &R,
        seat: &mut Seat<Slot<O>, View<O::Command>>,
    ) -> (Journal<O>, u32)
        requires desk { seat.old.table_id ≡ self.now }
        requires idle { IsIdle seat.old.me.0 × (seat.old.me.1 ≡ []) }
        requires draws { seat.old.me.0.draws < TURNS_MAX }
        ensures desk { seat.new.table_id ≡ seat.old.table_id }
        ensures slot { seat.new.me.1 ≡ (0, None) ∷ [] }
        ensures view { (ticket : ℕ) × (seat.new.me.0 ≡ in_turn ticket result.0 result.1 seat.old.me.0) }
        ensures taken { TakesTurn seat.old.me.0 result.0 }
        ensures made { (result.1 ≤ PASSES_MAX) × (0 < result.1) × HasSeen result.0 result.1 [] }
    {
        let shared = &self.table.shared;
        let ticket = shared.fetch_add::<Draw>(seat, NEXT, 1);
        self.wait_until_served(rt, seat, ticket);
        let content = shared.exchange(seat, JOURNAL, None).unwrap();
        shared.load::<Read>(seat, LENGTH);
        content
    }

    fn wait_until_served<R: Wait>(
        &self,
        rt: &R,
        seat: &mut Seat<Slot<O>, View<O::Command>>,
        ticket: u64,
    )
        requires desk { seat.old.table_id ≡ self.now }
        requires ticket { (seat.old.me.0.has_ticket ≡ true) × (seat.old.me.0.ticket ≡ ticket) }
        requires outside { (seat.old.me.0.has_turn ≡ false) × (seat.old.me.0.has_read ≡ false) × (seat.old.me.0.spent ≡ false) }
        ensures desk { seat.new.table_id ≡ seat.old.table_id }
        ensures handed { IsHanded seat.old.me seat.new.me }
    {
        let mut looks = 0u32;
        for _ in rt.forever() {
            let heard = self.bells.listen(ticket, looks);
            if self.table.shared.load::<Look>(seat, SERVING) == ticket {
                self.bells.stop_listening(ticket, heard);
                return;
            }
            self.bells.rest(rt, ticket, heard);
            looks = looks.saturating_add(1);
        }
        unreachable!()
    }

    /// Puts the content back into the slot, and leaves the turn.
    pub(crate) fn leave_turn(
        &self,
        seat: &mut Seat<Slot<O>, View<O::Command>>,
        journal: Journal<O>,
        made: u32,
    )
        requires desk { seat.old.table_id ≡ self.now }
        requires turn { (seat.old.me.0.has_turn ≡ true) × (seat.old.me.0.has_read ≡ true) }
        requires slot { seat.old.me.1 ≡ (0, None) ∷ [] }
        requires content { (journal ≡ seat.old.me.0.seen) × (made ≡ seat.old.me.0.made) }
        ensures desk { seat.new.table_id ≡ seat.old.table_id }
        ensures left { seat.new.me ≡ (after_leave seat.old.me.0, []) }
    {
        let empty = self
            .table
            .shared
            .exchange(seat, JOURNAL, Some((journal, made)));
        let None = empty else { unreachable!() };
        let served = self.table.shared.fetch_add::<Leave>(seat, SERVING, 1);
        self.bells.ring(served.wrapping_add(1));
    }

    /// Puts the content back, with one entry more in the journal, commits that entry, and leaves the turn.
    // A step learns from the slot which entry it commits, so the content comes first.
    pub(crate) fn commit_and_leave(
        &self,
        seat: &mut Seat<Slot<O>, View<O::Command>>,
        journal: Journal<O>,
        made: u32,
    )
        requires desk { seat.old.table_id ≡ self.now }
        requires turn { (seat.old.me.0.has_turn ≡ true) × (seat.old.me.0.has_read ≡ true) }
        requires room { length seat.old.me.0.seen < JOURNAL_MAX }
        requires slot { seat.old.me.1 ≡ (0, None) ∷ [] }
        requires content { IsOneMore seat.old.me.0.number seat.old.me.0.seen journal × (made ≡ seat.old.me.0.made) }
        ensures desk { seat.new.table_id ≡ seat.old.table_id }
        ensures left { seat.new.me ≡ (after_leave (after_commit journal seat.old.me.0), []) }
    {
        let empty = self
            .table
            .shared
            .exchange(seat, JOURNAL, Some((journal, made)));
        let None = empty else { unreachable!() };
        self.table.shared.fetch_add::<Commit>(seat, LENGTH, 1);
        let served = self.table.shared.fetch_add::<Leave>(seat, SERVING, 1);
        self.bells.ring(served.wrapping_add(1));
    }
}
