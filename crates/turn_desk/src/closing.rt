ghost use Rattle.std.specs.Prelude.{◌≡◌, ◌<◌, ◌≤◌, ◌+◌, length, take, All, IfOk, IfErr, true, false};
ghost use Rattle.turn_desk.specs.Closing.{Closes, StaysOpen};
ghost use Rattle.turn_desk.specs.Steps.{LearnsInTurn};
ghost use Rattle.turn_desk.specs.Absorbing.{absorb, count_of};

use crate::limits::{PASSES_MAX, TURNS_MAX};
use crate::steps::{LENGTH, LearnInTurn, Slot, TakeIn};
use crate::view::View;
use crate::{Desk, Pass};
use atomic_table::Seat;
use one_history::{Journal, Object};
use std::sync::Wait;

/// A desk that stays open, since `given` passes and notes were handed in, joined passes and met notes included, but
/// `made` were made. All that was handed in comes back.
#[derive(Drop)]
pub struct Unclosed<O: Object> {
    pub made: u32,
    pub given: u32,
    pub desk: Desk<O>,
    pub passes: Vec<Pass<O>>,
}

impl<O: Object> Desk<O> {
    /// Waits for the turn of the first of the passes, and returns the journal. Allocates nothing.
    ///
    /// There is at least one pass, and the first may still draw a turn. Refuses with `Unclosed` if and only if fewer
    /// passes and notes are given than were made; the first pass has then drawn one turn more and may have seen more,
    /// and all else is unchanged.
    pub fn close<R: Wait>(self, rt: &R, mut passes: Vec<Pass<O>>) -> Result<Journal<O>, Unclosed<O>>
    where
        O: Drop,
        O::Command: Drop,
        requires some { 0 < length passes.items }
        requires desk { All (λ p. p.0 ≡ self) passes.items }
        requires draws { All (λ p. p.1.draws < TURNS_MAX) (take 1 passes.items) }
        ensures closed { IfOk result (λ journal. Closes passes.items journal) }
        ensures desk { IfErr result (λ unclosed. unclosed.desk ≡ self) }
        ensures passes { IfErr result (λ unclosed. All (λ p. p.0 ≡ self) unclosed.passes.items) }
        ensures open { IfErr result (λ unclosed. StaysOpen passes.items unclosed.made unclosed.given unclosed.passes.items) }
    {
        let given = count(&passes);
        let Pass {
            mut seat,
            number,
            draws,
            seen: _,
            taken_in,
        } = passes.remove(0);
        let (journal, made) = self.take_turn(rt, &mut seat);
        self.table.shared.load::<LearnInTurn>(&mut seat, LENGTH);
        if given < made {
            let seen = journal.entries().len() as u64;
            self.leave_turn(&mut seat, journal, made);
            let first = Pass {
                seat,
                number,
                draws: draws + 1,
                seen,
                taken_in,
            };
            let Ok(()) = passes.insert(0, first) else {
                unreachable!()
            };
            return Err(Unclosed {
                made,
                given,
                desk: self,
                passes,
            });
        }
        self.take_all_in(&mut seat, passes);
        Ok(journal)
    }

    // In its turn the seat takes in all passes, and learns that all that they keep agrees with the history.
    fn take_all_in(&self, seat: &mut Seat<Slot<O>, View<O::Command>>, passes: Vec<Pass<O>>)
        requires desk { (seat.old.table_id ≡ self.now) × All (λ p. p.0 ≡ self.now) passes.items }
        requires turn { (seat.old.me.0.has_turn ≡ true) × (seat.old.me.0.has_read ≡ true) × (seat.old.me.0.spent ≡ false) }
        ensures { LearnsInTurn (absorb seat.old.me.0 passes.items) }
    {
        for other in passes {
            let Pass {
                seat: theirs,
                number: _,
                draws: _,
                seen: _,
                taken_in: _,
            } = other;
            self.table.shared.join_seat::<TakeIn>(seat, theirs);
        }
        self.table.shared.load::<LearnInTurn>(seat, LENGTH);
    }
}

// How many passes and notes are given, those that were taken in among them, or a number from `PASSES_MAX` on.
fn count<O: Object>(passes: &[Pass<O>]) -> u32
    ensures few { result < PASSES_MAX → result ≡ count_of passes.now }
    ensures many { PASSES_MAX ≤ result → PASSES_MAX ≤ count_of passes.now }
{
    let mut given = 0;
    for pass in passes {
        if given >= PASSES_MAX {
            return given;
        }
        given += pass.taken_in + 1;
    }
    given
}
