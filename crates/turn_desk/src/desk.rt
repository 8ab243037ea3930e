ghost use Rattle.std.specs.Prelude.{◌≡◌, ◌<◌, [], take, IfOk, OnErr, IfErr};
ghost use Rattle.one_history.specs.declared.journal.TheConstants.{JOURNAL_MAX};
ghost use Rattle.one_history.specs.History.{entry_of, fold};
ghost use Rattle.turn_desk.specs.Calls.{Commits, Continues, DrawsTurn, IsRefused, Makes, RefusesEvent, RefusesPass, TakesIn};
ghost use Rattle.turn_desk.specs.View.{new_view};

use crate::bells::Bells;
use crate::limits::{PASSES_MAX, TURNS_MAX};
use crate::steps::{ByTurns, LENGTH, Learn, MakePass, Slot, TakeIn};
use crate::view::View;
use crate::{DeskRefusal, Note, Pass};
use atomic_table::{Refused, Table};
use one_history::{Journal, Object, Told};
use plan_base::NoMemory;
use std::alloc::Global;
use std::marker::Model;
use std::sync::Wait;

/// One history to which many passes commit, each in its turn. Threads share the desk by reference.
///
/// Contracts see which desk it is: a pass `p` was made by the desk `d` if `p.0 ≡ d`. A call of `event`, `pass`,
/// `note` or `close` may wait for other passes; a waiting thread looks for its turn some times, and then sleeps until
/// the pass whose turn comes before it wakes it. No code but the object's step runs in a turn.
#[derive(Drop)]
pub struct Desk<O: Object> {
    pub(crate) table: Table<Slot<O>, View<O::Command>, (), ByTurns, Global>,
    pub(crate) bells: Bells,
}

impl<O: Object> Model for Desk<O> {
    ghost use Rattle.std.specs.Prelude.{◌≡◌};
    ghost use Rattle.atomic_table.specs.Seated.{TableId};

    ghost Value = { TableId };

    ghost view = { λ d. d.table.shared.table_id };

    ghost invariant = { λ d. (d.table.shared.table_id.words ≡ 3) × (d.table.shared.table_id.slots ≡ 1) };
}

impl<O: Object> Desk<O> {
    /// A desk with an empty history, and its pass 0.
    pub fn open(alloc: Global) -> Result<(Desk<O>, Pass<O>), NoMemory>
    where
        O: Drop,
        O::Command: Drop,
        ensures { IfOk result (λ opened. opened.1 ≡ (opened.0, new_view 0 [])) }
    {
        let journal = Journal::open(alloc)?;
        let mut slots = Vec::with_capacity(alloc, 1)?;
        slots.push_reserved(Some((journal, 1)));
        match Table::new(alloc, &[0, 0, 0], slots, &()) {
            Ok((table, seat)) => Ok((
                Desk {
                    table,
                    bells: Bells::new(),
                },
                Pass {
                    seat,
                    number: 0,
                    draws: 0,
                    seen: 0,
                    taken_in: 0,
                },
            )),
            Err(Refused { slots: _ }) => Err(NoMemory),
        }
    }

    /// Waits for the turn of the pass, and commits one entry under its number. Returns the position of the entry and
    /// the object's reply.
    ///
    /// The pass has then seen all entries up to its own. Refuses with `PassSpent` if and only if the pass has drawn
    /// `TURNS_MAX` turns, and then takes none; with `Full` if and only if the history has `JOURNAL_MAX` entries, all
    /// of which the pass has then seen; never with `PassesOut`. A refusal commits nothing, but the pass may have seen
    /// more.
    pub fn event<R: Wait>(
        &self,
        rt: &R,
        pass: &mut Pass<O>,
        moment: u64,
        command: O::Command,
    ) -> Result<Told<O::Reply>, DeskRefusal>
    where
        O::Command: Drop,
        requires desk { pass.old.0 ≡ self.now }
        requires good { O.good command }
        ensures desk { pass.new.0 ≡ pass.old.0 }
        ensures continues { Continues pass.old.1 pass.new.1 }
        ensures committed { IfOk result (λ told. Commits pass.old.1 (entry_of pass.old.1.number moment command) told.at pass.new.1) }
        ensures reply { IfOk result (λ told. told.reply ≡ O.reply (fold O.next O.start (take told.at pass.new.1.seen)) pass.old.1.number moment command) }
        ensures room { IfOk result (λ told. told.at < JOURNAL_MAX) }
        ensures draws { DrawsTurn pass.old.1 result pass.new.1 }
        ensures err { OnErr result (IsRefused pass.old.1 pass.new.1) }
        ensures refused { IfErr result (λ refusal. RefusesEvent pass.old.1 refusal pass.new.1) }
    {
        if pass.draws == TURNS_MAX {
            return Err(DeskRefusal::PassSpent);
        }
        let (mut journal, made) = self.take_turn(rt, &mut pass.seat);
        pass.draws += 1;
        match journal.commit(pass.number, moment, command) {
            Ok(told) => {
                pass.seen = told.at + 1;
                self.commit_and_leave(&mut pass.seat, journal, made);
                Ok(told)
            }
            Err(refusal) => {
                pass.seen = journal.entries().len() as u64;
                self.leave_turn(&mut pass.seat, journal, made);
                Err(refusal.into())
            }
        }
    }

    /// Waits for the turn of the pass, and makes a pass with the next number, which has seen what the pass has then
    /// seen.
    ///
    /// Refuses with `PassSpent` if and only if the pass has drawn `TURNS_MAX` turns, and then takes none; with
    /// `PassesOut` if and only if `PASSES_MAX` passes and notes were made; never with `Full` or `NoMemory`. After a
    /// refusal the pass may have seen more.
    pub fn pass<R: Wait>(&self, rt: &R, pass: &mut Pass<O>) -> Result<Pass<O>, DeskRefusal>
        requires desk { pass.old.0 ≡ self.now }
        ensures limit { PASSES_MAX ≡ 65536 }
        ensures desk { pass.new.0 ≡ pass.old.0 }
        ensures continues { Continues pass.old.1 pass.new.1 }
        ensures made_by { IfOk result (λ new. new.0 ≡ pass.old.0) }
        ensures made { IfOk result (λ new. Makes pass.old.1 new.1 pass.new.1) }
        ensures room { IfOk result (λ new. new.1.number < PASSES_MAX) }
        ensures draws { DrawsTurn pass.old.1 result pass.new.1 }
        ensures err { OnErr result (IsRefused pass.old.1 pass.new.1) }
        ensures refused { IfErr result (λ refusal. RefusesPass pass.old.1 refusal pass.new.1) }
    {
        if pass.draws == TURNS_MAX {
            return Err(DeskRefusal::PassSpent);
        }
        let (journal, made) = self.take_turn(rt, &mut pass.seat);
        pass.draws += 1;
        pass.seen = journal.entries().len() as u64;
        if made == PASSES_MAX {
            self.leave_turn(&mut pass.seat, journal, made);
            return Err(DeskRefusal::PassesOut);
        }
        let seat = self.table.shared.split_seat::<MakePass>(&mut pass.seat);
        self.leave_turn(&mut pass.seat, journal, made + 1);
        Ok(Pass {
            seat,
            number: made,
            draws: 0,
            seen: pass.seen,
            taken_in: 0,
        })
    }

    /// Waits for the turn of the pass, and makes a note of what the pass has then seen. Refuses as `pass` does.
    pub fn note<R: Wait>(&self, rt: &R, pass: &mut Pass<O>) -> Result<Note<O>, DeskRefusal>
        requires desk { pass.old.0 ≡ self.now }
        ensures desk { pass.new.0 ≡ pass.old.0 }
        ensures continues { Continues pass.old.1 pass.new.1 }
        ensures made_by { IfOk result (λ note. note.0 ≡ pass.old.0) }
        ensures made { IfOk result (λ note. Makes pass.old.1 note.1 pass.new.1) }
        ensures room { IfOk result (λ note. note.1.number < PASSES_MAX) }
        ensures draws { DrawsTurn pass.old.1 result pass.new.1 }
        ensures err { OnErr result (IsRefused pass.old.1 pass.new.1) }
        ensures refused { IfErr result (λ refusal. RefusesPass pass.old.1 refusal pass.new.1) }
    {
        let Pass {
            seat,
            number,
            draws: _,
            seen,
            taken_in: _,
        } = self.pass(rt, pass)?;
        Ok(Note { seat, number, seen })
    }

    /// The pass takes in another, with all that the other has taken in and that was made from it, and has seen what
    /// either has seen. The entries of the other stay in the history under its number. Waits for nobody, and
    /// allocates nothing.
    pub fn join(&self, pass: &mut Pass<O>, other: Pass<O>)
        requires desk { pass.old.0 ≡ self.now }
        requires other { other.0 ≡ self.now }
        ensures desk { pass.new.0 ≡ pass.old.0 }
        ensures joined { TakesIn pass.old.1 other.1 pass.new.1 }
    {
        let Pass {
            seat,
            number: _,
            draws: _,
            seen,
            taken_in,
        } = other;
        let shared = &self.table.shared;
        shared.join_seat::<TakeIn>(&mut pass.seat, seat);
        shared.load::<Learn>(&mut pass.seat, LENGTH);
        pass.taken_in += taken_in + 1;
        pass.seen = pass.seen.max(seen);
    }

    /// The pass takes in a note, and has seen what either has seen. Waits for nobody, and allocates nothing.
    pub fn meet(&self, pass: &mut Pass<O>, note: Note<O>)
        requires desk { pass.old.0 ≡ self.now }
        requires note { note.0 ≡ self.now }
        ensures desk { pass.new.0 ≡ pass.old.0 }
        ensures joined { TakesIn pass.old.1 note.1 pass.new.1 }
    {
        let Note { seat, number, seen } = note;
        self.join(
            pass,
            Pass {
                seat,
                number,
                draws: 0,
                seen,
                taken_in: 0,
            },
        );
    }
}
