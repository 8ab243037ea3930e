ghost use Rattle.std.specs.Prelude.{◌≡◌, ◌<◌, length, Some, None, IfOk, OnOk, OnErr, IfErr, IfSome, OnSome, IfNone};
ghost use Rattle.one_history.specs.History.{reply_at};
ghost use Rattle.one_history.specs.Core.{Core, IsCore, new_core, place_of, after_event, after_answer};
ghost use Rattle.one_history.specs.Refusals.{RefusesEvent};

use crate::{JOURNAL_MAX, Journal, JournalRefusal, Object, Told};
use indexmap::IndexMap;
use plan_base::NoMemory;
use std::alloc::{AllocError, Global};
use std::marker::Model;

/// Why an event was not committed.
#[derive(Clone, Copy, Debug, PartialEq, Eq)]
pub enum MachineRefusal {
    /// The caller waits for the answer to its event at this place.
    Unanswered { at: u64 },
    /// The history has `JOURNAL_MAX` entries, which is this length.
    Full { length: u64 },
    /// Out of memory, for the entry, for its reply, or in the step of its command.
    NoMemory,
}

impl From<AllocError> for MachineRefusal {
    ghost use Rattle.std.specs.Prelude.{◌≡◌};
    ghost use Rattle.one_history.specs.declared.machine.MachineRefusal.TheVariants.{NoMemory};

    ghost from_gives = { λ _ e. e ≡ NoMemory };

    fn from(_: AllocError) -> Self {
        MachineRefusal::NoMemory
    }
}

impl From<JournalRefusal> for MachineRefusal {
    ghost use Rattle.std.specs.Prelude.{◌≡◌};
    ghost use Rattle.one_history.specs.Refusals.{event_refusal};

    ghost from_gives = { λ r e. e ≡ event_refusal r };

    fn from(refusal: JournalRefusal) -> Self {
        match refusal {
            JournalRefusal::Full { length } => MachineRefusal::Full { length },
            JournalRefusal::NoMemory => MachineRefusal::NoMemory,
        }
    }
}

/// A journal, and the reply that is kept for each caller whose event has no answer yet.
///
/// Contracts see the history, and the callers that wait with the places of their events, in the order of these events.
/// No caller waits twice, and the reply that is kept for a caller is the one at the place of an entry of its own.
#[derive(Drop)]
pub struct Machine<O: Object> {
    journal: Journal<O>,
    kept: IndexMap<u32, Told<O::Reply>>,
}

impl<O: Object> Model for Machine<O> {
    ghost use Rattle.one_history.specs.Core.{Core};

    ghost Value = { Core O.Command };

    ghost use Rattle.one_history.specs.Machine.{core_of, IsMachine};

    ghost view = { λ m. core_of m.journal m.kept.entries };

    ghost invariant = { λ m. IsMachine O.next O.start O.reply m.journal m.kept.entries };
}

impl<O: Object> Machine<O> {
    /// A machine without entries, for which nobody waits.
    pub fn open(alloc: Global) -> Result<Machine<O>, NoMemory>
        ensures { IfOk result (λ m. m ≡ new_core) }
    {
        let journal = Journal::open(alloc)?;
        Ok(Machine {
            journal,
            kept: IndexMap::new(alloc),
        })
    }

    /// Commits an event, keeps its reply for the caller, and returns its place in the history.
    ///
    /// Refuses first with `Unanswered`, if and only if the caller waits for an answer, then with `Full`, if and only if there
    /// are `JOURNAL_MAX` entries. A refusal leaves the machine unchanged.
    pub fn event(
        &mut self,
        caller: u32,
        moment: u64,
        command: O::Command,
    ) -> Result<u64, MachineRefusal>
    where
        O::Command: Drop,
        requires { O.good command }
        ensures free { OnOk result (place_of caller self.old ≡ None) }
        ensures room { OnOk result (length self.old.history < JOURNAL_MAX) }
        ensures at { IfOk result (λ at. at ≡ length self.old.history) }
        ensures committed { OnOk result (self.new ≡ after_event caller moment command self.old) }
        ensures err { OnErr result (self.new ≡ self.old) }
        ensures refused { IfErr result (λ refusal. RefusesEvent caller self.old refusal) }
    {
        if let Some(told) = self.kept.get(&caller) {
            return Err(MachineRefusal::Unanswered { at: told.at });
        }
        self.kept.reserve(1)?;
        let told = self.journal.commit(caller, moment, command)?;
        let at = told.at;
        let before = self.kept.insert(caller, told).unwrap();
        let None = before else { unreachable!() };
        Ok(at)
    }

    /// Removes and returns the reply that is kept for a caller, which then no longer waits. Allocates nothing.
    ///
    /// Returns `None` if and only if the caller has no event without an answer; then the machine is unchanged.
    pub fn answer(&mut self, caller: u32) -> Option<Told<O::Reply>>
        ensures waits { IfSome result (λ t. place_of caller self.old ≡ Some t.at) }
        ensures reply { IfSome result (λ t. reply_at O.next O.start O.reply self.old.history t.at ≡ Some t.reply) }
        ensures answered { OnSome result (self.new ≡ after_answer caller self.old) }
        ensures none { IfNone result (place_of caller self.old ≡ None) }
        ensures unchanged { IfNone result (self.new ≡ self.old) }
    {
        self.kept.shift_remove(&caller)
    }

    /// The history, with the object after it.
    pub fn journal(&self) -> &Journal<O>
        ensures history { result.now ≡ self.now.history }
        ensures waiting { IsCore self.now }
    {
        &self.journal
    }
}
