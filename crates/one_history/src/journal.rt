ghost use Rattle.std.specs.Prelude.{◌≡◌, ◌<◌, ◌≤◌, [], ◌∷◌, ◌++◌, length, All, IfOk, OnOk, OnErr, IfErr};
ghost use Rattle.one_history.specs.History.{fold, entry_of};
ghost use Rattle.one_history.specs.Refusals.{Refuses};

use crate::{Entry, Object, Told};
use plan_base::NoMemory;
use std::alloc::{AllocError, Global};
use std::marker::Model;

/// The greatest number of entries in a journal.
pub const JOURNAL_MAX: u64 = 4_194_304;

/// Why an entry was not committed.
#[derive(Clone, Copy, Debug, PartialEq, Eq)]
pub enum JournalRefusal {
    /// The journal has `JOURNAL_MAX` entries, which is this length.
    Full { length: u64 },
    /// Out of memory, for the entry or in the step of its command.
    NoMemory,
}

impl From<AllocError> for JournalRefusal {
    ghost use Rattle.std.specs.Prelude.{◌≡◌};
    ghost use Rattle.one_history.specs.declared.journal.JournalRefusal.TheVariants.{NoMemory};

    ghost from_gives = { λ _ e. e ≡ NoMemory };

    fn from(_: AllocError) -> Self {
        JournalRefusal::NoMemory
    }
}

impl From<NoMemory> for JournalRefusal {
    ghost use Rattle.std.specs.Prelude.{◌≡◌};
    ghost use Rattle.one_history.specs.declared.journal.JournalRefusal.TheVariants.{NoMemory};

    ghost from_gives = { λ _ e. e ≡ NoMemory };

    fn from(_: NoMemory) -> Self {
        JournalRefusal::NoMemory
    }
}

/// A history with the object after it. Contracts see the list of the entries, oldest first.
///
/// The object is the fold of the entries. There are at most `JOURNAL_MAX` entries, and each command is good.
#[derive(Drop)]
pub struct Journal<O: Object> {
    alloc: Global,
    object: O,
    entries: Vec<Entry<O::Command>>,
}

impl<O: Object> Model for Journal<O> {
    ghost use Rattle.std.specs.Prelude.{List};
    ghost use Rattle.one_history.specs.declared.entry.Entry.{Entry};

    ghost Value = { List (Entry O.Command) };

    ghost use Rattle.one_history.specs.History.{IsHistoryOf};

    ghost view = { λ j. j.entries.items };

    ghost invariant = { λ j. IsHistoryOf O.next O.start O.good j.object j.entries.items };
}

impl<O: Object> Journal<O> {
    /// A journal without entries, with the fresh object.
    pub fn open(alloc: Global) -> Result<Journal<O>, NoMemory>
        ensures { IfOk result (λ j. j ≡ []) }
    {
        let object = O::fresh(alloc)?;
        Ok(Journal {
            alloc,
            object,
            entries: Vec::new(alloc),
        })
    }

    /// Appends an entry: the object takes the step. Returns the place of the entry and the reply.
    ///
    /// Refuses with `Full` if and only if there are `JOURNAL_MAX` entries. A refusal leaves the journal unchanged.
    pub fn commit(
        &mut self,
        caller: u32,
        moment: u64,
        command: O::Command,
    ) -> Result<Told<O::Reply>, JournalRefusal>
    where
        O::Command: Drop,
        requires { O.good command }
        ensures limit { JOURNAL_MAX ≡ 4194304 }
        ensures room { OnOk result (length self.old < JOURNAL_MAX) }
        ensures at { IfOk result (λ t. t.at ≡ length self.old) }
        ensures reply { IfOk result (λ t. t.reply ≡ O.reply (fold O.next O.start self.old) caller moment command) }
        ensures appended { OnOk result (self.new ≡ self.old ++ entry_of caller moment command ∷ []) }
        ensures err { OnErr result (self.new ≡ self.old) }
        ensures refused { IfErr result (λ refusal. Refuses (length self.old) refusal) }
    {
        let length = self.entries.len() as u64;
        if length == JOURNAL_MAX {
            return Err(JournalRefusal::Full { length });
        }
        self.entries.reserve(1)?;
        let reply = self.object.step(self.alloc, caller, moment, &command)?;
        self.entries.push_reserved(Entry {
            caller,
            moment,
            command,
        });
        Ok(Told { at: length, reply })
    }

    /// The entries, oldest first.
    pub fn entries(&self) -> &[Entry<O::Command>]
        ensures entries { result.now ≡ self.now }
        ensures bounded { length self.now ≤ JOURNAL_MAX }
        ensures good { All (λ e. O.good e.command) self.now }
    {
        &self.entries
    }

    /// The object after all entries.
    pub fn object(&self) -> &O
        ensures { result.now ≡ fold O.next O.start self.now }
    {
        &self.object
    }
}
