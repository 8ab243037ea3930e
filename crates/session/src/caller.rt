ghost use Rattle.std.specs.Prelude.{◌≡◌, ◌<◌, ◌≤◌, ◌+◌, ⊤, ℕ, List};
ghost use Rattle.one_history.specs.declared.entry.Entry.{Entry};
ghost use Rattle.askrene_command.specs.declared.command.Command.{Command};
ghost use Rattle.one_history.specs.History.{entry_of};
ghost use Rattle.askrene_command.specs.Command.{IsGoodCommand};
ghost use Rattle.session.specs.Caller.{CallerIdentity, CommitOutcome, only_caller};
ghost use Rattle.session.specs.declared.limits.TheConstants.{LINES_MAX};

use askrene_state::{Command, EventReply, State};
use one_history::{Journal, JournalRefusal, Told};

/// The number of the only caller.
const ONLY_CALLER: u32 = 0;

/// A caller that commits its commands to a history.
pub trait Caller {
    /// The history that the caller has seen.
    ghost seen: { Self → List (Entry Command) };

    /// Who calls.
    ghost who: { Self → CallerIdentity };

    /// How many commands the caller may still commit.
    ghost commands_left: { Self → ℕ };

    /// Which reference the value holds, if it holds one.
    ghost reference: { Self → ℕ };

    /// What has to hold before the caller commits.
    ghost ready: { Self → Type 0 };

    /// Whether a later state may come from an earlier one by commits.
    ghost goes_on: { Self → Self → Type 0 };

    /// Commits a command as one entry at a moment.
    fn commit(&mut self, moment: u64, command: Command) -> Result<Told<EventReply>, JournalRefusal>
        requires good { IsGoodCommand command }
        requires allowed { 0 < commands_left self.old }
        requires ready { ready self.old }
        ensures outcome { CommitOutcome (who self.old) (entry_of (who self.old).number moment command) (seen self.old) result (seen self.new) }
        ensures who { who self.new ≡ who self.old }
        ensures counted { commands_left self.old ≤ commands_left self.new + 1 }
        ensures reference { reference self.new ≡ reference self.old }
        ensures ready { ready self.new }
        ensures goes_on { goes_on self.old self.new };

    ghost goes_on_from_itself: { (caller : Self) → goes_on caller caller };

    ghost goes_on_later: { (first second third : Self) → goes_on first second → goes_on second third → goes_on first third };
}

/// The only caller of a journal, with the number 0.
impl Caller for Journal<State> {
    ghost seen = { λ journal. journal };

    ghost who = { λ _. only_caller };

    ghost commands_left = { λ _. LINES_MAX };

    ghost reference = { λ _. 0 };

    ghost ready = { λ _. ⊤ };

    ghost goes_on = { λ _ _. ⊤ };

    ghost goes_on_from_itself = { λ _. tt };

    ghost goes_on_later = { λ _ _ _ _ _. tt };

    #[tactic(auto, using(crate::proofs::Commits::commit_outcome))]
    fn commit(
        &mut self,
        moment: u64,
        command: Command,
    ) -> Result<Told<EventReply>, JournalRefusal> {
        Journal::commit(self, ONLY_CALLER, moment, command)
    }
}
