ghost use Rattle.std.specs.Prelude.{◌≡◌, ◌<◌, ◌+◌};
ghost use Rattle.std.proofs.Common.{refl, ◌∙◌, arith};
ghost use Rattle.one_history.specs.History.{entry_of};
ghost use Rattle.askrene_command.specs.Command.{IsGoodCommand};
ghost use Rattle.turn_desk.specs.declared.limits.TheConstants.{TURNS_MAX};
ghost use Rattle.session.specs.Among.{KeepsPass, turns_left, calls_with};
ghost use Rattle.session.specs.Caller.{CommitOutcome, one_of_many};

use crate::caller::Caller;
use askrene_state::{Command, EventReply, State};
use one_history::{JournalRefusal, Told};
use std::sync::Wait;
use turn_desk::{Desk, DeskRefusal, Pass};

/// A caller that commits by its pass to the history of a desk.
#[derive(Drop)]
pub struct Among<'a, R> {
    pub rt: &'a R,
    pub desk: &'a Desk<State>,
    pub pass: &'a mut Pass<State>,
    /// How many entries it has committed.
    pub calls: u32,
}

impl<'a, R: Wait> Caller for Among<'a, R> {
    ghost seen = { λ this. this.pass.now.1.seen };

    ghost who = { λ this. one_of_many this.pass.now.1.number };

    ghost commands_left = { λ this. turns_left this.calls this.pass.now };

    ghost reference = { λ this. this.pass.ghost_name };

    ghost ready = { λ this. this.pass.now.0 ≡ this.desk.now };

    ghost goes_on = { λ this later. KeepsPass this.calls this.pass.now later.calls later.pass.now };

    ghost goes_on_from_itself = { λ this. record { desk = refl; number = refl; made_from = refl; taken_in = refl; counted = refl } };

    ghost goes_on_later = { λ first second third earlier later. record {
      desk = later.desk ∙ earlier.desk;
      number = later.number ∙ earlier.number;
      made_from = later.made_from ∙ earlier.made_from;
      taken_in = later.taken_in ∙ earlier.taken_in;
      counted = Prim.omega (arith, earlier.counted, later.counted);
    } };

    fn commit(
        &mut self,
        moment: u64,
        command: Command,
    ) -> Result<Told<EventReply>, JournalRefusal> {
        let committed = commit_in_turn(self.rt, self.desk, self.pass, moment, command);
        if committed.is_ok() {
            self.calls += 1;
        }
        committed
    }
}

// Commits a command in the turn of the pass.
fn commit_in_turn<R: Wait>(
    rt: &R,
    desk: &Desk<State>,
    pass: &mut Pass<State>,
    moment: u64,
    command: Command,
) -> Result<Told<EventReply>, JournalRefusal>
    requires desk { pass.old.0 ≡ desk.now }
    requires good { IsGoodCommand command }
    requires draws { pass.old.1.draws < TURNS_MAX }
    ensures outcome { CommitOutcome (one_of_many pass.old.1.number) (entry_of pass.old.1.number moment command) pass.old.1.seen result pass.new.1.seen }
    ensures draws { pass.new.1.draws ≡ pass.old.1.draws + 1 }
    ensures keeps { KeepsPass 0 pass.old (calls_with result) pass.new }
{
    match desk.event(rt, pass, moment, command) {
        Ok(told) => Ok(told),
        Err(DeskRefusal::Full { length }) => Err(JournalRefusal::Full { length }),
        Err(DeskRefusal::NoMemory) => Err(JournalRefusal::NoMemory),
        Err(DeskRefusal::PassSpent | DeskRefusal::PassesOut) => unreachable!(),
    }
}
