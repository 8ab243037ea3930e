ghost use Rattle.std.specs.Prelude.{◌≡◌, ℕ, length, true};
ghost use Rattle.askrene_command.specs.declared.command.Command.{Command};
ghost use Rattle.askrene_command.specs.declared.reply.Refusal.{Refusal};
ghost use Rattle.askrene_command.specs.declared.reply.EventReply.TheVariants.{Refused};
ghost use Rattle.askrene_command.specs.Reply.{is_routes};
ghost use Rattle.askrene_state.specs.RoutesStep.{AsksForRoutes};
ghost use Rattle.askrene_state.specs.Step.{Service, next_of, reply_of};

use crate::State;
use std::thread::{self, Threads};

/// A command that is refused leaves the state unchanged. This is a law: the function does nothing when it runs.
#[tactic(auto, using(crate::proofs::Refused::refused_keeps))]
pub fn refused_commands_change_nothing()
    ensures { (service : Service) (caller moment : ℕ) (command : Command) (refusal : Refusal)
        → reply_of service caller moment command ≡ Refused refusal → next_of service caller moment command ≡ service }
{}

/// Routes are the reply to an ask for routes alone. This is a law.
#[tactic(auto, using(crate::proofs::Routes::only_asks))]
pub fn only_asks_get_routes()
    ensures { (service : Service) (caller moment : ℕ) (command : Command)
        → is_routes (reply_of service caller moment command) ≡ true → AsksForRoutes command }
{}

/// States may go between threads, by value and by reference: the numbers of layers of two states, counted on threads.
pub fn layers_on_threads<R: Threads + Sync>(rt: &R, lent: &State, moved: State) -> (usize, usize)
    ensures { result ≡ (length lent.now.layers, length moved.layers) }
{
    thread::join(rt, || lent.layers(), move || moved.layers())
}
