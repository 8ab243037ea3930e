ghost use Rattle.std.specs.Prelude.{◌≡◌, List, IfOk};
ghost use Rattle.one_history.specs.declared.entry.Entry.{Entry};
ghost use Rattle.askrene_command.specs.declared.command.Command.{Command};
ghost use Rattle.rpc_lines.specs.Reply.{Content};
ghost use Rattle.session.specs.Answers.{Answers, AnswersReply, AnswersTold};

use askrene_state::{Command, EventReply};
use channel_map::{ChannelMap, Local};
use flow_model::Solve;
use one_history::Told;
use plan_answer::{answer, event_body};
use plan_base::NoMemory;
use rpc_lines::Body;
use std::alloc::Global;

/// Makes the bodies of the replies to entries.
pub trait Answerer {
    /// Which contents answer an entry after a history.
    ghost answers: { Self → List (Entry Command) → Entry Command → Content → Type 0 };

    /// The body for what the caller of an entry was told.
    fn answer(&self, alloc: Global, told: Told<EventReply>) -> Result<Body, NoMemory>
        ensures { IfOk result (λ body. AnswersTold (answers self.now) told body) };
}

/// Prints what the state replies, and computes routes over a map and a local file with a solver.
#[derive(Drop)]
pub struct RouteAnswers<'a, S: Solve> {
    pub map: &'a ChannelMap,
    pub local: &'a Local,
    pub solver: &'a S,
}

impl<'a, S: Solve> Answerer for RouteAnswers<'a, S> {
    ghost answers = { λ this. Answers this.map.now this.local.now };

    #[tactic(auto, using(crate::proofs::Answered::answers_told))]
    fn answer(&self, alloc: Global, told: Told<EventReply>) -> Result<Body, NoMemory> {
        let Told { at, reply } = told;
        self.body_of(alloc, at, reply)
    }
}

impl<'a, S: Solve> RouteAnswers<'a, S> {
    // The body for a reply of the state at a position.
    fn body_of(&self, alloc: Global, at: u64, reply: EventReply) -> Result<Body, NoMemory>
        ensures { IfOk result (λ body. AnswersReply self.now.map.now self.now.local.now at reply body) }
    {
        match reply {
            EventReply::Routes(snapshot) => {
                answer(alloc, snapshot, at, self.map, self.local, self.solver)
            }
            other => event_body(alloc, at, &other),
        }
    }
}
