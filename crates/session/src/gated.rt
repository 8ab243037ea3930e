ghost use Rattle.session.specs.Answers.{Answers};

use crate::answerer::{Answerer, RouteAnswers};
use askrene_state::EventReply;
use flow_model::Solve;
use one_history::Told;
use plan_base::NoMemory;
use port_io::Gate;
use rpc_lines::Body;
use std::alloc::Global;
use std::sync::Wait;
use std::thread::Threads;

/// Answers as `RouteAnswers`, but passes a gate before routes are computed.
#[derive(Drop)]
pub struct GatedAnswers<'a, R, G, S: Solve> {
    pub rt: &'a R,
    pub gate: &'a G,
    pub caller: u32,
    pub routes: RouteAnswers<'a, S>,
}

impl<'a, R: Threads + Wait + Sync, G: Gate, S: Solve> Answerer for GatedAnswers<'a, R, G, S> {
    ghost answers = { λ this. Answers this.routes.map.now this.routes.local.now };

    fn answer(&self, alloc: Global, told: Told<EventReply>) -> Result<Body, NoMemory> {
        if told.reply.is_routes() {
            self.gate.hold(self.rt, self.caller, told.at);
        }
        self.routes.answer(alloc, told)
    }
}
