ghost use Rattle.std.specs.Prelude.{◌≡◌, None, IfNone, IfSome, OnSome, IsSomeAnd, IfOk, OnErr};
ghost use Rattle.one_history.specs.Core.{place_of, after_answer};
ghost use Rattle.session.specs.Answers.{AnswersAt};

use crate::answerer::Answerer;
use askrene_state::State;
use one_history::Machine;
use plan_base::NoMemory;
use rpc_lines::Body;
use std::alloc::Global;

/// Takes the reply that a machine keeps for a caller, and makes its body. `None` if and only if the caller has no event
/// without an answer. After `NoMemory` the reply is gone.
#[tactic(auto, using(crate::proofs::Positions::answered_at))]
pub fn answer_of<A: Answerer>(
    alloc: Global,
    answerer: &A,
    machine: &mut Machine<State>,
    caller: u32,
) -> Result<Option<Body>, NoMemory>
    ensures none { IfOk result (λ answer. IfNone answer (place_of caller machine.old ≡ None)) }
    ensures unchanged { IfOk result (λ answer. IfNone answer (machine.new ≡ machine.old)) }
    ensures body { IfOk result (λ answer. IfSome answer (λ body. IsSomeAnd (place_of caller machine.old) (λ at. AnswersAt (A.answers answerer.now) machine.old.history at body))) }
    ensures answered { IfOk result (λ answer. OnSome answer (machine.new ≡ after_answer caller machine.old)) }
    ensures err { OnErr result (machine.new ≡ after_answer caller machine.old) }
{
    match machine.answer(caller) {
        None => Ok(None),
        Some(told) => match answerer.answer(alloc, told) {
            Ok(body) => Ok(Some(body)),
            Err(NoMemory) => Err(NoMemory),
        },
    }
}
