ghost use Rattle.std.specs.Prelude.{◌≡◌, All, IfOk, OnErr};
ghost use Rattle.one_history.specs.CoreRun.{CoreStep, IsCoreRun, IsGoodStep, AreOutcomesIn, AnswersOnce};

use crate::{Machine, MachineRefusal, Object, Told};
use plan_base::NoMemory;
use std::alloc::Global;

/// One step of the core.
#[derive(Clone, Copy, Debug, Drop, PartialEq, Eq)]
pub enum Step<M> {
    /// A caller's event, at a moment.
    Event {
        caller: u32,
        moment: u64,
        command: M,
    },
    /// A caller takes the answer to its event.
    Answer {
        caller: u32,
    },
}

/// The outcome of a step, for its caller.
#[derive(Clone, Copy, Debug, Drop, PartialEq, Eq)]
pub enum Outcome<R> {
    /// The place of the event, or why it was not committed.
    Placed(Result<u64, MachineRefusal>),
    /// The answer, if the caller waits for one.
    Answered(Option<Told<R>>),
}

/// Takes one step on a machine. A refused step leaves the machine unchanged.
pub fn take_step<O: Object>(machine: &mut Machine<O>, step: Step<O::Command>) -> Outcome<O::Reply>
where
    O::Command: Drop,
    requires { IsGoodStep O.good step }
    ensures { CoreStep O.next O.start O.reply machine.old step result machine.new }
{
    match step {
        Step::Event {
            caller,
            moment,
            command,
        } => Outcome::Placed(machine.event(caller, moment, command)),
        Step::Answer { caller } => Outcome::Answered(machine.answer(caller)),
    }
}

/// Takes a list of steps on a machine, and returns the outcome of each.
///
/// Whatever the steps are, each answer is the reply at its event's place in the history, and each event is answered once
/// or still waits. Allocates the outcomes first: when out of memory, the machine is unchanged.
pub fn play<O: Object>(
    alloc: Global,
    machine: &mut Machine<O>,
    steps: Vec<Step<O::Command>>,
) -> Result<Vec<Outcome<O::Reply>>, NoMemory>
where
    O::Command: Drop,
    requires { All (IsGoodStep O.good) steps.items }
    ensures run { IfOk result (λ told. IsCoreRun O.next O.start O.reply machine.old steps.items told.items machine.new) }
    ensures replies { IfOk result (λ told. AreOutcomesIn O.next O.start O.reply machine.new.history steps.items told.items) }
    ensures once { IfOk result (λ told. AnswersOnce machine.old told.items machine.new) }
    ensures err { OnErr result (machine.new ≡ machine.old) }
{
    let mut outcomes = Vec::with_capacity(alloc, steps.len())?;
    // Its contract says that each caller that waits has an entry of its own, on which the answers rest.
    let _history = machine.journal();
    for step in steps {
        outcomes.push_reserved(take_step(machine, step));
    }
    Ok(outcomes)
}
