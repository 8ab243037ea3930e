ghost use Rattle.std.specs.Prelude.{ℕ, ◌≡◌, ◌+◌, ◌^◌, ◌%◌, ◌<◌, length};

use one_history::{Entry, Machine, MachineRefusal, Object, Outcome, Step, Told, play};
use plan_base::NoMemory;
use std::alloc::{AllocError, Global};
use std::test::*;

/// Adds amounts up. A reply has the sum, beside the caller and the moment that came with the amount.
#[derive(Debug, Drop)]
struct Sum {
    total: u64,
}

#[derive(Clone, Copy, Debug, PartialEq, Eq)]
struct Receipt {
    caller: u32,
    moment: u64,
    total: u64,
}

impl Object for Sum {
    type Command = u64;

    type Reply = Receipt;

    ghost start = { record { total = 0 } };

    ghost good = { λ _. Unit {0} };

    ghost next = { λ sum caller moment amount. record { total = (sum.total + amount) % 2 ^ 64 } };

    ghost reply = { λ sum caller moment amount. record { caller = caller; moment = moment; total = (sum.total + amount) % 2 ^ 64 } };

    fn fresh(_alloc: Global) -> Result<Self, NoMemory> {
        Ok(Sum { total: 0 })
    }

    fn step(
        &mut self,
        _alloc: Global,
        caller: u32,
        moment: u64,
        amount: &u64,
    ) -> Result<Receipt, NoMemory> {
        self.total = self.total.wrapping_add(*amount);
        Ok(Receipt {
            caller,
            moment,
            total: self.total,
        })
    }
}

/// Has no data, so that a full journal of it is small.
#[derive(Debug, Drop)]
struct Nothing;

impl Object for Nothing {
    type Command = ();

    type Reply = ();

    ghost start = { record {} };

    ghost good = { λ _. Unit {0} };

    ghost next = { λ nothing caller moment command. nothing };

    ghost reply = { λ nothing caller moment command. command };

    fn fresh(_alloc: Global) -> Result<Self, NoMemory> {
        Ok(Nothing)
    }

    fn step(
        &mut self,
        _alloc: Global,
        _caller: u32,
        _moment: u64,
        command: &(),
    ) -> Result<(), NoMemory> {
        Ok(*command)
    }
}

fn told_sum(caller: u32, moment: u64, total: u64, at: u64) -> Option<Told<Receipt>> {
    let reply = Receipt {
        caller,
        moment,
        total,
    };
    Some(Told { at, reply })
}

#[test]
fn each_caller_is_told_its_own(rt: HostRuntime) -> Result<(), Fail> {
    let mut machine: Machine<Sum> = Machine::open(rt.alloc())?;
    assert_eq!(rt; machine.event(5, 100, 20), Ok(0));
    assert_eq!(rt; machine.event(6, 101, 3), Ok(1));
    assert_eq!(rt;
        machine.event(5, 102, 7),
        Err(MachineRefusal::Unanswered { at: 0 })
    );
    assert_eq!(rt; machine.answer(6), told_sum(6, 101, 23, 1));
    assert_eq!(rt; machine.answer(5), told_sum(5, 100, 20, 0));
    assert_eq!(rt; machine.answer(5), None);
    assert_eq!(rt; machine.journal().entries().len(), 2);
    assert_eq!(rt; machine.journal().object().total, 23);
    Ok(())
}

#[test]
fn a_full_history_takes_no_more(rt: HostRuntime) -> Result<(), Fail> {
    let mut machine: Machine<Nothing> = Machine::open(rt.alloc())?;
    for at in 0..4_194_303 {
        assert_eq!(rt; machine.event(1, at, ()), Ok(at));
        assert_eq!(rt; machine.answer(1), Some(Told { at, reply: () }));
    }
    assert_eq!(rt; machine.event(1, 0, ()), Ok(4_194_303));
    assert_eq!(rt;
        machine.event(1, 0, ()),
        Err(MachineRefusal::Unanswered { at: 4_194_303 })
    );
    assert_eq!(rt;
        machine.event(2, 0, ()),
        Err(MachineRefusal::Full { length: 4_194_304 })
    );
    assert_eq!(rt;
        machine.answer(1),
        Some(Told {
            at: 4_194_303,
            reply: ()
        })
    );
    assert_eq!(rt;
        machine.event(1, 0, ()),
        Err(MachineRefusal::Full { length: 4_194_304 })
    );
    assert_eq!(rt; machine.journal().entries().len(), 4_194_304);
    Ok(())
}

/// The history as a plain list, with the callers that wait: each answer is added up anew from the first entry on.
#[derive(Drop)]
struct Replay {
    entries: Vec<Entry<u64>>,
    waiting: Vec<(u32, u64)>,
}

impl Replay {
    fn take(&mut self, step: Step<u64>) -> Result<Outcome<Receipt>, NoMemory> {
        match step {
            Step::Event {
                caller,
                moment,
                command,
            } => self.event(caller, moment, command),
            Step::Answer { caller } => Ok(Outcome::Answered(self.answer(caller))),
        }
    }

    fn event(
        &mut self,
        caller: u32,
        moment: u64,
        command: u64,
    ) -> Result<Outcome<Receipt>, NoMemory> {
        if let Some((_, at)) = self.waiting.iter().find(|w| w.0 == caller) {
            return Ok(Outcome::Placed(Err(MachineRefusal::Unanswered { at: *at })));
        }
        let at = self.entries.len() as u64;
        self.entries.push(Entry {
            caller,
            moment,
            command,
        })?;
        self.waiting.push((caller, at))?;
        Ok(Outcome::Placed(Ok(at)))
    }

    fn answer(&mut self, caller: u32) -> Option<Told<Receipt>> {
        let place = self.waiting.iter().position(|w| w.0 == caller)?;
        let (_, at) = self.waiting.remove(place);
        let entry = *self.entries.get(at as usize)?;
        let mut total: u64 = 0;
        for earlier in self.entries.iter().take(at as usize) {
            total = total.wrapping_add(earlier.command);
        }
        told_sum(
            entry.caller,
            entry.moment,
            total.wrapping_add(entry.command),
            at,
        )
    }
}

/// Steps of seven callers, by a linear congruential generator.
fn mixed_steps(alloc: Global, number: u64) -> Result<Vec<Step<u64>>, AllocError> {
    let mut steps = Vec::new(alloc);
    let mut drawn: u64 = 20_211_012;
    for moment in 0..number {
        drawn = drawn
            .wrapping_mul(6_364_136_223_846_793_005)
            .wrapping_add(1_442_695_040_888_963_407);
        let caller = (drawn >> 40) as u32 % 7;
        let command = drawn >> 50;
        steps.push(if drawn >> 63 == 0 {
            Step::Event {
                caller,
                moment,
                command,
            }
        } else {
            Step::Answer { caller }
        })?;
    }
    Ok(steps)
}

// Whether the outcomes of these steps are those of the replay.
fn replays(
    replay: &mut Replay,
    steps: &[Step<u64>],
    outcomes: &[Outcome<Receipt>],
) -> Result<bool, NoMemory> {
    for (step, outcome) in steps.iter().zip(outcomes.iter()) {
        if replay.take(*step)? != *outcome {
            return Ok(false);
        }
    }
    Ok(outcomes.len() == steps.len())
}

#[test]
fn outcomes_are_those_of_a_plain_replay(rt: HostRuntime) -> Result<(), Fail> {
    let alloc = rt.alloc();
    let mut machine: Machine<Sum> = Machine::open(alloc)?;
    let outcomes = play(alloc, &mut machine, mixed_steps(alloc, 5_000)?)?;
    let mut replay = Replay {
        entries: Vec::new(alloc),
        waiting: Vec::new(alloc),
    };
    let steps = mixed_steps(alloc, 5_000)?;
    assert!(rt; replays(&mut replay, steps.as_slice(), outcomes.as_slice())?);
    assert!(rt; machine.journal().entries() == replay.entries.as_slice());
    Ok(())
}
