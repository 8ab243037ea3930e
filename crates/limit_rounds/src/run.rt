ghost use Rattle.std.specs.Prelude.{◌≡◌, ◌+◌, ◌*◌, ◌≤◌, [], IfOk, IfSome, length, true};
ghost use Rattle.flow_model.specs.Flow.{IsCheapest, IsFilledInOrder};
ghost use Rattle.layer.specs.Ask.{IsGoodAsk};
ghost use Rattle.round_rules.specs.State.{IsGoodState, first_state, state_of};
ghost use Rattle.round_rules.specs.Instance.{instance_of};
ghost use Rattle.round_rules.specs.Parts.{flow_in};
ghost use Rattle.round_rules.specs.Runs.{HasCheapestParts, IsOutcome, IsRun, is_last};
ghost use Rattle.limit_rounds.specs.Untried.{IsUntried};
ghost use Rattle.limit_rounds.specs.Solution.{ComesFrom, FlowAnswer, HasSameProblem, IsAnswer, IsTried};

use crate::fault::round_fault;
use crate::instance::round_instance;
use crate::next::next_round;
use crate::summary::round_routes;
use flow_model::{Arc, Flow, Instance, Solve, Solved};
use layer::Ask;
use path_split::{Part, split};
use plan_base::{Items, NoMemory};
use round_rules::{Cap, Fault, Outcome, Round, Run};
use std::alloc::Global;
use view_build::View;

/// A problem with a solver's answer to it.
#[derive(Drop)]
pub(crate) struct Solution {
    pub instance: Instance,
    pub solved: Solved,
}

/// A round that was tried, with the answer that it comes from.
#[derive(Drop)]
pub(crate) struct Tried {
    pub round: Round,
    pub solution: Solution,
}

/// Tries rounds until one has no fault, no flow, or a fee or delay that no level lowers any more. A run on a view of n
/// directions has at most 6n + 81 rounds.
pub fn plan<S: Solve>(alloc: Global, view: &View, ask: &Ask, solver: &S) -> Result<Run, NoMemory>
    requires { IsGoodAsk ask.now }
    ensures run { IfOk result (λ run. IsRun view.now ask.now run.rounds run.outcome) }
    ensures few { IfOk result (λ run. length run.rounds ≤ 6 * length view.now.dirs + 81) }
{
    // A view's invariant is known once the view is read.
    let _ = view.dirs();
    let first = first_round(alloc, ask.amount);
    let mut rounds = Vec::new(alloc);
    let mut tried = try_round(alloc, view, ask, first, None, false, solver)?;
    while !is_last_round(&tried.round) {
        let next = next_round(alloc, view, ask, &tried.round)?;
        let same = has_same_problem(&tried.round, &next);
        let Tried { round, solution } = tried;
        rounds.push(round)?;
        tried = try_round(alloc, view, ask, next, Some(solution), same, solver)?;
    }
    let Tried { round, solution } = tried;
    let outcome = outcome(alloc, view, ask, &round, solution)?;
    rounds.push(round)?;
    Ok(Run {
        rounds: Items::from_vec(rounds),
        outcome,
    })
}

/// The first round, not tried yet.
fn first_round(alloc: Global, amount: u64) -> Round
    ensures { IsUntried result (first_state amount) }
{
    Round {
        unit: 1,
        fee_level: 0,
        delay_level: 0,
        size: amount,
        caps: Items::new(alloc),
        parts: Items::new(alloc),
        fault: Fault::None,
    }
}

/// Solves the problem of a round, and tries the parts of the flow, if there is one. `last` is the round before's; `same`
/// says that its problem is this round's too.
fn try_round<S: Solve>(
    alloc: Global,
    view: &View,
    ask: &Ask,
    round: Round,
    last: Option<Solution>,
    same: bool,
    solver: &S,
) -> Result<Tried, NoMemory>
    requires ask { IsGoodAsk ask.now }
    requires state { IsGoodState view.now ask.now (state_of round) }
    requires parts { round.parts ≡ [] }
    requires last { IfSome last (λ s. IsAnswer s.instance s.solved) }
    requires same { same ≡ true → IfSome last (λ s. s.instance ≡ instance_of view.now ask.now (state_of round)) }
    ensures state { IfOk result (λ tried. state_of tried.round ≡ state_of round) }
    ensures tried { IfOk result (λ tried. IsTried view.now ask.now tried) }
{
    let solution = solution_of(alloc, view, ask, &round, last, same, solver)?;
    let round = with_answer(alloc, view, ask, round, &solution)?;
    Ok(Tried { round, solution })
}

/// The answer to a round's problem. If the problem is the last one, it is not made again.
fn solution_of<S: Solve>(
    alloc: Global,
    view: &View,
    ask: &Ask,
    round: &Round,
    last: Option<Solution>,
    same: bool,
    solver: &S,
) -> Result<Solution, NoMemory>
    requires ask { IsGoodAsk ask.now }
    requires state { IsGoodState view.now ask.now (state_of round.now) }
    requires last { IfSome last (λ s. IsAnswer s.instance s.solved) }
    requires same { same ≡ true → IfSome last (λ s. s.instance ≡ instance_of view.now ask.now (state_of round.now)) }
    ensures instance { IfOk result (λ s. s.instance ≡ instance_of view.now ask.now (state_of round.now)) }
    ensures answer { IfOk result (λ s. IsAnswer s.instance s.solved) }
{
    match last {
        Some(last) if same => Ok(last),
        last => {
            let instance = round_instance(alloc, view, ask, round)?;
            solve(alloc, instance, last, solver)
        }
    }
}

/// Whether two rounds have the same unit, levels and caps. Then they have the same problem.
#[tactic(auto, using(crate::proofs::Same::same_problem))]
fn has_same_problem(a: &Round, b: &Round) -> bool
    ensures { result ≡ true → HasSameProblem a.now b.now }
{
    if a.unit != b.unit || a.fee_level != b.fee_level || a.delay_level != b.delay_level {
        return false;
    }
    are_same_caps(a.caps.as_slice(), b.caps.as_slice())
}

/// Whether the caps are equal, one by one.
fn are_same_caps(a: &[Cap], b: &[Cap]) -> bool
    ensures { result ≡ true → a.now ≡ b.now }
{
    if a.len() != b.len() {
        return false;
    }
    for i in 0..a.len() {
        if !is_same_cap(a[i], b[i]) {
            return false;
        }
    }
    true
}

fn is_same_cap(a: Cap, b: Cap) -> bool
    ensures { result ≡ true → a ≡ b }
{
    if a.dir != b.dir {
        return false;
    }
    a.cap == b.cap && a.times == b.times
}

/// The answer to a problem. A problem that equals the last one is not solved again: its answer is taken over.
fn solve<S: Solve>(
    alloc: Global,
    instance: Instance,
    last: Option<Solution>,
    solver: &S,
) -> Result<Solution, NoMemory>
    requires { IfSome last (λ s. IsAnswer s.instance s.solved) }
    ensures instance { IfOk result (λ s. s.instance ≡ instance) }
    ensures answer { IfOk result (λ s. IsAnswer s.instance s.solved) }
{
    if let Some(last) = last {
        if is_same(&last.instance, &instance) {
            return Ok(last);
        }
    }
    let solved = solver.solve(alloc, &instance)?;
    Ok(Solution { instance, solved })
}

/// Whether two problems are equal.
fn is_same(a: &Instance, b: &Instance) -> bool
    ensures { result ≡ true → a.now ≡ b.now }
{
    if a.nodes() != b.nodes() || a.demand() != b.demand() {
        return false;
    }
    if a.source() != b.source() || a.destination() != b.destination() {
        return false;
    }
    are_same_arcs(a.arcs(), b.arcs())
}

/// Whether the arcs are equal, one by one.
fn are_same_arcs(a: &[Arc], b: &[Arc]) -> bool
    ensures { result ≡ true → a.now ≡ b.now }
{
    if a.len() != b.len() {
        return false;
    }
    for i in 0..a.len() {
        if !is_same_arc(a[i], b[i]) {
            return false;
        }
    }
    true
}

fn is_same_arc(a: Arc, b: Arc) -> bool
    ensures { result ≡ true → a ≡ b }
{
    if a.from != b.from || a.to != b.to || a.dir != b.dir {
        return false;
    }
    a.room == b.room && a.cost == b.cost
}

/// The round with the parts of the answer's flow and their fault, or with no parts and the fault that there is no flow.
fn with_answer(
    alloc: Global,
    view: &View,
    ask: &Ask,
    round: Round,
    solution: &Solution,
) -> Result<Round, NoMemory>
    requires ask { IsGoodAsk ask.now }
    requires state { IsGoodState view.now ask.now (state_of round) }
    requires parts { round.parts ≡ [] }
    requires instance { solution.now.instance ≡ instance_of view.now ask.now (state_of round) }
    requires answer { IsAnswer solution.now.instance solution.now.solved }
    ensures state { IfOk result (λ tried. state_of tried ≡ state_of round) }
    ensures comes { IfOk result (λ tried. ComesFrom view.now ask.now tried solution.now.solved) }
{
    match &solution.solved {
        Solved::Cut { .. } => Ok(with_fault(round, Fault::NoFlow)),
        Solved::Flow { flow, .. } => with_flow(alloc, view, ask, round, &solution.instance, flow),
    }
}

/// The round with the parts of a cheapest flow and their fault.
fn with_flow(
    alloc: Global,
    view: &View,
    ask: &Ask,
    round: Round,
    instance: &Instance,
    flow: &Flow,
) -> Result<Round, NoMemory>
    requires ask { IsGoodAsk ask.now }
    requires state { IsGoodState view.now ask.now (state_of round) }
    requires instance { instance.now ≡ instance_of view.now ask.now (state_of round) }
    requires cheapest { IsCheapest instance.now flow.now }
    requires in_order { IsFilledInOrder instance.now flow.now }
    ensures state { IfOk result (λ tried. state_of tried ≡ state_of round) }
    ensures parts { IfOk result (λ tried. HasCheapestParts view.now ask.now (state_of tried) tried.parts tried.fault) }
    ensures flow { IfOk result (λ tried. flow.now ≡ flow_in (instance_of view.now ask.now (state_of tried)) tried.parts) }
{
    let parts = split(alloc, instance, flow, round.size)?;
    let round = with_parts(round, parts);
    let fault = round_fault(alloc, view, ask, &round)?;
    Ok(with_fault(round, fault))
}

/// The round with these parts.
fn with_parts(round: Round, parts: Vec<Part>) -> Round
    ensures { result ≡ record round { parts = parts.items } }
{
    Round {
        unit: round.unit,
        fee_level: round.fee_level,
        delay_level: round.delay_level,
        size: round.size,
        caps: round.caps,
        parts: Items::from_vec(parts),
        fault: round.fault,
    }
}

/// The round with this fault.
fn with_fault(round: Round, fault: Fault) -> Round
    ensures { result ≡ record round { fault = fault } }
{
    Round {
        unit: round.unit,
        fee_level: round.fee_level,
        delay_level: round.delay_level,
        size: round.size,
        caps: round.caps,
        parts: round.parts,
        fault,
    }
}

/// Whether a round is the last one.
fn is_last_round(round: &Round) -> bool
    ensures { result ≡ is_last (state_of round.now) round.now.fault }
{
    match round.fault {
        Fault::None | Fault::NoFlow => true,
        Fault::Fee { .. } => round.fee_level == 8,
        Fault::Delay { .. } => round.delay_level == 5,
        _ => false,
    }
}

/// How a run ends with its last round.
fn outcome(
    alloc: Global,
    view: &View,
    ask: &Ask,
    round: &Round,
    solution: Solution,
) -> Result<Outcome, NoMemory>
    requires ask { IsGoodAsk ask.now }
    requires state { IsGoodState view.now ask.now (state_of round.now) }
    requires instance { solution.instance ≡ instance_of view.now ask.now (state_of round.now) }
    requires answer { IsAnswer solution.instance solution.solved }
    requires comes { ComesFrom view.now ask.now round.now solution.solved }
    requires last { is_last (state_of round.now) round.now.fault ≡ true }
    ensures { IfOk result (λ outcome. IsOutcome view.now ask.now round.now outcome) }
{
    let Solution { instance, solved } = solution;
    match solved {
        Solved::Cut { side } => Ok(Outcome::NoFlow { instance, side }),
        Solved::Flow { flow, potentials } => {
            flow_outcome(alloc, view, ask, round, instance, flow, potentials)
        }
    }
}

/// How a run ends with a last round that has parts.
fn flow_outcome(
    alloc: Global,
    view: &View,
    ask: &Ask,
    round: &Round,
    instance: Instance,
    flow: Flow,
    potentials: Items<i128>,
) -> Result<Outcome, NoMemory>
    requires ask { IsGoodAsk ask.now }
    requires state { IsGoodState view.now ask.now (state_of round.now) }
    requires instance { instance ≡ instance_of view.now ask.now (state_of round.now) }
    requires answer { FlowAnswer instance flow potentials }
    requires parts { HasCheapestParts view.now ask.now (state_of round.now) round.now.parts round.now.fault }
    requires flow { flow ≡ flow_in (instance_of view.now ask.now (state_of round.now)) round.now.parts }
    requires last { is_last (state_of round.now) round.now.fault ≡ true }
    ensures { IfOk result (λ outcome. IsOutcome view.now ask.now round.now outcome) }
{
    match round.fault {
        Fault::Fee { fee } => Ok(Outcome::OverFee { fee }),
        Fault::Delay { part, delay } => Ok(Outcome::OverDelay { part, delay }),
        _ => {
            let (routes, fee, ppm) = round_routes(alloc, view, ask, round)?;
            Ok(Outcome::Parts {
                routes: Items::from_vec(routes),
                fee,
                ppm,
                instance,
                flow,
                potentials,
            })
        }
    }
}
