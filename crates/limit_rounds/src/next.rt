ghost use Rattle.std.specs.Prelude.{◌≡◌, ◌≤◌, ◌<◌, ◌/◌, [], All, IfOk, cond, length, false, not, ◌&&◌};
ghost use Rattle.std.specs.Int.{div_ceil};
ghost use Rattle.layer.specs.Ask.{IsGoodAsk};
ghost use Rattle.round_rules.specs.State.{IsGoodState, state_of};
ghost use Rattle.round_rules.specs.Instance.{instance_of};
ghost use Rattle.round_rules.specs.Parts.{AreGoodParts};
ghost use Rattle.round_rules.specs.Faults.{fault_of};
ghost use Rattle.round_rules.specs.Next.{cap_within_limit, caps_after, coarse_unit, is_listed, next_state};
ghost use Rattle.round_rules.specs.Runs.{is_last};
ghost use Rattle.round_rules.specs.declared.round.Fault.TheVariants.{None};
ghost use Rattle.std.specs.List.{list_any};
ghost use Rattle.view_build.specs.View.{IsGoodView};
ghost use Rattle.limit_rounds.specs.Caps.{halves_at};
ghost use Rattle.limit_rounds.specs.Untried.{IsUntried};

use crate::caps::{caps_for_loads, closed_dirs, raise, zero_caps};
use crate::loads::loads;
use crate::routes::routes_of_round;
use crate::units::units_of;
use layer::Ask;
use plan_base::{Items, NoMemory};
use round_rules::{Cap, Fault, Round};
use std::alloc::Global;
use view_build::View;

/// The round that follows, with no parts yet, and the fault `None`. Too many parts lead to a coarse unit; listed
/// directions are capped; parts that are too large are halved, or their directions closed; a fee or a delay raises its
/// level by one.
pub fn next_round(alloc: Global, view: &View, ask: &Ask, round: &Round) -> Result<Round, NoMemory>
    requires ask { IsGoodAsk ask.now }
    requires state { IsGoodState view.now ask.now (state_of round.now) }
    requires parts { AreGoodParts (instance_of view.now ask.now (state_of round.now)) round.now.size round.now.parts }
    requires fault { round.now.fault ≡ fault_of view.now ask.now (state_of round.now) round.now.parts }
    requires goes_on { is_last (state_of round.now) round.now.fault ≡ false }
    ensures state { IfOk result (λ next. state_of next ≡ next_state view.now ask.now (state_of round.now) round.now.parts round.now.fault) }
    ensures parts { IfOk result (λ next. next.parts ≡ []) }
    ensures fault { IfOk result (λ next. next.fault ≡ None) }
    ensures good { IfOk result (λ next. IsGoodState view.now ask.now (state_of next)) }
{
    let coarse = coarse_unit(view, ask);
    following(alloc, view, ask, round, coarse)
}

/// The round that follows, for each fault.
fn following(
    alloc: Global,
    view: &View,
    ask: &Ask,
    round: &Round,
    coarse: u64,
) -> Result<Round, NoMemory>
    requires ask { IsGoodAsk ask.now }
    requires state { IsGoodState view.now ask.now (state_of round.now) }
    requires parts { AreGoodParts (instance_of view.now ask.now (state_of round.now)) round.now.size round.now.parts }
    requires fault { round.now.fault ≡ fault_of view.now ask.now (state_of round.now) round.now.parts }
    requires coarse { coarse ≡ coarse_unit view.now ask.now }
    requires some { 1 ≤ coarse }
    requires view { IsGoodView view.now }
    ensures { IfOk result (λ next. IsUntried next (next_state view.now ask.now (state_of round.now) round.now.parts round.now.fault)) }
{
    match &round.fault {
        Fault::TooManyParts => Ok(coarser(alloc, ask, round, coarse)),
        Fault::Directions(listed) => after_directions(alloc, view, ask, round, listed.as_slice()),
        Fault::Htlc(listed) => after_htlc(alloc, view, round, listed.as_slice(), coarse),
        Fault::Fee { .. } => with_levels(alloc, round, round.fee_level + 1, round.delay_level),
        Fault::Delay { .. } => with_levels(alloc, round, round.fee_level, round.delay_level + 1),
        Fault::None | Fault::NoFlow => {
            with_levels(alloc, round, round.fee_level, round.delay_level)
        }
    }
}

/// A round that was not tried yet.
fn untried(
    alloc: Global,
    unit: u64,
    fee_level: u8,
    delay_level: u8,
    size: u64,
    caps: Vec<Cap>,
) -> Round
    ensures { IsUntried result (record {
      unit = unit;
      fee_level = fee_level;
      delay_level = delay_level;
      size = size;
      caps = caps.items;
    }) }
{
    Round {
        unit,
        fee_level,
        delay_level,
        size,
        caps: Items::from_vec(caps),
        parts: Items::new(alloc),
        fault: Fault::None,
    }
}

/// The unit at which the amount has at most as many units as parts are allowed.
fn coarse_unit(view: &View, ask: &Ask) -> u64
    requires { IsGoodAsk ask.now }
    ensures value { result ≡ coarse_unit view.now ask.now }
    ensures some { 1 ≤ result }
    ensures view { IsGoodView view.now }
{
    ask.amount.div_ceil(u64::from(view.maxparts()))
}

/// The round after too many parts.
fn coarser(alloc: Global, ask: &Ask, round: &Round, coarse: u64) -> Round
    requires { 1 ≤ coarse }
    ensures { IsUntried result (record {
      unit = coarse;
      fee_level = round.now.fee_level;
      delay_level = round.now.delay_level;
      size = div_ceil ask.now.amount coarse;
      caps = [];
    }) }
{
    let size = ask.amount.div_ceil(coarse);
    let caps = Vec::new(alloc);
    untried(
        alloc,
        coarse,
        round.fee_level,
        round.delay_level,
        size,
        caps,
    )
}

/// The same round at other levels.
fn with_levels(
    alloc: Global,
    round: &Round,
    fee_level: u8,
    delay_level: u8,
) -> Result<Round, NoMemory>
    ensures { IfOk result (λ next. IsUntried next (record (state_of round.now) {
      fee_level = fee_level;
      delay_level = delay_level;
    })) }
{
    let caps = Vec::from_slice(alloc, round.caps.as_slice())?;
    Ok(untried(alloc, round.unit, fee_level, delay_level, round.size, caps))
}

/// The round after directions that are over their limit, or over which a part carries too little.
fn after_directions(
    alloc: Global,
    view: &View,
    ask: &Ask,
    round: &Round,
    listed: &[u32],
) -> Result<Round, NoMemory>
    requires ask { IsGoodAsk ask.now }
    requires state { IsGoodState view.now ask.now (state_of round.now) }
    requires parts { AreGoodParts (instance_of view.now ask.now (state_of round.now)) round.now.size round.now.parts }
    requires few { length round.now.parts ≤ 100 }
    requires listed { All (λ d. d < length view.now.dirs) listed.now }
    ensures { IfOk result (λ next. IsUntried next (record (state_of round.now) { caps = caps_after view.now round.now.caps (is_listed listed.now) (cap_within_limit view.now ask.now (state_of round.now) round.now.parts) })) }
{
    let dirs = view.dirs();
    let routes = routes_of_round(alloc, view, ask, round)?;
    let loads = loads(alloc, dirs.len(), &routes)?;
    let shares = units_of(alloc, dirs.len(), round.parts.as_slice())?;
    let wanted = caps_for_loads(alloc, dirs, listed, &loads, &shares, round.unit)?;
    let caps = raise(alloc, round.caps.as_slice(), &wanted)?;
    Ok(untried(
        alloc,
        round.unit,
        round.fee_level,
        round.delay_level,
        round.size,
        caps,
    ))
}

/// The round after directions over which a part carries more than the HTLC maximum.
fn after_htlc(
    alloc: Global,
    view: &View,
    round: &Round,
    listed: &[u32],
    coarse: u64,
) -> Result<Round, NoMemory>
    requires within { All (λ c. c.dir < length view.now.dirs) round.now.caps }
    requires times { All (λ c. c.times ≤ 3) round.now.caps }
    requires listed { All (λ d. d < length view.now.dirs) listed.now }
    ensures { IfOk result (λ next. IsUntried next (record {
      unit = round.now.unit;
      fee_level = round.now.fee_level;
      delay_level = round.now.delay_level;
      size = cond (list_any (halves_at view.now.dirs round.now.size coarse) listed.now) (round.now.size / 2) round.now.size;
      caps = caps_after view.now round.now.caps (λ d. is_listed listed.now d && not (halves_at view.now.dirs round.now.size coarse d)) (λ d. 0);
    })) }
{
    let dirs = view.dirs();
    let closed = closed_dirs(alloc, dirs, listed, round.size, coarse)?;
    let wanted = zero_caps(alloc, dirs.len(), &closed)?;
    let caps = raise(alloc, round.caps.as_slice(), &wanted)?;
    let size = halved(round.size, closed.len() < listed.len());
    Ok(untried(
        alloc,
        round.unit,
        round.fee_level,
        round.delay_level,
        size,
        caps,
    ))
}

/// The size, halved or not.
fn halved(size: u64, halves: bool) -> u64
    ensures { result ≡ cond halves (size / 2) size }
{
    if halves { size / 2 } else { size }
}
