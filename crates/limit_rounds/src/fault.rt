ghost use Rattle.std.specs.Prelude.{
  ◌≡◌,
  ◌+◌,
  ◌-◌,
  ◌*◌,
  ◌<◌,
  ◌≤◌,
  ◌^◌,
  ◌||◌,
  ◌++◌,
  [],
  ◌∷◌,
  ℕ,
  All,
  cond,
  filter,
  length,
  nat_lt,
  slice_index_or,
  IfOk,
  OnOk,
};
ghost use Rattle.std.specs.List.{range_with_len};
ghost use Rattle.fee_backward.specs.Hop.{delay_after};
ghost use Rattle.layer.specs.Ask.{IsGoodAsk};
ghost use Rattle.round_rules.specs.View.{no_dir};
ghost use Rattle.round_rules.specs.State.{IsGoodState, state_of};
ghost use Rattle.round_rules.specs.Instance.{instance_of};
ghost use Rattle.round_rules.specs.Parts.{AreGoodParts};
ghost use Rattle.round_rules.specs.Amounts.{fee_of, fees_of};
ghost use Rattle.round_rules.specs.Faults.{
  fault_of,
  fault_of_routes,
  faulty_dirs,
  first_late,
  or_listed,
  oversize_dirs,
};
ghost use Rattle.round_rules.specs.declared.round.Fault.TheVariants.{Directions, Fee, Htlc};
ghost use Rattle.limit_rounds.specs.Loads.{AreGoodRoutes, faulty_at, oversize_at};

use crate::loads::{Load, loads};
use crate::routes::routes_of_round;
use fee_backward::Hop;
use layer::Ask;
use plan_base::{Items, NoMemory};
use round_rules::{Fault, Round, Route};
use std::alloc::Global;
use view_build::{View, ViewDir};

/// What is wrong with the parts of a round: the first limit that they break.
pub fn round_fault(alloc: Global, view: &View, ask: &Ask, round: &Round) -> Result<Fault, NoMemory>
    requires ask { IsGoodAsk ask.now }
    requires state { IsGoodState view.now ask.now (state_of round.now) }
    requires parts { AreGoodParts (instance_of view.now ask.now (state_of round.now)) round.now.size round.now.parts }
    ensures { IfOk result (λ fault. fault ≡ fault_of view.now ask.now (state_of round.now) round.now.parts) }
{
    if round.parts.as_slice().len() > usize::from(view.maxparts()) {
        return Ok(Fault::TooManyParts);
    }
    let routes = routes_of_round(alloc, view, ask, round)?;
    fault_of_routes(alloc, view, ask, &routes)
}

/// The first limit that the routes break.
fn fault_of_routes(
    alloc: Global,
    view: &View,
    ask: &Ask,
    routes: &[Route],
) -> Result<Fault, NoMemory>
    requires { AreGoodRoutes (length view.now.dirs) routes.now }
    ensures { IfOk result (λ fault. fault ≡ fault_of_routes view.now ask.now routes.now) }
{
    let dirs = view.dirs();
    let loads = loads(alloc, dirs.len(), routes)?;
    let faulty = faulty_dirs(alloc, dirs, &loads)?;
    let oversize = oversize_dirs(alloc, dirs, &loads)?;
    let late = late_fault(ask, routes);
    Ok(first_fault(faulty, oversize, fee_sum(routes), ask.maxfee, late))
}

/// The first of these faults.
fn first_fault(faulty: Vec<u32>, oversize: Vec<u32>, fees: u128, maxfee: u64, late: Fault) -> Fault
    ensures { result ≡ or_listed Directions faulty.items (or_listed Htlc oversize.items (cond (nat_lt maxfee fees) (Fee fees) late)) }
{
    if !faulty.is_empty() {
        return Fault::Directions(Items::from_vec(faulty));
    }
    if !oversize.is_empty() {
        return Fault::Htlc(Items::from_vec(oversize));
    }
    if fees > u128::from(maxfee) {
        return Fault::Fee { fee: fees };
    }
    late
}

/// The first route whose delay is above the greatest one.
fn late_fault(ask: &Ask, routes: &[Route]) -> Fault
    requires { length routes.now < 2 ^ 32 }
    ensures { result ≡ first_late ask.now 0 routes.now }
{
    for i in 0..routes.len() {
        let delay = delay_of(routes[i].hops.as_slice(), ask.final_cltv);
        if delay > u64::from(ask.maxdelay) {
            return Fault::Delay {
                part: i as u32,
                delay,
            };
        }
    }
    Fault::None
}

/// The delay of the first hop.
fn delay_of(hops: &[Hop], final_cltv: u16) -> u64
    ensures { result ≡ delay_after hops.now final_cltv }
{
    if hops.is_empty() {
        return u64::from(final_cltv);
    }
    hops[0].delay
}

/// The sum of the routes' fees.
pub(crate) fn fee_sum(routes: &[Route]) -> u128
    requires { length routes.now < 2 ^ 32 }
    ensures { result ≡ fees_of routes.now }
{
    let mut sum = 0;
    for route in routes {
        sum += u128::from(fee(route));
    }
    sum
}

/// What the first hop asks for, less what is delivered.
fn fee(route: &Route) -> u64
    ensures { result ≡ fee_of route.now }
{
    let hops = route.hops.as_slice();
    if hops.is_empty() {
        return 0;
    }
    hops[0].amount.saturating_sub(route.delivered)
}

/// The directions that are over their limit, or over which a part carries less than the HTLC minimum.
fn faulty_dirs(alloc: Global, dirs: &[ViewDir], loads: &[Load]) -> Result<Vec<u32>, NoMemory>
    requires long { length loads.now ≡ length dirs.now }
    requires few { length dirs.now < 2 ^ 32 }
    ensures { IfOk result (λ ds. ds.items ≡ filter (faulty_at dirs.now loads.now) (range_with_len 0 (length dirs.now))) }
{
    let mut faulty = Vec::new(alloc);
    for d in 0..dirs.len() {
        let listed = is_faulty(&dirs[d], loads[d]);
        push_if(&mut faulty, listed, d as u32)?;
    }
    Ok(faulty)
}

/// Whether the load is above the direction's limit, or one of its amounts below the HTLC minimum.
fn is_faulty(dir: &ViewDir, load: Load) -> bool
    ensures { result ≡ (nat_lt dir.now.max load.total || nat_lt load.least dir.now.htlc_min) }
{
    load.total > u128::from(dir.max) || load.least < dir.htlc_min
}

/// The directions over which a part carries more than the HTLC maximum.
fn oversize_dirs(alloc: Global, dirs: &[ViewDir], loads: &[Load]) -> Result<Vec<u32>, NoMemory>
    requires long { length loads.now ≡ length dirs.now }
    requires few { length dirs.now < 2 ^ 32 }
    ensures { IfOk result (λ ds. ds.items ≡ filter (oversize_at dirs.now loads.now) (range_with_len 0 (length dirs.now))) }
{
    let mut oversize = Vec::new(alloc);
    for d in 0..dirs.len() {
        let listed = loads[d].most > dirs[d].htlc_max;
        push_if(&mut oversize, listed, d as u32)?;
    }
    Ok(oversize)
}

/// Appends the direction if it is listed.
pub(crate) fn push_if(out: &mut Vec<u32>, listed: bool, dir: u32) -> Result<(), NoMemory>
    ensures { OnOk result (out.new.items ≡ out.old.items ++ cond listed (dir ∷ []) []) }
{
    if listed {
        out.push(dir)?;
    }
    Ok(())
}
