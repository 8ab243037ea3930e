ghost use Rattle.std.specs.Prelude.{
  ◌≡◌,
  ◌+◌,
  ◌-◌,
  ◌*◌,
  ◌<◌,
  ◌≤◌,
  ◌^◌,
  All,
  IfOk,
  cond,
  length,
  map,
  nat_eq,
  slice_index_or,
  sum_by,
};
ghost use Rattle.plan_base.specs.declared.amount.TheConstants.{MAX};
ghost use Rattle.fee_backward.specs.Hop.{amounts_of};
ghost use Rattle.layer.specs.Ask.{IsGoodAsk};
ghost use Rattle.round_rules.specs.View.{no_dir};
ghost use Rattle.round_rules.specs.State.{IsGoodState, state_of};
ghost use Rattle.round_rules.specs.Instance.{instance_of};
ghost use Rattle.round_rules.specs.Parts.{AreGoodParts};
ghost use Rattle.round_rules.specs.Amounts.{routes_of, routes_with, toll_of};

use fee_backward::hops;
use layer::Ask;
use path_split::Part;
use plan_base::{Items, NoMemory, Toll};
use round_rules::{Round, Route};
use std::alloc::Global;
use view_build::{View, ViewDir};

/// The parts of a round with their amounts.
pub(crate) fn routes_of_round(
    alloc: Global,
    view: &View,
    ask: &Ask,
    round: &Round,
) -> Result<Vec<Route>, NoMemory>
    requires ask { IsGoodAsk ask.now }
    requires state { IsGoodState view.now ask.now (state_of round.now) }
    requires parts { AreGoodParts (instance_of view.now ask.now (state_of round.now)) round.now.size round.now.parts }
    ensures { IfOk result (λ rs. rs.items ≡ routes_of view.now ask.now (state_of round.now) round.now.parts) }
{
    let demand = ask.amount.div_ceil(round.unit);
    routes(alloc, view, ask, round.unit, demand, round.parts.as_slice())
}

/// The parts with their amounts; each delivers its units, and the last one less by what all units exceed the amount.
fn routes(
    alloc: Global,
    view: &View,
    ask: &Ask,
    unit: u64,
    demand: u64,
    parts: &[Part],
) -> Result<Vec<Route>, NoMemory>
    requires sum { sum_by (λ p. p.units) parts.now ≡ demand }
    requires some { All (λ p. 1 ≤ p.units) parts.now }
    requires low { ask.now.amount ≤ demand * unit }
    requires high { demand * unit < ask.now.amount + unit }
    requires unit { unit ≤ MAX }
    requires amount { ask.now.amount ≤ MAX }
    requires short { All (λ p. length p.path ≤ length view.now.nodes) parts.now }
    requires within { All (λ p. All (λ d. d < length view.now.dirs) p.path) parts.now }
    ensures { IfOk result (λ rs. rs.items ≡ routes_with view.now ask.now unit (demand * unit - ask.now.amount) parts.now) }
{
    let dirs = view.dirs();
    let excess = demand * unit - ask.amount;
    let mut routes = Vec::with_capacity(alloc, parts.len())?;
    for i in 0..parts.len() {
        let less = less_at(i, parts.len(), excess);
        let delivered = parts[i].units * unit - less;
        routes.push(route(
            alloc,
            dirs,
            parts[i].path.as_slice(),
            delivered,
            ask.final_cltv,
        )?)?;
    }
    Ok(routes)
}

/// What the part at this index delivers less.
fn less_at(i: usize, count: usize, excess: u64) -> u64
    requires { i < count }
    ensures { result ≡ cond (nat_eq (i + 1) count) excess 0 }
{
    if i + 1 == count { excess } else { 0 }
}

/// A path with its amounts.
fn route(
    alloc: Global,
    dirs: &[ViewDir],
    path: &[u32],
    delivered: u64,
    final_cltv: u16,
) -> Result<Route, NoMemory>
    requires within { All (λ d. d < length dirs.now) path.now }
    requires few { length path.now < 2 ^ 32 }
    requires delivered { delivered ≤ MAX }
    ensures { IfOk result (λ r. r ≡ record {
      delivered = delivered;
      path = path.now;
      hops = amounts_of (map (λ d. toll_of (slice_index_or dirs.now d no_dir)) path.now) delivered final_cltv;
    }) }
{
    let tolls = tolls_of(alloc, dirs, path)?;
    let hops = hops(alloc, &tolls, delivered, final_cltv)?;
    Ok(Route {
        delivered,
        path: Items::from_vec(Vec::from_slice(alloc, path)?),
        hops: Items::from_vec(hops),
    })
}

/// What each channel of the path asks for.
fn tolls_of(alloc: Global, dirs: &[ViewDir], path: &[u32]) -> Result<Vec<Toll>, NoMemory>
    requires { All (λ d. d < length dirs.now) path.now }
    ensures { IfOk result (λ ts. ts.items ≡ map (λ d. toll_of (slice_index_or dirs.now d no_dir)) path.now) }
{
    let mut tolls = Vec::with_capacity(alloc, path.len())?;
    for dir in path {
        tolls.push(toll(&dirs[*dir as usize]))?;
    }
    Ok(tolls)
}

/// What a channel asks for.
fn toll(dir: &ViewDir) -> Toll
    ensures { result ≡ toll_of dir.now }
{
    Toll {
        base: dir.base,
        ppm: dir.ppm,
        delay: dir.delay,
    }
}
