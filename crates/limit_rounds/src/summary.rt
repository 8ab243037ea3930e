ghost use Rattle.std.specs.Prelude.{◌≡◌, IfOk};
ghost use Rattle.layer.specs.Ask.{IsGoodAsk};
ghost use Rattle.round_rules.specs.State.{IsGoodState, state_of};
ghost use Rattle.round_rules.specs.Instance.{instance_of};
ghost use Rattle.round_rules.specs.Parts.{AreGoodParts};
ghost use Rattle.round_rules.specs.Amounts.{carried, fees_of, routes_of, total_on};
ghost use Rattle.round_rules.specs.Faults.{fault_of};
ghost use Rattle.round_rules.specs.Chance.{probability_of};
ghost use Rattle.round_rules.specs.declared.round.Fault.TheVariants.{None};

use crate::chance::probability;
use crate::fault::fee_sum;
use crate::loads::loads;
use crate::routes::routes_of_round;
use layer::Ask;
use plan_base::NoMemory;
use round_rules::{Round, Route};
use std::alloc::Global;
use view_build::View;

/// The routes of a round without a fault, the sum of their fees in msat, and how likely it is, in millionths, that all
/// directions hold what is carried over them.
pub fn round_routes(
    alloc: Global,
    view: &View,
    ask: &Ask,
    round: &Round,
) -> Result<(Vec<Route>, u128, u64), NoMemory>
    requires ask { IsGoodAsk ask.now }
    requires state { IsGoodState view.now ask.now (state_of round.now) }
    requires parts { AreGoodParts (instance_of view.now ask.now (state_of round.now)) round.now.size round.now.parts }
    requires fault { fault_of view.now ask.now (state_of round.now) round.now.parts ≡ None }
    ensures routes { IfOk result (λ r. r.0.items ≡ routes_of view.now ask.now (state_of round.now) round.now.parts) }
    ensures fee { IfOk result (λ r. r.1 ≡ fees_of (routes_of view.now ask.now (state_of round.now) round.now.parts)) }
    ensures ppm { IfOk result (λ r. r.2 ≡ probability_of (λ dir. total_on dir (carried (routes_of view.now ask.now (state_of round.now) round.now.parts))) view.now.dirs) }
{
    let dirs = view.dirs();
    let routes = routes_of_round(alloc, view, ask, round)?;
    let loads = loads(alloc, dirs.len(), &routes)?;
    let ppm = probability(dirs, &loads);
    let fee = fee_sum(&routes);
    Ok((routes, fee, ppm))
}
