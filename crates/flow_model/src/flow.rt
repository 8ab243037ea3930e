ghost use Rattle.std.specs.Prelude.{◌≡◌, ◌<◌, ◌≤◌, ◌*◌, ◌^◌, ℕ, All, IfOk, length, slice_index, sum_by, zip};
ghost use Rattle.flow_model.specs.Flow.{Fits, IsFilledInOrder, cost_of, flow_of, room_of, units_of, loads};

use crate::{Arc, Instance};
use plan_base::NoMemory;
use std::alloc::Global;
use std::marker::Model;

/// Units for each arc of an instance, seen as a list of numbers.
#[derive(Debug, Drop)]
pub struct Flow {
    units: Vec<u64>,
}

impl Model for Flow {
    ghost use Rattle.std.specs.Prelude.{ℕ, List};

    ghost Value = { List ℕ };

    ghost view = { λ f. f.units.items };
}

impl Flow {
    /// The flow with these units. No memory is taken.
    pub fn from_vec(units: Vec<u64>) -> Flow
        ensures { result ≡ units.items }
    {
        Flow { units }
    }

    /// The units of each arc.
    pub fn list(&self) -> &[u64]
        ensures { result.now ≡ self.now }
    {
        self.units.as_slice()
    }
}

/// What a flow costs: the sum over the arcs of units times cost.
#[tactic(auto, using(crate::proofs::Costs::cost_fits))]
pub fn cost(instance: &Instance, flow: &Flow) -> u128
    requires long { length flow.now ≡ length instance.now.arcs }
    requires fits { Fits instance.now flow.now }
    ensures { result ≡ cost_of instance.now flow.now }
{
    sum_of_costs(instance.arcs(), flow.list())
}

/// The sum of units times cost.
fn sum_of_costs(arcs: &[Arc], units: &[u64]) -> u128
    requires { sum_by (λ (l : Arc × ℕ). l.1 * l.0.cost) (zip arcs.now units.now) < 2 ^ 128 }
    ensures { result ≡ sum_by (λ (l : Arc × ℕ). l.1 * l.0.cost) (zip arcs.now units.now) }
{
    arcs.iter()
        .zip(units)
        .map(|(arc, units)| u128::from(*units) * u128::from(arc.cost))
        .sum()
}

/// The flow that fills each direction's units into its arcs in order. `units` has a number for each direction.
pub fn fill(alloc: Global, instance: &Instance, units: &[u64]) -> Result<Flow, NoMemory>
    requires known { All (λ a. a.dir < length units.now) instance.now.arcs }
    requires room { (d : ℕ) → d < length units.now → slice_index units.now d ≤ room_of d instance.now.arcs }
    ensures value { IfOk result (λ f. f ≡ flow_of (slice_index units.now) instance.now.arcs) }
    ensures long { IfOk result (λ f. length f ≡ length instance.now.arcs) }
    ensures fits { IfOk result (λ f. Fits instance.now f) }
    ensures in_order { IfOk result (λ f. IsFilledInOrder instance.now f) }
    ensures units { IfOk result (λ f. (d : ℕ) → d < length units.now → units_of d (loads instance.now f) ≡ slice_index units.now d) }
{
    let units = fill_arcs(alloc, instance.arcs(), units)?;
    Ok(Flow { units })
}

/// The units of each arc.
fn fill_arcs(alloc: Global, arcs: &[Arc], units: &[u64]) -> Result<Vec<u64>, NoMemory>
    requires { All (λ a. a.dir < length units.now) arcs.now }
    ensures { IfOk result (λ f. f.items ≡ flow_of (slice_index units.now) arcs.now) }
{
    let mut left = Vec::from_slice(alloc, units)?;
    let mut flow = Vec::with_capacity(alloc, arcs.len())?;
    for arc in arcs {
        let dir = arc.dir as usize;
        let given = arc.room.min(left[dir]);
        left[dir] -= given;
        flow.push(given)?;
    }
    Ok(flow)
}
