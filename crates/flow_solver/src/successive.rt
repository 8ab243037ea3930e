ghost use Rattle.std.specs.Prelude.{◌≡◌, ◌<◌, ◌≤◌, All, IfOk, List, length, pos, replicate, ℕ};
ghost use Rattle.flow_model.specs.Flow.{IsCheapest, IsFeasible, IsFilledInOrder};
ghost use Rattle.flow_model.specs.Potentials.{IsSmall, ShowsCheapest};
ghost use Rattle.flow_model.specs.Side.{Cuts};
ghost use Rattle.flow_model.specs.Solved.{IfCut, IfFlow};
ghost use Rattle.flow_solver.specs.Search.{IsPartialSolution};

use crate::flow_net::FlowNet;
use flow_model::{Flow, Instance, Solved};
use plan_base::{Items, NoMemory};
use std::alloc::Global;

/// What one more search leads to.
#[derive(Drop)]
pub(crate) enum Augmented {
    /// This many units are sent now.
    Sent { units: u64 },
    /// No path is left. For each node whether it is on the side of the source.
    Cut { side: Vec<bool> },
}

/// A search for a cheapest path from the source to the destination over the arcs' rooms.
pub(crate) trait Augment {
    ghost use Rattle.residual_net.specs.Residual.{ResidualNet};
    ghost use Rattle.flow_solver.specs.Augmented.{IfCutOff, IfSent};
    ghost use Rattle.std.specs.Prelude.{ℤ, List};

    ghost fits: { Self → ResidualNet → Type 0 };

    // the potentials that show the flow so far
    ghost shown: { Self → List ℤ };

    /// The potentials that show the flow so far, one for each node.
    fn potentials(&self, alloc: Global) -> Result<Vec<i128>, NoMemory>
        ensures { IfOk result (λ p. p.items ≡ shown self.now) };

    /// Sends more units along a cheapest path, and changes the potentials so that they show the new flow; or finds that
    /// no path is left.
    fn augment(
        &mut self,
        alloc: Global,
        instance: &Instance,
        residual: &mut FlowNet,
        sent: u64,
    ) -> Result<Augmented, NoMemory>
        requires fits { fits self.old residual.old }
        requires net { residual.old.net ≡ instance.now }
        requires less { sent < instance.now.demand }
        requires partial { IsPartialSolution residual.old (shown self.old) sent }
        ensures fits { IfOk result (λ r. IfSent r (λ n. fits self.new residual.new)) }
        ensures more { IfOk result (λ r. IfSent r (λ n. sent < n)) }
        ensures most { IfOk result (λ r. IfSent r (λ n. n ≤ instance.now.demand)) }
        ensures partial { IfOk result (λ r. IfSent r (λ n. IsPartialSolution residual.new (shown self.new) n)) }
        ensures net { IfOk result (λ r. IfSent r (λ n. residual.new.net ≡ residual.old.net)) }
        ensures cuts { IfOk result (λ r. IfCutOff r (λ side. Cuts instance.now side)) };
}

/// Sends units along one cheapest path after another until the demand is met, or until no path is left.
pub(crate) fn solve_by<A: Augment>(
    search: &mut A,
    alloc: Global,
    instance: &Instance,
) -> Result<Solved, NoMemory>
    requires fits { A.fits search.old (record { net = instance.now; flow = replicate (length instance.now.arcs) 0 }) }
    requires flat { A.shown search.old ≡ replicate instance.now.nodes (pos 0) }
    ensures cheapest { IfOk result (λ s. IfFlow s (λ flow p. IsCheapest instance.now flow)) }
    ensures in_order { IfOk result (λ s. IfFlow s (λ flow p. IsFilledInOrder instance.now flow)) }
    ensures shown { IfOk result (λ s. IfFlow s (λ flow p. ShowsCheapest instance.now flow p)) }
    ensures small { IfOk result (λ s. IfFlow s (λ flow p. All IsSmall p)) }
    ensures cuts { IfOk result (λ s. IfCut s (λ side. Cuts instance.now side)) }
    ensures no_flow { IfOk result (λ s. IfCut s (λ side. (flow : List ℕ) → IsFeasible instance.now flow → ⊥)) }
{
    let demand = instance.demand();
    let mut residual = FlowNet::open(alloc, instance)?;
    let mut sent = 0;
    while sent < demand {
        let found = search.augment(alloc, instance, &mut residual, sent)?;
        match found {
            Augmented::Sent { units } => sent = units,
            Augmented::Cut { side } => {
                return Ok(Solved::Cut {
                    side: Items::from_vec(side),
                });
            }
        }
    }
    let flow = Flow::from_vec(Vec::from_slice(alloc, residual.flow())?);
    Ok(Solved::Flow {
        flow,
        potentials: Items::from_vec(search.potentials(alloc)?),
    })
}
