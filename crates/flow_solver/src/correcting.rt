ghost use Rattle.std.specs.Prelude.{◌≡◌, ◌<◌, ℕ, Bool, IfOk, IsFalse, IsTrue, length};
ghost use Rattle.residual_net.specs.Residual.{IsResidualNet};
ghost use Rattle.flow_solver.specs.declared.labels.TheConstants.{UNREACHED};
ghost use Rattle.flow_solver.specs.Search.{HasBoundedPotentials, IsFlowShown, IsNextOfDirection, IsRelaxedTo, IsSearchResult, IsSearchTree, IsSettledBelow, sum_of_labels};

use crate::advance::advance;
use crate::flow_net::FlowNet;
use crate::labels::{SearchTree, UNREACHED, first_tree, is_reached, reached_nodes};
use crate::steps::try_step;
use crate::successive::{Augment, Augmented, solve_by};
use flow_model::{Instance, Solve, Solved};
use plan_base::NoMemory;
use std::alloc::Global;

/// Successive shortest paths with label correcting: each search passes over all arcs until no step lowers a label
/// (Bellman 1958; Ford 1956).
///
/// A search takes time in proportion to nodes times arcs, and no memory beside the tree. Prefer it for very small
/// networks, and as the simplest solver to read; prefer `Keeping` for all others.
#[derive(Clone, Copy, Debug)]
pub struct Correcting;

/// Lowers labels by the steps over an arc; whether any was lowered.
fn try_arc(
    residual: &FlowNet,
    potentials: &[i128],
    labels: &mut [u128],
    parents: &mut [(u32, bool)],
    i: u32,
) -> bool
    requires known { i < length residual.now.net.arcs }
    requires bounded { HasBoundedPotentials residual.now.net potentials.now }
    requires shown { IsFlowShown residual.now potentials.now }
    requires tree { IsSearchTree residual.now potentials.now labels.old parents.old }
    ensures tree { IsSearchTree residual.now potentials.now labels.new parents.new }
    ensures less { IsTrue result → sum_of_labels labels.new < sum_of_labels labels.old }
    ensures same { IsFalse result → labels.new ≡ labels.old }
    ensures relaxed { IsFalse result → (back : Bool) → IsNextOfDirection residual.now.net.arcs residual.now.flow i back → IsRelaxedTo residual.now.net.arcs potentials.now labels.old UNREACHED i back }
{
    let forward = try_step(residual, potentials, labels, parents, i, false, UNREACHED);
    let backward = try_step(residual, potentials, labels, parents, i, true, UNREACHED);
    forward || backward
}

/// Lowers labels by the steps over each arc; whether any was lowered.
fn pass(
    residual: &FlowNet,
    potentials: &[i128],
    labels: &mut [u128],
    parents: &mut [(u32, bool)],
) -> bool
    requires bounded { HasBoundedPotentials residual.now.net potentials.now }
    requires shown { IsFlowShown residual.now potentials.now }
    requires tree { IsSearchTree residual.now potentials.now labels.old parents.old }
    ensures tree { IsSearchTree residual.now potentials.now labels.new parents.new }
    ensures less { IsTrue result → sum_of_labels labels.new < sum_of_labels labels.old }
    ensures settled { IsFalse result → (bound : ℕ) → IsSettledBelow residual.now potentials.now labels.new bound }
{
    let mut changed = false;
    for i in 0..residual.arcs().len() as u32 {
        if try_arc(residual, potentials, labels, parents, i) {
            changed = true;
        }
    }
    changed
}

/// Lowers labels until no step lowers one.
fn correct(
    residual: &FlowNet,
    potentials: &[i128],
    labels: &mut [u128],
    parents: &mut [(u32, bool)],
)
    requires bounded { HasBoundedPotentials residual.now.net potentials.now }
    requires shown { IsFlowShown residual.now potentials.now }
    requires tree { IsSearchTree residual.now potentials.now labels.old parents.old }
    ensures { IsSearchResult residual.now potentials.now labels.new parents.new }
{
    while pass(residual, potentials, labels, parents) {}
}

/// A tree whose labels no step can lower below the label of the destination.
fn search_by_passes(
    alloc: Global,
    instance: &Instance,
    residual: &FlowNet,
    potentials: &[i128],
) -> Result<SearchTree, NoMemory>
    requires net { residual.now.net ≡ instance.now }
    requires residual { IsResidualNet residual.now }
    requires bounded { HasBoundedPotentials residual.now.net potentials.now }
    requires shown { IsFlowShown residual.now potentials.now }
    ensures { IfOk result (λ t. IsSearchResult residual.now potentials.now t.labels.items t.parents.items) }
{
    let mut tree = first_tree(alloc, instance)?;
    correct(residual, potentials, &mut tree.labels, &mut tree.parents);
    Ok(tree)
}

/// A search by passes over all arcs, with the potentials that show the flow so far.
#[derive(Debug, Drop)]
struct CorrectingSearch {
    potentials: Vec<i128>,
}

impl Augment for CorrectingSearch {
    ghost fits = { λ s residual. Unit {0} };

    ghost shown = { λ s. s.potentials.items };

    fn potentials(&self, alloc: Global) -> Result<Vec<i128>, NoMemory> {
        Ok(Vec::from_slice(alloc, &self.potentials)?)
    }

    fn augment(
        &mut self,
        alloc: Global,
        instance: &Instance,
        residual: &mut FlowNet,
        sent: u64,
    ) -> Result<Augmented, NoMemory> {
        let found = search_by_passes(alloc, instance, residual, &self.potentials)?;
        if !is_reached(found.labels[instance.destination() as usize]) {
            let side = reached_nodes(alloc, &found.labels)?;
            return Ok(Augmented::Cut { side });
        }
        let units = advance(
            alloc,
            instance,
            residual,
            &mut self.potentials,
            &found.labels,
            &found.parents,
            sent,
        )?;
        Ok(Augmented::Sent { units })
    }
}

impl Solve for Correcting {
    fn solve(&self, alloc: Global, instance: &Instance) -> Result<Solved, NoMemory> {
        let potentials = Vec::from_elem(alloc, 0, instance.nodes() as usize)?;
        solve_by(&mut CorrectingSearch { potentials }, alloc, instance)
    }
}
