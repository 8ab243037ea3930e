ghost use Rattle.std.specs.Prelude.{◌≡◌, ◌<◌, IfOk, length, map, nat_lt, replicate, set};
ghost use Rattle.flow_solver.specs.declared.labels.TheConstants.{UNREACHED};

use flow_model::Instance;
use plan_base::NoMemory;
use std::alloc::Global;

/// The label of a node that a search does not reach: 10^30, above the label of any node that it reaches.
pub(crate) const UNREACHED: u128 = 1_000_000_000_000_000_000_000_000_000_000;

/// For each node its label, and the step by which the search reached it.
#[derive(Debug, Drop)]
pub(crate) struct SearchTree {
    pub(crate) labels: Vec<u128>,
    pub(crate) parents: Vec<(u32, bool)>,
}

/// The tree that reaches the source and no other node.
pub(crate) fn first_tree(alloc: Global, instance: &Instance) -> Result<SearchTree, NoMemory>
    ensures labels { IfOk result (λ t. t.labels.items ≡ set (replicate instance.now.nodes UNREACHED) instance.now.source 0) }
    ensures parents { IfOk result (λ t. length t.parents.items ≡ instance.now.nodes) }
{
    let mut labels = Vec::from_elem(alloc, UNREACHED, instance.nodes() as usize)?;
    labels[instance.source() as usize] = 0;
    let parents = Vec::from_elem(alloc, (0, false), instance.nodes() as usize)?;
    Ok(SearchTree { labels, parents })
}

/// Whether the label is that of a reached node.
pub(crate) fn is_reached(label: u128) -> bool
    ensures { result ≡ nat_lt label UNREACHED }
{
    label < UNREACHED
}

/// For each node whether its label says that it is reached.
pub(crate) fn reached_nodes(alloc: Global, labels: &[u128]) -> Result<Vec<bool>, NoMemory>
    ensures { IfOk result (λ side. side.items ≡ map (λ label. nat_lt label UNREACHED) labels.now) }
{
    let mut side = Vec::with_capacity(alloc, labels.len())?;
    for label in labels {
        side.push(is_reached(*label))?;
    }
    Ok(side)
}
