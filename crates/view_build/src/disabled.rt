ghost use Rattle.std.specs.Prelude.{ℕ, ◌≡◌, ◌||◌, List, nat_eq, IfOk, OnOk};
ghost use Rattle.std.specs.List.{list_any};
ghost use Rattle.std.specs.Cmp.Lexicographic.{pointwise};
ghost use Rattle.view_build.specs.Rules.{is_disabled};
ghost use Rattle.view_build.specs.Disabled.{has_node};

use layer::Layer;
use plan_base::{NoMemory, NodeId};
use std::alloc::Global;
use std::collections::BTreeSet;

// The nodes that layers disable.
pub(crate) fn disabled_by(alloc: Global, layers: &[Layer]) -> Result<BTreeSet<NodeId>, NoMemory>
    ensures { IfOk result (λ nodes. (node : List ℕ) → has_node nodes node ≡ is_disabled node layers.now) }
{
    let mut nodes = BTreeSet::new(alloc);
    for layer in layers {
        add_nodes(&mut nodes, layer.disabled())?;
    }
    Ok(nodes)
}

fn add_nodes(nodes: &mut BTreeSet<NodeId>, disabled: &[NodeId]) -> Result<(), NoMemory>
    ensures { OnOk result ((node : List ℕ) → has_node nodes.new node ≡ (has_node nodes.old node || list_any (pointwise nat_eq node) disabled.now)) }
{
    for node in disabled {
        nodes.insert(*node)?;
    }
    Ok(())
}

pub(crate) fn has_node(nodes: &BTreeSet<NodeId>, node: &NodeId) -> bool
    ensures { result ≡ has_node nodes.now node.now }
{
    nodes.contains(node)
}
