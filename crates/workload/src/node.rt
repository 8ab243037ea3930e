ghost use Rattle.std.specs.Prelude.{◌≡◌, ◌≤◌, ◌<◌, ℕ, string_bytes, IfOk};
ghost use Rattle.workload.specs.Node as nodes_of;

use plan_base::NoMemory;
use std::alloc::Global;

/// The text of a node's id.
#[tactic(auto, unfolding(crate::specs::Node::node_bytes))]
pub(crate) fn node_text(alloc: Global, node: u32) -> Result<String, NoMemory>
    ensures { IfOk result (λ text. string_bytes text ≡ nodes_of.node_text node) }
{
    let mut id = Vec::with_capacity(alloc, 33)?;
    id.push(2)?;
    id.extend_from_slice(&[0; 24])?;
    id.extend_from_slice(&(u64::from(node) + 1).to_be_bytes())?;
    Ok(hex::encode(alloc, id.as_slice())?)
}

/// A node other than this one, chosen by a number.
pub(crate) fn other_node(nodes: u32, node: u32, number: u32) -> u32
    requires some { 2 ≤ nodes }
    requires node { node < nodes }
    requires few { nodes ≤ 65536 }
    ensures value { result ≡ nodes_of.other_node nodes node number }
    ensures within { result < nodes }
{
    (node + 1 + number % (nodes - 1)) % nodes
}
