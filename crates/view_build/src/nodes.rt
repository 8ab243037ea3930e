ghost use Rattle.std.specs.Prelude.{ℕ, ◌≡◌, ◌^◌, ◌<◌, length};
ghost use Rattle.std.specs.List.{Contains};
ghost use Rattle.std.specs.List.Sorted.{IsStrictlySortedBy};
ghost use Rattle.std.specs.Ordering.{nat_cmp};
ghost use Rattle.std.specs.Cmp.Lexicographic.{slice_cmp};
ghost use Rattle.view_build.specs.Ends.{IsFound, IsPlace};

use plan_base::NodeId;

// The place of a node, if it is among the nodes.
pub(crate) fn find(nodes: &[NodeId], node: &NodeId) -> Option<u32>
    requires ascend { IsStrictlySortedBy (slice_cmp nat_cmp) nodes.now }
    requires few { length nodes.now < 2 ^ 32 }
    ensures { IsFound nodes.now node.now result }
{
    match nodes.binary_search(node) {
        Ok(place) => Some(place as u32),
        Err(_) => None,
    }
}

// The place of a node that is among the nodes.
pub(crate) fn place_of(nodes: &[NodeId], node: &NodeId) -> u32
    requires ascend { IsStrictlySortedBy (slice_cmp nat_cmp) nodes.now }
    requires few { length nodes.now < 2 ^ 32 }
    requires among { Contains nodes.now node.now }
    ensures { IsPlace nodes.now node.now result }
{
    find(nodes, node).unwrap()
}
