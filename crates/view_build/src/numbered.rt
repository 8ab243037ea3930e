ghost use Rattle.std.specs.Prelude.{ℕ, ◌≡◌, ◌*◌, ◌^◌, ◌<◌, ◌≤◌, ◌++◌, ◌∷◌, [], List, length, map, cond, All, IfOk, OnOk};
ghost use Rattle.std.specs.List.{Contains, count_by};
ghost use Rattle.std.specs.List.Sorted.{IsStrictlySortedBy};
ghost use Rattle.std.specs.Ordering.{nat_cmp};
ghost use Rattle.std.specs.Cmp.Lexicographic.{slice_cmp};
ghost use Rattle.view_build.specs.View.{IsGoodViewDir};
ghost use Rattle.view_build.specs.Built.{named_direction};
ghost use Rattle.view_build.specs.Ends.{AreUsed, HasEnd};
ghost use Rattle.view_build.specs.Ranked.{AreRanked, is_set, with_ranks};

use crate::ViewDir;
use plan_base::{NoMemory, NodeId};
use std::alloc::Global;

// The nodes that directions touch, and the directions with their places among these.
#[derive(Drop)]
pub(crate) struct Numbered {
    pub(crate) nodes: Vec<NodeId>,
    pub(crate) dirs: Vec<ViewDir>,
}

// Leaves out the nodes that no direction touches.
pub(crate) fn number_dirs(
    alloc: Global,
    ids: &[NodeId],
    dirs: Vec<ViewDir>,
) -> Result<Numbered, NoMemory>
    requires ascend { IsStrictlySortedBy (slice_cmp nat_cmp) ids.now }
    requires few { length ids.now < 2 ^ 32 }
    requires good { All (IsGoodViewDir (length ids.now)) dirs.items }
    ensures ascend { IfOk result (λ n. IsStrictlySortedBy (slice_cmp nat_cmp) n.nodes.items) }
    ensures few { IfOk result (λ n. length n.nodes.items ≤ 2 * length dirs.items) }
    ensures all { IfOk result (λ n. (node : List ℕ) → HasEnd ids.now dirs.items node → Contains n.nodes.items node) }
    ensures only { IfOk result (λ n. All (HasEnd ids.now dirs.items) n.nodes.items) }
    ensures dirs { IfOk result (λ n. map (named_direction n.nodes.items) n.dirs.items ≡ map (named_direction ids.now) dirs.items) }
    ensures good { IfOk result (λ n. All (IsGoodViewDir (length n.nodes.items)) n.dirs.items) }
{
    let used = used_places(alloc, ids.len(), &dirs)?;
    let Ranked { nodes, ranks } = rank_nodes(alloc, ids, &used)?;
    let dirs = renumbered(dirs, &ranks);
    Ok(Numbered { nodes, dirs })
}

// A mark for each of so many places: whether a direction begins or ends there.
fn used_places(alloc: Global, places: usize, dirs: &[ViewDir]) -> Result<Vec<bool>, NoMemory>
    requires { All (IsGoodViewDir places) dirs.now }
    ensures used { IfOk result (λ used. AreUsed dirs.now used.items) }
    ensures places { IfOk result (λ used. length used.items ≡ places) }
    ensures few { IfOk result (λ used. count_by is_set used.items ≤ 2 * length dirs.now) }
{
    let mut used = Vec::from_elem(alloc, false, places)?;
    for d in dirs {
        used[d.from as usize] = true;
        used[d.to as usize] = true;
    }
    Ok(used)
}

// The marked nodes, and for each node how many marked ones are before it.
#[derive(Drop)]
struct Ranked {
    nodes: Vec<NodeId>,
    ranks: Vec<u32>,
}

fn rank_nodes(alloc: Global, ids: &[NodeId], used: &[bool]) -> Result<Ranked, NoMemory>
    requires ascend { IsStrictlySortedBy (slice_cmp nat_cmp) ids.now }
    requires few { length ids.now < 2 ^ 32 }
    requires marks { length used.now ≡ length ids.now }
    ensures ranked { IfOk result (λ r. AreRanked ids.now used.now r.nodes.items r.ranks.items) }
    ensures ranks { IfOk result (λ r. length r.ranks.items ≡ length ids.now) }
{
    let mut nodes = Vec::with_capacity(alloc, ids.len())?;
    let mut ranks = Vec::with_capacity(alloc, ids.len())?;
    for place in 0..ids.len() {
        ranks.push(nodes.len() as u32)?;
        push_marked(&mut nodes, ids[place], used[place])?;
    }
    Ok(Ranked { nodes, ranks })
}

fn push_marked(nodes: &mut Vec<NodeId>, id: NodeId, marked: bool) -> Result<(), NoMemory>
    ensures { OnOk result (nodes.new.items ≡ nodes.old.items ++ cond marked (id ∷ []) []) }
{
    if marked {
        nodes.push(id)?;
        return Ok(());
    }
    Ok(())
}

fn renumbered(mut dirs: Vec<ViewDir>, ranks: &[u32]) -> Vec<ViewDir>
    requires { All (IsGoodViewDir (length ranks.now)) dirs.items }
    ensures { result.items ≡ map (with_ranks ranks.now) dirs.items }
{
    for i in 0..dirs.len() {
        dirs[i] = renumber(dirs[i], ranks);
    }
    dirs
}

fn renumber(d: ViewDir, ranks: &[u32]) -> ViewDir
    requires { IsGoodViewDir (length ranks.now) d }
    ensures { result ≡ with_ranks ranks.now d }
{
    ViewDir {
        from: ranks[d.from as usize],
        to: ranks[d.to as usize],
        ..d
    }
}
