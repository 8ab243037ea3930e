ghost use Rattle.std.specs.Prelude.{ℕ, ◌≡◌, ◌<◌, ◌≤◌, ◌++◌, false, length, map, slice_index_or, IfOk};
ghost use Rattle.std.specs.List.{Contains, list_any};
ghost use Rattle.std.specs.List.Sorted.{IsStrictlySortedBy};
ghost use Rattle.std.specs.BTreeMap.{keys};
ghost use Rattle.std.specs.Ordering.{is_lt};
ghost use Rattle.std.specs.declared.cmp.Ordering.TheVariants.{Less};
ghost use Rattle.plan_base.specs.Dir.{Direction, same_dir, dir_order};
ghost use Rattle.view_build.specs.Disabled.{has_node};

use crate::disabled::has_node;
use crate::known::Known;
use layer::Update;
use plan_base::{Dir, NoMemory, NodeId};
use std::alloc::Global;
use std::collections::{BTreeMap, BTreeSet};

// The directions of which layers or reservations say anything, ascending.
pub(crate) fn affected_by(
    alloc: Global,
    given: &BTreeMap<Dir, Update>,
    known: &BTreeMap<Dir, Known>,
) -> Result<Vec<Dir>, NoMemory>
    ensures ascend { IfOk result (λ dirs. IsStrictlySortedBy dir_order dirs.items) }
    ensures all { IfOk result (λ dirs. (dir : Direction) → Contains (keys given.now ++ keys known.now) dir → Contains dirs.items dir) }
{
    let mut dirs = keys_of(alloc, given)?;
    let others = keys_of(alloc, known)?;
    dirs.extend_from_slice(&others)?;
    dirs.sort_unstable();
    dirs.dedup();
    Ok(dirs)
}

fn keys_of<V>(alloc: Global, map: &BTreeMap<Dir, V>) -> Result<Vec<Dir>, NoMemory>
    ensures { IfOk result (λ dirs. dirs.items ≡ keys map.now) }
{
    let dirs = map.keys().copied().collect(alloc)?;
    Ok(dirs)
}

// The first place, from another one on, of a direction that is not below `dir`.
pub(crate) fn seek(dirs: &[Dir], from: usize, dir: Dir) -> usize
    requires { from ≤ length dirs.now }
    ensures within { result ≤ length dirs.now }
    ensures passed { (k : ℕ) → from ≤ k → k < result → dir_order (slice_index_or dirs.now k dir) dir ≡ Less }
    ensures stops { result < length dirs.now → is_lt (dir_order (slice_index_or dirs.now result dir) dir) ≡ false }
{
    for at in from..dirs.len() {
        if dirs[at] >= dir {
            return at;
        }
    }
    dirs.len()
}

// Whether a direction is among ascending ones, of which all before a place are below it, and the one at the place is not.
pub(crate) fn is_at(dirs: &[Dir], at: usize, dir: Dir) -> bool
    requires ascend { IsStrictlySortedBy dir_order dirs.now }
    requires passed { (k : ℕ) → k < at → dir_order (slice_index_or dirs.now k dir) dir ≡ Less }
    requires stops { at < length dirs.now → is_lt (dir_order (slice_index_or dirs.now at dir) dir) ≡ false }
    ensures { result ≡ list_any (same_dir dir) dirs.now }
{
    if at < dirs.len() {
        return dirs[at] == dir;
    }
    false
}

// For each id a mark if it is among the nodes.
pub(crate) fn marks_of(
    alloc: Global,
    ids: &[NodeId],
    nodes: &BTreeSet<NodeId>,
) -> Result<Vec<bool>, NoMemory>
    ensures { IfOk result (λ marks. marks.items ≡ map (has_node nodes.now) ids.now) }
{
    let mut marks = Vec::with_capacity(alloc, ids.len())?;
    for id in ids {
        marks.push(has_node(nodes, id))?;
    }
    Ok(marks)
}
