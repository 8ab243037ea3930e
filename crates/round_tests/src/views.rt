ghost use Rattle.std.specs.Prelude.{◌≡◌, ◌+◌, ◌*◌, ◌<◌, ◌≤◌, ◌^◌, IfOk, IfSome, length};
ghost use Rattle.layer.specs.Ask.{IsGoodAsk};
ghost use Rattle.view_build.specs.View.{IsGoodViewDir};
ghost use Rattle.round_tests.specs.Channels.{AreGoodDirs, scid_at};

use crate::expected::{Channel, Row};
use layer::Ask;
use plan_base::{Dir, Items, MAX, NoMemory, NodeId, Scid};
use std::alloc::Global;
use view_build::{View, ViewDir};

/// The view of a row, if its numbers are in range. Each node has the same id, since plans do not look at ids.
pub(crate) fn view_of(alloc: Global, row: &Row, node: NodeId) -> Result<Option<View>, NoMemory> {
    if row.channels.len() > 100 || row.nodes > 2 * row.channels.len() || row.nodes < 2 {
        return Ok(None);
    }
    if row.maxparts < 1 || row.maxparts > 100 {
        return Ok(None);
    }
    let nodes = nodes_of(alloc, node, row.nodes)?;
    match dirs_of(alloc, row.channels, row.nodes)? {
        Some(dirs) => Ok(Some(View::new(nodes, dirs, 0, row.nodes as u32 - 1, row.maxparts))),
        None => Ok(None),
    }
}

/// So many nodes.
fn nodes_of(alloc: Global, node: NodeId, count: usize) -> Result<Vec<NodeId>, NoMemory>
    ensures { IfOk result (λ nodes. length nodes.items ≡ count) }
{
    let mut nodes = Vec::new(alloc);
    for _ in 0..count {
        nodes.push(node)?;
    }
    Ok(nodes)
}

/// The directions of channels, ascending, if their numbers are in range.
fn dirs_of(
    alloc: Global,
    channels: &[Channel],
    nodes: usize,
) -> Result<Option<Vec<ViewDir>>, NoMemory>
    requires { length channels.now ≤ 100 }
    ensures long { IfOk result (λ found. IfSome found (λ dirs. length dirs.items ≡ length channels.now)) }
    ensures good { IfOk result (λ found. IfSome found (λ dirs. AreGoodDirs nodes 0 dirs.items)) }
{
    let mut dirs = Vec::new(alloc);
    for i in 0..channels.len() {
        let Some(scid) = scid_of(i as u32) else {
            return Ok(None);
        };
        let Some(dir) = dir_of(scid, channels[i], nodes) else {
            return Ok(None);
        };
        dirs.push(dir)?;
    }
    Ok(Some(dirs))
}

/// The id of a channel by its index.
#[tactic(auto, unfolding(plan_base::specs::Scid::scid_new))]
fn scid_of(index: u32) -> Option<Scid>
    ensures { IfSome result (λ scid. scid ≡ scid_at index) }
{
    Scid::new(100, index, 0)
}

/// The direction of a channel, if its numbers are in range.
fn dir_of(scid: Scid, channel: Channel, nodes: usize) -> Option<ViewDir>
    ensures dir { IfSome result (λ d. d.dir ≡ record { scid = scid; side = 0 }) }
    ensures good { IfSome result (λ d. IsGoodViewDir nodes d) }
{
    if channel.from as usize >= nodes
        || channel.to as usize >= nodes
        || channel.from == channel.to
    {
        return None;
    }
    if channel.max > MAX || channel.htlc_min > MAX || channel.htlc_max > MAX {
        return None;
    }
    Some(ViewDir {
        dir: Dir { scid, side: 0 },
        from: channel.from,
        to: channel.to,
        min: 0,
        max: channel.max,
        htlc_min: channel.htlc_min,
        htlc_max: channel.htlc_max,
        base: channel.base,
        ppm: channel.ppm,
        delay: channel.delay,
        bias: 0,
    })
}

/// The ask of a row, if its numbers are in range.
pub(crate) fn ask_of(alloc: Global, row: &Row, source: NodeId, destination: NodeId) -> Option<Ask>
    ensures { IfSome result (λ ask. IsGoodAsk ask) }
{
    if source == destination || row.amount < 1 || row.amount > MAX {
        return None;
    }
    if row.maxfee > MAX || row.maxparts < 1 || row.maxparts > 100 {
        return None;
    }
    Some(Ask {
        source,
        destination,
        amount: row.amount,
        layers: Items::new(alloc),
        maxfee: row.maxfee,
        final_cltv: 18,
        maxdelay: row.maxdelay,
        maxparts: row.maxparts,
        certificate: false,
    })
}
