ghost use Rattle.std.specs.Prelude.{◌≡◌, ◌<◌, ◌≤◌, ◌-◌, ◌+ℤ◌, ℕ, map, nat_lt, IfOk, OnErr, OnOk, length, replicate, set, slice_index, slice_index_or, pos};
ghost use Rattle.flow_solver.specs.declared.labels.TheConstants.{UNREACHED};
ghost use Rattle.flow_solver.specs.declared.node_potentials.TheConstants.{REACH_MAX};
ghost use Rattle.flow_solver.specs.NodeLabels as words;
ghost use Rattle.flow_solver.specs.NodeLabels.{IsListed, labels_of};
ghost use Rattle.flow_solver.specs.NodePotentials.{IsMoved, IsWithin, move_of};

use crate::labels::{UNREACHED, is_reached, reached_nodes};
use plan_base::NoMemory;
use std::alloc::Global;
use std::marker::Model;

/// The labels of all nodes: in 64 bits, where the greatest number stands for `UNREACHED`, as long as every other label is
/// below it; from the first greater label on in 128 bits.
#[derive(Drop)]
pub(crate) enum LabelRow {
    Short(Vec<u64>),
    Long(Vec<u128>),
}

/// For each node its label, `UNREACHED` at first. The nodes whose labels fell since are listed, so that clearing takes
/// time only for those.
#[derive(Drop)]
pub(crate) struct NodeLabels {
    row: LabelRow,
    lowered: Vec<u32>,
}

impl Model for NodeLabels {
    ghost use Rattle.std.specs.Prelude.{ℕ, List};
    ghost use Rattle.flow_solver.specs.NodeLabels.{IsListed, labels_of};

    ghost Value = { List ℕ };

    ghost view = { λ l. labels_of l.row };

    ghost invariant = { λ l. IsListed (labels_of l.row) l.lowered.items };
}

/// Labels of nodes none of which is reached.
pub(crate) fn no_labels(alloc: Global, nodes: u32) -> Result<NodeLabels, NoMemory>
    ensures { IfOk result (λ l. l ≡ replicate nodes UNREACHED) }
{
    Ok(NodeLabels {
        row: LabelRow::Short(Vec::from_elem(alloc, u64::MAX, nodes as usize)?),
        lowered: Vec::new(alloc),
    })
}

/// The label that a number of 64 bits stands for.
#[inline(always)]
fn widened(number: u64) -> u128
    ensures { result ≡ words.widened number }
{
    if number < u64::MAX {
        u128::from(number)
    } else {
        UNREACHED
    }
}

/// The labels that these numbers stand for.
fn widened_row(alloc: Global, numbers: &[u64]) -> Result<Vec<u128>, NoMemory>
    ensures { IfOk result (λ labels. labels.items ≡ map words.widened numbers.now) }
{
    let mut labels = Vec::with_capacity(alloc, numbers.len())?;
    for number in numbers {
        labels.push(widened(*number))?;
    }
    Ok(labels)
}

/// The label of a node.
#[inline(always)]
fn label_of(row: &LabelRow, node: u32) -> u128
    requires { node < length (labels_of row.now) }
    ensures { result ≡ slice_index (labels_of row.now) node }
{
    match row {
        LabelRow::Short(numbers) => widened(numbers[node as usize]),
        LabelRow::Long(labels) => labels[node as usize],
    }
}

/// Gives a node a label; the row has 128 bits then if the label has no room in 64.
fn set_label(row: &mut LabelRow, node: u32, label: u128) -> Result<(), NoMemory>
    requires { node < length (labels_of row.old) }
    ensures set { OnOk result (labels_of row.new ≡ set (labels_of row.old) node label) }
    ensures same { OnErr result (labels_of row.new ≡ labels_of row.old) }
{
    match row {
        LabelRow::Short(numbers) => {
            if label < u128::from(u64::MAX) {
                numbers[node as usize] = label as u64;
                return Ok(());
            }
            let mut labels = widened_row(*numbers.allocator(), numbers)?;
            labels[node as usize] = label;
            *row = LabelRow::Long(labels);
            Ok(())
        }
        LabelRow::Long(labels) => {
            labels[node as usize] = label;
            Ok(())
        }
    }
}

/// Takes a node's label away.
fn clear_label(row: &mut LabelRow, node: u32)
    requires { node < length (labels_of row.old) }
    ensures { labels_of row.new ≡ set (labels_of row.old) node UNREACHED }
{
    match row {
        LabelRow::Short(numbers) => numbers[node as usize] = u64::MAX,
        LabelRow::Long(labels) => labels[node as usize] = UNREACHED,
    }
}

/// Takes the labels of the listed nodes away.
fn clear_listed(row: &mut LabelRow, lowered: &[u32])
    requires { IsListed (labels_of row.old) lowered.now }
    ensures { labels_of row.new ≡ replicate (length (labels_of row.old)) UNREACHED }
{
    for node in lowered {
        clear_label(row, *node);
    }
}

/// A number moved up or down by as much as the label is below the bound.
fn moved(number: i64, label: u128, bound: u64, up: bool) -> i64
    requires number { IsWithin number REACH_MAX }
    requires bound { bound ≤ REACH_MAX }
    ensures { result ≡ number +ℤ move_of bound up label }
{
    let rise = (u128::from(bound) - label.min(u128::from(bound))) as i64;
    if up { number + rise } else { number - rise }
}

/// Moves the numbers of the listed nodes by their labels, and takes those labels away.
fn drain_listed(row: &mut LabelRow, lowered: &[u32], numbers: &mut [i64], bound: u64, up: bool)
    requires listed { IsListed (labels_of row.old) lowered.now }
    requires long { length numbers.old ≡ length (labels_of row.old) }
    requires within { (v : ℕ) → IsWithin (slice_index_or numbers.old v (pos 0)) (REACH_MAX - bound) }
    requires bound { bound ≤ REACH_MAX }
    ensures moved { IsMoved numbers.old numbers.new (labels_of row.old) bound up }
    ensures cleared { labels_of row.new ≡ replicate (length (labels_of row.old)) UNREACHED }
{
    for node in lowered {
        let label = label_of(row, *node);
        numbers[*node as usize] = moved(numbers[*node as usize], label, bound, up);
        clear_label(row, *node);
    }
}

/// For each node whether it is reached.
fn reached_of(alloc: Global, row: &LabelRow) -> Result<Vec<bool>, NoMemory>
    ensures { IfOk result (λ side. side.items ≡ map (λ label. nat_lt label UNREACHED) (labels_of row.now)) }
{
    match row {
        LabelRow::Short(numbers) => reached_nodes(alloc, &widened_row(alloc, numbers)?),
        LabelRow::Long(labels) => reached_nodes(alloc, labels),
    }
}

impl NodeLabels {
    /// How many nodes there are.
    pub(crate) fn len(&self) -> usize
        ensures { result ≡ length self.now }
    {
        match &self.row {
            LabelRow::Short(numbers) => numbers.len(),
            LabelRow::Long(labels) => labels.len(),
        }
    }

    /// For each node whether it is reached.
    pub(crate) fn reached(&self, alloc: Global) -> Result<Vec<bool>, NoMemory>
        ensures { IfOk result (λ side. side.items ≡ map (λ label. nat_lt label UNREACHED) self.now) }
    {
        reached_of(alloc, &self.row)
    }

    /// The label of a node.
    #[inline(always)]
    pub(crate) fn get(&self, node: u32) -> u128
        requires { node < length self.now }
        ensures { result ≡ slice_index self.now node }
    {
        label_of(&self.row, node)
    }

    /// Gives a node a label.
    #[inline(always)]
    pub(crate) fn lower(&mut self, node: u32, label: u128) -> Result<(), NoMemory>
        requires { node < length self.old }
        ensures { OnOk result (self.new ≡ set self.old node label) }
    {
        if !is_reached(label_of(&self.row, node)) {
            self.lowered.push(node)?;
        }
        set_label(&mut self.row, node, label)
    }

    /// Moves each node's number by the node's label, as far as that is below the bound, and takes all labels away: in time
    /// of the nodes that are reached.
    pub(crate) fn drain(&mut self, numbers: &mut [i64], bound: u64, up: bool)
        requires long { length numbers.old ≡ length self.old }
        requires within { (v : ℕ) → IsWithin (slice_index_or numbers.old v (pos 0)) (REACH_MAX - bound) }
        requires bound { bound ≤ REACH_MAX }
        ensures moved { IsMoved numbers.old numbers.new self.old bound up }
        ensures cleared { self.new ≡ replicate (length self.old) UNREACHED }
    {
        drain_listed(&mut self.row, &self.lowered, numbers, bound, up);
        self.lowered.clear();
    }

    /// Takes all labels away: no node is reached then.
    pub(crate) fn clear(&mut self)
        ensures { self.new ≡ replicate (length self.old) UNREACHED }
    {
        clear_listed(&mut self.row, &self.lowered);
        self.lowered.clear();
    }
}
