ghost use Rattle.std.specs.Prelude.{◌≡◌, ◌<◌, ◌≤◌, ◌+◌, ◌-◌, ◌^◌, ◌+ℤ◌, ◌-ℤ◌, ◌≤ℤ◌, ℕ, All, IfOk, OnErr, OnOk, length, map, pos, replicate, slice_index_or};
ghost use Rattle.flow_model.specs.Potentials.{IsSmall};
ghost use Rattle.flow_model.specs.declared.limits.TheConstants.{NODES_MAX};
ghost use Rattle.flow_solver.specs.declared.labels.TheConstants.{UNREACHED};
ghost use Rattle.flow_solver.specs.declared.node_potentials.TheConstants.{REACH_MAX};
ghost use Rattle.flow_solver.specs.Meeting.{IsLifted};
ghost use Rattle.flow_solver.specs.NodePotentials.{HasReach, IsMovedTwice, IsWithin, potentials_of};

use crate::lift::lift_all;
use crate::node_labels::NodeLabels;
use plan_base::NoMemory;
use std::alloc::Global;
use std::marker::Model;

/// How far potentials in 64 bits may reach from 0: the difference of two of them still fits.
pub(crate) const REACH_MAX: u64 = 2_000_000_000_000_000_000;

/// The potentials of all nodes: in 64 bits as long as none is above `REACH_MAX`, then in 128.
///
/// In a short row each potential is its number plus the offset, so that all nodes which a search didn't reach rise
/// together; no number, nor the offset, is further from 0 than the reach.
#[derive(Drop)]
pub(crate) enum PotentialRow {
    Short {
        numbers: Vec<i64>,
        offset: u64,
        reach: u64,
    },
    Long(Vec<i128>),
}

/// For each node its potential, 0 at first.
#[derive(Drop)]
pub(crate) struct NodePotentials {
    row: PotentialRow,
}

impl Model for NodePotentials {
    ghost use Rattle.std.specs.Prelude.{ℤ, List};
    ghost use Rattle.flow_solver.specs.NodePotentials.{HasReach, potentials_of};

    ghost Value = { List ℤ };

    ghost view = { λ p. potentials_of p.row };

    ghost invariant = { λ p. HasReach p.row 0 };
}

/// Potentials of nodes, each 0.
pub(crate) fn no_potentials(alloc: Global, nodes: u32) -> Result<NodePotentials, NoMemory>
    ensures { IfOk result (λ p. p ≡ replicate nodes (pos 0)) }
{
    Ok(NodePotentials {
        row: PotentialRow::Short {
            numbers: Vec::from_elem(alloc, 0, nodes as usize)?,
            offset: 0,
            reach: 0,
        },
    })
}

/// The potentials that a short row holds.
fn widened_row(alloc: Global, numbers: &[i64], offset: u64) -> Result<Vec<i128>, NoMemory>
    ensures { IfOk result (λ wide. wide.items ≡ map (λ z. z +ℤ pos offset) numbers.now) }
{
    let mut wide = Vec::with_capacity(alloc, numbers.len())?;
    for number in numbers {
        wide.push(i128::from(*number) + i128::from(offset))?;
    }
    Ok(wide)
}

/// The potentials in a row that has room for them to rise by so much more.
fn make_room(row: &mut PotentialRow, more: u128) -> Result<(), NoMemory>
    requires { HasReach row.old 0 }
    ensures same { potentials_of row.new ≡ potentials_of row.old }
    ensures room { OnOk result (HasReach row.new more) }
    ensures kept { OnErr result (HasReach row.new 0) }
{
    match row {
        PotentialRow::Short {
            numbers,
            offset,
            reach,
        } => {
            if more <= u128::from(REACH_MAX - *reach) {
                return Ok(());
            }
            *row = PotentialRow::Long(widened_row(*numbers.allocator(), numbers, *offset)?);
            Ok(())
        }
        PotentialRow::Long(_) => Ok(()),
    }
}

/// Moves the numbers of a short row for a lift by these radii, and takes all labels away; the offset rises by the first.
fn move_numbers(
    numbers: &mut [i64],
    source: &mut NodeLabels,
    destination: &mut NodeLabels,
    radius: u64,
    rest: u64,
)
    requires long { length source.old ≡ length numbers.old }
    requires as_long { length destination.old ≡ length numbers.old }
    requires within { (v : ℕ) → IsWithin (slice_index_or numbers.old v (pos 0)) (REACH_MAX - (radius + rest)) }
    requires room { radius + rest ≤ REACH_MAX }
    ensures moved { IsMovedTwice numbers.old numbers.new source.old destination.old radius rest }
    ensures source { length source.new ≡ length source.old }
    ensures destination { length destination.new ≡ length destination.old }
{
    source.drain(numbers, radius, false);
    destination.drain(numbers, rest, true);
}

/// Lifts each potential by both labels of its node. There is room for that.
fn lift_row(
    row: &mut PotentialRow,
    source: &mut NodeLabels,
    destination: &mut NodeLabels,
    radius: u128,
    rest: u128,
)
    requires few { length (potentials_of row.old) ≤ NODES_MAX }
    requires long { length source.old ≡ length (potentials_of row.old) }
    requires as_long { length destination.old ≡ length (potentials_of row.old) }
    requires radius { radius ≤ UNREACHED }
    requires rest { rest ≤ UNREACHED }
    requires small { (v : ℕ) → slice_index_or (potentials_of row.old) v (pos 0) ≤ℤ pos (2 ^ 100) }
    requires room { HasReach row.old (radius + rest) }
    ensures lifted { IsLifted (potentials_of row.old) (potentials_of row.new) source.old destination.old radius rest }
    ensures reach { HasReach row.new 0 }
    ensures source { length source.new ≡ length source.old }
    ensures destination { length destination.new ≡ length destination.old }
{
    match row {
        PotentialRow::Short {
            numbers,
            offset,
            reach,
        } => {
            move_numbers(numbers, source, destination, radius as u64, rest as u64);
            *offset += radius as u64;
            *reach += radius as u64 + rest as u64;
        }
        PotentialRow::Long(potentials) => lift_all(potentials, source, destination, radius, rest),
    }
}

/// The difference of the potentials of two nodes.
#[inline(always)]
fn difference_of(row: &PotentialRow, from: u32, to: u32) -> i128
    requires from { from < length (potentials_of row.now) }
    requires to { to < length (potentials_of row.now) }
    requires small { All IsSmall (potentials_of row.now) }
    requires reach { HasReach row.now 0 }
    ensures { result ≡ slice_index_or (potentials_of row.now) from (pos 0) -ℤ slice_index_or (potentials_of row.now) to (pos 0) }
{
    match row {
        PotentialRow::Short { numbers, .. } => {
            i128::from(numbers[from as usize] - numbers[to as usize])
        }
        PotentialRow::Long(potentials) => potentials[from as usize] - potentials[to as usize],
    }
}

impl NodePotentials {
    /// How far the potential of a node is above that of another one.
    #[inline(always)]
    pub(crate) fn difference(&self, from: u32, to: u32) -> i128
        requires from { from < length self.now }
        requires to { to < length self.now }
        requires small { All IsSmall self.now }
        ensures { result ≡ slice_index_or self.now from (pos 0) -ℤ slice_index_or self.now to (pos 0) }
    {
        difference_of(&self.row, from, to)
    }

    /// The potential of each node.
    pub(crate) fn to_vec(&self, alloc: Global) -> Result<Vec<i128>, NoMemory>
        ensures { IfOk result (λ p. p.items ≡ self.now) }
    {
        match &self.row {
            PotentialRow::Short {
                numbers,
                offset,
                ..
            } => widened_row(alloc, numbers, *offset),
            PotentialRow::Long(potentials) => Ok(Vec::from_slice(alloc, potentials)?),
        }
    }

    /// Lifts each potential by the labels of its node from the source and to the destination, as far as they are within
    /// the radii of the two searches. In 64 bits this takes time only for the nodes that the searches reached, and takes
    /// their labels away.
    pub(crate) fn lift(
        &mut self,
        source: &mut NodeLabels,
        destination: &mut NodeLabels,
        radius: u128,
        rest: u128,
    ) -> Result<(), NoMemory>
        requires few { length self.old ≤ NODES_MAX }
        requires long { length source.old ≡ length self.old }
        requires as_long { length destination.old ≡ length self.old }
        requires radius { radius ≤ UNREACHED }
        requires rest { rest ≤ UNREACHED }
        requires small { (v : ℕ) → slice_index_or self.old v (pos 0) ≤ℤ pos (2 ^ 100) }
        ensures lifted { OnOk result (IsLifted self.old self.new source.old destination.old radius rest) }
        ensures source { length source.new ≡ length source.old }
        ensures destination { length destination.new ≡ length destination.old }
    {
        make_room(&mut self.row, radius + rest)?;
        lift_row(&mut self.row, source, destination, radius, rest);
        Ok(())
    }
}
