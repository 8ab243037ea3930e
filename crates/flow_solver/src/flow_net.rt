ghost use Rattle.std.specs.Prelude.{◌≡◌, ◌<◌, ◌≤◌, ◌^◌, All, IfOk, IsFalse, IsTrue, ◌+◌, length, replicate, slice_index};
ghost use Rattle.flow_model.specs.Instance.{arc_at};
ghost use Rattle.flow_model.specs.Potentials.{IsSmall, reduced_cost};
ghost use Rattle.residual_net.specs.Residual.{HasDistinctArcs, HasRoomFor, IsResidualNet, ResidualNet, flow_after, room_left, units_after};

use flow_model::{Arc, Instance};
use plan_base::NoMemory;
use std::alloc::Global;
use std::marker::Model;

/// An instance with units on its arcs: on each arc from 0 units to its room. Unlike `Residual` it has no steps by node,
/// so it is opened fast.
#[derive(Debug, Drop)]
pub(crate) struct FlowNet<'a> {
    instance: &'a Instance,
    flow: Vec<u64>,
}

impl<'a> Model for FlowNet<'a> {
    ghost use Rattle.residual_net.specs.Residual.{IsResidualNet, ResidualNet};

    ghost Value = { ResidualNet };

    ghost view = { λ r. record { net = r.instance.now; flow = r.flow.items } };

    ghost invariant = { λ r. IsResidualNet (record { net = r.instance.now; flow = r.flow.items }) };
}

impl<'a> FlowNet<'a> {
    /// The instance whose arcs carry nothing.
    pub(crate) fn open(alloc: Global, instance: &'a Instance) -> Result<FlowNet<'a>, NoMemory>
        ensures value { IfOk result (λ r. r ≡ record { net = instance.now; flow = replicate (length instance.now.arcs) 0 }) }
        ensures bounds { IfOk result (λ r. IsResidualNet r) }
    {
        let flow = Vec::from_elem(alloc, 0, instance.arcs().len())?;
        Ok(FlowNet { instance, flow })
    }

    /// The arcs of the instance.
    pub(crate) fn arcs(&self) -> &[Arc]
        ensures value { result.now ≡ self.now.net.arcs }
        ensures bounds { IsResidualNet self.now }
    {
        self.instance.arcs()
    }

    /// The units on each arc.
    pub(crate) fn flow(&self) -> &[u64]
        ensures { result.now ≡ self.now.flow }
    {
        self.flow.as_slice()
    }

    /// The room of a step over an arc: forward what the arc can still take, backward what it carries.
    pub(crate) fn room(&self, arc: u32, back: bool) -> u64
        requires { arc < length self.now.net.arcs }
        ensures { result ≡ room_left (arc_at self.now.net.arcs arc) back (slice_index self.now.flow arc) }
    {
        room_of(self.instance.arcs(), self.flow.as_slice(), arc, back)
    }

    /// The reduced cost of an arc: its cost and the potential of its start, less the potential of its end.
    pub(crate) fn reduced(&self, arc: u32, potentials: &[i128]) -> i128
        requires known { arc < length self.now.net.arcs }
        requires long { length potentials.now ≡ self.now.net.nodes }
        requires small { All IsSmall potentials.now }
        ensures { result ≡ reduced_cost potentials.now (arc_at self.now.net.arcs arc) }
    {
        let arcs = self.instance.arcs();
        reduced_of(arcs[arc as usize], potentials)
    }

    /// Pushes an amount along steps: a step forward adds it to its arc's units, a step backward takes it away.
    pub(crate) fn push_path(&mut self, path: &[(u32, bool)], amount: u64)
        requires room { All (HasRoomFor self.old.net.arcs self.old.flow amount) path.now }
        requires distinct { HasDistinctArcs path.now }
        ensures { self.new ≡ record { net = self.old.net; flow = flow_after self.old.flow amount path.now } }
    {
        push_steps(self.instance.arcs(), &mut self.flow, path, amount);
    }
}

/// The room of a step over an arc.
fn room_of(arcs: &[Arc], flow: &[u64], arc: u32, back: bool) -> u64
    requires known { arc < length arcs.now }
    requires long { length flow.now ≡ length arcs.now }
    requires fits { slice_index flow.now arc ≤ (arc_at arcs.now arc).room }
    ensures { result ≡ room_left (arc_at arcs.now arc) back (slice_index flow.now arc) }
{
    let units = flow[arc as usize];
    if back {
        units
    } else {
        arcs[arc as usize].room - units
    }
}

/// The reduced cost of an arc.
fn reduced_of(arc: Arc, potentials: &[i128]) -> i128
    requires from { arc.from < length potentials.now }
    requires to { arc.to < length potentials.now }
    requires small { All IsSmall potentials.now }
    ensures { result ≡ reduced_cost potentials.now arc }
{
    i128::from(arc.cost) + potentials[arc.from as usize] - potentials[arc.to as usize]
}

/// The units on an arc after a step.
fn moved(units: u64, amount: u64, back: bool) -> u64
    requires forward { IsFalse back → units + amount < 2 ^ 64 }
    requires backward { IsTrue back → amount ≤ units }
    ensures { result ≡ units_after units amount back }
{
    if back { units - amount } else { units + amount }
}

/// Pushes an amount along steps.
fn push_steps(arcs: &[Arc], flow: &mut [u64], path: &[(u32, bool)], amount: u64)
    requires long { length flow.old ≡ length arcs.now }
    requires rooms { All (λ a. a.room < 2 ^ 64) arcs.now }
    requires room { All (HasRoomFor arcs.now flow.old amount) path.now }
    requires distinct { HasDistinctArcs path.now }
    ensures { flow.new ≡ flow_after flow.old amount path.now }
{
    for step in path {
        let (arc, back) = *step;
        flow[arc as usize] = moved(flow[arc as usize], amount, back);
    }
}
