ghost use Rattle.std.specs.Prelude.{◌≡◌, ◌≤◌, IfOk};
ghost use Rattle.plan_base.specs.declared.amount.TheConstants.{MAX};
ghost use Rattle.residual_net.specs.Detour.{detour_net};

use crate::labels::UNREACHED;
use crate::node_labels::no_labels;
use crate::node_potentials::no_potentials;
use crate::{Correcting, Keeping};
use flow_model::{Arc, Instance, Solve, Solved, cost};
use plan_base::NoMemory;
use std::alloc::Global;

/// An arc with room for one unit.
const fn arc(from: u32, to: u32, cost: u64, dir: u32) -> Arc
    ensures { result ≡ record { from = from; to = to; room = 1; cost = cost; dir = dir } }
{
    Arc {
        from,
        to,
        room: 1,
        cost,
        dir,
    }
}

fn detour(alloc: Global, demand: u64) -> Result<Instance, NoMemory>
    requires some { 1 ≤ demand }
    requires most { demand ≤ MAX }
    ensures { IfOk result (λ i. i ≡ detour_net demand) }
{
    let arcs = vec![in alloc;
        arc(0, 1, 1, 0),
        arc(0, 2, 10, 1),
        arc(1, 2, 1, 2),
        arc(1, 3, 10, 3),
        arc(2, 3, 1, 4),
    ]?;
    Ok(Instance::new(4, 0, 3, demand, arcs))
}

/// Whether the solver sends two units around the arc in the middle, over which the cheapest path of one unit leads.
fn goes_around<S: Solve>(solver: &S, alloc: Global) -> Result<bool, NoMemory> {
    let instance = detour(alloc, 2)?;
    match solver.solve(alloc, &instance)? {
        Solved::Flow { flow, .. } => {
            Ok(flow.list() == [1, 1, 0, 1, 1].as_slice() && cost(&instance, &flow) == 22)
        }
        Solved::Cut { .. } => Ok(false),
    }
}

/// Whether the solver finds that the source, whose two arcs have room for one unit each, can't send three.
fn cuts_the_source_off<S: Solve>(solver: &S, alloc: Global) -> Result<bool, NoMemory> {
    let instance = detour(alloc, 3)?;
    match solver.solve(alloc, &instance)? {
        Solved::Flow { .. } => Ok(false),
        Solved::Cut { side } => Ok(side.as_slice() == [true, false, false, false].as_slice()),
    }
}

#[test]
fn two_units_fit_and_three_do_not(rt: HostRuntime) -> Result<(), NoMemory> {
    let alloc = rt.alloc();
    assert!(rt; goes_around(&Correcting, alloc)? && cuts_the_source_off(&Correcting, alloc)?);
    assert!(rt; goes_around(&Keeping, alloc)? && cuts_the_source_off(&Keeping, alloc)?);
    Ok(())
}

/// Labels at the edge of 64 bits, whose greatest number stands for `UNREACHED`.
const LABELS: &[u128] = &[
    0,
    18_446_744_073_709_551_614,
    18_446_744_073_709_551_615,
    18_446_744_073_709_551_616,
    999_999_999_999_999_999_999_999_999_999,
];

/// Whether a label is kept, other nodes keep theirs meanwhile, and none has one when all are cleared.
fn keeps_label(alloc: Global, label: u128) -> Result<bool, NoMemory> {
    let mut labels = no_labels(alloc, 3)?;
    labels.lower(0, 7)?;
    labels.lower(2, label)?;
    let is_kept = labels.get(0) == 7 && labels.get(1) == UNREACHED && labels.get(2) == label;
    labels.clear();
    Ok(is_kept && labels.get(0) == UNREACHED && labels.get(2) == UNREACHED)
}

/// Radii of two searches, at the edge of what potentials in 64 bits may reach.
const RADII: &[(u64, u64)] = &[
    (1, 2),
    (1_000_000_000_000_000_000, 1_000_000_000_000_000_000),
    (1_000_000_000_000_000_000, 1_000_000_000_000_000_001),
    (18_446_744_073_709_551_615, 18_446_744_073_709_551_615),
];

/// Whether a lift by these radii leaves the source's potential, raises that of a node that no search reached by the
/// first, and the destination's by both.
fn lifts(alloc: Global, radius: u64, rest: u64) -> Result<bool, NoMemory> {
    let (radius, rest) = (u128::from(radius), u128::from(rest));
    let mut potentials = no_potentials(alloc, 3)?;
    let mut source = no_labels(alloc, 3)?;
    let mut destination = no_labels(alloc, 3)?;
    source.lower(0, 0)?;
    destination.lower(2, 0)?;
    potentials.lift(&mut source, &mut destination, radius, rest)?;
    let sum = (radius + rest) as i128;
    Ok(potentials.to_vec(alloc)?.as_slice() == [0, radius as i128, sum].as_slice())
}

#[test]
fn numbers_beyond_64_bits_are_kept(rt: HostRuntime) -> Result<(), NoMemory> {
    let alloc = rt.alloc();
    for label in LABELS {
        assert!(rt; keeps_label(alloc, *label)?);
    }
    for radii in RADII {
        assert!(rt; lifts(alloc, radii.0, radii.1)?);
    }
    Ok(())
}
