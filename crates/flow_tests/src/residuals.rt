ghost use Rattle.std.specs.Prelude.{◌≡◌, ◌≤◌, IfOk};
ghost use Rattle.plan_base.specs.declared.amount.TheConstants.{MAX};
ghost use Rattle.residual_net.specs.Detour.{detour_net};

use flow_model::{Arc, Instance};
use plan_base::NoMemory;
use residual_net::Residual;
use std::alloc::Global;

/// An arc with room for one unit.
const fn arc(from: u32, to: u32, cost: u64, dir: u32) -> Arc
    ensures { result ≡ record { from = from; to = to; room = 1; cost = cost; dir = dir } }
{
    Arc {
        from,
        to,
        room: 1,
        cost,
        dir,
    }
}

fn detour(alloc: Global, demand: u64) -> Result<Instance, NoMemory>
    requires some { 1 ≤ demand }
    requires most { demand ≤ MAX }
    ensures { IfOk result (λ i. i ≡ detour_net demand) }
{
    let arcs = vec![in alloc;
        arc(0, 1, 1, 0),
        arc(0, 2, 10, 1),
        arc(1, 2, 1, 2),
        arc(1, 3, 10, 3),
        arc(2, 3, 1, 4),
    ]?;
    Ok(Instance::new(4, 0, 3, demand, arcs))
}

#[test]
fn two_units_go_around_the_middle_arc(rt: HostRuntime) -> Result<(), NoMemory> {
    let instance = detour(rt.alloc(), 2)?;
    let mut residual = Residual::open(rt.alloc(), &instance)?;
    assert!(rt; residual.arcs() == instance.arcs());
    assert!(rt; residual.out(1) == [(0, true), (2, false), (3, false)].as_slice());
    assert!(rt; residual.reduced(0, &[0, 9, 10, 19]) == -8);
    residual.push_path(&[(0, false), (2, false), (4, false)], 1);
    assert!(rt; residual.flow() == [1, 0, 1, 0, 1].as_slice());
    assert!(rt; residual.room(2, false) == 0 && residual.room(2, true) == 1);
    residual.push_path(&[(1, false), (2, true), (3, false)], 1);
    assert!(rt; residual.flow() == [1, 1, 0, 1, 1].as_slice());
    Ok(())
}
