ghost use Rattle.std.specs.Prelude.{◌≡◌};

use flow_model::{Arc, Instance, cost, fill};
use plan_base::NoMemory;

/// An arc of direction 0 from node 0 to node 1.
const fn arc(room: u64) -> Arc
    ensures { result ≡ record {
      from = 0;
      to = 1;
      room = room;
      cost = 255000000001;
      dir = 0;
    } }
{
    Arc {
        from: 0,
        to: 1,
        room,
        cost: 255_000_000_001,
        dir: 0,
    }
}

#[test]
fn a_direction_fills_its_first_arcs_first(rt: HostRuntime) -> Result<(), NoMemory> {
    let arcs = vec![in rt.alloc(); arc(300_000), arc(180_000)]?;
    let instance = Instance::new(2, 0, 1, 350_000, arcs);
    let flow = fill(rt.alloc(), &instance, &[350_000])?;
    assert!(rt; flow.list() == [300_000, 50_000].as_slice());
    assert!(rt; cost(&instance, &flow) == 89_250_000_000_350_000);
    Ok(())
}
