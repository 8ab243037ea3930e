ghost use Rattle.std.specs.Prelude.{◌≡◌};

use flow_model::{Arc, Flow, Instance};
use path_split::{Part, split};
use plan_base::NoMemory;

/// An arc of a direction from node 0 to node 1.
const fn arc(room: u64, dir: u32) -> Arc
    ensures { result ≡ record {
      from = 0;
      to = 1;
      room = room;
      cost = 1;
      dir = dir;
    } }
{
    Arc {
        from: 0,
        to: 1,
        room,
        cost: 1,
        dir,
    }
}

/// A size, and the direction and the units of each part of that size or less, if direction 0 carries 7 units and
/// direction 1 carries 4.
const ROWS: &[(u64, &[(u32, u64)])] = &[
    (10, &[(0, 7), (1, 4)]),
    (4, &[(0, 4), (0, 3), (1, 4)]),
    (3, &[(0, 3), (0, 2), (0, 2), (1, 2), (1, 2)]),
    (2, &[(0, 2), (0, 2), (0, 2), (0, 1), (1, 2), (1, 2)]),
];

/// Whether the parts have these directions and units.
fn are(parts: &[Part], expected: &[(u32, u64)]) -> bool {
    if parts.len() != expected.len() {
        return false;
    }
    for i in 0..parts.len() {
        let (dir, units) = expected[i];
        if parts[i].path.as_slice() != [dir].as_slice() || parts[i].units != units {
            return false;
        }
    }
    true
}

#[test]
fn a_size_cuts_each_path_evenly(rt: HostRuntime) -> Result<(), NoMemory> {
    let arcs = vec![in rt.alloc(); arc(7, 0), arc(4, 1)]?;
    let instance = Instance::new(2, 0, 1, 11, arcs);
    let units = vec![in rt.alloc(); 7, 4]?;
    let flow = Flow::from_vec(units);
    for (size, expected) in ROWS {
        let parts = split(rt.alloc(), &instance, &flow, (*size).max(1))?;
        assert!(rt; are(&parts, expected));
    }
    Ok(())
}
