ghost use Rattle.std.specs.Prelude.{◌≡◌, None};
ghost use Rattle.layer.specs.Constraint.{IsGoodConstraint};

use layer::{Bias, Bound, Constraint, Created, ENTRIES_MAX, Layer, Update};
use layer_ops::{LayerRefusal, age, bias, create_channel, disable, inform, update};
use plan_base::{Dir, NodeId, Scid};
use std::alloc::Global;

const NODE_A: &str = "02aaaaaaaaaaaaaaaaaaaaaaaaaaaaaaaaaaaaaaaaaaaaaaaaaaaaaaaaaaaaaaaa";

const NODE_D: &str = "02dddddddddddddddddddddddddddddddddddddddddddddddddddddddddddddddd";

fn nothing_given(dir: Dir) -> Update
    ensures { (result.htlc_min ≡ None) × (result.htlc_max ≡ None) }
{
    Update {
        dir,
        enabled: None,
        htlc_min: None,
        htlc_max: None,
        base: None,
        ppm: None,
        delay: None,
    }
}

fn change_two_directions(layer: &mut Layer, first: Dir, second: Dir) -> Result<(), LayerRefusal> {
    bias(
        layer,
        Bias {
            dir: first,
            bias: 5,
        },
    )?;
    bias(
        layer,
        Bias {
            dir: first,
            bias: 6,
        },
    )?;
    bias(
        layer,
        Bias {
            dir: second,
            bias: 1,
        },
    )?;
    bias(
        layer,
        Bias {
            dir: second,
            bias: 0,
        },
    )?;
    update(
        layer,
        Update {
            base: Some(7),
            ..nothing_given(first)
        },
    )?;
    update(layer, nothing_given(second))?;
    update(
        layer,
        Update {
            ppm: Some(9),
            ..nothing_given(first)
        },
    )
}

#[test]
fn entries_stay_in_their_places(rt: HostRuntime) {
    let mut layer = Layer::new(rt.alloc());
    let (Ok(first), Ok(second)) = (Dir::read("100x3x0/0"), Dir::read("100x2x0/0")) else {
        return assert!(rt; false);
    };
    assert!(rt; change_two_directions(&mut layer, first, second).is_ok());
    let biases = [
        Bias {
            dir: first,
            bias: 6,
        },
        Bias {
            dir: second,
            bias: 0,
        },
    ];
    assert!(rt; layer.biases() == &biases[..]);
    let updates = [
        Update {
            base: Some(7),
            ppm: Some(9),
            ..nothing_given(first)
        },
        nothing_given(second),
    ];
    assert!(rt; layer.updates() == &updates[..]);
}

fn bound_at(dir: Dir, moment: u64) -> Constraint
    ensures { IsGoodConstraint result }
{
    Constraint {
        dir,
        bound: Bound::Min,
        amount: 7,
        moment,
    }
}

fn filled(alloc: Global, dir: Dir) -> Result<Layer, LayerRefusal> {
    let mut layer = Layer::new(alloc);
    for moment in 0..65_536 {
        inform(&mut layer, bound_at(dir, moment))?;
    }
    Ok(layer)
}

#[test]
fn a_full_layer(rt: HostRuntime) {
    let Ok(dir) = Dir::read("100x3x0/0") else {
        return assert!(rt; false);
    };
    let Ok(mut layer) = filled(rt.alloc(), dir) else {
        return assert!(rt; false);
    };
    let full = Err(LayerRefusal::LayerFull {
        entries: ENTRIES_MAX,
    });
    assert!(rt; inform(&mut layer, bound_at(dir, 0)) == full);
    assert!(rt; bias(&mut layer, Bias { dir, bias: 5 }) == full);
    assert!(rt; update(&mut layer, nothing_given(dir)) == full);
    assert!(rt; age(&mut layer, 1) == Ok(1) && layer.entries() == 65_535);
    assert!(rt; bias(&mut layer, Bias { dir, bias: 5 }) == Ok(()));
    assert!(rt; bias(&mut layer, Bias { dir, bias: 6 }) == Ok(()));
    assert!(rt; update(&mut layer, nothing_given(dir)) == full);
}

#[test]
fn channels_and_nodes(rt: HostRuntime) {
    let mut layer = Layer::new(rt.alloc());
    let (Ok(scid), Ok(source), Ok(destination)) = (
        Scid::read("100x3x0"),
        NodeId::read(NODE_A),
        NodeId::read(NODE_D),
    ) else {
        return assert!(rt; false);
    };
    let channel = &Created {
        scid,
        source,
        destination,
        capacity: 1000,
    };
    assert!(rt; source != destination);
    assert!(rt; create_channel(&mut layer, *channel) == Ok(()));
    assert!(rt; create_channel(&mut layer, *channel) == Err(LayerRefusal::ChannelExists { scid }));
    assert!(rt; disable(&mut layer, source) == Ok(()) && disable(&mut layer, source) == Ok(()));
    assert!(rt; layer.created().len() == 1 && layer.disabled().len() == 1);
}
