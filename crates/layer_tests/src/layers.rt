ghost use Rattle.std.specs.Prelude.{◌≡◌, true, None, Some};

use layer::{Ask, Asked, Auto, Bias, Bound, Constraint, Created, Layer, Name, NameFault, Update};
use plan_base::{Dir, Items, NoMemory, NodeId};
use std::alloc::Global;
use std::test::Fail;
use std::thread::{self, Threads};

const NODE_A: &str = "02aaaaaaaaaaaaaaaaaaaaaaaaaaaaaaaaaaaaaaaaaaaaaaaaaaaaaaaaaaaaaaaa";

const NODE_D: &str = "02dddddddddddddddddddddddddddddddddddddddddddddddddddddddddddddddd";

fn fault_of(alloc: Global, text: &str) -> Option<NameFault> {
    Name::read(alloc, text).err()
}

#[test]
fn names(rt: HostRuntime) {
    let alloc = rt.alloc();
    let name = Name::read(alloc, "x");
    assert!(rt; name.is_ok_and(|name| name.copy(alloc).is_ok_and(|copy| copy == name)));
    let long = "0123456789012345678901234567890123456789012345678901234567890123";
    for text in ["x", "auto", "automatic", "Auto.x", "x.auto.", long] {
        assert!(rt;
            Name::read(alloc, text).is_ok_and(|name| name.text() == text),
            "{text}"
        );
    }
}

#[test]
fn names_that_are_refused(rt: HostRuntime) {
    for (text, fault) in [
        ("", NameFault::Length),
        (
            "01234567890123456789012345678901234567890123456789012345678901234",
            NameFault::Length,
        ),
        (
            "auto.01234567890123456789012345678901234567890123456789012345678901234",
            NameFault::Length,
        ),
        ("auto.", NameFault::Auto),
        ("auto.localchans", NameFault::Auto),
    ] {
        assert!(rt; fault_of(rt.alloc(), text) == Some(fault), "{text}");
    }
}

fn update_of(dir: Dir, base: Option<u32>) -> Update
    ensures { result ≡ record { dir = dir; enabled = Some true; htlc_min = None; htlc_max = None; base = base; ppm = None; delay = None } }
{
    Update {
        dir,
        enabled: Some(true),
        htlc_min: None,
        htlc_max: None,
        base,
        ppm: None,
        delay: None,
    }
}

fn constraint_at(dir: Dir, bound: Bound, amount: u64, moment: u64) -> Constraint
    ensures { result ≡ record { dir = dir; bound = bound; amount = amount; moment = moment } }
{
    Constraint {
        dir,
        bound,
        amount,
        moment,
    }
}

// A layer with entries in each list, after a replaced update and a replaced bias. The two nodes must differ.
fn filled(alloc: Global, dir: Dir, node: NodeId, other: NodeId) -> Result<Layer, NoMemory> {
    if node == other {
        return Err(NoMemory);
    }
    let mut layer = Layer::new(alloc);
    layer.push_created(Created {
        scid: dir.scid,
        source: node,
        destination: other,
        capacity: 1000,
    })?;
    layer.push_update(update_of(dir, None))?;
    layer.set_update(0, update_of(dir, Some(7)))?;
    layer.push_constraint(constraint_at(dir, Bound::Min, 7, 100))?;
    layer.push_constraint(constraint_at(dir, Bound::Max, 9, 101))?;
    layer.push_bias(Bias { dir, bias: 5 })?;
    layer.set_bias(0, Bias { dir, bias: 6 })?;
    layer.push_disabled(node)?;
    Ok(layer)
}

fn is_as_filled(layer: &Layer, node: NodeId) -> bool {
    layer.created().len() == 1
        && layer.updates().len() == 1
        && layer.updates()[0].base == Some(7)
        && layer.update_place(layer.updates()[0].dir) == Some(0)
        && layer.biases().len() == 1
        && layer.biases()[0].bias == 6
        && layer.bias_place(layer.biases()[0].dir) == Some(0)
        && layer.disabled().len() == 1
        && layer.disabled()[0] == node
}

// Passes a layer to another thread by value, and one by reference.
fn entries_elsewhere<R: Threads + Sync>(rt: &R, layer: &Layer, moved: Layer) -> (usize, usize) {
    thread::join(rt, || layer.entries(), move || moved.entries())
}

#[test]
fn five_lists(rt: HostRuntime) -> Result<(), Fail> {
    let (node, other) = (NodeId::read(NODE_A)?, NodeId::read(NODE_D)?);
    let layer = filled(rt.alloc(), Dir::read("100x3x0/0")?, node, other)?;
    assert!(rt; is_as_filled(&layer, node) && layer.entries() == 6);
    let mut copy = layer.copy()?;
    assert!(rt; copy.drop_before(100) == Ok(0) && copy.drop_before(101) == Ok(1));
    assert!(rt; copy.drop_before(101) == Ok(0) && is_as_filled(&copy, node));
    assert!(rt; copy.constraints().len() == 1 && copy.constraints()[0].amount == 9);
    assert!(rt; layer.constraints().len() == 2 && layer.constraints()[0].amount == 7);
    assert!(rt; entries_elsewhere(&rt, &layer, copy) == (6, 5));
    Ok(())
}

#[test]
fn a_change_is_not_seen_by_copies(rt: HostRuntime) -> Result<(), Fail> {
    let dir = Dir::read("100x3x0/0")?;
    let mut layer = Layer::new(rt.alloc());
    let empty = layer.copy()?;
    layer.push_constraint(constraint_at(dir, Bound::Min, 7, 100))?;
    assert!(rt; layer.constraints().len() == 1 && empty.constraints().is_empty());
    let mut aged = layer.copy()?;
    assert!(rt; aged.drop_before(101) == Ok(1) && aged.constraints().is_empty());
    assert!(rt; layer.constraints().len() == 1);
    Ok(())
}

fn with_bias(alloc: Global) -> Result<Layer, NoMemory> {
    let dir = Dir::read("100x3x0/0").map_err(|_| NoMemory)?;
    let mut layer = Layer::new(alloc);
    layer.push_bias(Bias { dir, bias: 5 })?;
    Ok(layer)
}

// With each allocation refused in turn: if the layer could be made, then so can its copy.
#[test]
fn a_copy_allocates_nothing(rt: HostRuntime) {
    if let Ok(layer) = with_bias(rt.alloc()) {
        assert!(rt; layer.copy().is_ok_and(|copy| copy.biases().len() == 1));
    }
}

fn small_ask(alloc: Global, source: NodeId, destination: NodeId) -> Result<Ask, NoMemory> {
    let mut layers = Items::new(alloc);
    layers.push(Asked::Auto(Auto::SourceFree))?;
    Ok(Ask {
        source,
        destination,
        amount: 5,
        layers,
        maxfee: 1,
        final_cltv: 18,
        maxdelay: 2016,
        maxparts: 3,
        certificate: true,
    })
}

#[test]
fn asks(rt: HostRuntime) {
    let alloc = rt.alloc();
    let (Ok(node), Ok(other)) = (NodeId::read(NODE_A), NodeId::read(NODE_D)) else {
        return assert!(rt; false);
    };
    let Ok(ask) = small_ask(alloc, node, other) else {
        return assert!(rt; false);
    };
    let Ok(copy) = ask.copy(alloc) else {
        return assert!(rt; false);
    };
    assert!(rt; copy.source == node && copy.amount == 5 && copy.maxparts == 3 && copy.certificate);
    assert!(rt; copy.asks_for(Auto::SourceFree) && !copy.asks_for(Auto::NoMpp));
}
