ghost use Rattle.std.specs.Prelude.{ℕ, ◌≡◌, ◌+◌, ◌-◌, ◌*◌, ◌^◌, ◌<◌, ◌≤◌, cond, length, IfOk, OnOk};
ghost use Rattle.plan_base.specs.Dir.{Direction, same_dir};
ghost use Rattle.reservations.specs.Reserved.{reserved_on};
ghost use Rattle.layer.specs.Bias.{IsGoodBias};
ghost use Rattle.view_build.specs.First.{applied};
ghost use Rattle.view_build.specs.Known.{IsWithin, bias_among, first_bias, known_at, known_of, unknown, with_bias, with_bound, with_constraints, with_layer, with_reserved};

use layer::{Bias, Bound, Constraint, ENTRIES_MAX, Layer};
use plan_base::{Dir, MAX, NoMemory, Reservation};
use std::alloc::Global;
use std::collections::BTreeMap;

// What layers and reservations say of a direction.
#[derive(Clone, Copy, Debug)]
pub(crate) struct Known {
    // The least maximum constraint, at most MAX msat.
    pub(crate) maximum: u64,
    // The greatest minimum constraint, in msat.
    pub(crate) minimum: u64,
    // The sum of the biases, in percent.
    pub(crate) bias: i128,
    // The sum of the reservations, in msat.
    pub(crate) reserved: u128,
}

// What layers and reservations say, by direction.
pub(crate) fn known_by(
    alloc: Global,
    layers: &[Layer],
    held: &[Reservation],
) -> Result<BTreeMap<Dir, Known>, NoMemory>
    ensures { IfOk result (λ map. (dir : Direction) → known_at map dir ≡ known_of dir layers.now held.now) }
{
    let mut map = reserved_by(alloc, held)?;
    for layer in layers {
        add_constraints(&mut map, layer.constraints())?;
        add_biases(&mut map, layer)?;
    }
    Ok(map)
}

fn reserved_by(alloc: Global, held: &[Reservation]) -> Result<BTreeMap<Dir, Known>, NoMemory>
    ensures { IfOk result (λ map. (dir : Direction) → known_at map dir ≡ with_reserved unknown (reserved_on dir held.now)) }
{
    let mut map = BTreeMap::new(alloc);
    for reservation in held {
        add_reservation(&mut map, reservation)?;
    }
    Ok(map)
}

fn add_reservation(
    map: &mut BTreeMap<Dir, Known>,
    reservation: &Reservation,
) -> Result<(), NoMemory>
    requires { (dir : Direction) → (known_at map.old dir).reserved < 2 ^ 128 - 2 ^ 64 }
    ensures ok { OnOk result ((dir : Direction) → known_at map.new dir ≡ cond (same_dir reservation.now.dir dir) (with_reserved (known_at map.old dir) reservation.now.amount) (known_at map.old dir)) }
    ensures small { OnOk result ((dir : Direction) (n : ℕ) → (known_at map.old dir).reserved ≤ n → (known_at map.new dir).reserved ≤ n + 2 ^ 64) }
{
    let known = known_at(map, reservation.dir);
    map.insert(reservation.dir, with_reserved(known, reservation.amount))?;
    Ok(())
}

fn with_reserved(known: Known, amount: u64) -> Known
    requires { known.reserved < 2 ^ 128 - 2 ^ 64 }
    ensures value { result ≡ with_reserved known amount }
    ensures small { result.reserved ≤ known.reserved + 2 ^ 64 }
{
    Known {
        reserved: known.reserved + u128::from(amount),
        ..known
    }
}

fn add_constraints(
    map: &mut BTreeMap<Dir, Known>,
    constraints: &[Constraint],
) -> Result<(), NoMemory>
    ensures { OnOk result ((dir : Direction) → known_at map.new dir ≡ with_constraints dir (known_at map.old dir) constraints.now) }
{
    for constraint in constraints {
        add_constraint(map, constraint)?;
    }
    Ok(())
}

fn add_constraint(map: &mut BTreeMap<Dir, Known>, constraint: &Constraint) -> Result<(), NoMemory>
    ensures { OnOk result ((dir : Direction) → known_at map.new dir ≡ cond (same_dir constraint.now.dir dir) (with_bound (known_at map.old dir) constraint.now.bound constraint.now.amount) (known_at map.old dir)) }
{
    let known = known_at(map, constraint.dir);
    map.insert(
        constraint.dir,
        with_bound(known, constraint.bound, constraint.amount),
    )?;
    Ok(())
}

fn with_bound(known: Known, bound: Bound, amount: u64) -> Known
    ensures { result ≡ with_bound known bound amount }
{
    match bound {
        Bound::Max => Known {
            maximum: known.maximum.min(amount),
            ..known
        },
        Bound::Min => Known {
            minimum: known.minimum.max(amount),
            ..known
        },
    }
}

// A layer's first bias of a direction counts.
fn add_biases(map: &mut BTreeMap<Dir, Known>, layer: &Layer) -> Result<(), NoMemory>
    requires { (dir : Direction) → IsWithin (2 ^ 120) (known_at map.old dir).bias }
    ensures ok { OnOk result ((dir : Direction) → known_at map.new dir ≡ applied with_bias (known_at map.old dir) (first_bias dir layer.now)) }
    ensures small { OnOk result ((dir : Direction) (n : ℕ) → IsWithin n (known_at map.old dir).bias → IsWithin (n + 65536 * 100) (known_at map.new dir).bias) }
{
    prove!(layer.entries() <= ENTRIES_MAX);
    for i in 0..layer.biases().len() {
        add_bias_at(map, layer, i)?;
    }
    Ok(())
}

fn add_bias_at(map: &mut BTreeMap<Dir, Known>, layer: &Layer, i: usize) -> Result<(), NoMemory>
    requires place { i < length layer.now.biases }
    requires small { (dir : Direction) → IsWithin (2 ^ 121) (known_at map.old dir).bias }
    ensures ok { OnOk result ((dir : Direction) (before : Known) → known_at map.old dir ≡ applied with_bias before (bias_among i dir layer.now) → known_at map.new dir ≡ applied with_bias before (bias_among (i + 1) dir layer.now)) }
    ensures small { OnOk result ((dir : Direction) (n : ℕ) → IsWithin n (known_at map.old dir).bias → IsWithin (n + 100) (known_at map.new dir).bias) }
{
    let bias = layer.biases()[i];
    if layer.bias_place(bias.dir) != Some(i) {
        return Ok(());
    }
    add_bias(map, &bias)?;
    Ok(())
}

fn add_bias(map: &mut BTreeMap<Dir, Known>, bias: &Bias) -> Result<(), NoMemory>
    requires small { (dir : Direction) → IsWithin (2 ^ 121) (known_at map.old dir).bias }
    requires good { IsGoodBias bias.now }
    ensures ok { OnOk result ((dir : Direction) → known_at map.new dir ≡ cond (same_dir bias.now.dir dir) (with_bias (known_at map.old dir) bias.now) (known_at map.old dir)) }
    ensures small { OnOk result ((dir : Direction) (n : ℕ) → IsWithin n (known_at map.old dir).bias → IsWithin (n + 100) (known_at map.new dir).bias) }
{
    let known = known_at(map, bias.dir);
    map.insert(bias.dir, with_bias(known, bias))?;
    Ok(())
}

fn with_bias(known: Known, bias: &Bias) -> Known
    requires small { IsWithin (2 ^ 121) known.bias }
    requires good { IsGoodBias bias.now }
    ensures { result ≡ with_bias known bias.now }
{
    Known {
        bias: known.bias + i128::from(bias.bias),
        ..known
    }
}

pub(crate) fn known_at(map: &BTreeMap<Dir, Known>, dir: Dir) -> Known
    ensures { result ≡ known_at map.now dir }
{
    match map.get(&dir) {
        Some(known) => *known,
        None => unknown(),
    }
}

pub(crate) fn unknown() -> Known
    ensures { result ≡ unknown }
{
    Known {
        maximum: MAX,
        minimum: 0,
        bias: 0,
        reserved: 0,
    }
}
