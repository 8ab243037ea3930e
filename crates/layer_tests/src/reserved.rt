ghost use Rattle.std.specs.Prelude.{◌≤◌, IfSome};
ghost use Rattle.plan_base.specs.Held.{IsGoodHeld};
ghost use Rattle.plan_base.specs.declared.amount.TheConstants.{MAX};

use plan_base::{Dir, Held, MAX};
use reservations::{NotReserved, RESERVATIONS_MAX, Reservations, ReserveRefusal, reserved};
use std::alloc::Global;

fn item(dir: &str, amount: u64) -> Option<Held>
    requires { amount ≤ MAX }
    ensures { IfSome result IsGoodHeld }
{
    let dir = Dir::read(dir).ok()?;
    Some(Held { dir, amount })
}

// Made at the moments 1, 2 and 3 by the callers 0, 1 and 2. The first and the last have the same direction and amount.
fn three(alloc: Global) -> Option<Reservations> {
    let mut reservations = Reservations::new(alloc);
    reservations.reserve(&[item("100x1x0/0", 5)?], 1, 0).ok()?;
    reservations.reserve(&[item("100x1x0/1", 5)?], 2, 1).ok()?;
    reservations.reserve(&[item("100x1x0/0", 5)?], 3, 2).ok()?;
    Some(reservations)
}

// Whether exactly the reservations of these moments are held; the one of moment n was made by caller n - 1.
fn are_held(reservations: &Reservations, moments: &[u64]) -> bool {
    let list = reservations.list();
    list.len() == moments.len()
        && list.iter().zip(moments).all(|(reservation, moment)| {
            reservation.moment == *moment && u64::from(reservation.caller) + 1 == *moment
        })
}

fn the_earliest_goes(alloc: Global) -> Option<bool> {
    let mut reservations = three(alloc)?;
    let first = reservations.unreserve(&[item("100x1x0/0", 5)?]);
    let one = are_held(&reservations, &[2, 3]);
    let rest = reservations.unreserve(&[item("100x1x0/0", 5)?, item("100x1x0/1", 5)?]);
    Some(first.is_ok() && one && rest.is_ok() && are_held(&reservations, &[]))
}

fn all_or_none(alloc: Global) -> Option<bool> {
    let mut reservations = three(alloc)?;
    let this = item("100x1x0/0", 5)?;
    let third = reservations.unreserve(&[this, this, this]);
    let other = reservations.unreserve(&[item("100x1x0/1", 6)?]);
    Some(
        third == Err(NotReserved { index: 2 })
            && other == Err(NotReserved { index: 0 })
            && are_held(&reservations, &[1, 2, 3]),
    )
}

fn one_item_twice(alloc: Global) -> Option<bool> {
    let mut reservations = Reservations::new(alloc);
    let this = item("100x1x0/0", 5)?;
    reservations.reserve(&[this], 1, 0).ok()?;
    let twice = reservations.unreserve(&[this, this]);
    Some(twice == Err(NotReserved { index: 1 }) && are_held(&reservations, &[1]))
}

#[test]
fn items_are_set_free(rt: HostRuntime) {
    assert!(rt; the_earliest_goes(rt.alloc()) == Some(true));
    assert!(rt; all_or_none(rt.alloc()) == Some(true));
    assert!(rt; one_item_twice(rt.alloc()) == Some(true));
}

fn sums(alloc: Global) -> Option<bool> {
    let most = item("100x1x0/0", MAX)?;
    let mut reservations = Reservations::new(alloc);
    for _ in 0..9 {
        reservations.reserve(&[most], 1, 0).ok()?;
    }
    reservations.reserve(&[item("100x1x0/1", 7)?], 1, 0).ok()?;
    let sum = reserved(reservations.list(), &most.dir);
    let other = reserved(reservations.list(), &Dir::read("100x1x0/1").ok()?);
    let none = reserved(reservations.list(), &Dir::read("100x2x0/0").ok()?);
    Some(sum == 18_900_000_000_000_000_000 && other == 7 && none == 0)
}

fn full(alloc: Global) -> Option<bool> {
    let this = item("100x1x0/0", 5)?;
    let mut reservations = Reservations::new(alloc);
    for _ in 0..16_384 {
        reservations.reserve(&[this, this, this, this], 1, 0).ok()?;
    }
    let more = reservations.reserve(&[this], 2, 0);
    Some(
        more == Err(ReserveRefusal::Full {
            length: RESERVATIONS_MAX,
        }) && reservations.list().len() == RESERVATIONS_MAX,
    )
}

#[test]
fn amounts_add_up_to_a_limit_of_items(rt: HostRuntime) {
    assert!(rt; sums(rt.alloc()) == Some(true));
    assert!(rt; full(rt.alloc()) == Some(true));
}
