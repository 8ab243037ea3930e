ghost use Rattle.std.specs.Prelude.{◌≡◌, ◌<◌, ◌^◌};
ghost use Rattle.reservations.specs.Reserved.{amount_on, reserved_on};

use plan_base::{Dir, Reservation};

/// The amount that is reserved on a direction, in msat. Allocates nothing.
pub fn reserved(list: &[Reservation], dir: &Dir) -> u128
    ensures { result ≡ reserved_on dir.now list.now }
{
    let mut total = 0;
    for reservation in list {
        total += amount_on(reservation, dir);
    }
    total
}

fn amount_on(reservation: &Reservation, dir: &Dir) -> u128
    ensures amount { result ≡ amount_on dir.now reservation.now }
    ensures most { result < 2 ^ 64 }
{
    if reservation.dir == *dir {
        u128::from(reservation.amount)
    } else {
        0
    }
}
