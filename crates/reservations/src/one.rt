ghost use Rattle.std.specs.Prelude.{◌≡◌, ◌<◌, ◌≤◌, false, length, All, Some, None, IfSome, option_map, if◌then◌else◌};
ghost use Rattle.std.specs.List.{remove};
ghost use Rattle.plan_base.specs.Held.{IsGoodReservation};
ghost use Rattle.reservations.specs.Reservations.{is_for, without_earliest};

use plan_base::{Held, Reservation};

/// Removes the earliest reservation of an item, if one exists. The others keep their order.
pub fn free_one(list: &mut Vec<Reservation>, item: &Held) -> bool
    ensures freed { without_earliest item.now list.old.items ≡ (if result then Some list.new.items else None) }
    ensures kept { result ≡ false → list.new.items ≡ list.old.items }
    ensures shorter { length list.new.items ≤ length list.old.items }
    ensures good { All IsGoodReservation list.old.items → All IsGoodReservation list.new.items }
{
    match earliest(list, item) {
        Some(place) => {
            list.remove(place);
            true
        }
        None => false,
    }
}

// The position of the earliest reservation of an item.
fn earliest(list: &[Reservation], item: &Held) -> Option<usize>
    ensures place { without_earliest item.now list.now ≡ option_map (remove list.now) result }
    ensures within { IfSome result (λ place. place < length list.now) }
{
    for place in 0..list.len() {
        if is_reservation_for(item, &list[place]) {
            return Some(place);
        }
    }
    None
}

fn is_reservation_for(item: &Held, reservation: &Reservation) -> bool
    ensures { result ≡ is_for item.now reservation.now }
{
    reservation.amount == item.amount && reservation.dir == item.dir
}
