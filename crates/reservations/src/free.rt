ghost use Rattle.std.specs.Prelude.{◌≡◌, ◌<◌, ◌≤◌, ◌&&◌, not, length, Ok, Err, Some, None, IfOk, IfErr, IfSome, OnOk, slice_get, slice_set, All, replicate, false, if◌then◌else◌};
ghost use Rattle.plan_base.specs.Held.{IsGoodReservation};
ghost use Rattle.reservations.specs.Reservations.{is_for, without_earliest, set_free};
ghost use Rattle.reservations.specs.Marks.{unmarked};

use crate::NotReserved;
use plan_base::{Held, Reservation};

// Whether a reservation with this mark matches the item, and no earlier item has taken it.
fn is_left_for(item: &Held, reservation: &Reservation, mark: bool) -> bool
    ensures { result ≡ (not mark && is_for item.now reservation.now) }
{
    reservation.amount == item.amount && !mark && reservation.dir == item.dir
}

// Marks the earliest unmarked reservation of an item, if one exists.
fn mark_earliest(list: &[Reservation], marks: &mut [bool], item: &Held) -> bool
    requires { length marks.old ≡ length list.now }
    ensures marked { without_earliest item.now (unmarked list.now marks.old)
        ≡ (if result then Some (unmarked list.now marks.new) else None) }
    ensures len { length marks.new ≡ length marks.old }
{
    for place in 0..list.len() {
        if is_left_for(item, &list[place], marks[place]) {
            marks[place] = true;
            return true;
        }
    }
    false
}

/// Marks for each item the earliest unmarked reservation, up to the first item without one.
pub fn mark_all(list: &[Reservation], marks: &mut [bool], path: &[Held]) -> Result<(), NotReserved>
    requires { length marks.old ≡ length list.now }
    ensures ok { OnOk result (set_free path.now 0 (unmarked list.now marks.old) ≡ Ok (unmarked list.now marks.new)) }
    ensures err { IfErr result (λ refusal. set_free path.now 0 (unmarked list.now marks.old) ≡ Err refusal.index) }
    ensures len { length marks.new ≡ length marks.old }
{
    for index in 0..path.len() {
        if !mark_earliest(list, marks, &path[index]) {
            return Err(NotReserved { index });
        }
    }
    Ok(())
}

/// Removes the marked reservations. The others keep their order.
#[tactic(auto, using(crate::proofs::Unmarked::unmarked_good))]
pub fn drop_marked(list: &mut Vec<Reservation>, marks: &[bool])
    requires { length marks.now ≡ length list.old.items }
    ensures kept { list.new.items ≡ unmarked list.old.items marks.now }
    ensures shorter { length list.new.items ≤ length list.old.items }
    ensures good { All IsGoodReservation list.old.items → All IsGoodReservation list.new.items }
{
    let mut kept = 0;
    for place in 0..list.len() {
        if !marks[place] {
            move_down(list, place, kept);
            kept += 1;
        }
    }
    list.truncate(kept);
}

// Copies a reservation to an earlier position, or leaves it where it is.
fn move_down(list: &mut Vec<Reservation>, from: usize, to: usize)
    requires within { from < length list.old.items }
    requires down { to ≤ from }
    ensures { IfSome (slice_get list.old.items from)
        (λ reservation. list.new.items ≡ slice_set list.old.items to reservation) }
{
    if to < from {
        list[to] = list[from];
    }
}

/// Leaves `count` marks, none of them set.
pub fn clear(marks: &mut Vec<bool>, count: usize)
    requires { count ≤ length marks.old.items }
    ensures { marks.new.items ≡ replicate count false }
{
    marks.truncate(count);
    marks.fill(false);
}
