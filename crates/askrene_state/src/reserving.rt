ghost use Rattle.std.specs.Prelude.{◌≡◌, All, IfOk, OnErr};
ghost use Rattle.plan_base.specs.Held.{IsGoodHeld};
ghost use Rattle.askrene_command.specs.declared.reply.EventReply.TheVariants.{Reservations as listing};
ghost use Rattle.askrene_state.specs.ReservationSteps.{reserve_step, unreserve_step};

use askrene_command::{EventReply, Refusal};
use plan_base::{Held, Items, NoMemory};
use reservations::{NotReserved, Reservations, ReserveRefusal};
use std::alloc::Global;

/// Reserves all items for a caller at a time in Unix seconds, or none.
pub fn reserve(
    reservations: &mut Reservations,
    caller: u32,
    moment: u64,
    path: &[Held],
) -> Result<EventReply, NoMemory>
    requires { All IsGoodHeld path.now }
    ensures step { IfOk result (λ reply. (reservations.new, reply) ≡ reserve_step reservations.old caller moment path.now) }
    ensures err { OnErr result (reservations.new ≡ reservations.old) }
{
    match reservations.reserve(path, moment, caller) {
        Ok(()) => Ok(EventReply::Done),
        Err(ReserveRefusal::Full { length }) => {
            Ok(EventReply::Refused(Refusal::ReservationsFull { length }))
        }
        Err(ReserveRefusal::NoMemory) => Err(NoMemory),
    }
}

/// Sets all items free, or none. Allocates nothing.
pub fn unreserve(reservations: &mut Reservations, path: &[Held]) -> EventReply
    ensures { (reservations.new, result) ≡ unreserve_step reservations.old path.now }
{
    match reservations.unreserve(path) {
        Ok(()) => EventReply::Done,
        Err(NotReserved { index }) => EventReply::Refused(Refusal::NotReserved { index }),
    }
}

/// A copy of all reservations, with the time of the call.
pub fn list(alloc: Global, reservations: &Reservations, moment: u64) -> Result<EventReply, NoMemory>
    ensures { IfOk result (λ reply. reply ≡ listing moment reservations.now) }
{
    let mut list = Vec::new(alloc);
    list.extend_from_slice(reservations.list())?;
    Ok(EventReply::Reservations {
        now: moment,
        list: Items::from_vec(list),
    })
}
