ghost use Rattle.std.specs.Prelude.{◌≡◌, ◌+◌, ◌≤◌, [], ◌∷◌, ◌++◌, length, replicate, All, Ok, Err, IfErr, OnOk, OnErr, false, vec_len, vec_capacity};
ghost use Rattle.plan_base.specs.Held.{IsGoodHeld};
ghost use Rattle.reservations.specs.Reservations.{with_reserved, refusal_of_reserve, IsGoodList, IsReserveRefusal, set_free};

use crate::free::{clear, drop_marked, mark_all};
use crate::one::free_one;
use crate::{NotReserved, ReserveRefusal};
use plan_base::{Held, NoMemory, Reservation};
use std::alloc::Global;
use std::marker::Model;

/// The greatest number of reservations.
pub const RESERVATIONS_MAX: usize = 65_536;

/// The reservations, in the order in which they were made. Contracts see them as a list.
#[derive(Debug, Drop)]
pub struct Reservations {
    list: Vec<Reservation>,
    // One mark for each reservation, so that `unreserve` needs no memory. Between calls no mark is set.
    marks: Vec<bool>,
}

impl Model for Reservations {
    ghost use Rattle.std.specs.Prelude.{◌≡◌, List, length, false, replicate};
    ghost use Rattle.plan_base.specs.declared.held.Reservation.{Reservation};
    ghost use Rattle.reservations.specs.Reservations.{IsGoodList};

    ghost Value = { List Reservation };

    ghost view = { λ r. r.list.items };

    ghost invariant = { λ r. IsGoodList r.list.items × (r.marks.items ≡ replicate (length r.list.items) false) };
}

impl Reservations {
    /// No reservations. Allocates nothing.
    pub fn new(alloc: Global) -> Reservations
        ensures empty { result ≡ [] }
        ensures limit { RESERVATIONS_MAX ≡ 65536 }
    {
        Reservations {
            list: Vec::new(alloc),
            marks: Vec::new(alloc),
        }
    }

    /// All reservations, in the order in which they were made.
    pub fn list(&self) -> &[Reservation]
        ensures list { result.now ≡ self.now }
        ensures good { IsGoodList self.now }
    {
        self.list.as_slice()
    }

    /// Appends a reservation for each item, in order, for a caller at a time in Unix seconds. Reserves nothing if the limit
    /// would be exceeded, or when out of memory.
    pub fn reserve(&mut self, path: &[Held], now: u64, caller: u32) -> Result<(), ReserveRefusal>
        requires { All IsGoodHeld path.now }
        ensures ok { OnOk result (self.new ≡ with_reserved self.old path.now now caller) }
        ensures err { OnErr result (self.new ≡ self.old) }
        ensures refusal { IsReserveRefusal (refusal_of_reserve self.old path.now) result }
    {
        let length = self.list.len();
        if path.len() > RESERVATIONS_MAX - length {
            return Err(ReserveRefusal::Full { length });
        }
        append(&mut self.list, &mut self.marks, path, now, caller)?;
        Ok(())
    }

    /// Removes a reservation for each item: the earliest one of its direction and amount that no earlier item has taken,
    /// whoever made it. If an item has no such reservation, refuses the first such item and removes nothing. Allocates
    /// nothing.
    pub fn unreserve(&mut self, path: &[Held]) -> Result<(), NotReserved>
        ensures ok { OnOk result (set_free path.now 0 self.old ≡ Ok self.new) }
        ensures err { OnErr result (self.new ≡ self.old) }
        ensures refusal { IfErr result (λ refusal. set_free path.now 0 self.old ≡ Err refusal.index) }
    {
        if let [item] = path {
            return self.unreserve_one(item);
        }
        match mark_all(&self.list, &mut self.marks, path) {
            Ok(()) => {
                drop_marked(&mut self.list, &self.marks);
                clear(&mut self.marks, self.list.len());
                Ok(())
            }
            Err(refusal) => {
                clear(&mut self.marks, self.list.len());
                Err(refusal)
            }
        }
    }

    // A single item needs no marks: its reservation can be removed at once.
    fn unreserve_one(&mut self, item: &Held) -> Result<(), NotReserved>
        ensures ok { OnOk result (set_free (item.now ∷ []) 0 self.old ≡ Ok self.new) }
        ensures err { OnErr result (self.new ≡ self.old) }
        ensures refusal { IfErr result (λ refusal. set_free (item.now ∷ []) 0 self.old ≡ Err refusal.index) }
    {
        if !free_one(&mut self.list, item) {
            return Err(NotReserved { index: 0 });
        }
        self.marks.truncate(self.list.len());
        Ok(())
    }
}

// Appends a reservation and a mark for each item. An `Err` leaves both lists unchanged.
fn append(
    list: &mut Vec<Reservation>,
    marks: &mut Vec<bool>,
    path: &[Held],
    now: u64,
    caller: u32,
) -> Result<(), NoMemory>
    requires few { length marks.old.items + length path.now ≤ RESERVATIONS_MAX }
    ensures ok { OnOk result (list.new.items ≡ with_reserved list.old.items path.now now caller) }
    ensures marks { OnOk result (marks.new.items ≡ marks.old.items ++ replicate (length path.now) false) }
    ensures err { OnErr result (list.new.items ≡ list.old.items) }
    ensures marks_err { OnErr result (marks.new.items ≡ marks.old.items) }
{
    list.reserve(path.len())?;
    marks.resize(marks.len() + path.len(), false)?;
    push_reservations(list, path, now, caller);
    Ok(())
}

// Appends a reservation for each item. The list must have room for them.
fn push_reservations(list: &mut Vec<Reservation>, path: &[Held], now: u64, caller: u32)
    requires room { vec_len list.old + length path.now ≤ vec_capacity list.old }
    ensures { list.new.items ≡ with_reserved list.old.items path.now now caller }
{
    for item in path {
        let reservation = Reservation {
            dir: item.dir,
            amount: item.amount,
            caller,
            moment: now,
        };
        list.push(reservation).unwrap();
    }
}
