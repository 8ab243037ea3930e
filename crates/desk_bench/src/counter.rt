ghost use Rattle.std.specs.Prelude.{◌≡◌, ℕ, ◌+◌, ◌%◌, ◌^◌};

use one_history::Object;
use plan_base::NoMemory;
use std::alloc::Global;

/// Adds amounts up, modulo 2^64. A reply is the sum before.
#[derive(Drop)]
pub struct Counter {
    pub total: u64,
}

impl Object for Counter {
    type Command = u64;

    type Reply = u64;

    ghost start = { record { total = 0 } };

    ghost good = { λ _. Unit {0} };

    ghost next = { λ counter caller moment amount. record { total = (counter.total + amount) % 2 ^ 64 } };

    ghost reply = { λ counter caller moment amount. counter.total };

    fn fresh(_alloc: Global) -> Result<Self, NoMemory> {
        Ok(Counter { total: 0 })
    }

    fn step(
        &mut self,
        _alloc: Global,
        _caller: u32,
        _moment: u64,
        amount: &u64,
    ) -> Result<u64, NoMemory> {
        let before = self.total;
        self.total = before.wrapping_add(*amount);
        Ok(before)
    }
}
