ghost use Rattle.std.specs.Prelude.{◌≡◌, ℕ, IfOk, OnErr};

use plan_base::NoMemory;
use std::alloc::Global;

/// A value that commands change one at a time, with a reply to each.
///
/// The effect of a command is a function of the value, the caller's number, the moment and the command: `next` is the value
/// after it, and `reply` is the reply to its caller. A journal keeps the commands, so each of them has to be `good`.
pub trait Object: Sized {
    /// What a caller asks for.
    type Command;

    /// What the caller is told.
    type Reply;

    ghost start: { Self };

    ghost good: { Self.Command → Type 0 };

    ghost next: { Self → ℕ → ℕ → Self.Command → Self };

    ghost reply: { Self → ℕ → ℕ → Self.Command → Self.Reply };

    /// The value before any command.
    fn fresh(alloc: Global) -> Result<Self, NoMemory>
        ensures { IfOk result (λ o. o ≡ start) };

    /// Does a command of a caller at a moment. When out of memory, nothing has changed.
    fn step(
        &mut self,
        alloc: Global,
        caller: u32,
        moment: u64,
        command: &Self::Command,
    ) -> Result<Self::Reply, NoMemory>
        requires { good command.now }
        ensures next { IfOk result (λ _. self.new ≡ next self.old caller moment command.now) }
        ensures reply { IfOk result (λ r. r ≡ reply self.old caller moment command.now) }
        ensures err { OnErr result (self.new ≡ self.old) };
}
