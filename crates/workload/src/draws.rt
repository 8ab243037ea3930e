ghost use Rattle.std.specs.Prelude.{◌≡◌, ◌<◌, ◌^◌, suc, ℕ};
ghost use Rattle.workload.specs.Draws.{stepped, drawn, state_after};

use std::marker::Model;

const FACTOR: u64 = 6_364_136_223_846_793_005;

const STEP: u64 = 1_442_695_040_888_963_407;

/// A generator of numbers of 31 bits, seen as its state.
#[derive(Clone, Copy, Debug)]
pub(crate) struct Draws {
    state: u64,
}

impl Model for Draws {
    ghost use Rattle.std.specs.Prelude.{ℕ};

    ghost Value = { ℕ };

    ghost view = { λ draws. draws.state };

    ghost inverse = { λ state. record { state = state } };
}

impl Draws {
    /// The draws from a number on.
    pub(crate) fn new(number: u64) -> Draws
        ensures { result ≡ number }
    {
        Draws { state: number }
    }

    /// The next number.
    #[tactic(auto, unfolding(crate::specs::Draws::stepped, crate::specs::Draws::drawn))]
    pub(crate) fn draw(&mut self) -> u32
        ensures state { self.new ≡ stepped self.old }
        ensures number { result ≡ drawn self.new }
        ensures bits { result < 2 ^ 31 }
    {
        self.state = self.state.wrapping_mul(FACTOR).wrapping_add(STEP);
        (self.state >> 33) as u32
    }

    /// Leaves out so many numbers.
    #[tactic(auto, using(crate::proofs::Turns::one_more_draw))]
    pub(crate) fn skip(&mut self, count: u32)
        ensures { self.new ≡ state_after count self.old }
    {
        for _turn in 0..count {
            self.draw();
        }
    }
}
