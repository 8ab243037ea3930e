//! The counter of connections: workers draw numbers from it, each number once, and tell in the end which were drawn.
ghost use Rattle.std.specs.Prelude.{◌≡◌, ◌<◌, ◌≤◌, ◌+◌, ◌++◌, ◌∷◌, [], ℕ, IfOk};
ghost use Rattle.server.specs.Counter.{CounterRule, Whole, joined_drawn, kept_drawn, above, draws, learns, learns_whole, new_drawn, spent_drawn, new_part};
ghost use Rattle.server.specs.declared.limits.TheConstants.{CONNECTIONS_MAX, WORKERS_MAX};
ghost use Rattle.turn_desk.specs.Numbers.{AreDistinct, IsAmong};

use atomic_table::{Join, Play, Seat, Split, Table, TableRule};
use plan_base::NoMemory;
use std::alloc::Global;
use std::collections::LinkedList;
use std::marker::Model;

/// What a drawer knows. Only contracts and proofs speak of it: no value of this type is ever made.
pub struct Drawn {
    /// How many connections there are.
    pub connections: u64,
    /// The numbers that it has drawn or taken in.
    pub numbers: LinkedList<u64>,
    /// How many drawers it is, those that it has taken in included; 0 if it was taken in itself.
    pub parts: u64,
    /// How often it may still be split.
    pub splits: u64,
}

/// The rule of the counter's table. Its key is the number of connections.
pub struct EachOnce;

impl TableRule<(), Drawn, u64> for EachOnce {
    ghost holds = { CounterRule };

    ghost first = { new_drawn };
}

/// Draws the next number.
pub struct Draw;

impl Play<(), Drawn> for Draw {
    ghost then = { draws };
}

/// Learns that no number was drawn twice.
pub struct Learn;

impl Play<(), Drawn> for Learn {
    ghost then = { learns };
}

/// Learns which numbers all drawers have drawn, if it has taken in all others.
pub struct LearnWhole;

impl Play<(), Drawn> for LearnWhole {
    ghost then = { learns_whole };
}

/// Makes a drawer.
pub struct MakeDrawer;

impl Split<Drawn> for MakeDrawer {
    ghost left = { kept_drawn };

    ghost right = { new_part };
}

/// Takes another drawer in.
pub struct TakeIn;

impl Join<Drawn> for TakeIn {
    ghost both = { joined_drawn };

    ghost spent = { spent_drawn };
}

/// A right to draw numbers. It can move to another thread. Contracts see which counter made it, and what it knows.
#[derive(Drop)]
pub struct Drawer {
    seat: Seat<(), Drawn>,
}

impl Model for Drawer {
    ghost use Rattle.std.specs.Prelude.{◌≡◌, []};
    ghost use Rattle.atomic_table.specs.Seated.{TableId};
    ghost use Rattle.server.specs.declared.counter.Drawn.{Drawn};

    ghost Value = { TableId × Drawn };

    ghost view = { λ d. (d.seat.table_id, d.seat.me.0) };

    ghost invariant = { λ d. d.seat.me.1 ≡ [] };
}

/// The numbers from 0 on. Each is drawn once. Threads share the counter by reference. Contracts see which counter it is.
#[derive(Drop)]
pub struct Counter {
    table: Table<(), Drawn, u64, EachOnce, Global>,
}

impl Model for Counter {
    ghost use Rattle.std.specs.Prelude.{◌≡◌};
    ghost use Rattle.atomic_table.specs.Seated.{TableId};

    ghost Value = { TableId };

    ghost view = { λ c. c.table.shared.table_id };

    ghost invariant = { λ c. c.table.shared.table_id.words ≡ 1 };
}

impl Counter {
    /// A counter from which nothing was drawn, and its first drawer.
    pub fn open(alloc: Global, connections: u64) -> Result<(Counter, Drawer), NoMemory>
        requires { connections ≤ CONNECTIONS_MAX }
        ensures { IfOk result (λ opened. opened.1 ≡ (opened.0, new_drawn connections)) }
    {
        let (table, seat) = Table::of_words(alloc, &[0], &connections)?;
        Ok((Counter { table }, Drawer { seat }))
    }

    /// Draws the next number, which is above all that the drawer has drawn. A drawer draws at most one number that is no
    /// connection's.
    pub fn draw(&self, drawer: &mut Drawer) -> u64
        requires counter { drawer.old.0 ≡ self.now }
        requires going { above drawer.old.1.connections drawer.old.1.numbers < drawer.old.1.parts }
        ensures counter { drawer.new.0 ≡ drawer.old.0 }
        ensures drawn { drawer.new.1 ≡ record drawer.old.1 { numbers = drawer.old.1.numbers ++ result ∷ [] } }
        ensures ascending { (k : ℕ) → IsAmong k drawer.old.1.numbers → k < result }
    {
        self.table.shared.fetch_add::<Draw>(&mut drawer.seat, 0, 1)
    }

    /// Makes a drawer that has drawn nothing.
    pub fn split(&self, drawer: &mut Drawer) -> Drawer
        requires counter { drawer.old.0 ≡ self.now }
        requires splits { 0 < drawer.old.1.splits }
        requires parts { 0 < drawer.old.1.parts }
        ensures left { drawer.new ≡ (drawer.old.0, kept_drawn drawer.old.1) }
        ensures right { result ≡ (drawer.old.0, new_part drawer.old.1) }
    {
        let seat = self.table.shared.split_seat::<MakeDrawer>(&mut drawer.seat);
        Drawer { seat }
    }

    /// Takes another drawer in, with all that it has drawn. No number was drawn twice.
    pub fn join(&self, drawer: &mut Drawer, other: Drawer)
        requires counter { drawer.old.0 ≡ self.now }
        requires other { other.0 ≡ self.now }
        requires parts { 0 < drawer.old.1.parts }
        ensures both { drawer.new ≡ (drawer.old.0, joined_drawn drawer.old.1 other.1) }
        ensures distinct { AreDistinct drawer.new.1.numbers }
    {
        let Drawer { seat } = other;
        self.table
            .shared
            .join_seat::<TakeIn>(&mut drawer.seat, seat);
        self.table.shared.load::<Learn>(&mut drawer.seat, 0);
    }

    /// Learns what a drawer that has taken in all others knows: which numbers were drawn.
    pub fn tell(&self, drawer: &mut Drawer)
        requires counter { drawer.old.0 ≡ self.now }
        requires parts { 0 < drawer.old.1.parts }
        requires all { WORKERS_MAX + 1 ≤ drawer.old.1.parts + drawer.old.1.splits }
        ensures same { drawer.new ≡ drawer.old }
        ensures whole { Whole drawer.old.1 }
    {
        self.table.shared.load::<LearnWhole>(&mut drawer.seat, 0);
    }
}
