use flow_model::{Instance, Solve, Solved};
use plan_base::NoMemory;
use std::alloc::Global;
use std::cell::Cell;
use std::time::{Clock, Instant};

/// A solver whose calls are counted and timed.
#[derive(Drop)]
pub struct Watched<'a, R, S> {
    rt: &'a R,
    solver: &'a S,
    solves: Cell<u64>,
    micros: Cell<u64>,
}

impl<'a, R: Clock, S: Solve> Watched<'a, R, S> {
    /// Watches a solver.
    pub fn new(rt: &'a R, solver: &'a S) -> Watched<'a, R, S> {
        Watched {
            rt,
            solver,
            solves: Cell::new(0),
            micros: Cell::new(0),
        }
    }

    /// How many calls there were.
    pub fn solves(&self) -> u64 {
        self.solves.get()
    }

    /// The microseconds of all calls.
    pub fn micros(&self) -> u64 {
        self.micros.get()
    }
}

impl<'a, R: Clock, S: Solve> Solve for Watched<'a, R, S> {
    fn solve(&self, alloc: Global, instance: &Instance) -> Result<Solved, NoMemory> {
        let Ok(start) = Instant::now(self.rt) else {
            return Err(NoMemory);
        };
        let solved = self.solver.solve(alloc, instance)?;
        let Ok(elapsed) = start.elapsed(self.rt) else {
            return Err(NoMemory);
        };
        self.solves.set(self.solves.get().wrapping_add(1));
        let micros = u64::try_from(elapsed.as_micros()).unwrap_or(0);
        self.micros.set(self.micros.get().wrapping_add(micros));
        Ok(solved)
    }
}
