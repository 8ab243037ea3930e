ghost use Rattle.std.specs.Prelude.{All, IfOk, List, ℕ};
ghost use Rattle.flow_model.specs.Flow.{IsCheapest, IsFeasible, IsFilledInOrder};
ghost use Rattle.flow_model.specs.Potentials.{IsSmall, ShowsCheapest};
ghost use Rattle.flow_model.specs.Side.{Cuts};
ghost use Rattle.flow_model.specs.Solved.{IfCut, IfFlow};

use crate::{Flow, Instance};
use plan_base::{Items, NoMemory};
use std::alloc::Global;

/// A cheapest flow with potentials that show it, or a side that shows that no flow is feasible.
#[derive(Debug, Drop)]
pub enum Solved {
    /// Units for each arc, and a potential for each node.
    Flow { flow: Flow, potentials: Items<i128> },
    /// For each node whether it is on the side of the source.
    Cut { side: Items<bool> },
}

/// A solver of instances. It returns a flow if and only if one is feasible.
pub trait Solve {
    /// A cheapest flow, which fills each direction's arcs in order, with potentials of at most `POTENTIAL_MAX` in
    /// absolute value; or a side, if no flow is feasible.
    fn solve(&self, alloc: Global, instance: &Instance) -> Result<Solved, NoMemory>
        ensures cheapest { IfOk result (λ s. IfFlow s (λ flow p. IsCheapest instance.now flow)) }
        ensures in_order { IfOk result (λ s. IfFlow s (λ flow p. IsFilledInOrder instance.now flow)) }
        ensures shown { IfOk result (λ s. IfFlow s (λ flow p. ShowsCheapest instance.now flow p)) }
        ensures small { IfOk result (λ s. IfFlow s (λ flow p. All IsSmall p)) }
        ensures cuts { IfOk result (λ s. IfCut s (λ side. Cuts instance.now side)) }
        ensures no_flow { IfOk result (λ s. IfCut s (λ side. (flow : List ℕ) → IsFeasible instance.now flow → ⊥)) };
}
