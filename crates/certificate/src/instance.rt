ghost use Rattle.std.specs.Prelude.{◌≡◌, IfNone, IfOk, IfSome, IsFalse, IsTrue};
ghost use Rattle.certificate.specs.Cert.{arcs_in};
ghost use Rattle.certificate.specs.Order.{AreSorted, Follows};

use crate::cert::{Cert, Load};
use flow_model::{Arc, AsArc, Instance};
use plan_base::NoMemory;
use std::alloc::Global;

impl Cert {
    /// The instance that the certificate is about. None if and only if its arcs are not in order by direction: the
    /// directions never fall, and the arcs of one direction have equal ends and costs that never fall.
    pub fn instance(&self, alloc: Global) -> Result<Option<Instance>, NoMemory>
        ensures instance { IfOk result (λ o. IfSome o (λ i. i ≡ self.now.net)) }
        ensures sorted { IfOk result (λ o. IfSome o (λ i. AreSorted self.now.net.arcs)) }
        ensures none { IfOk result (λ o. IfNone o (AreSorted self.now.net.arcs → ⊥)) }
    {
        let arcs = arcs_of(alloc, &self.loads)?;
        if !are_sorted(&arcs) {
            return Ok(None);
        }
        Ok(Some(Instance::new(
            self.problem.nodes as u32,
            self.problem.source as u32,
            self.problem.destination as u32,
            self.problem.demand,
            arcs,
        )))
    }
}

/// The arcs without their units.
fn arcs_of(alloc: Global, loads: &[Load]) -> Result<Vec<Arc>, NoMemory>
    ensures { IfOk result (λ arcs. arcs.items ≡ arcs_in loads.now) }
{
    let mut arcs = Vec::with_capacity(alloc, loads.len())?;
    for load in loads {
        arcs.push(load.arc())?;
    }
    Ok(arcs)
}

/// Whether the arcs are in order by direction.
fn are_sorted(arcs: &[Arc]) -> bool
    ensures yes { IsTrue result → AreSorted arcs.now }
    ensures no { IsFalse result → AreSorted arcs.now → ⊥ }
{
    for i in 1..arcs.len() {
        if !follows(arcs[i - 1], arcs[i]) {
            return false;
        }
    }
    true
}

/// Whether an arc may be right after another one.
fn follows(earlier: Arc, later: Arc) -> bool
    ensures yes { IsTrue result → Follows earlier later }
    ensures no { IsFalse result → Follows earlier later → ⊥ }
{
    if earlier.dir != later.dir {
        return earlier.dir < later.dir;
    }
    if earlier.from != later.from {
        return false;
    }
    if earlier.to != later.to {
        return false;
    }
    earlier.cost <= later.cost
}
