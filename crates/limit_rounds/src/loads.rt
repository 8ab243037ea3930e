ghost use Rattle.std.specs.Prelude.{◌≡◌, ◌+◌, ◌<◌, ◌^◌, ℕ, All, IfOk, length, zip};
ghost use Rattle.round_rules.specs.Amounts.{carried, total_on};
ghost use Rattle.limit_rounds.specs.Loads.{AreGoodRoutes, load_after, load_at, load_on, no_load, with_hop};

use fee_backward::Hop;
use plan_base::NoMemory;
use round_rules::Route;
use std::alloc::Global;

/// What the parts carry over a direction, in msat: all together, the least, and the greatest of them.
#[derive(Clone, Copy, Debug)]
pub(crate) struct Load {
    pub total: u128,
    pub least: u64,
    pub most: u64,
}

impl Load {
    /// Nothing is carried.
    fn none() -> Load
        ensures { result ≡ no_load }
    {
        Load {
            total: 0,
            least: u64::MAX,
            most: 0,
        }
    }

    /// One more part carries this amount.
    fn with_hop(self, carried: u64) -> Load
        requires { self.total + carried < 2 ^ 128 }
        ensures { result ≡ with_hop self carried }
    {
        Load {
            total: self.total + u128::from(carried),
            least: self.least.min(carried),
            most: self.most.max(carried),
        }
    }
}

/// What the routes carry over each direction.
pub(crate) fn loads(alloc: Global, count: usize, routes: &[Route]) -> Result<Vec<Load>, NoMemory>
    requires { AreGoodRoutes count routes.now }
    ensures long { IfOk result (λ all. length all.items ≡ count) }
    ensures value { IfOk result (λ all. (d : ℕ) → d < count → load_at all.items d ≡ load_on d (carried routes.now)) }
{
    let mut all = vec![in alloc; Load::none(); count]?;
    for route in routes {
        add_route(&mut all, route.path.as_slice(), route.hops.as_slice());
    }
    Ok(all)
}

/// Adds what a route carries over each direction.
fn add_route(loads: &mut Vec<Load>, path: &[u32], hops: &[Hop])
    requires long { length hops.now ≡ length path.now }
    requires within { All (λ d. d < length loads.old.items) path.now }
    requires fits { (d : ℕ) → (load_at loads.old.items d).total + total_on d (zip path.now hops.now) < 2 ^ 128 }
    ensures long { length loads.new.items ≡ length loads.old.items }
    ensures value { (d : ℕ) → d < length loads.old.items → load_at loads.new.items d ≡ load_after d (load_at loads.old.items d) (zip path.now hops.now) }
{
    for i in 0..path.len() {
        let dir = path[i] as usize;
        loads[dir] = loads[dir].with_hop(hops[i].carried);
    }
}
