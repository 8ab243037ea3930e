ghost use Rattle.std.specs.Prelude.{◌≡◌, ◌≤◌, ℕ};
ghost use Rattle.workload.specs.Draws.{state_after};
ghost use Rattle.workload.specs.Payment.{payment_from, payment_draws};

use crate::draws::Draws;
use crate::limits::{NODES_MAX, NODES_MIN};
use crate::node::other_node;

/// A payment from one node to another, with its amount in msat.
#[derive(Clone, Copy, Debug)]
pub(crate) struct Payment {
    pub(crate) source: u32,
    pub(crate) destination: u32,
    pub(crate) amount: u64,
}

/// Draws a payment.
#[tactic(auto, unfolding(crate::specs::Payment::payment_from))]
pub(crate) fn draw_payment(draws: &mut Draws, nodes: u32) -> Payment
    requires some { NODES_MIN ≤ nodes }
    requires few { nodes ≤ NODES_MAX }
    ensures payment { result ≡ payment_from nodes draws.old }
    ensures draws { draws.new ≡ state_after payment_draws draws.old }
{
    let source = draws.draw() % nodes;
    let destination = other_node(nodes, source, draws.draw());
    let amount = u64::from(1 + draws.draw() % 2000) * 1_000_000;
    Payment {
        source,
        destination,
        amount,
    }
}
