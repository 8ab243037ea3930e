ghost use Rattle.std.specs.Prelude.{◌≡◌, ◌≤◌, ◌<◌, ℕ};
ghost use Rattle.workload.specs.Draws.{state_after};
ghost use Rattle.workload.specs.Channel.{policy_from, channel_from, channel_draws};

use crate::draws::Draws;
use crate::limits::{NODES_MAX, NODES_MIN};
use crate::node::other_node;

/// The policy of a direction: its base fee in msat, its proportional fee in ppm and its CLTV delta.
#[derive(Clone, Copy, Debug)]
pub(crate) struct Policy {
    pub(crate) base: u64,
    pub(crate) ppm: u64,
    pub(crate) delay: u64,
}

/// A channel between two nodes, with its capacity in msat and the policy of both directions.
#[derive(Clone, Copy, Debug)]
pub(crate) struct Channel {
    pub(crate) first: u32,
    pub(crate) second: u32,
    pub(crate) capacity: u64,
    pub(crate) forward: Policy,
    pub(crate) backward: Policy,
}

/// Draws the policy of a direction.
fn draw_policy(draws: &mut Draws) -> Policy
    ensures policy { result ≡ policy_from draws.old }
    ensures draws { draws.new ≡ state_after 3 draws.old }
{
    let base = u64::from(draws.draw()) % 1000;
    let ppm = u64::from(draws.draw()) % 500;
    let delay = 6 + u64::from(draws.draw()) % 139;
    Policy { base, ppm, delay }
}

/// Draws the channel at a place.
#[tactic(auto, unfolding(crate::specs::Channel::channel_from))]
pub(crate) fn draw_channel(draws: &mut Draws, nodes: u32, place: u32) -> Channel
    requires some { NODES_MIN ≤ nodes }
    requires few { nodes ≤ NODES_MAX }
    ensures channel { result ≡ channel_from nodes place draws.old }
    ensures draws { draws.new ≡ state_after channel_draws draws.old }
{
    let first = place % nodes;
    let second = other_node(nodes, first, draws.draw());
    let capacity = u64::from(1 + draws.draw() % 5000) * 1_000_000;
    let forward = draw_policy(draws);
    let backward = draw_policy(draws);
    Channel {
        first,
        second,
        capacity,
        forward,
        backward,
    }
}
