ghost use Rattle.std.specs.Prelude.{◌≡◌};
ghost use Rattle.workload.specs.Laws.{ChannelsHaveTwoEnds, PaymentsHaveTwoEnds};
ghost use Rattle.workload.specs.declared.limits.TheConstants.{NODES_MIN, NODES_MAX, CHANNELS_MAX, ASKS_MAX};

/// The values of the limits. It does nothing when it runs.
pub fn limit_values()
    ensures fewest_nodes { NODES_MIN ≡ 2 }
    ensures most_nodes { NODES_MAX ≡ 65536 }
    ensures channels { CHANNELS_MAX ≡ 131072 }
    ensures asks { ASKS_MAX ≡ 10000 }
{}

/// The law that each channel is between two different nodes, and that each payment is from one node to another. It does
/// nothing when it runs.
#[tactic(auto, using(crate::proofs::Ends::channels_have_two_ends, crate::proofs::Ends::payments_have_two_ends))]
pub fn ends_differ()
    ensures channels { ChannelsHaveTwoEnds }
    ensures payments { PaymentsHaveTwoEnds }
{}
