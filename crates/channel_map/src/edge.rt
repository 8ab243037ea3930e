use plan_base::{Dir, NodeId};

/// A direction of a channel, as a map lists it.
#[derive(Clone, Copy, Debug, PartialEq, Drop)]
pub struct Edge {
    /// The direction. Its side is 0 if the source's id is less than the destination's, else 1.
    pub dir: Dir,
    /// The node from which the direction leads.
    pub source: NodeId,
    /// The node to which the direction leads, not the source.
    pub destination: NodeId,
    /// The channel's capacity, 0 to `plan_base::MAX` msat.
    pub capacity: u64,
    /// The least amount of an HTLC, 0 to `plan_base::MAX` msat.
    pub htlc_min: u64,
    /// The greatest amount of an HTLC, 0 to `plan_base::MAX` msat.
    pub htlc_max: u64,
    /// The base fee, in msat.
    pub base: u32,
    /// The proportional fee, in millionths of the amount.
    pub ppm: u32,
    /// The delay, in blocks.
    pub delay: u16,
    /// Whether the direction forwards payments.
    pub enabled: bool,
}
