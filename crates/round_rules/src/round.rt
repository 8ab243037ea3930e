use fee_backward::Hop;
use path_split::Part;
use plan_base::Items;

/// A limit that a round sets to one direction of the view.
#[derive(Clone, Copy, Debug, PartialEq, Eq)]
pub struct Cap {
    /// The direction's index in the view.
    pub dir: u32,
    /// The most units that may go over the direction.
    pub cap: u64,
    /// How many faults have listed the direction, 1 to 3.
    pub times: u8,
}

/// What is wrong with the parts of a round: the first limit that they break.
#[derive(Debug, Drop)]
pub enum Fault {
    /// They keep all limits.
    None,
    /// There are more parts than allowed.
    TooManyParts,
    /// Over each of these directions all parts together carry more than its known maximum, or a part carries less than
    /// its HTLC minimum. The list is ascending.
    Directions(Items<u32>),
    /// Over each of these directions a part carries more than its HTLC maximum. The list is ascending.
    Htlc(Items<u32>),
    /// The sum of fees in msat, which is above the greatest fee.
    Fee { fee: u128 },
    /// The first part whose delay in blocks is above the greatest delay.
    Delay { part: u32, delay: u64 },
    /// No flow is feasible, so there are no parts.
    NoFlow,
}

/// A part with its amounts.
#[derive(Debug, Drop)]
pub struct Route {
    /// The amount in msat that arrives.
    pub delivered: u64,
    /// The directions from the source to the destination.
    pub path: Items<u32>,
    /// One hop for each direction.
    pub hops: Items<Hop>,
}

/// A round: what its problem and its parts depend on besides the view and the ask, the parts that were tried, and what is
/// wrong with them.
#[derive(Debug, Drop)]
pub struct Round {
    /// The amount of one unit, in msat.
    pub unit: u64,
    /// How much fees weigh, 0 to 8.
    pub fee_level: u8,
    /// How much delays weigh, 0 to 5.
    pub delay_level: u8,
    /// The most units of a part.
    pub size: u64,
    /// In ascending order of directions.
    pub caps: Items<Cap>,
    /// In ascending order of paths.
    pub parts: Items<Part>,
    pub fault: Fault,
}
