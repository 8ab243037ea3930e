use plan_base::{Dir, NodeId, Scid};

/// The greatest number of entries in one layer, its five lists together.
pub const ENTRIES_MAX: usize = 65_536;

/// The lowest bias, in percent.
pub const BIAS_MIN: i8 = -100;

/// The highest bias, in percent.
pub const BIAS_MAX: i8 = 100;

/// A channel that a layer creates.
#[derive(Clone, Copy, Debug, PartialEq, Eq)]
pub struct Created {
    /// The channel's id.
    pub scid: Scid,
    /// One end.
    pub source: NodeId,
    /// The other end, another node than the source.
    pub destination: NodeId,
    /// The capacity, 1 to MAX msat.
    pub capacity: u64,
}

/// Changed fields of a direction. A field that is not given keeps its value from outside the layer.
#[derive(Clone, Copy, Debug, PartialEq, Eq)]
pub struct Update {
    /// The direction.
    pub dir: Dir,
    /// Whether payments may use it.
    pub enabled: Option<bool>,
    /// The least amount of an HTLC, at most MAX msat.
    pub htlc_min: Option<u64>,
    /// The greatest amount of an HTLC, at most MAX msat.
    pub htlc_max: Option<u64>,
    /// The base fee, in msat.
    pub base: Option<u32>,
    /// The proportional fee, in parts per million.
    pub ppm: Option<u32>,
    /// The CLTV delta, in blocks.
    pub delay: Option<u16>,
}

/// Which side of a direction's liquidity a constraint bounds.
#[derive(Clone, Copy, Debug, PartialEq, Eq)]
pub enum Bound {
    /// The liquidity is at most the amount.
    Max,
    /// The liquidity is at least the amount.
    Min,
}

/// A bound on a direction's liquidity that a caller reported.
#[derive(Clone, Copy, Debug, PartialEq, Eq)]
pub struct Constraint {
    /// The direction.
    pub dir: Dir,
    /// Which side is bounded.
    pub bound: Bound,
    /// The bound, at most MAX msat.
    pub amount: u64,
    /// When it was reported, in Unix seconds.
    pub moment: u64,
}

/// A preference for or against a direction.
#[derive(Clone, Copy, Debug, PartialEq, Eq)]
pub struct Bias {
    /// The direction.
    pub dir: Dir,
    /// From `BIAS_MIN` to `BIAS_MAX` percent; a positive bias favours the direction.
    pub bias: i8,
}
