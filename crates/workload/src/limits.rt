/// The fewest nodes of a workload.
pub const NODES_MIN: u32 = 2;

/// The most nodes of a workload.
pub const NODES_MAX: u32 = 65_536;

/// The most channels of a workload.
pub const CHANNELS_MAX: u32 = 131_072;

/// The most requests of a workload.
pub const ASKS_MAX: u32 = 10_000;
