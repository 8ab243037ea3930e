/// The most nodes of an instance: 2^24.
pub const NODES_MAX: u32 = 16_777_216;

/// The most arcs of an instance: one less than 2^26.
pub const ARCS_MAX: u32 = 67_108_863;

/// The greatest cost of a unit over an arc: one less than 2 * 10^12.
pub const COST_MAX: u64 = 1_999_999_999_999;

/// The greatest absolute value of a potential: one less than 10^24.
pub const POTENTIAL_MAX: u128 = 999_999_999_999_999_999_999_999;
