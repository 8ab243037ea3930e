/// The greatest number of lines of a session.
pub const LINES_MAX: u32 = 1_000_000;
