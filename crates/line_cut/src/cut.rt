use std::error::Error;
use std::fmt;

/// The outcome of a call whose reads did not fail.
#[derive(Clone, Copy, Debug, PartialEq, Eq)]
pub enum Cut {
    /// One more line.
    Line,
    /// The source has ended and all lines are cut.
    End,
    /// The next line has more than `LINE_MAX` bytes. Every later call returns the same.
    Long,
}

/// A read failed before the next line was whole. The source's count of faults has risen.
#[derive(Clone, Copy, Debug, PartialEq, Eq)]
pub struct ReadFault;

impl fmt::Display for ReadFault {
    fn fmt<W: fmt::Write>(&self, f: &mut fmt::Formatter<W>) -> fmt::Result {
        f.write_str("a read failed before the next line was whole")
    }
}

impl Error for ReadFault {}
