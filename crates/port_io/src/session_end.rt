/// How a session ended.
#[derive(Clone, Copy, Debug, PartialEq, Eq)]
pub enum SessionEnd {
    /// The input was read to its end.
    Done,
    /// A read of the input failed.
    ReadFault,
    /// A write of the output failed.
    WriteFault,
    /// Out of memory, even for the error reply.
    NoMemory,
    /// The input has more lines than a session may have.
    Full,
    /// A line was too long.
    Long,
}
