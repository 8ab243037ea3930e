/// How a run of a workload ended.
#[derive(Clone, Copy, Debug, PartialEq, Eq)]
pub enum GenEnd {
    /// All requests were answered, and the summary was written.
    Done,
    /// A write of the output failed.
    WriteFault,
    /// Out of memory, also if only a reply says so.
    NoMemory,
}
