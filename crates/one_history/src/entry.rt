/// One entry of a history: a caller's number, a moment, and the caller's command at that moment.
#[derive(Clone, Copy, Debug, Drop, PartialEq, Eq)]
pub struct Entry<M> {
    pub caller: u32,
    pub moment: u64,
    pub command: M,
}

/// What a caller is told about its entry: its place in the history, from 0, and the reply.
#[derive(Clone, Copy, Debug, Drop, PartialEq, Eq)]
pub struct Told<R> {
    pub at: u64,
    pub reply: R,
}
