use one_history::Object;
use turn_desk::Pass;

/// What one worker works with: an acceptor, and the clock of the connections that it serves.
#[derive(Debug, Drop)]
pub struct Worker<A, C> {
    pub acceptor: A,
    pub clock: C,
}

/// A connection that was served: the number that was drawn for it, the number of its pass, and how it ended.
#[derive(Debug, Drop)]
pub struct Session<E> {
    pub number: u32,
    pub caller: u32,
    pub end: E,
}

/// Why a worker stopped while there were connections left. `worker` is its place among the workers.
#[derive(Clone, Copy, Debug, PartialEq, Eq)]
pub enum WorkFault {
    /// Its acceptor failed.
    Accept { worker: u32 },
    /// Out of memory.
    NoMemory { worker: u32 },
}

/// What workers have done. Each worker is at its place.
#[derive(Drop)]
pub struct Worked<O: Object, A, C, E> {
    pub pass: Pass<O>,
    pub workers: Vec<Worker<A, C>>,
    pub sessions: Vec<Session<E>>,
    pub faults: Vec<WorkFault>,
}

/// Out of memory before any worker began.
#[derive(Drop)]
pub struct Unworked<O: Object> {
    pub pass: Pass<O>,
}
