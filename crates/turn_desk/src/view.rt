use one_history::Entry;
use std::collections::LinkedList;

/// What is kept of a number: the calls that were committed under it, and the part of the history that its pass has seen.
pub struct Kept<M> {
    pub number: u64,
    pub calls: LinkedList<Entry<M>>,
    pub seen: LinkedList<Entry<M>>,
}

/// What a pass or a note knows. Only contracts and proofs speak of it: no value of this type is ever made.
pub struct View<M> {
    /// The number under which its entries are committed.
    pub number: u64,
    /// The first part of the history, which it has seen.
    pub seen: LinkedList<Entry<M>>,
    /// Its own entries.
    pub calls: LinkedList<Entry<M>>,
    /// How many turns it has drawn.
    pub draws: u64,
    /// The numbers that it has taken in, with what is kept of each.
    pub taken_in: LinkedList<Kept<M>>,
    /// The numbers of the passes and notes that were made from it, or from one that it has taken in.
    pub made_from: LinkedList<u64>,
    /// How many passes and notes the desk had made at its last turn.
    pub made: u64,
    /// It has drawn this ticket, and has not left its turn.
    pub has_ticket: bool,
    pub ticket: u64,
    /// Its ticket was served, and it was handed these entries.
    pub has_turn: bool,
    pub handed: LinkedList<Entry<M>>,
    /// It has the turn and has seen what it was handed.
    pub has_read: bool,
    /// What it had itself seen before it took in another, until it learns that this was a part of the same history.
    pub seen_before: LinkedList<Entry<M>>,
    /// It was taken in by another.
    pub spent: bool,
}
