use crate::Dir;

/// An amount on a direction that is to be reserved or unreserved.
#[derive(Clone, Copy, Debug, PartialEq, Eq)]
pub struct Held {
    /// The direction.
    pub dir: Dir,
    /// The amount, at most MAX msat.
    pub amount: u64,
}

/// An amount that is reserved on a direction, because a payment over it is about to be sent.
#[derive(Clone, Copy, Debug, PartialEq, Eq)]
pub struct Reservation {
    /// The direction.
    pub dir: Dir,
    /// The amount, at most MAX msat.
    pub amount: u64,
    /// Who reserved it.
    pub caller: u32,
    /// When it was reserved, in seconds.
    pub moment: u64,
}
