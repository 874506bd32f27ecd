use crate::{Cause, Kind};

/// What an operation answered.
#[derive(Clone, Copy, Debug, PartialEq, Eq)]
pub enum Answer {
    /// A find found the key, with this value.
    Found(u32),
    /// A find did not find the key.
    Absent,
    /// An add put the key in.
    Added,
    /// An add met its key, with this value, and changed nothing.
    Present(u32),
    /// An add found no spare slot in this pool, and changed nothing.
    NoRoom(Kind),
}

/// A refusal that an operation met on its way: the cause, and the node with the count of key bytes before it.
#[derive(Clone, Copy, Debug, PartialEq, Eq)]
pub struct Clash {
    pub cause: Cause,
    pub kind: Kind,
    pub slot: u16,
    pub depth: u8,
}

/// What one step of an operation came to.
#[derive(Clone, Copy, Debug, PartialEq, Eq)]
pub enum Outcome {
    /// The operation goes on.
    Go,
    /// The operation starts again at the root.
    Again(Clash),
    /// The operation is over.
    Answered(Answer),
}
