use keys::Code;
use latches::Permit;
use terms::{Answer, Cause, Kind};

/// What an operation is to do with its key.
#[derive(Clone, Copy, Debug, PartialEq, Eq)]
pub enum Task {
    Find,
    Add(u32),
}

/// How an add goes on once it knows what to change.
#[derive(Clone, Copy, Debug, PartialEq, Eq)]
pub enum Course {
    /// The byte is free: a new leaf with this value goes under it.
    Insert(u32),
    /// Another leaf stands there: a node with both goes in its place.
    Split(u32),
}

/// What the next step of an operation does, and what that step needs to know.
#[derive(Clone, Copy, Debug, PartialEq, Eq)]
pub enum Stage {
    Take,
    Look(Permit),
    Check(Permit, Answer),
    Lock(Permit, Course),
    Draw(Course),
    Write(u16),
    Unlock,
}

/// What a look at a node finds under the key's byte.
#[derive(Clone, Copy, Debug, PartialEq, Eq)]
pub enum Sight {
    Nothing,
    Same(u32),
    Other,
}

/// What a step meets. One enum and no `Result` around it: the machine matches stage and meeting together.
#[derive(Clone, Copy, Debug, PartialEq, Eq)]
pub enum Met {
    /// A latch, or a look that came too late, refused; what was held is given back.
    Refused(Cause),
    /// A pool has no spare slot; what was held is given back.
    NoRoom(Kind),
    /// A permit was granted.
    Granted(Permit),
    /// A look saw this.
    Saw(Sight),
    /// A leaf was drawn, and filled in at this slot.
    Drew(u16),
    /// A check, lock, write or unlock was done.
    Done,
}

/// An operation that is open.
#[derive(Clone, Copy, Debug, PartialEq, Eq)]
pub struct Operation {
    pub(crate) task: Task,
    pub(crate) key: Code,
    /// The epoch at its begin.
    pub(crate) begun: u64,
    pub(crate) stage: Stage,
}
