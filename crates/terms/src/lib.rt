//! The words that every layer shares: refusals, causes and kinds, each with its number, and what a step comes to.

#![tactic(auto)]

mod outcome;

ghost use Rattle.std.specs.Prelude.{◌≡◌};
ghost use Rattle.terms.specs.Numbers.{refusal_number, cause_number, kind_number};

pub use outcome::{Answer, Clash, Outcome};

/// Why a call was refused. A refused call leaves everything as it was.
#[derive(Clone, Copy, Debug, PartialEq, Eq)]
pub enum Refusal {
    /// The seat's number is above 7.
    NoSuchSeat,
    /// The seat is not open.
    NotOpen,
    /// The seat is open already.
    AlreadyOpen,
    /// The seat has an operation open.
    Busy,
    /// The seat is open and has no operation.
    NoOperation,
    /// The coding does not accept the key, or no key has these bytes.
    Key,
    /// As many calls were accepted as an index takes.
    CallLimit,
    /// The line passes the buffer's end.
    BufferEnd,
    /// The line is outside the grammar.
    Grammar,
    /// The script has too many bytes.
    ScriptLength,
}

impl From<Refusal> for u8 {
    ghost from_gives = { λ refusal n. n ≡ refusal_number refusal };

    fn from(refusal: Refusal) -> u8 {
        match refusal {
            Refusal::NoSuchSeat => 1,
            Refusal::NotOpen => 2,
            Refusal::AlreadyOpen => 3,
            Refusal::Busy => 4,
            Refusal::NoOperation => 5,
            Refusal::Key => 6,
            Refusal::CallLimit => 7,
            Refusal::BufferEnd => 8,
            Refusal::Grammar => 9,
            Refusal::ScriptLength => 10,
        }
    }
}

/// Why a latch refused.
#[derive(Clone, Copy, Debug, PartialEq, Eq)]
pub enum Cause {
    /// The node was taken out of the tree.
    Gone,
    /// Another operation holds the lock.
    Locked,
    /// The node changed since the permit was taken.
    Changed,
    /// Too many permits are out.
    Shared,
}

impl From<Cause> for u8 {
    ghost from_gives = { λ cause n. n ≡ cause_number cause };

    fn from(cause: Cause) -> u8 {
        match cause {
            Cause::Gone => 1,
            Cause::Locked => 2,
            Cause::Changed => 3,
            Cause::Shared => 4,
        }
    }
}

/// What a slot holds: a leaf, or a node with room for that many children.
#[derive(Clone, Copy, Debug, PartialEq, Eq)]
pub enum Kind {
    Leaf,
    Node4,
    Node16,
    Node48,
    Node256,
}

impl From<Kind> for u16 {
    ghost from_gives = { λ kind n. n ≡ kind_number kind };

    fn from(kind: Kind) -> u16 {
        match kind {
            Kind::Leaf => 1,
            Kind::Node4 => 4,
            Kind::Node16 => 16,
            Kind::Node48 => 48,
            Kind::Node256 => 256,
        }
    }
}
