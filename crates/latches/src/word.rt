ghost use Rattle.std.specs.Prelude.{◌≡◌};
ghost use Rattle.latches.specs.Rules.{zero_word};

/// A node's word. Only a latch reads or writes it.
#[derive(Clone, Copy, Debug, Default, PartialEq, Eq)]
pub struct Word {
    pub(crate) bits: u64,
}

impl Word {
    /// The word that every node starts with.
    pub fn new() -> Word
        ensures { result ≡ zero_word }
    {
        Word { bits: 0 }
    }
}

/// What a word means.
#[derive(Clone, Copy, Debug, PartialEq, Eq)]
pub struct Meaning {
    pub locked: bool,
    pub gone: bool,
    pub shares: u64,
    pub count: u64,
}

/// Leave to read a node, by the count that its word had.
#[derive(Clone, Copy, Debug, PartialEq, Eq)]
pub struct Permit {
    pub(crate) count: u64,
}
