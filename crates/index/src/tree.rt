ghost use Rattle.index.specs.Kept.{Ready};

use keys::Code;
use latches::Word;
use pools::{Queue, Slots};

pub const LEAVES: usize = 512;

/// A key's bytes with their value. Never written once linked.
#[derive(Clone, Copy, Debug, PartialEq, Eq)]
pub struct Leaf {
    pub(crate) key: Code,
    pub(crate) value: u32,
}

/// A slot that a write took out of the tree, with the epoch of that write.
#[derive(Clone, Copy, Debug, PartialEq, Eq)]
pub struct Retired {
    pub(crate) slot: u16,
    pub(crate) epoch: u64,
}

/// The memory of the tree: the root with its word, the leaves, and which slots are spare or retired.
/// Fixed from the start, in arrays named by slot: a rule of the project.
#[derive(Drop)]
pub struct Tree {
    pub(crate) children: [Option<u16>; 256],
    pub(crate) word: Word,
    pub(crate) leaves: [Leaf; LEAVES],
    pub(crate) table: [u16; LEAVES],
    pub(crate) slots: Slots<LEAVES>,
    pub(crate) records: [Retired; LEAVES],
    pub(crate) retired: Queue,
    pub(crate) epoch: u64,
    ghost ready: { Ready table slots records retired },
}
