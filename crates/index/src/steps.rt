//! What each stage does to the tree, its latch and its pool. A refusal gives back what was held.

ghost use Rattle.std.specs.Prelude.{◌≡◌, [], None, slice_index_or};
ghost use Rattle.inline_bytes.specs.Held.{bytes_of};
ghost use Rattle.std.specs.List.{range_with_len};
ghost use Rattle.index.specs.Effects.{Taken, Looked, GaveBack, Checked, LockedNow, DrawnFor, LeafDrawn, NothingDrawn, Written, Unlocked};
ghost use Rattle.index.specs.Trees.{Made, no_leaf};

use crate::operation::{Course, Sight};
use crate::tree::{LEAVES, Leaf, Retired, Tree};
use keys::Code;
use latches::{Latch, Permit, Word};
use pools::{Queue, Slots};
use terms::{Cause, Kind};

// The leaf in a slot; past the end a leaf of no key.
fn leaf_in(leaves: &[Leaf], slot: u16) -> Leaf
    ensures key { bytes_of result.key ≡ bytes_of (slice_index_or leaves.now slot no_leaf).key }
    ensures value { result.value ≡ (slice_index_or leaves.now slot no_leaf).value }
{
    leaves.get(usize::from(slot)).copied().unwrap_or(Leaf {
        key: Code::empty(),
        value: 0,
    })
}

impl Tree {
    /// The empty tree: a root without children, and every leaf spare.
    pub(crate) fn new() -> Tree
        ensures { Made result }
    {
        let mut table = [0; LEAVES];
        let slots = Slots::new(&mut table, 0);
        Tree {
            children: [None; 256],
            word: Word::new(),
            leaves: [Leaf {
                key: Code::empty(),
                value: 0,
            }; LEAVES],
            table,
            slots,
            records: [Retired { slot: 0, epoch: 0 }; LEAVES],
            retired: Queue::new(),
            epoch: 0,
        }
    }

    pub(crate) fn take<L: Latch>(&mut self) -> Result<Permit, Cause>
        ensures { Taken L.face self.old self.new result }
    {
        let (word, permit) = L::take(self.word)?;
        self.word = word;
        Ok(permit)
    }

    /// What stands under the key's byte, or none where the key has ended.
    pub(crate) fn look(&self, key: &Code) -> Option<Sight>
        ensures { Looked self.now (bytes_of key.now) result }
    {
        let byte = key.byte(0)?;
        let Some(slot) = self.children[usize::from(byte)] else {
            return Some(Sight::Nothing);
        };
        let leaf = leaf_in(&self.leaves, slot);
        if leaf.key == *key {
            Some(Sight::Same(leaf.value))
        } else {
            Some(Sight::Other)
        }
    }

    pub(crate) fn give_back<L: Latch>(&mut self, permit: Permit)
        ensures { GaveBack L.face permit self.old self.new }
    {
        self.word = L::give_back(self.word, permit);
    }

    /// Checks the permit and gives it back: the operation answers if it passes, and else starts again.
    pub(crate) fn check<L: Latch>(&mut self, permit: Permit) -> Result<(), Cause>
        ensures { Checked L.face permit self.old self.new result }
    {
        let passed = L::check(self.word, permit);
        self.word = L::give_back(self.word, permit);
        passed
    }

    pub(crate) fn lock<L: Latch>(&mut self, permit: Permit) -> Result<(), Cause>
        ensures { LockedNow L.face permit self.old self.new result }
    {
        match L::lock(self.word, permit) {
            Ok(word) => {
                self.word = word;
                Ok(())
            }
            Err(cause) => {
                self.word = L::give_back(self.word, permit);
                Err(cause)
            }
        }
    }

    /// Draws what the course needs and fills it in, or says which pool has no spare slot.
    pub(crate) fn draw<L: Latch>(&mut self, key: &Code, course: Course) -> Result<u16, Kind>
        ensures { DrawnFor L.face key.now self.old self.new course result }
    {
        match course {
            Course::Insert(value) => self.draw_leaf::<L>(Leaf { key: *key, value }),
            Course::Split(_) => Err(self.draw_none::<L>()),
        }
    }

    // A leaf, at the slot that was spare longest.
    fn draw_leaf<L: Latch>(&mut self, leaf: Leaf) -> Result<u16, Kind>
        ensures { LeafDrawn L.face leaf.key leaf.value self.old self.new result }
    {
        match self.slots.store(&self.table, &mut self.leaves, leaf) {
            Some(slot) => Ok(slot),
            None => {
                self.word = L::unlock(self.word);
                Err(Kind::Leaf)
            }
        }
    }

    // A leaf and a node with it: the root is the only node, so that no Node4 is spare and the leaf goes back.
    fn draw_none<L: Latch>(&mut self) -> Kind
        ensures { NothingDrawn L.face self.old self.new result }
    {
        let drawn = self.slots.draw(&self.table);
        self.word = L::unlock(self.word);
        match drawn {
            Some(leaf) => {
                self.slots.give_back(leaf, &mut self.table);
                Kind::Node4
            }
            None => Kind::Leaf,
        }
    }

    /// Links the leaf under the key's byte.
    pub(crate) fn write(&mut self, key: &Code, leaf: u16)
        ensures { Written (bytes_of key.now) leaf self.old self.new }
    {
        if let Some(byte) = key.byte(0) {
            self.children[usize::from(byte)] = Some(leaf);
        }
    }

    pub(crate) fn unlock<L: Latch>(&mut self)
        ensures { Unlocked L.face self.old self.new }
    {
        self.word = L::unlock(self.word);
    }
}
