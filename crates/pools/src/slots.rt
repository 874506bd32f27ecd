//! The slots of a pool: which are spare, and how many are owed. The table and the items are lent at each call, a rule of
//! the project, so that what fits them stands in clauses.
//! N is one more than the largest slot, and tells one pool's owed slots from another's.

ghost use Rattle.std.specs.Prelude.{◌≡◌, ◌+◌, ◌^◌, ◌<◌, false, ◌&&◌, [], ◌∷◌, ◌++◌, length, if◌then◌else◌, MatchOption, nat_lt, slice_set};
ghost use Rattle.std.specs.List.{range_with_len};

use crate::drawn::Drawn;
use crate::queue::Queue;

#[derive(Debug, Drop)]
pub struct Slots<const N: usize> {
    pub(crate) queue: Queue,
    pub(crate) owed: u16,
    ghost small: { N < 2 ^ 16 },
}

impl<const N: usize> Slots<N> {
    ghost use Rattle.pools.specs.Spare.{spare, Sound};

    /// The slots from `from` on, all spare, in rising order.
    pub fn new(table: &mut [u16], from: u16) -> Slots<N>
        requires { (from + length table.old ≡ N) × (0 < length table.old) × (N < 2 ^ 16) }
        ensures sound { Sound table.new result }
        ensures all { (spare table.new result ≡ range_with_len from (length table.old)) × (result.owed ≡ 0) }
        ensures len { result.queue.len ≡ length table.old }
    {
        number(table, from);
        Slots {
            queue: Queue::whole(table),
            owed: 0,
        }
    }

    /// The slot that has been spare longest, or none.
    pub fn draw(&mut self, table: &[u16]) -> Option<Drawn<N>>
        requires { Sound table.now self.old }
        ensures sound { Sound table.now self.new }
        ensures drawn { MatchOption result ((spare table.now self.old ≡ []) × (self.new ≡ self.old)) (λ d. (spare table.now self.old ≡ d.slot ∷ spare table.now self.new) × (self.new.owed ≡ self.old.owed + 1)) }
        ensures len { MatchOption result (self.new.queue.len ≡ self.old.queue.len) (λ _. self.new.queue.len + 1 ≡ self.old.queue.len) }
    {
        let slot = self.queue.take(table)?;
        self.owed += 1;
        Some(Drawn { slot })
    }

    /// Puts the item where it was owed, and says where that is.
    pub fn fill<T: Copy>(&mut self, drawn: Drawn<N>, items: &mut [T], item: T) -> u16
        requires { (0 < self.old.owed) × (length items.old ≡ N) }
        ensures slot { (result ≡ drawn.entry.slot) × (result < N) }
        ensures items { items.new ≡ slice_set items.old drawn.entry.slot item }
        ensures slots { (self.new.queue ≡ self.old.queue) × (self.new.owed + 1 ≡ self.old.owed) }
    {
        let Drawn { slot } = drawn;
        self.owed -= 1;
        items[usize::from(slot)] = item;
        slot
    }

    /// Draws a slot for the item and fills it in, or says that none is spare.
    pub fn store<T: Copy>(&mut self, table: &[u16], items: &mut [T], item: T) -> Option<u16>
        requires { Sound table.now self.old × (length items.old ≡ N) }
        ensures sound { Sound table.now self.new }
        ensures stored { MatchOption result ((spare table.now self.old ≡ []) × (self.new ≡ self.old) × (items.new ≡ items.old)) (λ s. (spare table.now self.old ≡ s ∷ spare table.now self.new) × (items.new ≡ slice_set items.old s item)) }
        ensures owed { self.new.owed ≡ self.old.owed }
        ensures len { MatchOption result (self.new.queue.len ≡ self.old.queue.len) (λ _. self.new.queue.len + 1 ≡ self.old.queue.len) }
    {
        let drawn = self.draw(table)?;
        Some(self.fill(drawn, items, item))
    }

    /// Makes an owed slot spare again, behind all others.
    pub fn give_back(&mut self, drawn: Drawn<N>, table: &mut [u16])
        requires { Sound table.old self.old × (0 < self.old.owed) }
        ensures sound { Sound table.new self.new }
        ensures back { spare table.new self.new ≡ spare table.old self.old ++ drawn.entry.slot ∷ [] }
        ensures owed { self.new.owed + 1 ≡ self.old.owed }
        ensures len { self.new.queue.len ≡ self.old.queue.len + 1 }
    {
        let Drawn { slot } = drawn;
        self.owed -= 1;
        let _ = self.queue.put(table, slot);
    }

    /// Makes a slot spare that was in use, behind all others.
    /// Where the slot is not of this pool, or every slot is spare or owed, it only says so: a plain answer, nothing goes
    /// with it.
    pub fn free(&mut self, slot: u16, table: &mut [u16]) -> bool
        requires { Sound table.old self.old }
        ensures sound { Sound table.new self.new }
        ensures answer { result ≡ (nat_lt slot N && nat_lt (self.old.queue.len + self.old.owed) (length table.old)) }
        ensures back { spare table.new self.new ≡ (if result then spare table.old self.old ++ slot ∷ [] else spare table.old self.old) }
        ensures owed { self.new.owed ≡ self.old.owed }
        ensures len { self.new.queue.len ≡ (if result then self.old.queue.len + 1 else self.old.queue.len) }
        ensures full { result ≡ false → (self.new ≡ self.old) × (table.new ≡ table.old) }
    {
        if usize::from(slot) >= N {
            return false;
        }
        if self.queue.len + usize::from(self.owed) >= table.len() {
            return false;
        }
        self.queue.put(table, slot)
    }
}

// Numbers the places of the table from `from` on.
fn number(table: &mut [u16], from: u16)
    requires { from + length table.old < 2 ^ 16 }
    ensures { table.new ≡ range_with_len from (length table.old) }
{
    for (i, place) in table.iter_mut().enumerate() {
        *place = from + i as u16;
    }
}
