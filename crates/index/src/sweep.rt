//! A slot that left the tree may still be read by operations that began before: it turns spare once all of
//! these are over.

ghost use Rattle.std.specs.Prelude.{◌≡◌, ℕ, ◌^◌, ◌<◌, Bool, List, ◌∷◌};
ghost use Rattle.index.specs.Sweeps.{begins_after, older, SweptOne, Swept};
ghost use Rattle.index.specs.Trees.{retired_of};
ghost use Rattle.index.specs.declared.tree.Retired.{Retired};

use crate::seat::Seat;
use crate::tree::{Retired, Tree};

fn began_after(seat: Seat, epoch: u64) -> bool
    ensures { result ≡ begins_after seat epoch }
{
    match seat {
        Seat::Busy(op) => epoch < op.begun,
        _ => true,
    }
}

// Whether an epoch is below that of each open operation.
fn is_older(seats: &[Seat], epoch: u64) -> bool
    ensures { result ≡ older seats.now epoch }
{
    seats.iter().all(|seat| began_after(*seat, epoch))
}

impl Tree {
    // Takes the first record: its slot turns spare, or it goes behind the others.
    fn sweep_one(&mut self, seats: &[Seat]) -> bool
        ensures { (first : Retired) (others : List Retired) → retired_of self.old ≡ first ∷ others → SweptOne (older seats.now) first others self.old self.new result }
    {
        let Some(record) = self.retired.take(&self.records) else {
            return false;
        };
        if is_older(seats, record.epoch) {
            self.slots.free(record.slot, &mut self.table)
        } else {
            let _ = self.retired.put(&mut self.records, record);
            false
        }
    }

    /// Starts a new epoch, and makes every retired slot spare whose epoch is below that of each open operation.
    pub(crate) fn sweep(&mut self, seats: &[Seat]) -> u16
        requires { self.old.epoch < 2 ^ 50 }
        ensures { Swept seats.now self.old self.new result }
    {
        self.epoch += 1;
        let n = self.retired.len();
        let mut count = 0;
        // A count of passes and no index: each takes the record that is first then.
        for _i in 0..n {
            count += u16::from(self.sweep_one(seats));
        }
        count
    }
}
