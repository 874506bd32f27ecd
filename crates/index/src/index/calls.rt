//! The calls. Each is refused by the topmost row that fits, and then leaves everything as it was.

ghost use Rattle.std.specs.Prelude.{◌≡◌, ◌<◌, Some, None, MatchResult, ◌≤◌};
ghost use Rattle.index.specs.Calls.{state_of, seat_at, NewIndex, idle_rows, DidCount, DidOpen, DidClose, DidBegin, DidStep, DidSweep};
ghost use Rattle.index.specs.declared.operation.Task.TheVariants.{Find as FindTask, Add as AddTask};

use super::{CALL_LIMIT, Index, SEATS};
use crate::operation::{Operation, Stage, Task};
use crate::seat::Seat;
use crate::tree::Tree;
use keys::Coding;
use latches::Latch;
use std::marker::PhantomData;
use terms::{Outcome, Refusal};

// The place of a seat.
fn place_of(seat: u8) -> Result<usize, Refusal>
    ensures { MatchResult result (λ at. (at ≡ seat) × (at < SEATS)) (λ e. (e ≡ Refusal.NoSuchSeat) × (SEATS ≤ seat)) }
{
    let at = usize::from(seat);
    if at < SEATS {
        Ok(at)
    } else {
        Err(Refusal::NoSuchSeat)
    }
}

impl<C: Coding, L: Latch> Index<C, L> {
    // Whether a seat is open with no operation.
    fn idle(&self, at: usize) -> Result<(), Refusal>
        requires { at < SEATS }
        ensures { MatchResult result (λ _. idle_rows (seat_at (state_of self.now) at) None ≡ None) (λ e. idle_rows (seat_at (state_of self.now) at) None ≡ Some e) }
    {
        match self.seats[at] {
            Seat::Closed => Err(Refusal::NotOpen),
            Seat::Busy(_) => Err(Refusal::Busy),
            Seat::Idle => Ok(()),
        }
    }

    // Counts a call, where the index accepts one more.
    fn count_call(&mut self) -> Result<(), Refusal>
        ensures { DidCount (state_of self.old) (state_of self.new) result }
    {
        if self.calls >= CALL_LIMIT {
            return Err(Refusal::CallLimit);
        }
        self.calls += 1;
        Ok(())
    }

    /// An index without entries, whose seats are closed.
    pub fn new() -> Self
        ensures { NewIndex (state_of result) }
    {
        Index {
            tree: Tree::new(),
            seats: [Seat::Closed; SEATS],
            calls: 0,
            coding: PhantomData,
            latch: PhantomData,
        }
    }

    /// Opens a seat.
    pub fn open(&mut self, seat: u8) -> Result<(), Refusal>
        ensures { DidOpen seat (state_of self.old) (state_of self.new) result }
    {
        let at = place_of(seat)?;
        let Seat::Closed = self.seats[at] else {
            return Err(Refusal::AlreadyOpen);
        };
        self.count_call()?;
        self.seats[at] = Seat::Idle;
        Ok(())
    }

    /// Closes a seat that has no operation open.
    pub fn close(&mut self, seat: u8) -> Result<(), Refusal>
        ensures { DidClose seat (state_of self.old) (state_of self.new) result }
    {
        let at = place_of(seat)?;
        self.idle(at)?;
        self.count_call()?;
        self.seats[at] = Seat::Closed;
        Ok(())
    }

    /// Begins a find: its steps come to the value of the key, or to its absence.
    pub fn begin_find(&mut self, seat: u8, key: C::Key) -> Result<(), Refusal>
        ensures { DidBegin C.accepts C.bytes seat key FindTask (state_of self.old) (state_of self.new) result }
    {
        self.begin(seat, key, Task::Find)
    }

    /// Begins an add: its steps put the key in with this value, unless it is there already.
    pub fn begin_add(&mut self, seat: u8, key: C::Key, value: u32) -> Result<(), Refusal>
        ensures { DidBegin C.accepts C.bytes seat key (AddTask value) (state_of self.old) (state_of self.new) result }
    {
        self.begin(seat, key, Task::Add(value))
    }

    fn begin(&mut self, seat: u8, key: C::Key, task: Task) -> Result<(), Refusal>
        ensures { DidBegin C.accepts C.bytes seat key task (state_of self.old) (state_of self.new) result }
    {
        let at = place_of(seat)?;
        self.idle(at)?;
        let key = C::encode(key)?;
        self.count_call()?;
        let begun = self.tree.epoch;
        self.seats[at] = Seat::Busy(Operation {
            task,
            key,
            begun,
            stage: Stage::Take,
        });
        Ok(())
    }

    /// Advances the operation of a seat by one step.
    pub fn step(&mut self, seat: u8) -> Result<Outcome, Refusal>
        ensures { DidStep L.face seat (state_of self.old) (state_of self.new) result }
    {
        let at = place_of(seat)?;
        let found = self.seats[at];
        if let Seat::Closed = found {
            return Err(Refusal::NotOpen);
        }
        let Seat::Busy(op) = found else {
            return Err(Refusal::NoOperation);
        };
        self.count_call()?;
        let Index { tree, seats, .. } = self;
        let met = tree.meet::<L>(&op);
        Ok(seats[at].advance(op, met))
    }

    /// Starts a new epoch, and says how many retired slots turned spare.
    pub fn sweep(&mut self) -> Result<u16, Refusal>
        ensures { DidSweep (state_of self.old) (state_of self.new) result }
    {
        self.count_call()?;
        Ok(self.tree.sweep(&self.seats))
    }
}
