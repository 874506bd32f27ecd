ghost use Rattle.std.specs.Prelude.{◌≤◌};

use crate::seat::Seat;
use crate::tree::Tree;
use keys::Coding;
use latches::Latch;
use std::marker::PhantomData;

mod calls;

pub const SEATS: usize = 8;

/// So many calls an index accepts.
pub const CALL_LIMIT: u64 = 1 << 50;

/// An index from the keys of a coding to 32-bit values, under a latch.
#[derive(Drop)]
pub struct Index<C: Coding, L: Latch> {
    tree: Tree,
    seats: [Seat; SEATS],
    calls: u64,
    coding: PhantomData<C>,
    latch: PhantomData<L>,
    ghost counted: { tree.epoch ≤ calls },
}
