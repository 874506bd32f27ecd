//! Latches: who may read a node and who may write it, kept in one 64-bit word for each node.

#![tactic(auto)]

mod coupling;
mod latch;
mod optimistic;
mod packed;
mod word;

pub use coupling::Coupling;
pub use latch::{Latch, smallest_cause};
pub use optimistic::Optimistic;
pub use word::{Permit, Word};
