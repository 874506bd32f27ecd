//! The index: keys to values for eight seats, whose operations advance one step at a time in any order.
//!
//! A step takes its seat's stage together with what it meets: `tree` does the work on memory, one function
//! for each stage, and `seat` moves the seat on.

#![tactic(auto)]

mod index;
mod meet;
mod operation;
mod seat;
mod seats;
mod steps;
mod sweep;
mod tree;

pub use index::Index;
