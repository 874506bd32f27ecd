//! What a walk for a key sees at a node.

#![tactic(auto)]

mod look_ops;
mod seen;

pub use look_ops::{look, meets, ranks};
pub use seen::{Met, Rank, Seen};
