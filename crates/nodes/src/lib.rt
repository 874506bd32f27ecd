//! The four kinds of node behind one view (which child stands under each byte), and prefixes.

#![tactic(auto)]

mod across;
mod branch;
mod child;
mod direct;
mod direct_ops;
mod edges;
mod placed;
mod placed_ops;
mod prefix;
mod prefix_ops;
mod sorted;
mod sorted_ops;

pub use across::{carry, grown, other};
pub use branch::{Branch, Grow};
pub use child::{Child, Edge, NodeKind};
pub use direct::Direct;
pub use edges::Edges;
pub use placed::Placed;
pub use prefix::Prefix;
pub use sorted::Sorted;
