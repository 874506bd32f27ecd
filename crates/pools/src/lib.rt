//! First-in first-out queues, and pools of slots that are drawn and given back.

#![tactic(auto)]

mod drawn;
mod queue;
mod slots;

pub use drawn::Drawn;
pub use queue::Queue;
pub use slots::Slots;
