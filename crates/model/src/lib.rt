//! The index as a mathematical value: nodes by kind and slot, with prefix and children by byte, and leaves.
//!
//! No layout, no latch and no coding is in sight here. What is proved of it stands in the crates `model_tree`,
//! `model_next`, `model_words` and `model_slots`.

#![tactic(auto)]
