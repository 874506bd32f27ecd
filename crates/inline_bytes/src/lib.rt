//! Short byte strings, kept in place: up to `N` bytes in the value itself, without an allocation.

#![tactic(auto)]

mod inline_bytes;
mod ops;

pub use inline_bytes::{Full, InlineBytes};
