//! Key codings: keys become bytes whose byte order is the keys' order, and come back equal.

#![tactic(auto)]

mod code;
mod coding;
mod numbers;
mod order;
mod text;
mod texts;
mod worked;

pub use code::{Code, LONGEST_KEY};
pub use coding::{Coding, comes_before, round_trip, same_key};
pub use numbers::Numbers;
pub use order::first;
pub use text::Text;
pub use texts::Texts;
pub use worked::worked_keys;
