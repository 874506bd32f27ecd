//! Plays a script on a just made index, and gives its history.

#![tactic(auto)]

mod history;
mod key;
mod lines;
mod reply;

pub use history::{LONGEST_HISTORY, LONGEST_SCRIPT, history_of};
pub use key::ScriptKey;
pub use reply::reply_to;
