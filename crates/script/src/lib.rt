//! Scripts and histories: what the lines of a script say, and how answers are written.

#![tactic(auto)]

mod call;
mod digits;
mod grammar;
mod header;
mod line;
mod reply;
mod word;
mod writer;

pub use call::Call;
pub use digits::key_number;
pub use grammar::read_call;
pub use header::{CodingName, Header, LatchName, read_header};
pub use line::{Line, reply_line};
pub use reply::{Done, Reply};
pub use word::{Word, printable};
pub use writer::{Place, write_line};
