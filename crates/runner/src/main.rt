//! Reads a script from standard input, and prints its history.

#![tactic(auto)]

use anyhow::anyhow;
use player::{LONGEST_HISTORY, LONGEST_SCRIPT, history_of};
use std::io::{Read, Write};

/// One byte more than a script may have, so that a longer one is told from it.
const INPUT: usize = LONGEST_SCRIPT + 1;

fn main(rt: HostRuntime) -> anyhow::Result<()> {
    // Room for one more: a reader that has filled all room asks for more before it sees the end.
    let mut script = Vec::with_capacity(rt.alloc(), INPUT + 1)?;
    let mut out = vec![in rt.alloc(); 0u8; LONGEST_HISTORY]?;
    rt.stdin().take(INPUT as u64).read_to_end(&mut script)?;
    match history_of(&script, &mut out) {
        Ok(used) => rt.stdout().write_all(&out[..used])?,
        Err(_) => return Err(anyhow!("the history is longer than its buffer")),
    }
    Ok(())
}
