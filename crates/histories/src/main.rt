//! Plays each script that an argument names, and prints its history under its name.

#![tactic(auto)]

use player::{LONGEST_HISTORY, history_of};
use std::io::Write;
use std::{env, fs};

fn main(rt: HostRuntime) -> anyhow::Result<()> {
    let mut out = vec![in rt.alloc(); 0u8; LONGEST_HISTORY]?;
    for name in env::args(&rt)?.skip(1) {
        let script = fs::read(&rt, name.as_str())?;
        println!(rt; "# {name}")?;
        match history_of(script.as_slice(), &mut out) {
            Ok(used) => rt.stdout().write_all(&out[0..used])?,
            Err(_) => println!(rt; "no room")?,
        }
    }
    Ok(())
}
