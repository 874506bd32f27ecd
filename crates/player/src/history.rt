//! A whole script, line by line.

ghost use Rattle.std.specs.Prelude.{◌≡◌, ◌≤◌, length};
ghost use Rattle.script.specs.Written.{written, fits, place_after, wrote};
ghost use Rattle.player.specs.Histories.{longest_script, lines_of, printed, Added, AddedBy, Wrote};
ghost use Rattle.player.specs.Lines.{Replied};

use crate::key::ScriptKey;
use crate::lines::Lines;
use crate::reply::reply_to;
use index::Index;
use keys::{Numbers, Texts};
use latches::{Coupling, Latch, Optimistic};
use script::{
    CodingName, Done, Header, LatchName, Place, Reply, read_header, reply_line, write_line,
};
use terms::Refusal;

/// The most bytes of a script.
pub const LONGEST_SCRIPT: usize = 32768;

/// Room for the longest history: no line of a script gives more than sixteen times its own bytes.
pub const LONGEST_HISTORY: usize = 16 * LONGEST_SCRIPT;

// Writes the output line of a reply.
fn put(number: u16, reply: Reply, out: &mut [u8], place: &mut Place) -> Result<(), Refusal>
    ensures value { result ≡ wrote (fits out.old place.old.at (printed number reply)) }
    ensures place { place.new.at ≡ place_after out.old place.old.at (printed number reply) }
    ensures bytes { out.new ≡ written out.old place.old.at (printed number reply) }
{
    write_line(out, place, reply_line(number, reply).as_slice())
}

// Plays the lines behind line 1 on a just made index.
fn play<C: ScriptKey, L: Latch>(
    lines: Lines<'_>,
    out: &mut [u8],
    place: &mut Place,
) -> Result<(), Refusal>
    requires { (length (lines_of lines.rest.now) ≤ longest_script) × (place.old.at ≤ length out.old) }
    ensures { Added (Replied L.face C.accepts C.bytes C.reads) (lines_of lines.entry.rest.now) out.old place.old.at out.new place.new.at result }
{
    let mut index: Index<C, L> = Index::new();
    for (number, line) in (2u16..).zip(lines) {
        let reply = reply_to(&mut index, line);
        put(number, reply, out, place)?;
    }
    Ok(())
}

/// Plays a script on a just made index and writes its history into `out`: how many bytes that took,
/// or refusal 8 where it passes the end of `out`.
pub fn history_of(script: &[u8], out: &mut [u8]) -> Result<usize, Refusal>
    ensures { Wrote script.now out.new result }
{
    let mut place = Place { at: 0 };
    if script.len() > LONGEST_SCRIPT {
        put(1, Err(Refusal::ScriptLength), out, &mut place)?;
        return Ok(place.at);
    }
    let mut lines = Lines { rest: script };
    let header = read_header(lines.next().unwrap_or(&[]));
    put(1, header.and(Ok(Done::Accepted)), out, &mut place)?;
    if let Ok(header) = header {
        play_named(header, lines, out, &mut place)?;
    }
    Ok(place.at)
}

// With the coding and the latch that line 1 names. A match and no closure: each arm picks types.
fn play_named(
    header: Header,
    lines: Lines<'_>,
    out: &mut [u8],
    place: &mut Place,
) -> Result<(), Refusal>
    requires { (length (lines_of lines.rest.now) ≤ longest_script) × (place.old.at ≤ length out.old) }
    ensures { AddedBy header.coding header.latch (lines_of lines.entry.rest.now) out.old place.old.at out.new place.new.at result }
{
    match (header.coding, header.latch) {
        (CodingName::Number, LatchName::Optimistic) => play::<Numbers, Optimistic>(
            lines, out, place,
        ),
        (CodingName::Number, LatchName::Coupling) => play::<Numbers, Coupling>(lines, out, place),
        (CodingName::Text, LatchName::Optimistic) => play::<Texts, Optimistic>(lines, out, place),
        (CodingName::Text, LatchName::Coupling) => play::<Texts, Coupling>(lines, out, place),
    }
}
