//! What one line of a script does to the index, and what it is answered with.

ghost use Rattle.script.specs.Means.{call_meant};
ghost use Rattle.index.specs.Calls.{state_of};
ghost use Rattle.player.specs.Lines.{CallReplied, Replied};

use crate::key::ScriptKey;
use index::Index;
use latches::Latch;
use script::{Call, Done, Reply, read_call};
use terms::Refusal;

fn make<C: ScriptKey, L: Latch>(index: &mut Index<C, L>, call: Call<'_>) -> Reply
    ensures { CallReplied L.face C.accepts C.bytes C.reads (call_meant call.entry) (state_of index.old) (state_of index.new) result }
{
    let done = match call {
        Call::Open(seat) => {
            index.open(seat)?;
            Done::Accepted
        }
        Call::Close(seat) => {
            index.close(seat)?;
            Done::Accepted
        }
        Call::Find(seat, word) => {
            let key = C::read_key(word).ok_or(Refusal::Grammar)?;
            index.begin_find(seat, key)?;
            Done::Accepted
        }
        Call::Add(seat, word, value) => {
            let key = C::read_key(word).ok_or(Refusal::Grammar)?;
            index.begin_add(seat, key, value)?;
            Done::Accepted
        }
        Call::Step(seat) => Done::Stepped(index.step(seat)?),
        Call::Sweep => Done::Swept(index.sweep()?),
    };
    Ok(done)
}

/// Makes the call that a line asks for, and says what it is answered with.
pub fn reply_to<C: ScriptKey, L: Latch>(index: &mut Index<C, L>, line: &[u8]) -> Reply
    ensures { Replied L.face C.accepts C.bytes C.reads line.now (state_of index.old) (state_of index.new) result }
{
    make(index, read_call(line)?)
}
