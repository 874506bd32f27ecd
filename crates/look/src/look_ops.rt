ghost use Rattle.std.specs.Prelude.{◌≡◌, drop};
ghost use Rattle.inline_bytes.specs.Held.{bytes_of};
ghost use Rattle.look.specs.Look.{meet, rank, looked};
ghost use Rattle.nodes.specs.Kept.{kept};

use crate::seen::{Met, Rank, Seen};
use keys::{Code, LONGEST_KEY};
use nodes::{Branch, Child, Prefix};

// The bytes of a key from a depth on: none past its end.
fn rest_of(key: &Code, d: usize) -> &[u8]
    ensures { result.now ≡ drop d (bytes_of key.now) }
{
    key.as_slice().get(d..).unwrap_or(&[])
}

/// How the prefix meets `key` from `d` on.
pub fn meets(prefix: &Prefix, key: &Code, d: usize) -> Met
    ensures { result ≡ meet (kept prefix.now) (drop d (bytes_of key.now)) }
{
    let rest = rest_of(key, d);
    let i = prefix.agrees(rest);
    if i >= rest.len() {
        Met::Ends
    } else if i < prefix.len() {
        Met::Parts(i)
    } else {
        Met::Goes(rest[i])
    }
}

/// The order of the prefix and `key` from `d` on.
pub fn ranks(prefix: &Prefix, key: &Code, d: usize) -> Rank
    ensures { result ≡ rank (kept prefix.now) (drop d (bytes_of key.now)) }
{
    let rest = rest_of(key, d);
    match meets(prefix, key, d) {
        Met::Parts(i) if prefix.at(i) < rest[i] => Rank::Smaller,
        Met::Parts(_) => Rank::Larger,
        Met::Ends => Rank::Ended,
        Met::Goes(byte) => Rank::Same(byte),
    }
}

/// A look at a node for `key`, `d` of whose bytes come before the prefix.
pub fn look<B: Branch>(prefix: &Prefix, node: &B, key: &Code, d: usize) -> Seen
    ensures { result ≡ looked (kept prefix.now) (B.Branch.view node.now) (bytes_of key.now) d }
{
    let len = prefix.len();
    if d >= LONGEST_KEY - len {
        return Seen::Stale;
    }
    match meets(prefix, key, d) {
        Met::Parts(i) => Seen::Miss(i),
        Met::Ends => Seen::Stale,
        Met::Goes(byte) => match node.find(byte) {
            None => Seen::Empty,
            Some(Child::Leaf(slot)) => Seen::Leaf(slot),
            Some(Child::Node(kind, slot)) => Seen::Node(kind, slot, d + len + 1),
        },
    }
}
