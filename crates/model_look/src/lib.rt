//! What a look at a node for a key says of the tree.

#![tactic(auto)]

ghost use Rattle.std.specs.Prelude.{◌≡◌};
ghost use Rattle.inline_bytes.specs.Held.{bytes_of};
ghost use Rattle.look.specs.Look.{looked};
ghost use Rattle.model_look.specs.Compares.{Compares};
ghost use Rattle.model_look.specs.Tells.{LooksTell, MeetsTell, Told, WalksGo};
ghost use Rattle.nodes.specs.Kept.{kept};

use keys::Code;
use look::{Seen, look};
use nodes::{Branch, Prefix};

/// A look, with what it says of every tree that has this node on the key's way.
pub fn look_told<B: Branch>(prefix: &Prefix, node: &B, key: &Code, d: usize) -> Seen
    ensures seen { result ≡ looked (kept prefix.now) (B.Branch.view node.now) (bytes_of key.now) d }
    ensures told { Told (kept prefix.now) (B.Branch.view node.now) (bytes_of key.now) d result }
{
    look(prefix, node, key, d)
}

/// How a prefix and the rest of a key meet, by beginnings.
pub fn meets_tell()
    ensures { MeetsTell }
{}

/// What a look says of the tree.
pub fn looks_tell()
    ensures { LooksTell }
{}

/// Where a walk starts, and that it goes on at a node that it saw.
pub fn walks_go()
    ensures { WalksGo }
{}

/// The order of a prefix and the rest of a key is that of the search for the next key.
pub fn compares_alike()
    ensures { Compares }
{}
