ghost use Rattle.std.specs.Prelude.{◌≡◌, ℕ, ◌+◌, ◌-◌, ◌<◌, ◌≤◌, List, [], ◌∷◌, ◌++◌, length, take, drop, slice_index};
ghost use Rattle.nodes.specs.Kept.{kept, Agree};

use crate::prefix::Prefix;
use inline_bytes::InlineBytes;

impl Prefix {
    pub fn empty() -> Self
        ensures { kept result ≡ [] }
    {
        Prefix {
            bytes: InlineBytes::empty(),
        }
    }

    pub fn len(&self) -> usize
        ensures { (result ≡ length (kept self.now)) × (result ≤ 15) }
    {
        self.bytes.len()
    }

    pub fn at(&self, i: usize) -> u8
        requires { i < length (kept self.now) }
        ensures { result ≡ slice_index (kept self.now) i }
    {
        self.bytes.as_slice()[i]
    }

    // the prefix of these bytes
    pub fn of(bytes: &[u8]) -> Self
        requires { length bytes.now ≤ 15 }
        ensures { kept result ≡ bytes.now }
    {
        Prefix {
            bytes: InlineBytes::new(bytes).unwrap(),
        }
    }

    // at how many bytes the prefix and the rest of a key agree
    pub fn agrees(&self, rest: &[u8]) -> usize
        ensures { Agree (kept self.now) rest.now result }
    {
        let pairs = self.bytes.as_slice().iter().zip(rest);
        pairs.take_while(|(own, other)| own == other).count()
    }

    // the first `i` bytes
    pub fn first(&self, i: usize) -> Self
        requires { i ≤ length (kept self.now) }
        ensures { kept result ≡ take i (kept self.now) }
    {
        Prefix::of(&self.bytes.as_slice()[..i])
    }

    // the bytes from place `i` on
    pub fn rest(&self, i: usize) -> Self
        requires { i ≤ length (kept self.now) }
        ensures { kept result ≡ drop i (kept self.now) }
    {
        Prefix::of(&self.bytes.as_slice()[i..])
    }

    // this prefix, a byte, another prefix
    pub fn join(&self, byte: u8, below: &Prefix) -> Self
        requires { length (kept self.now) + 1 + length (kept below.now) ≤ 15 }
        ensures { kept result ≡ kept self.now ++ byte ∷ kept below.now }
    {
        let mut bytes = self.bytes;
        bytes.push(byte).unwrap();
        bytes.extend(below.bytes.as_slice()).unwrap();
        Prefix { bytes }
    }
}
