ghost use Rattle.std.specs.Prelude.{◌≡◌, ◌+◌, ◌<◌, ◌≤◌, [], ◌∷◌, ◌++◌, length, MatchOption, ◌↔◌, IsOk, OnOk, OnErr};
ghost use Rattle.std.specs.List.{slice_get};
ghost use Rattle.inline_bytes.specs.Held.{bytes_of};

use crate::inline_bytes::{Full, InlineBytes};

impl<const N: usize> InlineBytes<N> {
    /// No bytes.
    pub fn empty() -> Self
        ensures { bytes_of result ≡ [] }
    {
        InlineBytes {
            bytes: [0; N],
            len: 0,
        }
    }

    /// These bytes, unless they are more than there is room for.
    pub fn new(bytes: &[u8]) -> Option<Self>
        ensures { MatchOption result (N < length bytes.now) (λ s. bytes_of s ≡ bytes.now) }
    {
        let mut made = Self::empty();
        made.extend(bytes).ok()?;
        Some(made)
    }

    pub fn len(&self) -> usize
        ensures value { result ≡ length (bytes_of self.now) }
        ensures within { result ≤ N }
    {
        self.as_slice().len()
    }

    pub fn as_slice(&self) -> &[u8]
        ensures { result.now ≡ bytes_of self.now }
    {
        &self.bytes[..self.len]
    }

    /// The byte at a place, or none past the end.
    pub fn byte(&self, at: usize) -> Option<u8>
        ensures { result ≡ slice_get (bytes_of self.now) at }
    {
        self.as_slice().get(at).copied()
    }

    /// Puts a byte behind the last.
    pub fn push(&mut self, byte: u8) -> Result<(), Full>
        ensures variant { IsOk result ↔ (length (bytes_of self.old) < N) }
        ensures ok { OnOk result (bytes_of self.new ≡ bytes_of self.old ++ byte ∷ []) }
        ensures err { OnErr result (self.new ≡ self.old) }
    {
        self.extend(&[byte])
    }

    /// Puts all of these bytes behind the last.
    pub fn extend(&mut self, bytes: &[u8]) -> Result<(), Full>
        ensures variant { IsOk result ↔ (length (bytes_of self.old) + length bytes.now ≤ N) }
        ensures ok { OnOk result (bytes_of self.new ≡ bytes_of self.old ++ bytes.now) }
        ensures err { OnErr result (self.new ≡ self.old) }
    {
        if bytes.len() > N - self.len {
            return Err(Full);
        }
        let end = self.len + bytes.len();
        let room = &mut self.bytes[..];
        room[self.len..end].copy_from_slice(bytes);
        self.len = end;
        Ok(())
    }
}
