ghost use Rattle.std.specs.Prelude.{Decides};
ghost use Rattle.keys.specs.Bytes.{First};

/// Whether one list of bytes comes before another, byte by byte.
pub fn first(s: &[u8], t: &[u8]) -> bool
    ensures { Decides result (First s.now t.now) }
{
    // cut to one length, so that a step tests one end alone
    let n = s.len().min(t.len());
    for (a, b) in s[..n].iter().zip(&t[..n]) {
        if a != b {
            return a < b;
        }
    }
    s.len() < t.len()
}
