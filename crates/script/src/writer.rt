//! Lines written one after another into a lent buffer.

ghost use Rattle.std.specs.Prelude.{◌≡◌, ◌+◌, ◌≤◌, min, length};
ghost use Rattle.std.specs.Option.{unwrap_or};
ghost use Rattle.script.specs.Written.{written, fits, place_after, ended, wrote};

use terms::Refusal;

/// Where the next line begins.
// Apart from the buffer by a rule of the project: the guard borrows the place alone while the buffer is written.
#[derive(Clone, Copy, Debug, PartialEq, Eq)]
pub struct Place {
    pub at: usize,
}

// On drop the place goes back to the line's start, unless the line was kept: then no start is left.
struct Begun<'a> {
    place: &'a mut Place,
    start: Option<usize>,
}

impl Drop for Begun<'_> {
    fn drop(self)
        ensures { self.exit.0.now.at ≡ unwrap_or self.entry.start self.entry.place.now.at }
    {
        if let Some(start) = self.start {
            self.place.at = start;
        }
        let Begun { place: _, start: _ } = self;
    }
}

impl Begun<'_> {
    // Puts as much of the piece as fits.
    fn put(&mut self, out: &mut [u8], piece: &[u8]) -> Result<(), Refusal>
        requires { self.old.place.now.at ≤ length out.old }
        ensures value { result ≡ wrote (fits out.old self.old.place.now.at piece.now) }
        ensures at { self.new.place.now.at ≡ min (self.old.place.now.at + length piece.now) (length out.old) }
        ensures bytes { out.new ≡ written out.old self.old.place.now.at piece.now }
        ensures name { self.new.place.ghost_name ≡ self.old.place.ghost_name }
        ensures start { self.new.start ≡ self.old.start }
    {
        let at = self.place.at;
        let n = piece.len().min(out.len() - at);
        out[at..at + n].copy_from_slice(&piece[..n]);
        self.place.at = at + n;
        if n < piece.len() {
            return Err(Refusal::BufferEnd);
        }
        Ok(())
    }
}

/// Writes a line and its end at the place, which moves behind it.
/// Where the line passes the buffer's end, as much of it as fits is left behind the place, which stays.
pub fn write_line(out: &mut [u8], place: &mut Place, text: &[u8]) -> Result<(), Refusal>
    ensures value { result ≡ wrote (fits out.old place.old.at (ended text.now)) }
    ensures place { place.new.at ≡ place_after out.old place.old.at (ended text.now) }
    ensures bytes { out.new ≡ written out.old place.old.at (ended text.now) }
{
    if place.at > out.len() {
        return Err(Refusal::BufferEnd);
    }
    let start = Some(place.at);
    let mut line = Begun { place, start };
    line.put(out, text)?;
    line.put(out, b"\n")?;
    line.start = None;
    Ok(())
}
