ghost use Rattle.std.specs.Prelude.{◌≡◌};
ghost use Rattle.std.specs.Option.{ok_or};
ghost use Rattle.terms.specs.declared.Refusal.TheVariants.{Grammar};
ghost use Rattle.script.specs.Header.{coding_of, latch_of, header_of};

use terms::Refusal;

/// Which coding a script's keys have.
#[derive(Clone, Copy, Debug, PartialEq, Eq)]
pub enum CodingName {
    Number,
    Text,
}

impl TryFrom<u8> for CodingName {
    type Error = Refusal;

    ghost try_from_gives = { λ letter name. name ≡ ok_or (coding_of letter) Grammar };

    fn try_from(letter: u8) -> Result<CodingName, Refusal> {
        match char::from(letter) {
            'n' => Ok(CodingName::Number),
            't' => Ok(CodingName::Text),
            _ => Err(Refusal::Grammar),
        }
    }
}

/// Which latch a script's index has.
#[derive(Clone, Copy, Debug, PartialEq, Eq)]
pub enum LatchName {
    Optimistic,
    Coupling,
}

impl TryFrom<u8> for LatchName {
    type Error = Refusal;

    ghost try_from_gives = { λ letter name. name ≡ ok_or (latch_of letter) Grammar };

    fn try_from(letter: u8) -> Result<LatchName, Refusal> {
        match char::from(letter) {
            'o' => Ok(LatchName::Optimistic),
            'c' => Ok(LatchName::Coupling),
            _ => Err(Refusal::Grammar),
        }
    }
}

/// Line 1 of a script.
#[derive(Clone, Copy, Debug, PartialEq, Eq)]
pub struct Header {
    pub coding: CodingName,
    pub latch: LatchName,
}

/// What line 1 names, or refusal 9: `=`, then n or t, then o or c, one space between.
pub fn read_header(line: &[u8]) -> Result<Header, Refusal>
    ensures { result ≡ header_of line.now }
{
    let [b'=', b' ', coding, b' ', latch] = line else {
        return Err(Refusal::Grammar);
    };
    Ok(Header {
        coding: CodingName::try_from(*coding)?,
        latch: LatchName::try_from(*latch)?,
    })
}
