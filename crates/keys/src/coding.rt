ghost use Rattle.std.specs.Prelude.{ℕ, List};
ghost use Rattle.keys.specs.Coding.{Coded, Decoded, Back, SameKey, Placed};
ghost use Rattle.keys.specs.Laws.{Lawful};

use crate::code::Code;
use crate::order::first;
use terms::Refusal;

/// A coding of keys as bytes.
///
/// Its meaning is ghost: the keys that it accepts, their order (said without bytes) and their bytes.
/// Whatever keeps the laws is a coding that the index is proved for.
pub trait Coding {
    type Key: Copy;

    /// The most bytes of a key of this coding.
    const LONGEST: usize;

    ghost LONGEST: { ℕ };

    ghost accepts: { Self.Key → Type 0 };

    ghost before: { Self.Key → Self.Key → Type 0 };

    ghost bytes: { Self.Key → List ℕ };

    fn encode(key: Self::Key) -> Result<Code, Refusal>
        ensures { Coded accepts bytes key result };

    fn decode(coded: &[u8]) -> Result<Self::Key, Refusal>
        ensures { Decoded accepts bytes coded.now result };

    ghost lawful: { Lawful accepts before bytes LONGEST };
}

/// Codes a key and decodes it again.
pub fn round_trip<C: Coding>(key: C::Key) -> Result<C::Key, Refusal>
    ensures { Back C.accepts key result }
{
    let code = C::encode(key)?;
    C::decode(code.as_slice())
}

/// Whether two keys are one, by their bytes.
pub fn same_key<C: Coding>(a: C::Key, b: C::Key) -> Result<bool, Refusal>
    ensures { SameKey C.accepts a b result }
{
    let x = C::encode(a)?;
    let y = C::encode(b)?;
    Ok(x == y)
}

/// Whether one key comes before another, by their bytes.
pub fn comes_before<C: Coding>(a: C::Key, b: C::Key) -> Result<bool, Refusal>
    ensures { Placed C.accepts C.before a b result }
{
    let x = C::encode(a)?;
    let y = C::encode(b)?;
    Ok(first(x.as_slice(), y.as_slice()))
}
