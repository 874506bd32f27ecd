ghost use Rattle.std.specs.Prelude.{◌<ℤ◌};
ghost use Rattle.keys.specs.Numbers.{Signed32, number_bytes};
ghost use Rattle.keys.specs.NumberLaws.{number_lawful};

use crate::code::Code;
use crate::coding::Coding;
use terms::Refusal;

/// Signed 32-bit numbers in numeric order: four bytes, highest first, the top bit flipped.
pub struct Numbers;

impl Coding for Numbers {
    type Key = i32;

    const LONGEST: usize = 4;

    ghost LONGEST = { 4 };

    ghost accepts = { Signed32 };

    ghost before = { λ a b. a <ℤ b };

    ghost bytes = { number_bytes };

    ghost lawful = { number_lawful };

    fn encode(key: i32) -> Result<Code, Refusal> {
        let bytes = (key.cast_unsigned() ^ 0x8000_0000).to_be_bytes();
        Ok(Code::new(&bytes).unwrap())
    }

    fn decode(coded: &[u8]) -> Result<i32, Refusal> {
        let [a, b, c, d] = coded else {
            return Err(Refusal::Key);
        };
        Ok((u32::from_be_bytes([*a, *b, *c, *d]) ^ 0x8000_0000).cast_signed())
    }
}
