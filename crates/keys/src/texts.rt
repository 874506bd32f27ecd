ghost use Rattle.std.specs.Prelude.{◌≡◌, Decides};
ghost use Rattle.keys.specs.Texts.{Accepted, Earlier, Plain, Made, spelled, text_bytes};
ghost use Rattle.keys.specs.TextLaws.{text_lawful};

use crate::code::{Code, LONGEST_KEY};
use crate::coding::Coding;
use crate::text::Text;
use inline_bytes::InlineBytes;
use terms::Refusal;

impl Text {
    /// The text of these bytes, or refusal 6 where they are more than any text has.
    pub fn new(bytes: &[u8]) -> Result<Text, Refusal>
        ensures { Made bytes.now result }
    {
        let bytes = InlineBytes::new(bytes).ok_or(Refusal::Key)?;
        Ok(Text { bytes })
    }

    pub fn as_slice(&self) -> &[u8]
        ensures { result.now ≡ spelled self.now }
    {
        self.bytes.as_slice()
    }
}

// Whether these bytes are a text that is accepted: room for the end, and no byte 00.
fn is_plain(s: &[u8]) -> bool
    ensures { Decides result (Plain s.now) }
{
    s.len() < LONGEST_KEY && !s.contains(&0)
}

/// Texts in byte order, a beginning before its longer text: the text's bytes and then 00.
pub struct Texts;

impl Coding for Texts {
    type Key = Text;

    const LONGEST: usize = LONGEST_KEY;

    ghost LONGEST = { 16 };

    ghost accepts = { Accepted };

    ghost before = { Earlier };

    ghost bytes = { text_bytes };

    ghost lawful = { text_lawful };

    fn encode(key: Text) -> Result<Code, Refusal> {
        if !is_plain(key.as_slice()) {
            return Err(Refusal::Key);
        }
        let mut code = Code::new(key.as_slice()).unwrap();
        code.push(0).unwrap();
        Ok(code)
    }

    fn decode(coded: &[u8]) -> Result<Text, Refusal> {
        match coded {
            [front @ .., 0] if is_plain(front) => Text::new(front),
            _ => Err(Refusal::Key),
        }
    }
}
