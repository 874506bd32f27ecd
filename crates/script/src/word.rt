ghost use Rattle.std.specs.Prelude.{◌≡◌, Decides};
ghost use Rattle.std.specs.Option.{option_map};
ghost use Rattle.script.specs.Means.{word_meant};
ghost use Rattle.script.specs.Words.{first_word, after_word, word_of, Printable};

/// A word of a line: a number as it stands, or a text without its `'`.
#[derive(Clone, Copy, Debug, PartialEq, Eq)]
pub enum Word<'a> {
    Number(&'a [u8]),
    Text(&'a [u8]),
}

pub(crate) fn read_word(bytes: &[u8]) -> Word<'_>
    ensures { word_meant result ≡ word_of bytes.now }
{
    match bytes {
        [b'\'', text @ ..] => Word::Text(text),
        _ => Word::Number(bytes),
    }
}

/// Whether all bytes of a text may stand in a script: 21 to 7E.
pub fn printable(text: &[u8]) -> bool
    ensures { Decides result (Printable text.now) }
{
    text.iter().all(|b| matches!(*b, 0x21..=0x7e))
}

/// The first word of a line, and what follows its space, if it has one.
pub(crate) fn split_word(line: &[u8]) -> (&[u8], Option<&[u8]>)
    ensures word { result.0.now ≡ first_word line.now }
    ensures rest { option_map (λ x. x.now) result.1 ≡ after_word line.now }
{
    match line.iter().position(|b| *b == b' ') {
        Some(end) => (&line[..end], Some(&line[end + 1..])),
        None => (line, None),
    }
}
