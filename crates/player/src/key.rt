ghost use Rattle.std.specs.Prelude.{ℕ, Bool, List, Option};
ghost use Rattle.script.specs.Means.{word_meant};
ghost use Rattle.player.specs.Keys.{ReadsNumber, ReadsText};

use keys::{Coding, Numbers, Text, Texts};
use script::Word;

/// A coding whose keys can stand in a script.
///
/// `reads` says which key a word is, or that it is none; a word is whether it is a text, and its bytes.
pub trait ScriptKey: Coding {
    ghost reads: { Bool × List ℕ → Option Self.Key → Type 0 };

    fn read_key(word: Word<'_>) -> Option<Self::Key>
        ensures { reads (word_meant word.entry) result };
}

impl ScriptKey for Numbers {
    ghost reads = { ReadsNumber };

    fn read_key(word: Word<'_>) -> Option<i32> {
        match word {
            Word::Number(bytes) => script::key_number(bytes),
            Word::Text(_) => None,
        }
    }
}

impl ScriptKey for Texts {
    ghost reads = { ReadsText };

    fn read_key(word: Word<'_>) -> Option<Text> {
        match word {
            Word::Text(bytes) if script::printable(bytes) => Text::new(bytes).ok(),
            _ => None,
        }
    }
}
