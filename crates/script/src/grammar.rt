//! The grammar of a line behind the first: one letter, then its words, one space between.

ghost use Rattle.std.specs.Prelude.{◌≡◌};
ghost use Rattle.std.specs.Option.{option_map, ok_or};
ghost use Rattle.terms.specs.declared.Refusal.TheVariants.{Grammar};
ghost use Rattle.script.specs.Grammar.{digit_of, seat_of, seat_alone, find_of, add_of, call_by_letter, call_of};
ghost use Rattle.script.specs.Means.{seat_meant, call_meant, read};

use crate::call::Call;
use crate::digits;
use crate::word::{read_word, split_word};
use terms::Refusal;

/// The most bytes of a line.
pub const LONGEST_LINE: usize = 64;

/// A seat, and what follows its space, if it has one.
#[derive(Clone, Copy)]
struct Seated<'a> {
    seat: u8,
    rest: Option<&'a [u8]>,
}

fn digit(word: &[u8]) -> Option<u8>
    ensures { result ≡ digit_of word.now }
{
    match word {
        [digit @ b'0'..=b'9'] => Some(*digit - b'0'),
        _ => None,
    }
}

fn read_seat<'a>(rest: Option<&'a [u8]>) -> Option<Seated<'a>>
    ensures { option_map seat_meant result ≡ seat_of (option_map (λ x. x.now) rest.entry) }
{
    let (word, rest) = split_word(rest?);
    let seat = digit(word)?;
    Some(Seated { seat, rest })
}

// A seat with nothing behind it.
fn read_last_seat(rest: Option<&[u8]>) -> Result<u8, Refusal>
    ensures { result ≡ ok_or (seat_alone (seat_of (option_map (λ x. x.now) rest.entry))) Grammar }
{
    match read_seat(rest) {
        Some(Seated { seat, rest: None }) => Ok(seat),
        _ => Err(Refusal::Grammar),
    }
}

fn read_find<'a>(rest: Option<&'a [u8]>) -> Option<Call<'a>>
    ensures { option_map call_meant result ≡ find_of (option_map (λ x. x.now) rest.entry) }
{
    let Seated { seat, rest } = read_seat(rest)?;
    let (word, rest) = split_word(rest?);
    rest.is_none().then_some(Call::Find(seat, read_word(word)))
}

fn read_add<'a>(rest: Option<&'a [u8]>) -> Option<Call<'a>>
    ensures { option_map call_meant result ≡ add_of (option_map (λ x. x.now) rest.entry) }
{
    let Seated { seat, rest } = read_seat(rest)?;
    let (word, rest) = split_word(rest?);
    let value = digits::number(rest?, u64::from(u32::MAX))?;
    Some(Call::Add(seat, read_word(word), value as u32))
}

// Letters matched as char literals are a rule of the project.
fn by_letter<'a>(letter: u8, rest: Option<&'a [u8]>) -> Result<Call<'a>, Refusal>
    ensures { read result ≡ call_by_letter letter (option_map (λ x. x.now) rest.entry) }
{
    match char::from(letter) {
        'O' => Ok(Call::Open(read_last_seat(rest)?)),
        'C' => Ok(Call::Close(read_last_seat(rest)?)),
        'F' => read_find(rest).ok_or(Refusal::Grammar),
        'A' => read_add(rest).ok_or(Refusal::Grammar),
        'S' => Ok(Call::Step(read_last_seat(rest)?)),
        'W' if rest.is_none() => Ok(Call::Sweep),
        _ => Err(Refusal::Grammar),
    }
}

/// The call that a line asks for, or refusal 9 where the line is outside the grammar.
pub fn read_call(line: &[u8]) -> Result<Call<'_>, Refusal>
    ensures { read result ≡ call_of line.now }
{
    if line.len() > LONGEST_LINE {
        return Err(Refusal::Grammar);
    }
    let ([letter], rest) = split_word(line) else {
        return Err(Refusal::Grammar);
    };
    by_letter(*letter, rest)
}
