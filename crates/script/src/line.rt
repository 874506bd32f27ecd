//! The text of an output line, byte for byte.

ghost use Rattle.std.specs.Prelude.{◌≡◌, ◌+◌, ◌≤◌, ◌∷◌, ◌++◌, length, decimal};
ghost use Rattle.script.specs.Replies.{words_of, answer_words, step_words, clash_words, line_of};
ghost use Rattle.script.specs.Lines.{line_text};

use crate::reply::{Done, Reply};
use inline_bytes::InlineBytes;
use itoa::Buffer;
use terms::{Answer, Clash, Outcome};

/// An output line without its end.
#[derive(Clone, Copy, Debug, PartialEq, Eq)]
pub struct Line {
    text: InlineBytes<64>,
}

/// The output line of a reply to the script line of this number.
pub fn reply_line(number: u16, reply: Reply) -> Line
    ensures { line_text result ≡ line_of number reply }
{
    let mut line = Line {
        text: InlineBytes::empty(),
    };
    line.put_decimal(u32::from(number));
    line.put(b" ");
    line.put_reply(reply);
    line
}

impl Line {
    pub fn as_slice(&self) -> &[u8]
        ensures { result.now ≡ line_text self.now }
    {
        self.text.as_slice()
    }

    fn put(&mut self, s: &[u8])
        requires { length (line_text self.old) + length s.now ≤ 64 }
        ensures text { line_text self.new ≡ line_text self.old ++ s.now }
        ensures len { length (line_text self.new) ≡ length (line_text self.old) + length s.now }
    {
        self.text.extend(s).unwrap();
    }

    fn put_decimal(&mut self, n: u32)
        requires { length (line_text self.old) + 10 ≤ 64 }
        ensures text { line_text self.new ≡ line_text self.old ++ decimal n }
        ensures bound { length (line_text self.new) ≤ length (line_text self.old) + 10 }
    {
        self.put(Buffer::new().format(n).as_bytes());
    }

    // A number behind a space.
    fn put_number(&mut self, n: u32)
        requires { length (line_text self.old) + 11 ≤ 64 }
        ensures text { line_text self.new ≡ line_text self.old ++ 0x20 ∷ decimal n }
        ensures bound { length (line_text self.new) ≤ length (line_text self.old) + 11 }
    {
        self.put(b" ");
        self.put_decimal(n);
    }

    // Not by `write!`, whose contract says nothing of an error: these words cannot fail.
    // Each of the four asks that only a number and a space stand before it: no type of a line says that more plainly.
    fn put_reply(&mut self, reply: Reply)
        requires { length (line_text self.old) ≤ 11 }
        ensures { line_text self.new ≡ line_text self.old ++ words_of reply }
    {
        match reply {
            Ok(Done::Accepted) => self.put(b"ok"),
            Ok(Done::Stepped(outcome)) => self.put_outcome(outcome),
            Ok(Done::Swept(count)) => {
                self.put(b"swept");
                self.put_number(u32::from(count));
            }
            Err(refusal) => {
                self.put(b"no");
                self.put_number(u32::from(u8::from(refusal)));
            }
        }
    }

    fn put_outcome(&mut self, outcome: Outcome)
        requires { length (line_text self.old) ≤ 11 }
        ensures { line_text self.new ≡ line_text self.old ++ step_words outcome }
    {
        match outcome {
            Outcome::Go => self.put(b"go"),
            Outcome::Again(clash) => self.put_clash(clash),
            Outcome::Answered(answer) => self.put_answer(answer),
        }
    }

    fn put_clash(&mut self, clash: Clash)
        requires { length (line_text self.old) ≤ 11 }
        ensures { line_text self.new ≡ line_text self.old ++ clash_words clash }
    {
        self.put(b"again");
        self.put_number(u32::from(u8::from(clash.cause)));
        self.put_number(u32::from(u16::from(clash.kind)));
        self.put_number(u32::from(clash.slot));
        self.put_number(u32::from(clash.depth));
    }

    fn put_answer(&mut self, answer: Answer)
        requires { length (line_text self.old) ≤ 11 }
        ensures { line_text self.new ≡ line_text self.old ++ answer_words answer }
    {
        match answer {
            Answer::Found(value) => {
                self.put(b"found");
                self.put_number(value);
            }
            Answer::Absent => self.put(b"absent"),
            Answer::Added => self.put(b"added"),
            Answer::Present(value) => {
                self.put(b"present");
                self.put_number(value);
            }
            Answer::NoRoom(kind) => {
                self.put(b"noroom");
                self.put_number(u32::from(u16::from(kind)));
            }
        }
    }
}
