use crate::word::Word;

/// What a line asks for. Keys are as they stand: what they mean is the coding's business.
#[derive(Clone, Copy, Debug, PartialEq, Eq)]
pub enum Call<'a> {
    Open(u8),
    Close(u8),
    Find(u8, Word<'a>),
    Add(u8, Word<'a>, u32),
    Step(u8),
    Sweep,
}
