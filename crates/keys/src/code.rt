use inline_bytes::InlineBytes;

/// The most bytes that a coded key has.
pub const LONGEST_KEY: usize = 16;

/// A coded key.
pub type Code = InlineBytes<LONGEST_KEY>;
