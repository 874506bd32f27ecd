use inline_bytes::InlineBytes;

/// The most bytes that a text holds. The coding accepts fewer: a longer text is a key that it refuses.
pub const TEXT_ROOM: usize = 64;

/// A text, accepted by the coding or not.
#[derive(Clone, Copy, Debug, PartialEq, Eq)]
pub struct Text {
    pub(crate) bytes: InlineBytes<TEXT_ROOM>,
}
