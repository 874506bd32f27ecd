use nodes::NodeKind;

/// How a prefix meets the rest of a key.
#[derive(Clone, Copy, Debug, PartialEq, Eq)]
pub enum Met {
    /// They differ first at this place.
    Parts(usize),
    /// The key ends without a difference.
    Ends,
    /// All of the prefix is met, and the key goes on by this byte.
    Goes(u8),
}

/// What a look at a node sees.
#[derive(Clone, Copy, Debug, PartialEq, Eq)]
pub enum Seen {
    /// The key does not go on past the prefix, or no key is long enough to.
    Stale,
    /// The key differs from the prefix first at this place.
    Miss(usize),
    /// No child stands under the key's byte.
    Empty,
    /// The leaf in this slot stands there.
    Leaf(u16),
    /// A node stands there, with the count of key bytes before its prefix.
    Node(NodeKind, u16, usize),
}

/// How a prefix stands to the rest of a key, in byte order.
#[derive(Clone, Copy, Debug, PartialEq, Eq)]
pub enum Rank {
    /// At the first difference the prefix has the larger byte.
    Larger,
    /// At the first difference the prefix has the smaller byte.
    Smaller,
    /// The key ends without a difference.
    Ended,
    /// All of the prefix is met, and the key goes on by this byte.
    Same(u8),
}
