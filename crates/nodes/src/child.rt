/// The kinds of node, by the number of children they have room for. Apart from the kinds of slot, which have a leaf too.
#[derive(Clone, Copy, Debug, PartialEq, Eq)]
pub enum NodeKind {
    Node4,
    Node16,
    Node48,
    Node256,
}

/// A child of a node: a leaf or a node, by its slot.
#[derive(Clone, Copy, Debug, PartialEq, Eq)]
pub enum Child {
    Leaf(u16),
    Node(NodeKind, u16),
}

/// A child with the byte it stands under.
#[derive(Clone, Copy, Debug, PartialEq, Eq)]
pub struct Edge {
    pub byte: u8,
    pub child: Child,
}
