ghost use Rattle.std.specs.Prelude.{◌≡◌, ◌-◌, ◌≤◌, length, drop, replicate};

/// Up to `N` bytes. Behind the last one stand zeros, so that equal strings are equal values.
/// A buffer of its own, without a heap: the kit's `ArrayVec` is not `Copy`, and its `ArrayString` holds text alone.
#[derive(Clone, Copy, Debug, PartialEq, Eq)]
pub struct InlineBytes<const N: usize> {
    pub(crate) bytes: [u8; N],
    pub(crate) len: usize,
    ghost fits: { len ≤ N },
    ghost whole: { length bytes ≡ N },
    ghost clear: { drop len bytes ≡ replicate (N - len) 0 },
}

/// There is no room for what was to be put behind the last byte.
#[derive(Clone, Copy, Debug, PartialEq, Eq)]
pub struct Full;
