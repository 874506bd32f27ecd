ghost use Rattle.std.specs.Prelude.{◌<◌};

/// A slot that was drawn and is owed to its pool until it is filled in or given back.
/// It can be neither dropped nor copied.
#[derive(Debug)]
pub struct Drawn<const N: usize> {
    pub(crate) slot: u16,
    ghost ours: { slot < N },
}
