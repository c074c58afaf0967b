// The block that a pass works on, in a file of its own: definitions name it.
ghost use Rattle.std.specs.Prelude.{◌<◌};

// A block of a tridiagonal form, from its first row to its last.
// That a block lies within its form is said in the contracts: it is a fact about the two.
#[derive(Clone, Copy)]
pub(crate) struct Block {
    pub(crate) start: usize,
    pub(crate) end: usize,
    ghost ordered: { start < end },
}
