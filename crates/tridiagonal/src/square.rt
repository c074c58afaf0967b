// The square that a step reflects, in a file of its own: definitions name it.
ghost use Rattle.std.specs.Prelude.{◌≡◌, ◌-◌, ◌*◌, ◌<◌, length};

// The square of a table of n rows from row and column k on: the table's columns from k on, of which the lower triangle
// is read and written.
// That a vector has the square's side is said in the contracts: it is a fact about the two.
#[derive(Drop)]
pub(crate) struct Square<'a, T> {
    pub(crate) cells: &'a mut [T],
    pub(crate) n: usize,
    pub(crate) k: usize,
    ghost some: { k < n },
    ghost held: { length cells.now ≡ (n - k) * n },
}
