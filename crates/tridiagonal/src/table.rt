// A table that is read.
ghost use Rattle.std.specs.Prelude.{◌≡◌, ◌*◌, ◌<◌, length};

// The n * n entries of a table of side n, column by column.
#[derive(Drop)]
pub(crate) struct Table<'a, T> {
    pub(crate) entries: &'a [T],
    pub(crate) n: usize,
    ghost some: { 0 < n },
    ghost held: { length entries.now ≡ n * n },
}
