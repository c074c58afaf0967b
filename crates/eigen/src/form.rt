// The form that is worked on, in a file of its own: definitions name it.
ghost use Rattle.std.specs.Prelude.{◌≡◌, ◌+◌, length};

// A tridiagonal form in the buffers that were handed in: values on the diagonal, and the entries beside it.
// The tolerance is no field: with a field of type R the caller learns nothing of the slices at the end (`returns` of `settle`).
// The keeper is no field either: the search and each step work on the form alone, whatever the keeper.
// That an index lies within the form is said in the contracts: it is a fact about the two.
#[derive(Drop)]
pub(crate) struct Tridiagonal<'a, R: Copy> {
    pub(crate) values: &'a mut [R],
    pub(crate) offs: &'a mut [R],
    ghost lengths: { length offs.now + 1 ≡ length values.now },
}
