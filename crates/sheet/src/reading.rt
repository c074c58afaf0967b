// What reading on in a sheet comes to.
ghost use Rattle.std.specs.Prelude.{◌≡◌};

use crate::desk::Closed;

// The table that is closed next, the place of the command that closed it, and the place after that.
// Not one struct with `Next`: what was read keeps its name.
#[derive(Drop)]
pub struct Reading {
    pub table: Closed,
    pub place: usize,
    pub after: usize,
}

impl Reading {
    // A function of its own: that neither place stands for the other is found here, in one step.
    pub(crate) fn new(table: Closed, place: usize, after: usize) -> Self
        ensures reading { (result.table ≡ table) × (result.place ≡ place) × (result.after ≡ after) }
    {
        Self {
            table,
            place,
            after,
        }
    }
}
