// The turn of the columns `column` and `column` + 1 by the cosine c and the sine s.
ghost use Rattle.std.specs.Prelude.{◌≡◌, ◌+◌, nat_lt};
ghost use Rattle.rows.specs.Turns.{sine};

use crate::direction::Direction;
use scalar::{Arithmetic, Scalar};

#[derive(Clone, Copy)]
pub struct Turn<R: Copy> {
    pub column: usize,
    pub c: R,
    pub s: R,
    pub direction: Direction,
}

impl<R: Copy> Turn<R> {
    // Whether both columns lie inside the width.
    pub(crate) fn is_inside(&self, width: usize) -> bool
        ensures { result ≡ nat_lt (self.now.column + 1) width }
    {
        self.column < width.saturating_sub(1)
    }
}

// The embedded sine, or its negative when the direction is back.
// No method: one with `T: Scalar<Real = R>` is refused where it is declared (`cannot-infer-type`).
pub(crate) fn sine_of<T: Scalar>(turn: &Turn<T::Real>) -> T
    ensures { result ≡ sine T.ops turn.now.direction turn.now.s }
{
    let t = T::from_real(turn.s);
    match turn.direction {
        Direction::Forward => t,
        Direction::Back => t.neg(),
    }
}
