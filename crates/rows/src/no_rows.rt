// A keeper of no rows: a run then finds the values alone.
ghost use Rattle.std.specs.Prelude.{◌≡◌, []};
ghost use Rattle.rows.specs.Keepers.{answered};
ghost use Rattle.rows.specs.Makes.{no_rows_check, no_rows_width};
ghost use Rattle.rows.specs.Sounds.{no_rows_sound};

use crate::keeper::Keeper;
use crate::turn::Turn;
use fault::{Fault, side_fits};
use scalar::Scalar;

#[derive(Clone, Copy)]
pub struct NoRows {
    width: usize,
}

impl NoRows {
    pub fn check(width: usize) -> Result<(), Fault>
        ensures answer { answered result ≡ no_rows_check width }
    {
        if !side_fits(width) {
            return Err(Fault::Side);
        }
        Ok(())
    }

    // Making refuses nothing, so that it says what is held of every input: where `check` refuses, the keeper has width 0.
    pub fn new(width: usize) -> NoRows
        ensures width { result.width ≡ no_rows_width width }
    {
        NoRows {
            width: if side_fits(width) { width } else { 0 },
        }
    }
}

impl<T: Scalar> Keeper<T> for NoRows {
    ghost kept = { λ k. record { width = k.width; rows = [] } };

    ghost lent = { λ k. [] };

    ghost sound = { λ k. no_rows_sound k.width };

    fn width(&self) -> usize {
        self.width
    }

    fn rows(&self) -> usize {
        0
    }

    fn read(&self, _row: usize, _column: usize) -> Result<T, Fault> {
        Err(Fault::Column)
    }

    fn turn(&mut self, turn: &Turn<T::Real>) -> Result<(), Fault> {
        if !turn.is_inside(self.width) {
            return Err(Fault::Column);
        }
        Ok(())
    }
}
