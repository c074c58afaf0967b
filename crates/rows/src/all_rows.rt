// A keeper of rows in a slice that is handed in, column by column.
ghost use Rattle.std.specs.Prelude.{◌≡◌, ◌+◌, ◌*◌, [], ◌∷◌, true, cond, length, OnErr};
ghost use Rattle.rows.specs.Keepers.{answered, kept_turned, turn_answer};
ghost use Rattle.rows.specs.Makes.{all_rows, all_rows_fit, all_rows_check, counts_kept};
ghost use Rattle.rows.specs.Sounds.{all_rows_sound};

use crate::columns::{entry, rotate};
use crate::keeper::Keeper;
use crate::turn::Turn;
use fault::{Fault, side_fits};
use scalar::{Arithmetic, Scalar};

// The counts stand beside the slice: `new` is handed all three, and nothing here allocates.
// The slice lent holds, once the keeper is gone, what `cells` held last: it is the same one, by `same_slice` of `new` and of `turn`, and
// where the keeper's type is a parameter, as in a run, by the trait's `lent`. What that is, the rows tell of a keeper that fits. One made
// against `check` no turn through `AllRows` writes (`untouched`), but where its type is a parameter, only width 0 and no rows are told.
#[derive(Drop)]
pub struct AllRows<'a, T> {
    width: usize,
    count: usize,
    cells: &'a mut [T],
    ghost counts: { counts_kept width count (length cells.now) ≡ true },
}

impl<'a, T: Scalar> AllRows<'a, T> {
    pub fn check(width: usize, count: usize, length: usize) -> Result<(), Fault>
        ensures answer { answered result ≡ all_rows_check width count «length» }
    {
        // Of rows there may be none: a count is no side.
        if !side_fits(width) || count > 512 {
            return Err(Fault::Side);
        }
        if length != width * count {
            return Err(Fault::Length);
        }
        Ok(())
    }

    // Making refuses nothing, so that it says what is held of every input: where `check` refuses, the keeper has width 0 and no rows.
    pub fn new(width: usize, count: usize, cells: &'a mut [T]) -> AllRows<'a, T>
        ensures kept { all_rows T.ops.zero result.width result.count result.cells.now ≡
            all_rows T.ops.zero width count cells.old }
        ensures width { result.width ≡ cond (all_rows_fit width count (length cells.old)) width 0 }
        ensures count { result.count ≡ cond (all_rows_fit width count (length cells.old)) count 0 }
        ensures cells { result.cells.now ≡ cells.old }
        ensures same_slice { result.cells.ghost_name ≡ cells.entry.ghost_name }
    {
        match AllRows::<T>::check(width, count, cells.len()) {
            Ok(()) => AllRows {
                width,
                count,
                cells,
            },
            Err(_) => AllRows {
                width: 0,
                count: 0,
                cells,
            },
        }
    }
}

impl<'a, T: Scalar> Keeper<T> for AllRows<'a, T> {
    ghost kept = { λ k. all_rows T.ops.zero k.width k.count k.cells.now };

    ghost lent = { λ k. k.cells.ghost_name ∷ [] };

    ghost sound = { λ k. all_rows_sound T.ops.zero k.width k.count k.cells.now };

    fn width(&self) -> usize {
        self.width
    }

    #[tactic(auto, using(crate::proofs::Held::all_rows_count))]
    fn rows(&self) -> usize {
        self.count
    }

    #[tactic(auto, using(crate::proofs::Held::all_rows_cell, crate::proofs::Held::all_rows_outside))]
    fn read(&self, row: usize, column: usize) -> Result<T, Fault> {
        if row >= self.count || column >= self.width {
            return Err(Fault::Column);
        }
        Ok(entry(self.cells, self.count, row, column))
    }

    fn turn(&mut self, turn: &Turn<T::Real>) -> Result<(), Fault>
        ensures answer { answered result ≡
            turn_answer (all_rows T.ops.zero self.old.width self.old.count self.old.cells.now) turn.now.column }
        ensures rows { all_rows T.ops.zero self.new.width self.new.count self.new.cells.now ≡
            kept_turned T.ops turn.now (all_rows T.ops.zero self.old.width self.old.count self.old.cells.now) }
        ensures width { self.new.width ≡ self.old.width }
        ensures count { self.new.count ≡ self.old.count }
        ensures untouched { OnErr result (self.new.cells.now ≡ self.old.cells.now) }
        ensures same_slice { self.new.cells.ghost_name ≡ self.old.cells.ghost_name }
    {
        if !turn.is_inside(self.width) {
            return Err(Fault::Column);
        }
        rotate(self.cells, self.width, self.count, turn);
        Ok(())
    }
}
