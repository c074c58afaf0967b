// Typing into a table. A refused command changes nothing.
ghost use Rattle.std.specs.Prelude.{◌≡◌, ◌*◌, is_none, cond, Some, Ok, Err, length};
ghost use Rattle.job.specs.Rejections.{reported};
ghost use Rattle.job.specs.Shown.{typed};
ghost use Rattle.job.specs.Typed.{limiting, placed, putting, tolerating};
ghost use Rattle.job.specs.declared.rejected.Rejected.TheVariants.{Twice};

use crate::checks::is_tolerance;
use crate::job::Job;
use crate::place::Place;
use crate::rejected::Rejected;
use fault::{Fault, limit_fits};
use scalar::{Arithmetic, RealScalar, Scalar};

// What may be given once.
fn give<V: Copy>(slot: &mut Option<V>, value: V) -> Result<(), Rejected>
    ensures kept { slot.new ≡ cond (is_none slot.old) (Some value) slot.old }
    ensures outcome { result ≡ cond (is_none slot.old) (Ok tt) (Err Twice) }
{
    if slot.is_some() {
        return Err(Rejected::Twice);
    }
    *slot = Some(value);
    Ok(())
}

// The conjugate goes above the diagonal first, so that on the diagonal the number stands as typed.
fn write<T: Scalar>(cells: &mut [Option<T>], place: Place, x: T)
    requires { length cells.old ≡ place.side * place.side }
    ensures { cells.new ≡ placed T.ops place.side cells.old place.row place.column x }
{
    cells[place.mirrored().index()] = Some(x.conjugate());
    cells[place.index()] = Some(x);
}

impl<T: Scalar> Job<T> {
    // A number typed at a row and a column, which stand apart until they are known to be a place of the table.
    pub fn put(&mut self, row: usize, column: usize, x: T) -> Result<(), Rejected>
        ensures outcome { (reported result, typed self.new) ≡ putting T.ops T.Real.real (typed self.old) row column x }
    {
        let Some(place) = Place::lower(self.side, row, column) else {
            return Err(Rejected::Operand);
        };
        let size = x.size();
        if !size.is_finite() {
            return Err(Fault::Entry { row, column }.into());
        }
        if self.cells[place.index()].is_some() {
            return Err(Rejected::Twice);
        }
        write(&mut self.cells, place, x);
        self.largest = self.largest.larger(size);
        Ok(())
    }

    pub fn set_tolerance(&mut self, tolerance: f64) -> Result<(), Rejected>
        ensures outcome { (reported result, typed self.new) ≡ tolerating (typed self.old) tolerance }
    {
        if !is_tolerance(tolerance) {
            return Err(Fault::Tolerance.into());
        }
        give(&mut self.tolerance, tolerance)
    }

    pub fn set_limit(&mut self, limit: u32) -> Result<(), Rejected>
        ensures outcome { (reported result, typed self.new) ≡ limiting (typed self.old) limit }
    {
        if !limit_fits(limit) {
            return Err(Fault::Limit.into());
        }
        give(&mut self.limit, limit)
    }
}
