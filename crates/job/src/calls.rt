// Opening a table, and reading it.
ghost use Rattle.std.specs.Prelude.{◌≡◌, ◌*◌, ◌≤◌, true, replicate, IfOk, None};
ghost use Rattle.fault.specs.Bounds.{limit_fits};
ghost use Rattle.job.specs.Gathered.{largest_of};
ghost use Rattle.job.specs.Opening.{had_room, opened, opening};
ghost use Rattle.job.specs.Shown.{typed};
ghost use Rattle.job.specs.Typed.{entries, entry_at, entry_of, is_side, is_tolerance};

use crate::checks::is_side;
use crate::job::Job;
use crate::place::Place;
use crate::rejected::Unopened;
use scalar::{Arithmetic, RealScalar, Scalar};
use std::alloc::{AllocError, Global};

// The tolerance and the limit of a table to which none was given; the tolerance is 2^-52.
const TOLERANCE: f64 = 2.220446049250313e-16;

const LIMIT: u32 = 1000;

// A number that was not typed is zero.
fn number_of<T: Scalar>(cell: Option<T>) -> T
    ensures value { result ≡ entry_of T.ops cell }
{
    cell.unwrap_or(T::zero())
}

// The cells of a table in which nothing was typed.
fn untyped<T: Scalar>(heap: Global, side: usize) -> Result<Vec<Option<T>>, AllocError>
    requires { side ≤ 32 }
    ensures { IfOk result (λ v. v.items ≡ replicate (side * side) None) }
{
    vec![in heap; None; side * side]
}

// A job's type keeps its side, tolerance and limit within their bounds.
impl<T: Scalar> Job<T> {
    // A table of zeros, with tolerance 2^-52 and limit 1000.
    pub fn open(heap: Global, side: usize) -> Result<Self, Unopened>
        ensures outcome { opening result ≡ opened T.ops side (had_room result) }
    {
        if !is_side(side) {
            return Err(Unopened::Operand);
        }
        let cells = untyped(heap, side)?;
        Ok(Self {
            side,
            cells,
            tolerance: None,
            limit: None,
            largest: T::zero().size(),
        })
    }

    pub fn side(&self) -> usize
        ensures value { result ≡ (typed self.now).side }
        ensures lawful { is_side result ≡ true }
    {
        self.side
    }

    #[tactic(auto, using(crate::proofs::Starts::tolerance_lawful))]
    pub fn tolerance(&self) -> f64
        ensures value { result ≡ (typed self.now).tolerance }
        ensures lawful { is_tolerance result ≡ true }
    {
        self.tolerance.unwrap_or(TOLERANCE)
    }

    pub fn limit(&self) -> u32
        ensures value { result ≡ (typed self.now).limit }
        ensures lawful { limit_fits result ≡ true }
    {
        self.limit.unwrap_or(LIMIT)
    }

    // The largest size gathered: that of the whole table, entry by entry in column order.
    pub fn largest(&self) -> T::Real
        ensures value { result ≡ (typed self.now).largest }
        ensures gathered { result ≡ largest_of T.ops T.Real.real (typed self.now) }
    {
        self.largest
    }

    // The number at a row and a column: zero where none was typed, and outside.
    pub fn entry(&self, row: usize, column: usize) -> T
        ensures value { result ≡ entry_at T.ops (typed self.now) row column }
    {
        // No and_then: its closure would have to say again that the place is one of this table (`index-requires`).
        match Place::new(self.side, row, column) {
            Some(place) => number_of(self.cells[place.index()]),
            None => T::zero(),
        }
    }

    // The whole table, column by column.
    pub fn table(&self, heap: Global) -> Result<Vec<T>, AllocError>
        ensures table { IfOk result (λ v. v.items ≡ entries T.ops (typed self.now)) }
    {
        self.cells.iter().copied().map(number_of).collect(heap)
    }
}
