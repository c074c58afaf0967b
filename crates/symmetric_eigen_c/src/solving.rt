// The whole decomposition of a table.
ghost use Rattle.std.specs.Prelude.{◌≡◌, ◌*◌, true, length, map, IfOk};
ghost use Rattle.tridiagonal.specs.Householder.{kind};
ghost use Rattle.decomposition.specs.Forms.{Counts};
ghost use Rattle.decomposition.specs.Solutions.{given_room, had_room as solver_had_room, solution, solution_of};
ghost use Rattle.symmetric_eigen_c.specs.Calls.{solution_into, outcome_of, values_or, vectors_or};
ghost use Rattle.symmetric_eigen_c.specs.Outcomes.{had_room};

use crate::crossing::{Crossing, numbers, put_numbers};
use crate::outcome::Outcome;
use crate::points::{Complex32, Complex64};
use crate::told::{done, memory, told};
use decomposition::{Failure, Solved, symmetric_eigen};
use fault::{Fault, side_fits};
use scalar::{Arithmetic, Complex, RealScalar, Scalar};
use std::alloc::Global;

// The decomposition, in memory of its own.
fn solved<T: Scalar, C: Crossing<T>>(
    heap: Global,
    n: usize,
    table: &[C],
    tolerance: T::Real,
    limit: u32,
) -> Result<Solved<T>, Failure>
    ensures solution { solution_of result ≡ given_room (solver_had_room result)
        (solution (kind T.ops T.Real.ops T.Real.real) true n (map C.inward table.now) tolerance limit) }
    ensures counts { IfOk result (Counts n (n * n)) }
{
    let table = numbers(heap, table)?;
    symmetric_eigen(heap, n, table, tolerance, limit)
}

// The decomposition with its values and vectors written where the caller has room for them. Side and lengths are tested before memory is
// asked for.
pub(crate) fn solve<T: Scalar, C: Crossing<T>>(
    heap: Global,
    n: usize,
    table: &[C],
    tolerance: T::Real,
    limit: u32,
    values: &mut [T::Real],
    vectors: &mut [C],
) -> Outcome
    ensures answer { result ≡ outcome_of
        (solution_into (kind T.ops T.Real.ops T.Real.real) n (map C.inward table.now) tolerance limit
        (length values.old) (length vectors.old) (had_room result)) }
    ensures values { values.new ≡ values_or
        (solution_into (kind T.ops T.Real.ops T.Real.real) n (map C.inward table.now) tolerance limit
        (length values.old) (length vectors.old) (had_room result)) values.old }
    ensures vectors { vectors.new ≡ vectors_or C.outward
        (solution_into (kind T.ops T.Real.ops T.Real.real) n (map C.inward table.now) tolerance limit
        (length values.old) (length vectors.old) (had_room result)) vectors.old }
{
    if !side_fits(n) {
        return told(Fault::Side);
    }
    if [table.len(), values.len(), vectors.len()] != [n * n, n, n * n] {
        return told(Fault::Length);
    }
    match solved(heap, n, table, tolerance, limit) {
        Ok(solved) => {
            values.copy_from_slice(&solved.values);
            put_numbers(&solved.vectors, vectors);
            done(solved.passes)
        }
        Err(Failure::Solver(fault)) => told(fault),
        Err(Failure::Memory) => memory(),
    }
}
