// Reducing, assembling and settling one table.
ghost use Rattle.std.specs.Prelude.{◌≡◌, ◌*◌, [], true, false, length, IfOk, ◌≢◌};
ghost use Rattle.fault.specs.Refusals.{refused};
ghost use Rattle.rows.specs.Makes.{all_rows};
ghost use Rattle.tridiagonal.specs.Checks.{side_refused};
ghost use Rattle.tridiagonal.specs.Householder.{kind};
ghost use Rattle.decomposition.specs.Forms.{Counts, Fits, form_of};
ghost use Rattle.decomposition.specs.Laws.{AnyLimit, OnlyLower};
ghost use Rattle.decomposition.specs.Solutions.{SameButVectors, failed, given_room, had_room, settled_with, solution, solution_of};

use crate::buffers::{columns_of, zeros};
use crate::failure::Failure;
use crate::form::Form;
use crate::solved::Solved;
use crate::steps::reduced;
use eigen::settle;
use fault::Fault;
use rows::{AllRows, Keeper, NoRows};
use scalar::{Arithmetic, RealScalar, Scalar};
use std::alloc::Global;
use tridiagonal::assemble;

// All rows of a square matrix that stands column by column. A function of its own: that no row is left out is found here, in one step.
fn square_rows<'a, T: Scalar>(side: usize, cells: &'a mut [T]) -> AllRows<'a, T>
    ensures kept { all_rows T.ops.zero result.width result.count result.cells.now ≡ all_rows T.ops.zero side side cells.old }
{
    AllRows::new(side, side, cells)
}

// Settles a form with a keeper of its side. The vectors are what the keeper then holds, column by column.
fn solved<T: Scalar, K: Keeper<T>>(
    heap: Global,
    form: Form<T>,
    keeper: &mut K,
    tolerance: T::Real,
    limit: u32,
) -> Result<Solved<T>, Failure>
    requires fits { Fits (form_of form) }
    requires width { (K.kept keeper.old).width ≡ form.reduction.side }
    ensures solution { solution_of result ≡ given_room (had_room result)
        (settled_with (kind T.ops T.Real.ops T.Real.real) (K.kept keeper.old) (form_of form) tolerance limit) }
    ensures counts { IfOk result (Counts form.reduction.side (form.reduction.side * length (K.kept keeper.old).rows)) }
{
    let Form {
        reduction,
        table: _,
        mut values,
        mut offs,
        signs: _,
    } = form;
    let largest = reduction.largest();
    let passes = settle::<T, K>(
        reduction,
        &mut values,
        &mut offs,
        keeper,
        tolerance,
        limit,
    ).map_err(Fault::from)?;
    let vectors = columns_of(heap, keeper)?;
    Ok(Solved {
        largest,
        passes,
        values,
        vectors,
    })
}

// The eigenvalues of a table of side n, column by column, of which the lower triangle and the largest size are read.
// The side, the tolerance and the limit stand apart, as `reduce` and `settle` take them.
#[tactic(auto, using(crate::proofs::Whole::solution_laws))]
pub fn symmetric_eigenvalues<T: Scalar>(
    heap: Global,
    n: usize,
    table: Vec<T>,
    tolerance: T::Real,
    limit: u32,
) -> Result<Solved<T>, Failure>
    ensures solution { solution_of result ≡ given_room (had_room result)
        (solution (kind T.ops T.Real.ops T.Real.real) false n table.items tolerance limit) }
    // where the side or the length is refused no want of memory is told
    ensures refused_side { side_refused n ≡ true → solution_of result ≡ failed (refused 1 []) }
    ensures refused_length { side_refused n ≡ false → length table.items ≢ n * n → solution_of result ≡ failed (refused 2 []) }
    ensures counts { IfOk result (Counts n 0) }
    // laws of the definition that `solution` ties the answer to
    ensures any_limit { AnyLimit
        (solution (kind T.ops T.Real.ops T.Real.real) false n table.items tolerance limit)
        (solution (kind T.ops T.Real.ops T.Real.real) false n table.items tolerance) }
    ensures only_lower { OnlyLower (kind T.ops T.Real.ops T.Real.real) false n table.items tolerance limit }
{
    let form = reduced(heap, n, table)?;
    let mut keeper = NoRows::new(n);
    solved(heap, form, &mut keeper, tolerance, limit)
}

// The same with the eigenvectors.
#[tactic(auto, using(crate::proofs::Whole::solution_laws))]
pub fn symmetric_eigen<T: Scalar>(
    heap: Global,
    n: usize,
    table: Vec<T>,
    tolerance: T::Real,
    limit: u32,
) -> Result<Solved<T>, Failure>
    ensures solution { solution_of result ≡ given_room (had_room result)
        (solution (kind T.ops T.Real.ops T.Real.real) true n table.items tolerance limit) }
    // where the side or the length is refused no want of memory is told
    ensures refused_side { side_refused n ≡ true → solution_of result ≡ failed (refused 1 []) }
    ensures refused_length { side_refused n ≡ false → length table.items ≢ n * n → solution_of result ≡ failed (refused 2 []) }
    ensures counts { IfOk result (Counts n (n * n)) }
    // the largest size, the passes, the values and the refusals are those of the values alone
    ensures same_values { SameButVectors (solution_of result) (given_room (had_room result)
        (solution (kind T.ops T.Real.ops T.Real.real) false n table.items tolerance limit)) }
    // laws of the definition that `solution` ties the answer to
    ensures any_limit { AnyLimit
        (solution (kind T.ops T.Real.ops T.Real.real) true n table.items tolerance limit)
        (solution (kind T.ops T.Real.ops T.Real.real) true n table.items tolerance) }
    ensures only_lower { OnlyLower (kind T.ops T.Real.ops T.Real.real) true n table.items tolerance limit }
{
    let form = reduced(heap, n, table)?;
    let mut q = zeros(heap, n * n)?;
    assemble(&form.reduction, &form.table, &form.signs, &mut q)?;
    let mut keeper = square_rows(n, &mut q);
    solved(heap, form, &mut keeper, tolerance, limit)
}
