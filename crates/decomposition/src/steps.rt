// The steps of a decomposition.
ghost use Rattle.tridiagonal.specs.Householder.{kind};
ghost use Rattle.decomposition.specs.Forms.{Reduces};

use crate::buffers::zeros;
use crate::failure::Failure;
use crate::form::Form;
use fault::{Fault, side_fits};
use scalar::{Arithmetic, RealScalar, Scalar};
use std::alloc::Global;
use tridiagonal::reduce;

// The table reduced, in buffers that are made for its side.
// `reduce` looks at side and length too, but no memory must be asked for what it refuses by them.
#[tactic(auto, using(crate::proofs::Reducing::refused_side, crate::proofs::Reducing::refused_length, crate::proofs::Reducing::lawful_side))]
pub(crate) fn reduced<T: Scalar>(
    heap: Global,
    n: usize,
    mut table: Vec<T>,
) -> Result<Form<T>, Failure>
    ensures form { Reduces (kind T.ops T.Real.ops T.Real.real) n table.items result }
{
    if !side_fits(n) {
        return Err(Fault::Side.into());
    }
    if table.len() != n * n {
        return Err(Fault::Length.into());
    }
    let mut values = zeros(heap, n)?;
    let mut offs = zeros(heap, n - 1)?;
    let mut signs = zeros(heap, n - 1)?;
    let mut scratch = zeros(heap, n - 1)?;
    let reduction = reduce(
        n,
        &mut table,
        &mut values,
        &mut offs,
        &mut signs,
        &mut scratch,
    )?;
    Ok(Form {
        reduction,
        table,
        values,
        offs,
        signs,
    })
}
