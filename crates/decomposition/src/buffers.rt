// The buffers that are made.
ghost use Rattle.std.specs.Prelude.{◌≡◌, [], ◌++◌, length, IfOk, OnOk, slice_index_or};
ghost use Rattle.decomposition.specs.Solutions.{by_columns, column_of};

use rows::Keeper;
use scalar::{Arithmetic, Scalar};
use std::alloc::{AllocError, Global};

// A buffer of zeros.
pub(crate) fn zeros<T: Arithmetic>(heap: Global, count: usize) -> Result<Vec<T>, AllocError>
    ensures count { IfOk result (λ v. length v.items ≡ count) }
{
    vec![in heap; T::zero(); count]
}

// The number that a keeper holds at a row and a column, and zero outside.
#[tactic(auto, using(crate::proofs::HeldRows::unwrapped, crate::proofs::HeldRows::cell_or))]
fn cell<T: Scalar, K: Keeper<T>>(keeper: &K, row: usize, column: usize) -> T
    ensures value { result ≡ slice_index_or (slice_index_or (K.kept keeper.now).rows row []) column T.ops.zero }
{
    keeper.read(row, column).unwrap_or(T::zero())
}

// Adds a column of what a keeper holds. By index: a keeper is read by row and column, and lends no rows to loop over.
#[tactic(auto, using(crate::proofs::HeldRows::column_step, crate::proofs::HeldRows::column_whole))]
fn push_column<T: Scalar, K: Keeper<T>>(
    cells: &mut Vec<T>,
    keeper: &K,
    column: usize,
) -> Result<(), AllocError>
    ensures cells { OnOk result (cells.new.items ≡
        cells.old.items ++ column_of T.ops.zero (K.kept keeper.now).rows column) }
{
    for row in 0..keeper.rows() {
        cells.push(cell(keeper, row, column))?;
    }
    Ok(())
}

// All that a keeper holds, column by column. By index, as in `push_column`.
#[tactic(auto, using(crate::proofs::HeldRows::columns_none, crate::proofs::HeldRows::columns_more))]
pub(crate) fn columns_of<T: Scalar, K: Keeper<T>>(
    heap: Global,
    keeper: &K,
) -> Result<Vec<T>, AllocError>
    ensures cells { IfOk result (λ v. v.items ≡ by_columns T.ops.zero
        (K.kept keeper.now).rows (K.kept keeper.now).width) }
{
    let mut cells = Vec::new(heap);
    for column in 0..keeper.width() {
        push_column(&mut cells, keeper, column)?;
    }
    Ok(cells)
}
