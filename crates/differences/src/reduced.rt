// A table reduced to tridiagonal form, with its matrix Q, and settled from there.
use crate::shown::{RealShown, Shown};
use anyhow::anyhow;
use eigen::settle;
use fault::Fault;
use rows::NoRows;
use scalar::Arithmetic;
use std::alloc::Global;
use tridiagonal::{Reduction, assemble, reduce};

// What a reduction leaves.
#[derive(Drop)]
pub(crate) struct Form<T: Shown> {
    reduction: Reduction<T::Real>,
    pub(crate) table: Vec<T>,
    pub(crate) values: Vec<T::Real>,
    pub(crate) offs: Vec<T::Real>,
    pub(crate) signs: Vec<T>,
    pub(crate) q: Vec<T>,
}

// The form of a table of the side, column by column. None of the page's is refused here.
pub(crate) fn reduced<T: Shown>(heap: Global, side: usize, cells: &[T]) -> anyhow::Result<Form<T>> {
    let below = side.wrapping_sub(1);
    let mut table: Vec<T> = cells.iter().copied().collect(heap)?;
    let mut values = vec![in heap; T::Real::zero(); side]?;
    let mut offs = vec![in heap; T::Real::zero(); below]?;
    let mut signs = vec![in heap; T::zero(); below]?;
    let mut scratch = vec![in heap; T::zero(); below]?;
    let mut q = vec![in heap; T::zero(); side.wrapping_mul(side)]?;
    let reduction = reduce(
        side,
        &mut table,
        &mut values,
        &mut offs,
        &mut signs,
        &mut scratch,
    )
    .map_err(|fault| anyhow!("{fault}"))?;
    assemble(&reduction, &table, &signs, &mut q).map_err(|fault| anyhow!("{fault}"))?;
    Ok(Form {
        reduction,
        table,
        values,
        offs,
        signs,
        q,
    })
}

impl<T: Shown> Form<T> {
    // The off-diagonal entries after this many passes, of a table that has not settled then.
    pub(crate) fn offs_after(self, passes: u32) -> anyhow::Result<Vec<T::Real>> {
        let Form {
            reduction,
            table: _,
            mut values,
            mut offs,
            signs: _,
            q: _,
        } = self;
        let mut keeper = NoRows::new(reduction.side());
        let settled = settle::<T, NoRows>(
            reduction,
            &mut values,
            &mut offs,
            &mut keeper,
            T::Real::TOLERANCE,
            passes,
        );
        match settled.map_err(Fault::from) {
            Err(Fault::NotSettled { count: _ }) => Ok(offs),
            Err(fault) => Err(anyhow!("{fault}")),
            Ok(count) => Err(anyhow!("settled in {count} passes")),
        }
    }
}
