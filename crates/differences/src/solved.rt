// A table solved in one call, and what comes of it.
use crate::shown::{Bits, RealShown, Shown};
use anyhow::anyhow;
use decomposition::{Failure, Solved, symmetric_eigen, symmetric_eigenvalues};
use fault::Fault;
use std::alloc::{AllocError, Global};
use std::fmt;

// A table, column by column, and how it is to be solved.
#[derive(Drop)]
pub(crate) struct Input<'a, T: Shown> {
    side: usize,
    cells: &'a [T],
    tolerance: T::Real,
    limit: u32,
}

impl<'a, T: Shown> Input<'a, T> {
    pub(crate) fn new(side: usize, cells: &'a [T]) -> Input<'a, T> {
        Input {
            side,
            cells,
            tolerance: T::Real::TOLERANCE,
            limit: 1000,
        }
    }

    pub(crate) fn tolerance(self, tolerance: T::Real) -> Input<'a, T> {
        Input { tolerance, ..self }
    }

    pub(crate) fn limit(self, limit: u32) -> Input<'a, T> {
        Input { limit, ..self }
    }

    fn table(&self, heap: Global) -> Result<Vec<T>, AllocError> {
        self.cells.iter().copied().collect(heap)
    }

    pub(crate) fn values(&self, heap: Global) -> anyhow::Result<Answer<T>> {
        let table = self.table(heap)?;
        Answer::of(symmetric_eigenvalues(heap, self.side, table, self.tolerance, self.limit))
    }

    pub(crate) fn vectors(&self, heap: Global) -> anyhow::Result<Answer<T>> {
        let table = self.table(heap)?;
        Answer::of(symmetric_eigen(heap, self.side, table, self.tolerance, self.limit))
    }
}

// The solution of a table, or its refusal.
#[derive(Drop)]
pub(crate) struct Answer<T: Shown> {
    solved: Result<Solved<T>, Fault>,
}

impl<T: Shown> Answer<T> {
    // Want of memory is no answer, and ends the program.
    fn of(solved: Result<Solved<T>, Failure>) -> anyhow::Result<Answer<T>> {
        match solved {
            Ok(solved) => Ok(Answer { solved: Ok(solved) }),
            Err(Failure::Solver(fault)) => Ok(Answer { solved: Err(fault) }),
            Err(Failure::Memory) => Err(anyhow!("no memory for a table")),
        }
    }
}

// The vectors stand column by column.
fn write_solved<T: Shown, W: fmt::Write>(
    solved: &Solved<T>,
    f: &mut fmt::Formatter<W>,
) -> fmt::Result {
    write!(f, "passes {} values{}", solved.passes, Bits(&solved.values))?;
    if solved.vectors.is_empty() {
        Ok(())
    } else {
        write!(f, " vectors{}", Bits(&solved.vectors))
    }
}

impl<T: Shown> fmt::Display for Answer<T> {
    fn fmt<W: fmt::Write>(&self, f: &mut fmt::Formatter<W>) -> fmt::Result {
        match &self.solved {
            Ok(solved) => write_solved(solved, f),
            Err(Fault::Entry { row, column }) => {
                write!(f, "refused 3 at row {row} column {column}")
            }
            Err(Fault::NotSettled { count }) => write!(f, "refused 7 with count {count}"),
            Err(fault) => write!(f, "{fault}"),
        }
    }
}
