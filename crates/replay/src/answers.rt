// What comes of a table, each list by its hash.
use crate::random::Hash;
use crate::sample::{Feed, RealSample, Sample};
use crate::table::{Case, drawn};
use eigen::settle;
use fault::Fault;
use rows::AllRows;
use scalar::Arithmetic;
use std::alloc::{AllocError, Global};
use std::fmt;
use tridiagonal::{assemble, reduce};

// A table, the lists that its reduction fills, and Q.
#[derive(Drop)]
pub(crate) struct Buffers<T: Sample> {
    side: usize,
    cells: Vec<T>,
    values: Vec<T::Real>,
    offs: Vec<T::Real>,
    signs: Vec<T>,
    scratch: Vec<T>,
    q: Vec<T>,
}

#[derive(Drop)]
pub(crate) struct Answers {
    given: u64,
    reduced: u64,
    diagonal: u64,
    offs: u64,
    signs: u64,
    q: u64,
    passes: Result<u32, Fault>,
    values: u64,
    vectors: u64,
}

fn hashed<T: Feed>(list: &[T]) -> u64 {
    list.iter().fold(Hash::new(), |hash, x| x.feed(hash)).state
}

impl<T: Sample> Buffers<T> {
    pub(crate) fn new(heap: Global, case: Case) -> Result<Buffers<T>, AllocError> {
        let side = case.side;
        let below = side.wrapping_sub(1);
        Ok(Buffers {
            side,
            cells: drawn(heap, case)?,
            values: vec![in heap; T::Real::zero(); side]?,
            offs: vec![in heap; T::Real::zero(); below]?,
            signs: vec![in heap; T::zero(); below]?,
            scratch: vec![in heap; T::zero(); below]?,
            q: vec![in heap; T::zero(); side.wrapping_mul(side)]?,
        })
    }

    pub(crate) fn answers(mut self) -> Result<Answers, Fault> {
        let given = hashed(&self.cells);
        let reduction = reduce(
            self.side,
            &mut self.cells,
            &mut self.values,
            &mut self.offs,
            &mut self.signs,
            &mut self.scratch,
        )?;
        assemble(&reduction, &self.cells, &self.signs, &mut self.q)?;
        let reduced = hashed(&self.cells);
        let diagonal = hashed(&self.values);
        let offs = hashed(&self.offs);
        let signs = hashed(&self.signs);
        let q = hashed(&self.q);
        let mut keeper = AllRows::new(self.side, self.side, &mut self.q);
        let passes = settle::<T, AllRows<T>>(
            reduction,
            &mut self.values,
            &mut self.offs,
            &mut keeper,
            T::Real::TOLERANCE,
            1_000_000,
        );
        Ok(Answers {
            given,
            reduced,
            diagonal,
            offs,
            signs,
            q,
            passes: passes.map_err(Fault::from),
            values: hashed(&self.values),
            vectors: hashed(&self.q),
        })
    }
}

impl fmt::Display for Answers {
    fn fmt<W: fmt::Write>(&self, f: &mut fmt::Formatter<W>) -> fmt::Result {
        write!(
            f,
            "given {:016X} reduced {:016X} ",
            self.given, self.reduced
        )?;
        write!(
            f,
            "diagonal {:016X} offs {:016X} ",
            self.diagonal, self.offs
        )?;
        write!(f, "signs {:016X} q {:016X} ", self.signs, self.q)?;
        match self.passes {
            Ok(count) => write!(f, "passes {count} ")?,
            Err(fault) => write!(f, "{fault} ")?,
        }
        write!(
            f,
            "values {:016X} vectors {:016X}",
            self.values, self.vectors
        )
    }
}
