// Seeded tables: the entries on and below the diagonal are drawn column by column.
use crate::random::Random;
use crate::sample::{RealSample, Sample};
use scalar::Arithmetic;
use std::alloc::{AllocError, Global};

#[derive(Clone, Copy, PartialEq, Eq)]
pub(crate) enum Shape {
    Dense,
    // dense, with the entries above the diagonal drawn too: the others have the conjugates there
    OwnUpper,
    // zero below the first subdiagonal
    Banded,
    // the entry at row r and column c times 2^-(r + c)
    Graded,
}

impl Shape {
    // The exponent is cast: no From leads from usize to u32.
    fn shaped<T: Sample>(self, x: T, row: usize, column: usize) -> T {
        match self {
            Shape::Banded if row.wrapping_sub(column) > 1 => T::zero(),
            Shape::Dense | Shape::OwnUpper | Shape::Banded => x,
            Shape::Graded => x.scale(T::Real::power((row.wrapping_add(column) % 127) as u32)),
        }
    }
}

#[derive(Clone, Copy)]
pub(crate) struct Case {
    pub(crate) side: usize,
    pub(crate) seed: u64,
    pub(crate) shape: Shape,
}

// A square table, column by column.
#[derive(Drop)]
struct Table<T: Sample> {
    side: usize,
    cells: Vec<T>,
}

impl<T: Sample> Table<T> {
    fn put(&mut self, row: usize, column: usize, x: T) {
        let at = row.wrapping_add(column.wrapping_mul(self.side));
        if let Some(cell) = self.cells.get_mut(at) {
            *cell = x;
        }
    }

    // By index: an entry is written at its place and, conjugated, at the mirrored one.
    fn fill_column(&mut self, random: &mut Random, shape: Shape, column: usize) {
        for row in column..self.side {
            let drawn = if row == column {
                T::draw_real(random)
            } else {
                T::draw(random)
            };
            let x = shape.shaped(drawn, row, column);
            self.put(column, row, x.conjugate());
            self.put(row, column, x);
        }
    }

    // The row to the right of the diagonal, which stands in no slice of its own.
    fn fill_above(&mut self, random: &mut Random, row: usize) {
        for column in row.saturating_add(1)..self.side {
            self.put(row, column, T::draw(random).scale(T::Real::FOUR));
        }
    }
}

pub(crate) fn drawn<T: Sample>(heap: Global, case: Case) -> Result<Vec<T>, AllocError> {
    let Case { side, seed, shape } = case;
    let mut random = Random::new(seed);
    let mut table = Table {
        side,
        cells: vec![in heap; T::zero(); side.wrapping_mul(side)]?,
    };
    for column in 0..side {
        table.fill_column(&mut random, shape, column);
    }
    if shape == Shape::OwnUpper {
        for row in 0..side {
            table.fill_above(&mut random, row);
        }
    }
    Ok(table.cells)
}
