// Rows that stand in a slice column by column: the entry of row r and column i at r + i * count.
ghost use Rattle.std.specs.Prelude.{◌≡◌, ◌+◌, ◌*◌, ◌<◌, true, map, length, get_or};
ghost use Rattle.rows.specs.Makes.{all_rows_fit, entries_turned, rows_of};
ghost use Rattle.rows.specs.Turns.{turned};

use crate::turn::{Turn, sine_of};
use scalar::{Arithmetic, Scalar};

// Apart from `read`, where it stays open that the place fits in memory (`offset_bounds`).
pub(crate) fn entry<T: Scalar>(cells: &[T], count: usize, row: usize, column: usize) -> T
    requires { row + column * count < length cells.now }
    ensures { result ≡ get_or cells.now (row + column * count) T.ops.zero }
{
    cells[row + column * count]
}

// Turns the entries at two places: t·b joins a scaled, and u·a joins b scaled, both of the old a and b.
fn turn_entries<T: Scalar>(cells: &mut [T], x: usize, y: usize, c: T::Real, t: T, u: T)
    requires at_x { x < length cells.old }
    requires at_y { y < length cells.old }
    requires opposite { u ≡ T.ops.neg (T.ops.conj t) }
    ensures { cells.new ≡ entries_turned T.ops c t x y cells.old }
{
    let a = cells[x];
    let b = cells[y];
    cells[x] = a.scale(c).add(t.mul(b));
    cells[y] = u.mul(a).add(b.scale(c));
}

// Turns two columns of every row: one pass over two columns side by side.
// No method of the keeper: it would promise besides, of the width, the count and the slice lent, that they stay.
#[tactic(auto, using(crate::proofs::Rotations::one_more, crate::proofs::Rotations::all_turned))]
pub(crate) fn rotate<T: Scalar>(cells: &mut [T], width: usize, count: usize, turn: &Turn<T::Real>)
    requires fit { all_rows_fit width count (length cells.old) ≡ true }
    requires inside { turn.now.column + 1 < width }
    ensures { rows_of T.ops.zero width count cells.new ≡
        map (turned T.ops turn.now) (rows_of T.ops.zero width count cells.old) }
{
    let t: T = sine_of(turn);
    let u = t.conjugate().neg();
    let x = turn.column * count;
    let y = x + count;
    // By index: a proof knows nothing of what a `zip` of two `iter_mut`s has written (goal `returns`).
    for r in 0..count {
        turn_entries(cells, x + r, y + r, turn.c, t, u);
    }
}
