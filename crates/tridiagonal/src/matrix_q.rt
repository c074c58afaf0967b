// The matrix Q of a reduction.
ghost use Rattle.std.specs.Prelude.{◌≡◌, ◌+◌, ◌-◌, ◌*◌, ◌<◌, ◌≤◌, length, take, drop, ◌==◌, if◌then◌else◌};
ghost use Rattle.tridiagonal.specs.Assemble.{assemble_refusal, identity_from, matrix_q, reflected_columns};
ghost use Rattle.tridiagonal.specs.Householder.{kind};
ghost use Rattle.tridiagonal.specs.Outcome.{refused_in, unless_refused};
ghost use Rattle.tridiagonal.specs.Tables.{lower};

use crate::reduction::Reduction;
use crate::reflection::reflect_with_sign;
use crate::table::Table;
use fault::Fault;
use scalar::{Arithmetic, RealScalar, Scalar};

// The entry of the identity in row i and column j.
fn unit_entry<T: Scalar>(i: usize, j: usize) -> T
    ensures { result ≡ (if i == j then T.ops.one else T.ops.zero) }
{
    if i == j { T::one() } else { T::zero() }
}

// The identity, column by column.
// The side and q, and how many columns q is, stand apart, here and below: a `Table` is read, and q is written.
fn identity<T: Scalar>(n: usize, q: &mut [T])
    requires some { 0 < n }
    requires held { length q.old ≡ n * n }
    ensures { q.new ≡ identity_from (kind T.ops T.Real.ops T.Real.real) n 0 n }
{
    // Row and column are counted: a division of the place for each entry took a tenth of the whole at side 128.
    let mut row: usize = 0;
    let mut column: usize = 0;
    for entry in q.iter_mut() {
        *entry = unit_entry(row, column);
        row += 1;
        if row == n {
            row = 0;
            column += 1;
        }
    }
}

// The sign that a reflection is applied with: the reported norm's own, which is -1 at -0, where the sign split gives 1.
// Apart from `assemble_q`, so that the choice of this sign is proved alone.
fn norm_sign<T: Scalar>(norm: T) -> T
    ensures { result ≡ T.ops.sign norm }
{
    norm.signum()
}

// Reflects m columns, each from row r down.
fn reflect_columns<T: Scalar>(q: &mut [T], n: usize, r: usize, m: usize, axis: &[T], sign: T)
    requires rows { r ≤ n }
    requires held { length q.old ≡ m * n }
    requires as_axis { length axis.now ≡ n - r }
    ensures { q.new ≡ reflected_columns (kind T.ops T.Real.ops T.Real.real) n r axis.now sign m q.old }
{
    // Not over chunks_exact_mut: of q a proof then knows the length alone (at `returns`).
    for j in 0..m {
        reflect_with_sign(axis, &mut q[j * n + r..j * n + n], sign);
    }
}

impl<T: Scalar> Table<'_, T> {
    // The axis that the reduction left in column j, below the diagonal.
    // Beside `Square::column`: a square borrows its cells to write them, and a table is read.
    fn axis(&self, j: usize) -> &[T]
        requires { j < self.now.n }
        ensures { let n = self.now.n in result.now ≡ take (n - (j + 1)) (drop (j * n + (j + 1)) self.now.entries.now) }
    {
        &self.entries[j * self.n + (j + 1)..j * self.n + self.n]
    }

    // Q: the identity, reflected across the last column's axis first and the first column's last.
    fn assemble_q(&self, signs: &[T], q: &mut [T])
        requires as_signs { length signs.now ≡ self.now.n - 1 }
        requires as_q { length q.old ≡ self.now.n * self.now.n }
        ensures { let n = self.now.n in q.new ≡ matrix_q (kind T.ops T.Real.ops T.Real.real) n
            (lower n 0 n self.now.entries.now) signs.now }
    {
        let n = self.n;
        identity(n, q);
        // By index: each step lends what is left of q, and reads its axis from the table and its sign.
        for i in (0..n - 1).rev() {
            reflect_columns(
                &mut q[i * n..],
                n,
                i + 1,
                n - i,
                self.axis(i),
                norm_sign(signs[i]),
            );
        }
    }
}

// Fills q with the matrix Q of a reduction, from the table and the signs that it left. The reduction stays usable.
// Never inlined, for the reason beside `reduce`.
#[inline(never)]
pub fn assemble<T: Scalar>(
    reduction: &Reduction<T::Real>,
    table: &[T],
    signs: &[T],
    q: &mut [T],
) -> Result<(), Fault>
    ensures answer { refused_in result ≡ assemble_refusal reduction.now.side table.now signs.now q.old }
    ensures q { let n = reduction.now.side in
        q.new ≡ unless_refused (assemble_refusal n table.now signs.now q.old) q.old
        (matrix_q (kind T.ops T.Real.ops T.Real.real) n (lower n 0 n table.now) signs.now) }
{
    let n = reduction.side();
    if [table.len(), signs.len(), q.len()] != [n * n, n - 1, n * n] {
        return Err(Fault::Length);
    }
    Table { entries: table, n }.assemble_q(signs, q);
    Ok(())
}
