// The reduction of a symmetric or Hermitian table to tridiagonal form.
ghost use Rattle.std.specs.Prelude.{◌≡◌, ◌+◌, ◌-◌, ◌*◌, ◌<◌, ◌≤◌, ◌∷◌, length, take, drop};
ghost use Rattle.std.specs.Prelude.{cond, fold, map, if◌then◌else◌, None};
ghost use Rattle.tridiagonal.specs.Householder.{kind, axis_norm};
ghost use Rattle.tridiagonal.specs.Blas.{unscaled};
ghost use Rattle.tridiagonal.specs.Checks.{refusal_for};
ghost use Rattle.tridiagonal.specs.Outcome.{outcome_of, Reduced};
ghost use Rattle.tridiagonal.specs.Reduce.{largest_size};
ghost use Rattle.tridiagonal.specs.Runs.{buffers, call, ReduceRun, OnlyLower};
ghost use Rattle.tridiagonal.specs.Squares.{SameSquare};
ghost use Rattle.tridiagonal.specs.Tables.{lower, put};
ghost use Rattle.tridiagonal.specs.Tridiagonal.{diagonal, updated, stepped_column, stepped_rest, reduced_columns, reduced_norms};

use crate::blas::{dotc, unscale};
use crate::checks::check;
use crate::householder::reflection_axis_mut;
use crate::reduction::Reduction;
use crate::square::Square;
use crate::table::Table;
use fault::Fault;
use scalar::{Arithmetic, RealScalar, Scalar};

impl<T: Scalar> Square<'_, T> {
    // Reflects the square from both sides. p is room to work in.
    fn update(&mut self, axis: &[T], p: &mut [T])
        requires as_axis { length axis.now ≡ self.old.n - self.old.k }
        requires as_p { length p.old ≡ self.old.n - self.old.k }
        ensures cells { let m = self.old.n - self.old.k in
            self.new.cells.now ≡ put self.old.n self.old.k m
            (updated (kind T.ops T.Real.ops T.Real.real) axis.now
            (lower self.old.n self.old.k m self.old.cells.now)) self.old.cells.now }
        ensures same { SameSquare self.old self.new }
    {
        let two = T::from_real(T::Real::TWO);
        self.hegemv(two, axis, p);
        let dot = dotc(axis, p);
        let minus_one = T::one().neg();
        self.hegerc_three(minus_one, dot.mul(two), p, axis);
    }
}

// Updates the square from row and column k on, where the column reflects: apart, so that the test is proved alone.
// A slice and no square: of a part that step lends to a square a proof knows the length alone afterwards (at `returns` of step).
fn update_where<T: Scalar>(reflects: bool, t: &mut [T], n: usize, k: usize, axis: &[T], p: &mut [T])
    requires some { k < n }
    requires held { length t.old ≡ (n - k) * n }
    requires as_axis { length axis.now ≡ n - k }
    requires as_p { length p.old ≡ n - k }
    ensures { t.new ≡ (if reflects then put n k (n - k)
        (updated (kind T.ops T.Real.ops T.Real.real) axis.now
        (lower n k (n - k) t.old)) t.old else t.old) }
{
    if reflects {
        let mut square = Square { cells: t, n, k };
        square.update(axis, p);
    }
}

// One step: the part of column i below the diagonal becomes an axis, whose norm is the answer, and where there is a
// reflection the square right of it and below is reflected. t holds the columns from i on, a slice as in `update_where`;
// `axis` and p are room to work in.
fn step<T: Scalar>(t: &mut [T], n: usize, i: usize, axis: &mut [T], p: &mut [T]) -> T
    requires some { i + 1 < n }
    requires held { length t.old ≡ (n - i) * n }
    requires wide { n ≤ length t.old }
    requires as_axis { length axis.old ≡ n - (i + 1) }
    requires as_p { length p.old ≡ n - (i + 1) }
    ensures norm { result ≡ axis_norm (kind T.ops T.Real.ops T.Real.real) (drop 1 (take (n - i) (drop i t.old))) }
    ensures table { let K = kind T.ops T.Real.ops T.Real.real in let c = take (n - i) (drop i t.old) in
        t.new ≡ put n i (n - i)
        (stepped_column K c ∷ stepped_rest K c (lower n (i + 1) (n - i - 1) (drop n t.old))) t.old }
{
    let report = reflection_axis_mut(&mut t[i + 1..n]);
    axis.copy_from_slice(&t[i + 1..n]);
    update_where(report.reflects, &mut t[n..], n, i + 1, axis, p);
    report.norm
}

// All steps: the lower columns are reduced, and signs gets the norms. scratch is room to work in.
// The side and the table stand apart: a `Square` of both would be taken apart in each step, which takes a slice.
fn reduce_columns<T: Scalar>(n: usize, table: &mut [T], signs: &mut [T], scratch: &mut [T])
    requires some { 0 < n }
    requires held { length table.old ≡ n * n }
    requires as_signs { length signs.old ≡ n - 1 }
    requires as_scratch { length scratch.old ≡ n - 1 }
    ensures table { table.new ≡ put n 0 n
        (reduced_columns (kind T.ops T.Real.ops T.Real.real) (n - 1)
        (lower n 0 n table.old)) table.old }
    ensures signs { signs.new ≡
        reduced_norms (kind T.ops T.Real.ops T.Real.real) (n - 1)
        (lower n 0 n table.old) }
{
    // By an index: a step lends what is left of all three slices, and then its sign is written.
    for i in 0..n - 1 {
        signs[i] = step(
            &mut table[i * n..],
            n,
            i,
            &mut signs[i..],
            &mut scratch[i..],
        );
    }
}

// The largest of a size and those of some entries: apart from `largest_size`, so that the fold is proved alone.
fn largest_from<T: Scalar>(first: T::Real, rest: &[T]) -> T::Real
    ensures { result ≡ fold (λ l x. T.Real.real.larger l (T.ops.size x)) first rest.now }
{
    rest.iter()
        .fold(first, |largest, x| largest.larger(x.size()))
}

impl<T: Scalar> Table<'_, T> {
    // The largest size of an entry.
    fn largest_size(&self) -> T::Real
        ensures { result ≡ largest_size (kind T.ops T.Real.ops T.Real.real) self.now.entries.now }
    {
        largest_from(self.entries[0].size(), &self.entries[1..])
    }

    // The real parts of the diagonal.
    #[tactic(auto, using(crate::proofs::Columns::column_held))]
    fn read_diagonal(&self, values: &mut [T::Real])
        requires { length values.old ≡ self.now.n }
        ensures { let n = self.now.n in
            values.new ≡ diagonal (kind T.ops T.Real.ops T.Real.real) (lower n 0 n self.now.entries.now) }
    {
        for (i, value) in values.iter_mut().enumerate() {
            *value = self.entries[i * self.n + i].real();
        }
    }
}

// Divides every entry by the largest size, unless that is zero.
fn divide<T: Scalar>(table: &mut [T], largest: T::Real)
    ensures { table.new ≡ cond (T.Real.ops.is_zero largest) table.old
        (unscaled T.ops largest table.old) }
{
    if !largest.is_zero() {
        unscale(table, largest);
    }
}

// The moduli of the signs.
fn read_moduli<T: Scalar>(signs: &[T], offs: &mut [T::Real])
    requires { length offs.old ≡ length signs.now }
    ensures { offs.new ≡ map T.ops.modulus signs.now }
{
    // Not zipped: of what a zip of iter_mut writes a proof knows the length alone (at `returns`).
    for (i, off) in offs.iter_mut().enumerate() {
        *off = signs[i].modulus();
    }
}

// The reduction of a table that nothing is refused of.
// No struct of the buffers: a method of one would promise besides, of each of five fields, that it keeps its reference.
fn reduce_accepted<T: Scalar>(
    n: usize,
    table: &mut [T],
    values: &mut [T::Real],
    offs: &mut [T::Real],
    signs: &mut [T],
    scratch: &mut [T],
) -> Reduction<T::Real>
    requires { refusal_for (kind T.ops T.Real.ops T.Real.real) n table.old values.old offs.old signs.old scratch.old ≡ None }
    ensures run { ReduceRun (kind T.ops T.Real.ops T.Real.real) n
        (buffers table.old values.old offs.old signs.old scratch.old)
        (Reduced result.side result.largest)
        (buffers table.new values.new offs.new signs.new scratch.new) }
    ensures only_lower { OnlyLower (kind T.ops T.Real.ops T.Real.real) (call n
        (buffers table.old values.old offs.old signs.old scratch.old)
        (Reduced result.side result.largest)
        (buffers table.new values.new offs.new signs.new scratch.new)) }
{
    let largest = Table { entries: table, n }.largest_size();
    divide(table, largest);
    reduce_columns(n, table, signs, scratch);
    Table { entries: table, n }.read_diagonal(values);
    read_moduli(signs, offs);
    Reduction { side: n, largest }
}

// Reduces a table of side n, column by column, to tridiagonal form: values get the diagonal, signs the norms that the
// steps report, offs their moduli, and the axes stay in the table. What scratch holds afterwards is left open.
// Never inlined: in the midst of a larger function the compiler loses sight of it that the slices lie apart, and the loops over complex
// numbers take one at a time; over binary32 that was half as long again as at four at a time.
#[inline(never)]
pub fn reduce<T: Scalar>(
    n: usize,
    table: &mut [T],
    values: &mut [T::Real],
    offs: &mut [T::Real],
    signs: &mut [T],
    scratch: &mut [T],
) -> Result<Reduction<T::Real>, Fault>
    ensures run { ReduceRun (kind T.ops T.Real.ops T.Real.real) n
        (buffers table.old values.old offs.old signs.old scratch.old)
        (outcome_of result)
        (buffers table.new values.new offs.new signs.new scratch.new) }
    ensures only_lower { OnlyLower (kind T.ops T.Real.ops T.Real.real) (call n
        (buffers table.old values.old offs.old signs.old scratch.old)
        (outcome_of result)
        (buffers table.new values.new offs.new signs.new scratch.new)) }
{
    check(n, table, values, offs, signs, scratch)?;
    Ok(reduce_accepted(n, table, values, offs, signs, scratch))
}
