// Sums over columns, in the order in which they round.
ghost use Rattle.std.specs.Prelude.{◌≡◌, ◌+◌, ◌-◌, ◌*◌, ◌/◌, ◌<◌, ◌∷◌, length, take, drop};
ghost use borrow.Rule.Slice.PartMut.{put_mid};
ghost use Rattle.tridiagonal.specs.Blas.{no_sums, running_sums, dotc_of};
ghost use Rattle.tridiagonal.specs.Blas.{axc_of, axcpy_of, axpy_of, norm_squared_of, norm_of, unscaled, normalised};
ghost use Rattle.tridiagonal.specs.Hermitian.{row_sum, below_sum, first_sum, first_column, hegemv_of, hegerc_three_of};
ghost use Rattle.tridiagonal.specs.Squares.{SameSquare};
ghost use Rattle.tridiagonal.specs.Tables.{lower, put};

use crate::square::Square;
use crate::sums::{Sums, plus_product};
use scalar::{Arithmetic, RealScalar, Scalar};

// The eight running sums over all whole chunks of eight entries.
// By index: a zip of two chunks_exact asks both for their end at each chunk; a reduction of side 512 took 0.585 s in place of 0.553 s.
// Nor x alone by chunks: y would be read by the same index.
fn chunk_sums<T: Scalar>(x: &[T], y: &[T]) -> Sums<T>
    requires { length x.now ≡ length y.now }
    ensures { result ≡ running_sums T.ops (length x.now / 8) (no_sums T.ops) x.now y.now }
{
    let mut sums = Sums::zero();
    for k in 0..x.len() / 8 {
        let (from, to) = (8 * k, 8 * k + 8);
        sums = sums.plus_products(&x[from..to], &y[from..to]);
    }
    sums
}

// The dot product of the conjugate of x with y: eight running sums while eight entries are left, added up in
// pairs, and then the entries that are left.
// x and y stand apart, here and in all that follow: a struct of two slices of one length would be taken apart in each call.
pub(crate) fn dotc<T: Scalar>(x: &[T], y: &[T]) -> T
    requires { length x.now ≡ length y.now }
    ensures { result ≡ dotc_of T.ops x.now y.now }
{
    let mut sum = chunk_sums(x, y).gather();
    let x_rest = x.chunks_exact(8).remainder();
    let y_rest = y.chunks_exact(8).remainder();
    for (u, v) in x_rest.iter().zip(y_rest) {
        sum = plus_product(sum, *u, *v);
    }
    sum
}

// y becomes (a·u)·1 for each entry u of x: axpy where y's factor is zero.
// x by index, here and in axcpy: after a loop over y.iter_mut().zip(x) a proof knows the length of y alone (`returns`).
pub(crate) fn axc<T: Scalar>(y: &mut [T], a: T, x: &[T])
    requires { length x.now ≡ length y.old }
    ensures { y.new ≡ axc_of T.ops a x.now }
{
    let one = T::one();
    for (i, entry) in y.iter_mut().enumerate() {
        *entry = a.mul(x[i]).mul(one);
    }
}

// y becomes ((a·u)·1) + (b·y) for each entry u of x. No axc at a second factor of zero: that would add a zero, and read y.
fn axcpy<T: Scalar>(y: &mut [T], a: T, x: &[T], b: T)
    requires { length x.now ≡ length y.old }
    ensures { y.new ≡ axcpy_of T.ops a x.now b y.old }
{
    let one = T::one();
    for (i, entry) in y.iter_mut().enumerate() {
        *entry = a.mul(x[i]).mul(one).add(b.mul(*entry));
    }
}

#[tactic(auto, unfolding(crate::specs::Blas::axpy_of))]
pub(crate) fn axpy<T: Scalar>(y: &mut [T], a: T, x: &[T], b: T)
    requires { length x.now ≡ length y.old }
    ensures { y.new ≡ axpy_of T.ops a x.now b y.old }
{
    if b.is_zero() {
        axc(y, a, x);
    } else {
        axcpy(y, a, x, b);
    }
}

// y becomes ((d·v)·1) + 1·z for each entry v of w, where z is ((b·v)·1) + 1·(((a·u)·1) + 1·y) for the entry u of x at its place.
fn axcpy_three<T: Scalar>(y: &mut [T], a: T, x: &[T], b: T, d: T, w: &[T])
    requires as_x { length x.now ≡ length y.old }
    requires as_w { length w.now ≡ length y.old }
    ensures { y.new ≡ axcpy_of T.ops d w.now T.ops.one (axcpy_of T.ops b w.now T.ops.one
        (axcpy_of T.ops a x.now T.ops.one y.old)) }
{
    let one = T::one();
    for (i, entry) in y.iter_mut().enumerate() {
        let first = a.mul(x[i]).mul(one).add(one.mul(*entry));
        let second = b.mul(w[i]).mul(one).add(one.mul(first));
        *entry = d.mul(w[i]).mul(one).add(one.mul(second));
    }
}

// Three axpys, of x and then twice of w, in one pass over y: of a column that is not in the nearest memory, each pass waits for it.
#[tactic(auto, unfolding(crate::specs::Blas::axpy_of))]
fn axpy_three<T: Scalar>(y: &mut [T], a: T, x: &[T], b: T, d: T, w: &[T])
    requires as_x { length x.now ≡ length y.old }
    requires as_w { length w.now ≡ length y.old }
    ensures { y.new ≡ axpy_of T.ops d w.now T.ops.one (axpy_of T.ops b w.now T.ops.one
        (axpy_of T.ops a x.now T.ops.one y.old)) }
{
    if T::one().is_zero() {
        axc(y, d, w);
    } else {
        axcpy_three(y, a, x, b, d, w);
    }
}

pub(crate) fn norm_squared<T: Scalar>(x: &[T]) -> T::Real
    ensures { result ≡ norm_squared_of T.ops x.now }
{
    dotc(x, x).real()
}

pub(crate) fn norm<T: Scalar>(x: &[T]) -> T::Real
    ensures { result ≡ norm_of T.ops T.Real.real x.now }
{
    norm_squared(x).sqrt()
}

// Every entry is divided by the real number.
pub(crate) fn unscale<T: Scalar>(x: &mut [T], divisor: T::Real)
    ensures { x.new ≡ unscaled T.ops divisor x.old }
{
    for entry in x.iter_mut() {
        *entry = entry.unscale(divisor);
    }
}

pub(crate) fn normalise<T: Scalar>(x: &mut [T])
    ensures { x.new ≡ normalised T.ops T.Real.real x.old }
{
    let norm = norm(x);
    unscale(x, norm);
}

// The first column of a Hermitian matrix-vector product: p is written and not read, where a further column adds to it.
fn hegemv_first<T: Scalar>(alpha: T, column: &[T], x: &[T], p: &mut [T])
    requires some { 0 < length x.now }
    requires as_x { length column.now ≡ length x.now }
    requires as_p { length p.old ≡ length x.now }
    ensures { p.new ≡ first_sum T.ops alpha column.now x.now ∷
        drop 1 (first_column T.ops alpha column.now x.now) }
{
    axc(p, alpha.mul(x[0]), column);
    p[0] = p[0].add(alpha.mul(dotc(&column[1..], &x[1..])));
}

// A further column, from its diagonal entry down: its row's sum goes to p's first entry, its entries to those below.
fn hegemv_column<T: Scalar>(alpha: T, column: &[T], x: &[T], p: &mut [T])
    requires some { 0 < length x.now }
    requires as_x { length column.now ≡ length x.now }
    requires as_p { length p.old ≡ length x.now }
    ensures { p.new ≡ row_sum T.ops alpha column.now x.now p.old ∷
        below_sum T.ops alpha column.now x.now p.old }
{
    p[0] = p[0].add(alpha.mul(dotc(column, x)));
    axpy(&mut p[1..], alpha.mul(x[0]), &column[1..], T::one());
}

impl<T: Scalar> Square<'_, T> {
    // The lower part of the square's column j, from its diagonal entry down, to be read: of a function that lends the
    // middle of a slice to be written, no proof of the slice is generated.
    fn column(&self, j: usize) -> &[T]
        requires { j < self.now.n - self.now.k }
        ensures { result.now ≡ take (self.now.n - (self.now.k + j))
            (drop (j * self.now.n + (self.now.k + j)) self.now.cells.now) }
    {
        &self.cells[j * self.n + (self.k + j)..j * self.n + self.n]
    }

    // p becomes alpha·(A·x), where A is the Hermitian square.
    pub(crate) fn hegemv(&self, alpha: T, x: &[T], p: &mut [T])
        requires as_x { length x.now ≡ self.now.n - self.now.k }
        requires as_p { length p.old ≡ self.now.n - self.now.k }
        ensures { p.new ≡ hegemv_of T.ops alpha
            (lower self.now.n self.now.k (self.now.n - self.now.k) self.now.cells.now) x.now }
    {
        hegemv_first(alpha, self.column(0), x, p);
        // By index: a column, x and p each begin one further down than those before.
        for j in 1..self.n - self.k {
            hegemv_column(alpha, self.column(j), &x[j..], &mut p[j..]);
        }
    }

    // The lower part of column j gets a·x, b·w and d·w added.
    #[tactic(auto, using(crate::proofs::Columns::column_held))]
    fn axpy_column(&mut self, j: usize, a: T, x: &[T], b: T, d: T, w: &[T])
        requires within { j < self.old.n - self.old.k }
        requires as_x { length x.now ≡ self.old.n - (self.old.k + j) }
        requires as_w { length w.now ≡ self.old.n - (self.old.k + j) }
        ensures cells { let n = self.old.n in let at = j * n + (self.old.k + j) in let t = self.old.cells.now in
            self.new.cells.now ≡ put_mid at (j * n + n - at) t
            (axpy_of T.ops d w.now T.ops.one (axpy_of T.ops b w.now T.ops.one
            (axpy_of T.ops a x.now T.ops.one (take (n - (self.old.k + j)) (drop at t))))) }
        ensures same { SameSquare self.old self.new }
    {
        let (from, to) = (j * self.n + (self.k + j), j * self.n + self.n);
        axpy_three(&mut self.cells[from..to], a, x, b, d, w);
    }

    // A becomes A + alpha·(x·w*) + alpha·(w·x*) + beta·(w·w*), on its lower triangle: three updates, one on the other.
    pub(crate) fn hegerc_three(&mut self, alpha: T, beta: T, x: &[T], w: &[T])
        requires as_x { length x.now ≡ self.old.n - self.old.k }
        requires as_w { length w.now ≡ self.old.n - self.old.k }
        ensures table { let m = self.old.n - self.old.k in
            self.new.cells.now ≡ put self.old.n self.old.k m (hegerc_three_of T.ops alpha beta x.now w.now
            (lower self.old.n self.old.k m self.old.cells.now)) self.old.cells.now }
        ensures same { SameSquare self.old self.new }
    {
        // By index: a column, x and w each begin one further down than those before.
        for j in 0..self.n - self.k {
            let a = alpha.mul(w[j].conjugate());
            let b = alpha.mul(x[j].conjugate());
            let d = beta.mul(w[j].conjugate());
            self.axpy_column(j, a, &x[j..], b, d, &w[j..]);
        }
    }
}
