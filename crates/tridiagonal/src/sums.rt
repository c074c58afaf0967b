// Eight running sums.
ghost use Rattle.std.specs.Prelude.{◌≡◌, length};
ghost use Rattle.tridiagonal.specs.Blas.{plus_product, no_sums, eight_more, gathered};

use scalar::{Arithmetic, Scalar};

// The sum, and one product more: of the conjugate of x with y.
pub(crate) fn plus_product<T: Scalar>(sum: T, x: T, y: T) -> T
    ensures { result ≡ plus_product T.ops sum x y }
{
    sum.add(x.conjugate().mul(y))
}

// Eight fields and no [T; 8]: such an array has to be shown to fit in memory, and nothing bounds the size of a T.
#[derive(Clone, Copy)]
pub(crate) struct Sums<T: Copy> {
    s0: T,
    s1: T,
    s2: T,
    s3: T,
    s4: T,
    s5: T,
    s6: T,
    s7: T,
}

impl<T: Scalar> Sums<T> {
    pub(crate) fn zero() -> Sums<T>
        ensures { result ≡ no_sums T.ops }
    {
        let zero = T::zero();
        Sums {
            s0: zero,
            s1: zero,
            s2: zero,
            s3: zero,
            s4: zero,
            s5: zero,
            s6: zero,
            s7: zero,
        }
    }

    // Each of the eight sums takes the product at its place.
    pub(crate) fn plus_products(self, x: &[T], y: &[T]) -> Sums<T>
        requires in_x { length x.now ≡ 8 }
        requires in_y { length y.now ≡ 8 }
        ensures { result ≡ eight_more T.ops self x.now y.now }
    {
        Sums {
            s0: plus_product(self.s0, x[0], y[0]),
            s1: plus_product(self.s1, x[1], y[1]),
            s2: plus_product(self.s2, x[2], y[2]),
            s3: plus_product(self.s3, x[3], y[3]),
            s4: plus_product(self.s4, x[4], y[4]),
            s5: plus_product(self.s5, x[5], y[5]),
            s6: plus_product(self.s6, x[6], y[6]),
            s7: plus_product(self.s7, x[7], y[7]),
        }
    }

    // The eight sums, added up in pairs.
    pub(crate) fn gather(self) -> T
        ensures { result ≡ gathered T.ops self }
    {
        T::zero()
            .add(self.s0.add(self.s4))
            .add(self.s1.add(self.s5))
            .add(self.s2.add(self.s6))
            .add(self.s3.add(self.s7))
    }
}
