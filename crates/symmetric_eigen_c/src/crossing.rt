// Numbers as they cross from C and back.
ghost use Rattle.std.specs.Prelude.{◌≡◌, length, map, IfOk};
ghost use Rattle.symmetric_eigen_c.specs.Points.{complex_of_64, complex_of_32, point_64, point_32};

use crate::points::{Complex32, Complex64};
use scalar::{Complex, Scalar};
use std::alloc::{AllocError, Global};

// What stands in C's tables for a number of the kind T.
pub(crate) trait Crossing<T: Scalar>: Copy {
    ghost inward: { Self → T };

    ghost outward: { T → Self };

    fn number(self) -> T
        ensures value { result ≡ inward self };

    fn crossed(x: T) -> Self
        ensures value { result ≡ outward x };
}

impl Crossing<f64> for f64 {
    ghost inward = { λ x. x };

    ghost outward = { λ x. x };

    fn number(self) -> f64 {
        self
    }

    fn crossed(x: f64) -> f64 {
        x
    }
}

impl Crossing<f32> for f32 {
    ghost inward = { λ x. x };

    ghost outward = { λ x. x };

    fn number(self) -> f32 {
        self
    }

    fn crossed(x: f32) -> f32 {
        x
    }
}

impl Crossing<Complex<f64>> for Complex64 {
    ghost inward = { complex_of_64 };

    ghost outward = { point_64 };

    fn number(self) -> Complex<f64> {
        Complex {
            re: self.re,
            im: self.im,
        }
    }

    fn crossed(x: Complex<f64>) -> Complex64 {
        Complex64 { re: x.re, im: x.im }
    }
}

impl Crossing<Complex<f32>> for Complex32 {
    ghost inward = { complex_of_32 };

    ghost outward = { point_32 };

    fn number(self) -> Complex<f32> {
        Complex {
            re: self.re,
            im: self.im,
        }
    }

    fn crossed(x: Complex<f32>) -> Complex32 {
        Complex32 { re: x.re, im: x.im }
    }
}

// The numbers of a list that crossed.
pub(crate) fn numbers<T: Scalar, C: Crossing<T>>(
    heap: Global,
    list: &[C],
) -> Result<Vec<T>, AllocError>
    ensures items { IfOk result (λ v. v.items ≡ map C.inward list.now) }
{
    list.iter().map(|x| x.number()).collect(heap)
}

// Writes numbers into a list of as many.
pub(crate) fn put_numbers<T: Scalar, C: Crossing<T>>(numbers: &[T], list: &mut [C])
    requires { length list.old ≡ length numbers.now }
    ensures { list.new ≡ map C.outward numbers.now }
{
    for (i, x) in list.iter_mut().enumerate() {
        *x = C::crossed(numbers[i]);
    }
}
