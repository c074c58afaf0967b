// Complex numbers over any real kind.
ghost use Rattle.scalar.specs.ComplexOps.{complex_ops};

use crate::kinds::{Arithmetic, RealScalar, Scalar};
use crate::point::Complex;

impl<R: RealScalar> Arithmetic for Complex<R> {
    type Part = R;

    ghost ops = { complex_ops R.ops R.real };

    fn zero() -> Complex<R> {
        let zero = R::zero();
        Complex { re: zero, im: zero }
    }

    fn is_zero(self) -> bool {
        self.re.is_zero() && self.im.is_zero()
    }

    fn one() -> Complex<R> {
        Complex {
            re: R::one(),
            im: R::zero(),
        }
    }

    fn add(self, other: Complex<R>) -> Complex<R> {
        Complex {
            re: self.re.add(other.re),
            im: self.im.add(other.im),
        }
    }

    fn sub(self, other: Complex<R>) -> Complex<R> {
        Complex {
            re: self.re.sub(other.re),
            im: self.im.sub(other.im),
        }
    }

    fn neg(self) -> Complex<R> {
        Complex {
            re: self.re.neg(),
            im: self.im.neg(),
        }
    }

    fn mul(self, other: Complex<R>) -> Complex<R> {
        let re = self.re.mul(other.re).sub(self.im.mul(other.im));
        let im = self.re.mul(other.im).add(self.im.mul(other.re));
        Complex { re, im }
    }

    fn conjugate(self) -> Complex<R> {
        let Complex { re, im } = self;
        Complex { re, im: im.neg() }
    }

    fn real(self) -> R {
        let Complex { re, im: _ } = self;
        re
    }

    fn scale(self, factor: R) -> Complex<R> {
        Complex {
            re: self.re.mul(factor),
            im: self.im.mul(factor),
        }
    }

    fn unscale(self, divisor: R) -> Complex<R> {
        Complex {
            re: self.re.div(divisor),
            im: self.im.div(divisor),
        }
    }

    fn from_real(x: R) -> Complex<R> {
        let im = R::zero();
        Complex { re: x, im }
    }

    fn modulus(self) -> R {
        self.re.mul(self.re).add(self.im.mul(self.im)).sqrt()
    }

    // The sign is this one's second half, so the two agree at every complex number.
    fn split_sign(self) -> (R, Complex<R>) {
        let modulus = self.modulus();
        if modulus.is_zero() {
            (R::zero(), Self::one())
        } else {
            (modulus, self.unscale(modulus))
        }
    }

    fn signum(self) -> Complex<R> {
        let (_, sign) = self.split_sign();
        sign
    }
}

impl<R: RealScalar> Scalar for Complex<R> {
    type Real = R;

    fn size(self) -> R {
        self.re.abs().add(self.im.abs())
    }
}
