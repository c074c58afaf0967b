// The kind binary64: each operation of `f64` rounds once, to nearest, ties to even.
// Written for each format: `rt ci` refuses an impl by a macro, and one over both would need a law for each operator that is one line here.
ghost use Rattle.std.specs.Prelude.{refl};
ghost use Rattle.std.specs.Float.{binary64};
ghost use Rattle.std.specs.Float.Ieee.{neg};
ghost use Rattle.scalar.specs.FloatOps.{float_ops, float_real, two_of, half_of};
ghost use Rattle.scalar.specs.Lawful.{float_larger, opposite_two};

use crate::kinds::{Arithmetic, RealScalar};

impl Arithmetic for f64 {
    type Part = f64;

    ghost ops = { float_ops binary64 };

    fn zero() -> f64 {
        0.0
    }

    fn is_zero(self) -> bool {
        self == 0.0
    }

    fn one() -> f64 {
        1.0
    }

    fn add(self, other: f64) -> f64 {
        self + other
    }

    fn sub(self, other: f64) -> f64 {
        self - other
    }

    fn neg(self) -> f64 {
        -self
    }

    fn mul(self, other: f64) -> f64 {
        self * other
    }

    fn conjugate(self) -> f64 {
        self
    }

    fn real(self) -> f64 {
        self
    }

    fn scale(self, factor: f64) -> f64 {
        self * factor
    }

    fn unscale(self, divisor: f64) -> f64 {
        self / divisor
    }

    fn from_real(x: f64) -> f64 {
        x
    }

    fn modulus(self) -> f64 {
        self.abs()
    }

    // Both zeros count as at or above zero here; `signum` tells them apart.
    fn split_sign(self) -> (f64, f64) {
        if 0.0 <= self {
            (self, 1.0)
        } else {
            (-self, -1.0)
        }
    }

    fn signum(self) -> f64 {
        self.signum()
    }
}

impl RealScalar for f64 {
    const TWO: f64 = 2.0;

    const HALF: f64 = 0.5;

    const MINUS_TWO: f64 = -2.0;

    ghost TWO = { two_of binary64 };

    ghost HALF = { half_of binary64 };

    ghost MINUS_TWO = { neg (two_of binary64) };

    ghost real = { float_real binary64 };

    ghost larger_of = { float_larger binary64 };

    ghost two_is = { refl };

    ghost half_is = { refl };

    ghost minus_two_is = { opposite_two binary64 };

    fn div(self, other: f64) -> f64 {
        self / other
    }

    fn lt(self, other: f64) -> bool {
        self < other
    }

    fn le(self, other: f64) -> bool {
        self <= other
    }

    fn sqrt(self) -> f64 {
        root::root(self)
    }

    // The library's `max` leaves open which of two zeros it gives.
    fn larger(self, other: f64) -> f64 {
        if other <= self || other.is_nan() {
            self
        } else {
            other
        }
    }

    fn is_finite(self) -> bool {
        self.is_finite()
    }

    fn abs(self) -> f64 {
        self.modulus()
    }
}
