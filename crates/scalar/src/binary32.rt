// The kind binary32: each operation of `f32` rounds once, to nearest, ties to even.
// Written for each format: `rt ci` refuses an impl by a macro, and one over both would need a law for each operator that is one line here.
ghost use Rattle.std.specs.Prelude.{refl};
ghost use Rattle.std.specs.Float.{binary32};
ghost use Rattle.std.specs.Float.Ieee.{neg};
ghost use Rattle.scalar.specs.FloatOps.{float_ops, float_real, two_of, half_of};
ghost use Rattle.scalar.specs.Lawful.{float_larger, opposite_two};

use crate::kinds::{Arithmetic, RealScalar};

impl Arithmetic for f32 {
    type Part = f32;

    ghost ops = { float_ops binary32 };

    fn zero() -> f32 {
        0.0
    }

    fn is_zero(self) -> bool {
        self == 0.0
    }

    fn one() -> f32 {
        1.0
    }

    fn add(self, other: f32) -> f32 {
        self + other
    }

    fn sub(self, other: f32) -> f32 {
        self - other
    }

    fn neg(self) -> f32 {
        -self
    }

    fn mul(self, other: f32) -> f32 {
        self * other
    }

    fn conjugate(self) -> f32 {
        self
    }

    fn real(self) -> f32 {
        self
    }

    fn scale(self, factor: f32) -> f32 {
        self * factor
    }

    fn unscale(self, divisor: f32) -> f32 {
        self / divisor
    }

    fn from_real(x: f32) -> f32 {
        x
    }

    fn modulus(self) -> f32 {
        self.abs()
    }

    // Both zeros count as at or above zero here; `signum` tells them apart.
    fn split_sign(self) -> (f32, f32) {
        if 0.0 <= self {
            (self, 1.0)
        } else {
            (-self, -1.0)
        }
    }

    fn signum(self) -> f32 {
        self.signum()
    }
}

impl RealScalar for f32 {
    const TWO: f32 = 2.0;

    const HALF: f32 = 0.5;

    const MINUS_TWO: f32 = -2.0;

    ghost TWO = { two_of binary32 };

    ghost HALF = { half_of binary32 };

    ghost MINUS_TWO = { neg (two_of binary32) };

    ghost real = { float_real binary32 };

    ghost larger_of = { float_larger binary32 };

    ghost two_is = { refl };

    ghost half_is = { refl };

    ghost minus_two_is = { opposite_two binary32 };

    fn div(self, other: f32) -> f32 {
        self / other
    }

    fn lt(self, other: f32) -> bool {
        self < other
    }

    fn le(self, other: f32) -> bool {
        self <= other
    }

    fn sqrt(self) -> f32 {
        root::root(self)
    }

    // The library's `max` leaves open which of two zeros it gives.
    fn larger(self, other: f32) -> f32 {
        if other <= self || other.is_nan() {
            self
        } else {
            other
        }
    }

    fn is_finite(self) -> bool {
        self.is_finite()
    }

    fn abs(self) -> f32 {
        self.modulus()
    }
}
