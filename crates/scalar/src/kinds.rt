// The traits of number kinds. A kind's meaning is a ghost record of operations, and every function
// answers the meaning's result. Generic code is proved once, against that record.
ghost use Rattle.std.specs.Prelude.{◌≡◌, T};
ghost use Rattle.scalar.specs.Ops.{Ops, RealOps, LargerLaws, RealLaws, SizeLaws};

// The operations that every kind has; `Part` is the kind that its sizes belong to.
// They are named, and not bounds on std's operators: each is the one that docs/NUMBERS.md lists, with its fixed result.
pub trait Arithmetic: Copy {
    type Part: Copy;

    ghost ops: { Ops Self Self.Part };

    fn zero() -> Self
        ensures value { result ≡ ops.zero };

    fn is_zero(self) -> bool
        ensures value { result ≡ ops.is_zero self };

    fn one() -> Self
        ensures value { result ≡ ops.one };

    fn add(self, other: Self) -> Self
        ensures value { result ≡ ops.add self other };

    fn sub(self, other: Self) -> Self
        ensures value { result ≡ ops.sub self other };

    fn neg(self) -> Self
        ensures value { result ≡ ops.neg self };

    fn mul(self, other: Self) -> Self
        ensures value { result ≡ ops.mul self other };

    fn conjugate(self) -> Self
        ensures value { result ≡ ops.conj self };

    fn real(self) -> Self::Part
        ensures value { result ≡ ops.real self };

    fn scale(self, factor: Self::Part) -> Self
        ensures value { result ≡ ops.scale self factor };

    fn unscale(self, divisor: Self::Part) -> Self
        ensures value { result ≡ ops.unscale self divisor };

    fn from_real(x: Self::Part) -> Self
        ensures value { result ≡ ops.embed x };

    fn modulus(self) -> Self::Part
        ensures value { result ≡ ops.modulus self };

    // The modulus, and what it is multiplied by to give this number, in exact arithmetic. docs/NUMBERS.md has both at zeros and NaN.
    fn split_sign(self) -> (Self::Part, Self)
        ensures value { result ≡ ops.split self };

    fn signum(self) -> Self
        ensures value { result ≡ ops.sign self };
}

// A real kind: its own sizes belong to it.
pub trait RealScalar: Arithmetic<Part = Self> {
    const TWO: Self;

    const HALF: Self;

    const MINUS_TWO: Self;

    ghost TWO: { Self };

    ghost HALF: { Self };

    ghost MINUS_TWO: { Self };

    ghost real: { RealOps Self };

    fn div(self, other: Self) -> Self
        ensures value { result ≡ real.div self other };

    fn lt(self, other: Self) -> bool
        ensures value { result ≡ real.lt self other };

    fn le(self, other: Self) -> bool
        ensures value { result ≡ real.le self other };

    fn sqrt(self) -> Self
        ensures value { result ≡ real.root self };

    fn larger(self, other: Self) -> Self
        ensures value { result ≡ real.larger self other };

    fn is_finite(self) -> bool
        ensures value { result ≡ real.is_finite self };

    // The absolute value: the number's size.
    fn abs(self) -> Self
        ensures value { result ≡ Self.ops.size self }
        ensures sized { T (real.is_finite result) → T (real.is_size result) }
        ensures laws { RealLaws Self.ops real };

    ghost larger_of: { LargerLaws real };

    ghost two_is: { TWO ≡ real.two };

    ghost half_is: { HALF ≡ real.half };

    ghost minus_two_is: { MINUS_TWO ≡ real.minus_two };
}

// A number kind: it names the real kind that its sizes and values belong to.
pub trait Scalar: Arithmetic<Part = Self::Real> {
    type Real: RealScalar;

    fn size(self) -> Self::Real
        ensures value { result ≡ Self.ops.size self }
        ensures sized { T (Self.Real.real.is_finite result) → T (Self.Real.real.is_size result) }
        ensures laws { SizeLaws Self.ops Self.Real.real };
}

// A real kind's sizes are its absolute values.
impl<R: RealScalar> Scalar for R {
    type Real = R;

    fn size(self) -> R {
        self.abs()
    }
}
