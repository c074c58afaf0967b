// Numbers that are printed by their bits: most entries of the page differ in the last of them.
use scalar::{Complex, RealScalar, Scalar};
use std::fmt;
use std::num::{f32_to_bits_with_nan, f64_to_bits_with_nan};

// A number of a table, whose values are printed too.
pub(crate) trait Shown: Scalar<Real: RealShown> {
    fn show<W: fmt::Write>(self, f: &mut fmt::Formatter<W>) -> fmt::Result;
}

pub(crate) trait RealShown: RealScalar {
    // The distance from 1 to the next number of the format: the tolerance where none is given.
    const TOLERANCE: Self;

    fn show_real<W: fmt::Write>(self, f: &mut fmt::Formatter<W>) -> fmt::Result;
}

// Written for each format: bit patterns of two widths.
impl RealShown for f64 {
    const TOLERANCE: f64 = f64::EPSILON;

    fn show_real<W: fmt::Write>(self, f: &mut fmt::Formatter<W>) -> fmt::Result {
        write!(f, "{:016X}", f64_to_bits_with_nan(self))
    }
}

impl RealShown for f32 {
    const TOLERANCE: f32 = f32::EPSILON;

    fn show_real<W: fmt::Write>(self, f: &mut fmt::Formatter<W>) -> fmt::Result {
        write!(f, "{:08X}", f32_to_bits_with_nan(self))
    }
}

impl<R: RealShown> Shown for R {
    fn show<W: fmt::Write>(self, f: &mut fmt::Formatter<W>) -> fmt::Result {
        self.show_real(f)
    }
}

impl<R: RealShown> Shown for Complex<R> {
    fn show<W: fmt::Write>(self, f: &mut fmt::Formatter<W>) -> fmt::Result {
        write!(f, "(")?;
        self.re.show_real(f)?;
        write!(f, " ")?;
        self.im.show_real(f)?;
        write!(f, ")")
    }
}

// A number alone: no slice of one, since an array of a T has to be shown to fit in memory.
#[derive(Drop)]
pub(crate) struct Number<T>(pub(crate) T);

impl<T: Shown> fmt::Display for Number<T> {
    fn fmt<W: fmt::Write>(&self, f: &mut fmt::Formatter<W>) -> fmt::Result {
        self.0.show(f)
    }
}

// Numbers in a row, each behind a blank.
#[derive(Drop)]
pub(crate) struct Bits<'a, T>(pub(crate) &'a [T]);

impl<T: Shown> fmt::Display for Bits<'_, T> {
    fn fmt<W: fmt::Write>(&self, f: &mut fmt::Formatter<W>) -> fmt::Result {
        for x in self.0 {
            write!(f, " ")?;
            x.show(f)?;
        }
        Ok(())
    }
}
