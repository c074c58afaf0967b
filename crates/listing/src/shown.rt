// The kinds of number whose tables are listed.
ghost use Rattle.std.specs.Prelude.{◌≡◌};
ghost use Rattle.listing.specs.Shown.{ShownAs, outlines_shown, reals_shown};

use crate::line::Line;
use scalar::{Complex, Scalar};
use sheet::Kind;
use std::num::f64_to_bits_with_nan;

pub(crate) trait Shown: Scalar<Real = f64> {
    ghost shown: { ShownAs Self };

    // The kind of table that the numbers stand in.
    fn kind() -> Kind
        ensures kind { result ≡ shown.kind };

    // The line of an entry of the matrix of eigenvectors.
    fn line(self, row: usize, column: usize) -> Line
        ensures line { result ≡ shown.line row column self };
}

impl Shown for f64 {
    ghost shown = { reals_shown };

    fn kind() -> Kind {
        Kind::Real
    }

    fn line(self, row: usize, column: usize) -> Line {
        Line::Entry {
            row,
            column,
            bits: f64_to_bits_with_nan(self),
        }
    }
}

impl Shown for Complex<f64> {
    ghost shown = { outlines_shown };

    fn kind() -> Kind {
        Kind::Outline
    }

    fn line(self, row: usize, column: usize) -> Line {
        Line::OutlineEntry {
            row,
            column,
            across: f64_to_bits_with_nan(self.re),
            along: f64_to_bits_with_nan(self.im),
        }
    }
}
