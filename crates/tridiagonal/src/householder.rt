// Householder reflections.
ghost use Rattle.std.specs.Prelude.{◌≡◌, ◌<◌, length};
ghost use Rattle.tridiagonal.specs.Householder.{kind, axis_of, axis_norm, axis_reflects};

use crate::blas::{norm_squared, normalise, unscale};
use scalar::{Arithmetic, RealScalar, Scalar};

// What making an axis reports: the first entry that the column would have after the reflection, and whether
// there is a reflection at all. Two fields and no Option: the norm counts in both cases.
#[derive(Clone, Copy)]
pub(crate) struct Reported<T: Copy> {
    pub(crate) norm: T,
    pub(crate) reflects: bool,
}

// Makes the column the axis of the reflection that leaves only its first entry.
pub(crate) fn reflection_axis_mut<T: Scalar>(column: &mut [T]) -> Reported<T>
    requires { 0 < length column.old }
    ensures norm { result.norm ≡ axis_norm (kind T.ops T.Real.ops T.Real.real) column.old }
    ensures reflects { result.reflects ≡ axis_reflects (kind T.ops T.Real.ops T.Real.real) column.old }
    ensures axis { column.new ≡ axis_of (kind T.ops T.Real.ops T.Real.real) column.old }
{
    let squared = norm_squared(column);
    let norm = squared.sqrt();
    let first = column[0];
    let (modulus, sign) = first.split_sign();
    let signed_norm = sign.scale(norm);
    let factor = squared.add(modulus.mul(norm)).mul(T::Real::TWO);
    column[0] = first.add(signed_norm);
    if factor.is_zero() {
        Reported {
            norm: signed_norm,
            reflects: false,
        }
    } else {
        unscale(column, factor.sqrt());
        normalise(column);
        Reported {
            norm: signed_norm.neg(),
            reflects: true,
        }
    }
}
