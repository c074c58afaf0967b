// A reflection applied to a column.
ghost use Rattle.std.specs.Prelude.{◌≡◌, length};
ghost use Rattle.tridiagonal.specs.Householder.{kind, reflected};

use crate::blas::{axpy, dotc};
use scalar::{Arithmetic, RealScalar, Scalar};

// Reflects the column at the plane through zero across the axis, and multiplies it by the sign.
#[tactic(auto, unfolding(crate::specs::Householder::reflected))]
pub(crate) fn reflect_with_sign<T: Scalar>(axis: &[T], column: &mut [T], sign: T)
    requires { length axis.now ≡ length column.old }
    ensures { column.new ≡ reflected (kind T.ops T.Real.ops T.Real.real) axis.now sign column.old }
{
    let minus_two = sign.scale(T::Real::MINUS_TWO);
    // Less the plane's bias, as in nalgebra: it is zero here, and the definition takes it off too.
    let factor = dotc(axis, column).sub(T::zero()).mul(minus_two);
    axpy(column, factor, axis, sign);
}
