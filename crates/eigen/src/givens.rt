// Construction of Givens rotations of real numbers.
ghost use Rattle.std.specs.Prelude.{◌≡◌};
ghost use Rattle.rows.specs.Turns.{turn_of};
ghost use Rattle.eigen.specs.Givens.{cancel_y, normed_of, try_new};

use crate::eigenvalues::Vector2;
use rows::{Direction, Turn};
use scalar::RealScalar;

#[derive(Clone, Copy)]
pub(crate) struct Rotation<R: Copy> {
    pub(crate) c: R,
    pub(crate) s: R,
}

impl<R: Copy> Rotation<R> {
    // The turn of the columns `column` and `column` + 1 that goes with the rotation.
    pub(crate) fn turn(self, column: usize, direction: Direction) -> Turn<R>
        ensures turn { result ≡ turn_of column self.c self.s direction }
    {
        Turn {
            column,
            c: self.c,
            s: self.s,
            direction,
        }
    }
}

// A rotation beside the length, with its sign, of the pair that it was made from.
#[derive(Clone, Copy)]
pub(crate) struct Normed<R: Copy> {
    pub(crate) rotation: Rotation<R>,
    pub(crate) norm: R,
}

// The length of (x, y), from `modulus`, which is x without its sign.
fn length<R: RealScalar>(modulus: R, y: R) -> R
    ensures { result ≡ R.real.root
        (R.ops.add (R.ops.mul modulus modulus) (R.ops.mul y y)) }
{
    modulus.mul(modulus).add(y.mul(y)).sqrt()
}

// The rotation of cosine as `modulus` and sine as `sine`, both divided by the length, and the length with the sign.
fn normed_by<R: RealScalar>(modulus: R, sine: R, length: R, sign: R) -> Normed<R>
    ensures { result ≡ normed_of (R.real.div modulus length)
        (R.real.div sine (R.ops.scale sign length)) (R.ops.scale sign length) }
{
    let norm = sign.scale(length);
    Normed {
        rotation: Rotation {
            c: modulus.div(length),
            s: sine.div(norm),
        },
        norm,
    }
}

// The rotation that makes the vector's y zero, or none where it is zero.
pub(crate) fn cancel_y<R: RealScalar>(vector: Vector2<R>) -> Option<Normed<R>>
    ensures rotation { result ≡ cancel_y R.ops R.real vector.x vector.y }
{
    let Vector2 { x, y } = vector;
    if y.is_zero() {
        return None;
    }
    let (modulus, sign) = x.split_sign();
    Some(normed_by(modulus, y.neg(), length(modulus, y), sign))
}

// The rotation of cosine and sine as the vector's x and y, or none where its length is not above the tolerance.
pub(crate) fn try_new<R: RealScalar>(vector: Vector2<R>, tolerance: R) -> Option<Normed<R>>
    ensures rotation { result ≡ try_new R.ops R.real vector.x vector.y tolerance }
{
    let Vector2 { x, y } = vector;
    let (modulus, sign) = x.split_sign();
    let length = length(modulus, y);
    tolerance
        .lt(length)
        .then(|| normed_by(modulus, y, length, sign))
}
