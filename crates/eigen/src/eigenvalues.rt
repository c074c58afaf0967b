// The eigenvalues of a symmetric 2×2 block in closed form.
ghost use Rattle.std.specs.Prelude.{◌≡◌};
ghost use Rattle.eigen.specs.Eigenvalues.{half_difference, eigenvalues, wilkinson_shift};

use crate::chase::Corner;
use scalar::RealScalar;

#[derive(Clone, Copy)]
pub(crate) struct Vector2<R: Copy> {
    pub(crate) x: R,
    pub(crate) y: R,
}

fn half_difference<R: RealScalar>(a: R, b: R) -> R
    ensures { result ≡ half_difference R.ops R.real a b }
{
    a.sub(b).mul(R::HALF)
}

// The eigenvalues of the block, or none where they are not real.
pub(crate) fn compute_2x2_eigvals<R: RealScalar>(corner: Corner<R>) -> Option<Vector2<R>>
    ensures values { result ≡ eigenvalues R.ops R.real corner.mii corner.mij (R.ops.conj corner.mij) corner.mjj }
{
    let Corner {
        mii: h00,
        mij: h10,
        mjj: h11,
    } = corner;
    let h01 = h10.conjugate();
    let value = half_difference(h00, h11);
    let discriminant = h10.mul(h01).add(value.mul(value));
    // No `then`: its closure would hold all three statements.
    if R::zero().le(discriminant) {
        let root = discriminant.sqrt();
        let half_trace = h00.add(h11).mul(R::HALF);
        Some(Vector2 {
            x: half_trace.add(root),
            y: half_trace.sub(root),
        })
    } else {
        None
    }
}

// The eigenvalue at the block's last entry.
// The sign is `signum` and not the sign split's: that of -0 is -1.
pub(crate) fn wilkinson_shift<R: RealScalar>(corner: Corner<R>) -> R
    ensures shift { result ≡ wilkinson_shift R.ops R.real corner.mii corner.mjj corner.mij }
{
    let Corner {
        mii: tmm,
        mij: tmn,
        mjj: tnn,
    } = corner;
    let square = tmn.mul(tmn);
    if square.is_zero() {
        tnn
    } else {
        let d = half_difference(tmm, tnn);
        let divisor = d.add(d.signum().mul(d.mul(d).add(square).sqrt()));
        tnn.sub(square.div(divisor))
    }
}
