// One pass over a block.
ghost use Rattle.std.specs.Prelude.{◌≡◌, ◌+◌, ◌<◌, ◌≤◌, length};
ghost use Rattle.std.specs.Option.{is_some};
ghost use Rattle.eigen.specs.Turnings.{kept_all};
ghost use Rattle.eigen.specs.Forms.{SameBuffers};
ghost use Rattle.eigen.specs.Passes.{basis_of, pair_at, basis_turns, pair_left, pair_exists, pass_left, pass_end};

use crate::block::Block;
use crate::chase::{Corner, chase};
use crate::eigenvalues::{Vector2, compute_2x2_eigvals};
use crate::form::Tridiagonal;
use crate::givens::try_new;
use rows::{Direction, Keeper};
use scalar::{Arithmetic, RealScalar, Scalar};

// The eigenvector of the eigenvalue x of a block of two: of its two forms, the one less likely to have lost its digits.
fn basis_of<R: RealScalar>(x: R, corner: Corner<R>) -> Vector2<R>
    ensures basis { result ≡ basis_of R.ops R.real x corner.mii corner.mjj corner.mij }
{
    let Corner {
        mii: first,
        mij: off,
        mjj: second,
    } = corner;
    if x.sub(first).modulus().lt(x.sub(second).modulus()) {
        Vector2 {
            x: x.sub(second),
            y: off,
        }
    } else {
        Vector2 {
            x: off,
            y: x.sub(first),
        }
    }
}

impl<R: RealScalar> Tridiagonal<'_, R> {
    // The eigenvalues of the block of two at `start`.
    fn pair_at(&self, start: usize) -> Option<Vector2<R>>
        requires { start < length self.now.offs.now }
        ensures pair { result ≡
            pair_at R.ops R.real start self.now.values.now self.now.offs.now }
    {
        compute_2x2_eigvals(self.corner_at(start))
    }
}

// The turn of the columns `start` and `start` + 1 to the eigenvectors of their block, if there is one.
fn turn_to<T: Scalar, K: Keeper<T>>(
    keeper: &mut K,
    start: usize,
    basis: Vector2<T::Real>,
    tolerance: T::Real,
)
    requires { start + 1 < (K.kept keeper.old).width }
    ensures rows { K.kept keeper.new ≡ kept_all T.ops
        (basis_turns T.Real.ops T.Real.real tolerance start basis) (K.kept keeper.old) }
    ensures lent { K.lent keeper.new ≡ K.lent keeper.old }
{
    if let Some(found) = try_new(basis, tolerance) {
        // Nothing is lost: a refused turn turns nothing, as `kept_turned` says.
        let _ = keeper.turn(&found.rotation.turn(start, Direction::Forward));
    }
}

// The block of two at `start` takes its eigenvalues in closed form, or stays as it is where they are not real.
// An Option of nothing, for the `?` here and in `pass`.
fn settle_pair<T: Scalar, K: Keeper<T>>(
    form: &mut Tridiagonal<'_, T::Real>,
    keeper: &mut K,
    start: usize,
    tolerance: T::Real,
) -> Option<()>
    requires start_in_bounds { start < length form.old.offs.now }
    requires start_bound { start + 1 < (K.kept keeper.old).width }
    ensures answer { is_some result ≡ pair_exists T.Real.ops T.Real.real tolerance start
        form.old.values.now form.old.offs.now }
    ensures values { form.new.values.now ≡ (pair_left T.Real.ops T.Real.real tolerance start
        form.old.values.now form.old.offs.now).values }
    ensures offs { form.new.offs.now ≡ form.old.offs.now }
    ensures same { SameBuffers form.old form.new }
    ensures rows { K.kept keeper.new ≡ kept_all T.ops
        (pair_left T.Real.ops T.Real.real tolerance start
        form.old.values.now form.old.offs.now).turns
        (K.kept keeper.old) }
    ensures lent { K.lent keeper.new ≡ K.lent keeper.old }
{
    let eigenvalues = form.pair_at(start)?;
    let basis = basis_of(eigenvalues.x, form.corner_at(start));
    form.values[start] = eigenvalues.x;
    form.values[start + 1] = eigenvalues.y;
    turn_to::<T, K>(keeper, start, basis, tolerance);
    Some(())
}

// One pass over the block. Answers where the search for the next block begins, or none where a block of two has no real eigenvalues.
pub(crate) fn pass<T: Scalar, K: Keeper<T>>(
    form: &mut Tridiagonal<'_, T::Real>,
    keeper: &mut K,
    block: Block,
    tolerance: T::Real,
) -> Option<usize>
    requires end_in_bounds { block.end ≤ length form.old.offs.now }
    requires end_bound { block.end < (K.kept keeper.old).width }
    ensures end { result ≡ pass_end T.Real.ops T.Real.real tolerance block.start block.end
        form.old.values.now form.old.offs.now }
    ensures values { form.new.values.now ≡ (pass_left T.Real.ops T.Real.real tolerance
        block.start block.end form.old.values.now form.old.offs.now).values }
    ensures offs { form.new.offs.now ≡ (pass_left T.Real.ops T.Real.real tolerance
        block.start block.end form.old.values.now form.old.offs.now).offs }
    ensures same { SameBuffers form.old form.new }
    ensures rows { K.kept keeper.new ≡ kept_all T.ops
        (pass_left T.Real.ops T.Real.real tolerance block.start block.end
        form.old.values.now form.old.offs.now).turns
        (K.kept keeper.old) }
    ensures lent { K.lent keeper.new ≡ K.lent keeper.old }
{
    if block.start + 1 < block.end {
        chase::<T, K>(form, keeper, block);
        if !form.is_within(block.end - 1, tolerance) {
            return Some(block.end);
        }
    } else {
        settle_pair::<T, K>(form, keeper, block.start, tolerance)?;
    }
    Some(block.end - 1)
}
