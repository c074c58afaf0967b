// Settling: what is refused before a run, and the run.
ghost use Rattle.std.specs.Prelude.{◌≡◌, length};
ghost use Rattle.rows.specs.Keepers.{answered, given};
ghost use Rattle.eigen.specs.Forms.{SameBuffers};
ghost use Rattle.eigen.specs.Settles.{unlawful, check_of};
ghost use Rattle.eigen.specs.Laws.{IsRun, AnyKeeper, AnyUpper, AnyLimit, start_of, finish_of};

use crate::form::Tridiagonal;
use crate::symmetric_eigen::run;
use fault::{Fault, limit_fits};
use rows::Keeper;
use scalar::{Arithmetic, RealScalar, Scalar};
use tridiagonal::Reduction;

// A job has the same test, as a fact of its type, of an f64: this one is of any real kind.
fn is_unlawful<R: RealScalar>(tolerance: R) -> bool
    ensures answer { result ≡ unlawful R.ops R.real tolerance }
{
    tolerance.lt(R::zero()) || !tolerance.is_finite()
}

// The first refusal that is due: of the lengths, the tolerance, the limit, the keeper's width.
// Tolerance and limit stand apart, here and below, as in `settle`: a struct of the two would ask its callers for what is checked here.
pub(crate) fn check<T: Scalar, K: Keeper<T>>(
    reduction: &Reduction<T::Real>,
    values: &[T::Real],
    offs: &[T::Real],
    keeper: &K,
    tolerance: T::Real,
    limit: u32,
) -> Result<(), Fault>
    ensures answer { answered result ≡ check_of T.Real.ops T.Real.real (length values.now)
        (length offs.now) tolerance limit (K.kept keeper.now).width reduction.now.side }
{
    let side = reduction.side();
    if [values.len(), offs.len()] != [side, side - 1] {
        return Err(Fault::Length);
    }
    if is_unlawful(tolerance) {
        return Err(Fault::Tolerance);
    }
    if !limit_fits(limit) {
        return Err(Fault::Limit);
    }
    if keeper.width() != side {
        return Err(Fault::Width);
    }
    Ok(())
}

// A run that is not refused, clause by clause as in `settle`. The keeper has no say in its answer nor in what it leaves of values
// and off-diagonal entries, and the limit none but to cut it short.
pub(crate) fn lawful_run<T: Scalar, K: Keeper<T>>(
    reduction: &Reduction<T::Real>,
    form: &mut Tridiagonal<'_, T::Real>,
    keeper: &mut K,
    tolerance: T::Real,
    limit: u32,
) -> Result<u32, Fault>
    requires { given tt ≡ check_of T.Real.ops T.Real.real (length form.old.values.now)
        (length form.old.offs.now) tolerance limit (K.kept keeper.old).width reduction.now.side }
    ensures run { IsRun T.ops T.Real.ops T.Real.real
        (start_of reduction.now form.old.values.now form.old.offs.now tolerance (K.kept keeper.old)) limit
        (finish_of (answered result) form.new.values.now form.new.offs.now (K.kept keeper.new)) }
    ensures any_keeper { AnyKeeper T.ops T.Real.ops T.Real.real
        (start_of reduction.now form.old.values.now form.old.offs.now tolerance (K.kept keeper.old)) limit
        (finish_of (answered result) form.new.values.now form.new.offs.now (K.kept keeper.new)) }
    ensures any_upper { AnyUpper T.ops T.Real.ops T.Real.real
        (start_of reduction.now form.old.values.now form.old.offs.now tolerance (K.kept keeper.old)) limit
        (finish_of (answered result) form.new.values.now form.new.offs.now (K.kept keeper.new)) }
    ensures any_limit { AnyLimit T.ops T.Real.ops T.Real.real
        (start_of reduction.now form.old.values.now form.old.offs.now tolerance (K.kept keeper.old))
        (finish_of (answered result) form.new.values.now form.new.offs.now (K.kept keeper.new)) }
    ensures same { SameBuffers form.old form.new }
    ensures lent { K.lent keeper.new ≡ K.lent keeper.old }
{
    run::<T, K>(form, keeper, tolerance, limit, reduction.largest())
}
