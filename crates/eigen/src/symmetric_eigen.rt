// The eigenvalues of a symmetric tridiagonal matrix by implicit QR steps, each a chase from a Wilkinson shift.
ghost use Rattle.std.specs.Prelude.{◌≡◌, length};
ghost use Rattle.rows.specs.Keepers.{answered};
ghost use Rattle.eigen.specs.Turnings.{kept_all};
ghost use Rattle.eigen.specs.Forms.{SameBuffers};
ghost use Rattle.eigen.specs.Runs.{scaled_by, run_of};

use crate::form::Tridiagonal;
use crate::passes::pass;
use fault::Fault;
use rows::Keeper;
use scalar::{Arithmetic, RealScalar, Scalar};

// Every value is multiplied by the largest size of the table that was divided by it.
fn scale_values<R: RealScalar>(values: &mut [R], largest: R)
    ensures values { values.new ≡ scaled_by R.ops largest values.old }
{
    for value in values.iter_mut() {
        *value = value.scale(largest);
    }
}

// Passes until no block is left, or their count reaches the limit; answers the count.
pub(crate) fn run<T: Scalar, K: Keeper<T>>(
    form: &mut Tridiagonal<'_, T::Real>,
    keeper: &mut K,
    tolerance: T::Real,
    limit: u32,
    largest: T::Real,
) -> Result<u32, Fault>
    requires { (K.kept keeper.old).width ≡ length form.old.values.now }
    ensures answer { answered result ≡ (run_of T.Real.ops T.Real.real tolerance limit
        (length form.old.values.now) largest form.old.values.now form.old.offs.now).answer }
    ensures values { form.new.values.now ≡ (run_of T.Real.ops T.Real.real tolerance limit
        (length form.old.values.now) largest form.old.values.now form.old.offs.now).values }
    ensures offs { form.new.offs.now ≡ (run_of T.Real.ops T.Real.real tolerance limit
        (length form.old.values.now) largest form.old.values.now form.old.offs.now).offs }
    ensures same { SameBuffers form.old form.new }
    ensures rows { K.kept keeper.new ≡ kept_all T.ops
        (run_of T.Real.ops T.Real.real tolerance limit
        (length form.old.values.now) largest form.old.values.now form.old.offs.now).turns
        (K.kept keeper.old) }
    ensures lent { K.lent keeper.new ≡ K.lent keeper.old }
{
    let mut block = form.delimit_subproblem(form.offs.len(), tolerance);
    'passes: for count in 0..limit {
        let Some(found) = block else {
            scale_values(form.values, largest);
            return Ok(count);
        };
        let end = pass::<T, K>(form, keeper, found, tolerance).ok_or(Fault::Pair { count })?;
        block = form.delimit_subproblem(end, tolerance);
    }
    Err(Fault::NotSettled { count: limit })
}
