// Settling a reduction: the public call.
ghost use Rattle.std.specs.Prelude.{◌≡◌, length};
ghost use Rattle.eigen.specs.Settles.{check_of};
ghost use Rattle.eigen.specs.Laws.{IsRun, AnyKeeper, AnyUpper, AnyLimit, start_of, finish_of};
ghost use Rattle.eigen.specs.Unsettled.{answer_of, handed_back, back_from};

use crate::ends::Unsettled;
use crate::form::Tridiagonal;
use crate::settling::{check, lawful_run};
use rows::Keeper;
use scalar::Scalar;
use tridiagonal::Reduction;

// Settles a reduction with the values and off-diagonal entries that it left, and turns the keeper's rows along. The reduction is moved in:
// what the checks refuse hands it back, and a run uses it up.
// No record of the laws, as of `reduce`: README tells them one by one, and they are not the parts of one.
pub fn settle<T: Scalar, K: Keeper<T>>(
    reduction: Reduction<T::Real>,
    values: &mut [T::Real],
    offs: &mut [T::Real],
    keeper: &mut K,
    tolerance: T::Real,
    limit: u32,
) -> Result<u32, Unsettled<T::Real>>
    ensures handed_back { handed_back result ≡ back_from (check_of T.Real.ops T.Real.real
        (length values.old) (length offs.old) tolerance limit
        (K.kept keeper.old).width reduction.side) reduction.side reduction.largest }
    ensures run { IsRun T.ops T.Real.ops T.Real.real
        (start_of reduction values.old offs.old tolerance (K.kept keeper.old)) limit
        (finish_of (answer_of result) values.new offs.new (K.kept keeper.new)) }
    ensures lent { K.lent keeper.new ≡ K.lent keeper.old }
    ensures any_keeper { AnyKeeper T.ops T.Real.ops T.Real.real
        (start_of reduction values.old offs.old tolerance (K.kept keeper.old)) limit
        (finish_of (answer_of result) values.new offs.new (K.kept keeper.new)) }
    ensures any_upper { AnyUpper T.ops T.Real.ops T.Real.real
        (start_of reduction values.old offs.old tolerance (K.kept keeper.old)) limit
        (finish_of (answer_of result) values.new offs.new (K.kept keeper.new)) }
    ensures any_limit { AnyLimit T.ops T.Real.ops T.Real.real
        (start_of reduction values.old offs.old tolerance (K.kept keeper.old))
        (finish_of (answer_of result) values.new offs.new (K.kept keeper.new)) }
{
    // No map_err: its closure would take the reduction from the run.
    if let Err(fault) = check::<T, K>(&reduction, values, offs, keeper, tolerance, limit) {
        return Err(Unsettled::Refused { fault, reduction });
    }
    let mut form = Tridiagonal { values, offs };
    let answer = lawful_run::<T, K>(&reduction, &mut form, keeper, tolerance, limit);
    answer.map_err(|fault| Unsettled::Ended { fault })
}
