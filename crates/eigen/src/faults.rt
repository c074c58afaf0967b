// The refusal alone, for callers that have no use for the reduction.
ghost use Rattle.std.specs.Prelude.{◌≡◌};
ghost use Rattle.eigen.specs.Unsettled.{fault_of};

use crate::ends::Unsettled;
use fault::Fault;

impl<R: Copy> From<Unsettled<R>> for Fault {
    ghost from_gives = { λ why fault. fault ≡ fault_of why };

    fn from(why: Unsettled<R>) -> Fault {
        match why {
            Unsettled::Refused {
                fault,
                reduction: _,
            } => fault,
            Unsettled::Ended { fault } => fault,
        }
    }
}
