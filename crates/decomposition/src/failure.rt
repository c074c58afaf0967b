// Why a table has no decomposition.
ghost use Rattle.std.specs.Prelude.{◌≡◌};
ghost use Rattle.decomposition.specs.declared.failure.Failure.TheVariants.{Solver, Memory};

use fault::Fault;
use std::alloc::{AllocError, AllocFailed};

#[derive(Clone, Copy, PartialEq, Eq, Debug)]
pub enum Failure {
    // a refusal of the solver, whole
    Solver(Fault),
    // want of memory, which is no refusal of the solver and has no number
    Memory,
}

impl From<Fault> for Failure {
    ghost from_gives = { λ x y. y ≡ Solver x };

    fn from(value: Fault) -> Failure {
        Failure::Solver(value)
    }
}

impl From<AllocError> for Failure {
    ghost from_gives = { λ _ y. y ≡ Memory };

    fn from(_: AllocError) -> Failure {
        Failure::Memory
    }
}

impl<T: Drop> From<AllocFailed<T>> for Failure {
    ghost from_gives = { λ _ y. y ≡ Memory };

    fn from(_: AllocFailed<T>) -> Failure {
        Failure::Memory
    }
}
