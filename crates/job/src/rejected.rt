// Why a typed command is refused.
ghost use Rattle.std.specs.Prelude.{◌≡◌};
ghost use Rattle.job.specs.Rejections.{rejection};
ghost use Rattle.job.specs.declared.rejected.Rejected.TheVariants.{Solver};
ghost use Rattle.job.specs.declared.rejected.Unopened.TheVariants.{Memory};

use fault::Fault;
use std::alloc::AllocError;

#[derive(Clone, Copy, PartialEq, Eq, Debug)]
pub enum Rejected {
    // a refusal of the solver's, carried whole
    Solver(Fault),
    // the row or the column is outside the lower triangle
    Operand,
    // already given
    Twice,
}

// Why a table is not opened.
#[derive(Clone, Copy, PartialEq, Eq, Debug)]
pub enum Unopened {
    // the side is 0 or above 32
    Operand,
    // want of memory
    Memory,
}

impl Rejected {
    // The number by which the refusal is known; a variant that bears a value has no discriminant to cast.
    pub fn number(self) -> u8
        ensures number { result ≡ (rejection self).number }
    {
        match self {
            Rejected::Solver(fault) => fault.number(),
            Rejected::Operand => 13,
            Rejected::Twice => 14,
        }
    }
}

impl From<Fault> for Rejected {
    ghost from_gives = { λ x r. r ≡ Solver x };

    fn from(fault: Fault) -> Rejected {
        Rejected::Solver(fault)
    }
}

impl From<AllocError> for Unopened {
    ghost from_gives = { λ _ r. r ≡ Memory };

    fn from(_: AllocError) -> Unopened {
        Unopened::Memory
    }
}
