// Why a sheet is refused, and at which place.
ghost use Rattle.std.specs.Prelude.{◌≡◌};
ghost use Rattle.job.specs.Rejections.{rejection};
ghost use Rattle.sheet.specs.Faults.{number_of, refusal_at, rule, unopened, why};
ghost use Rattle.sheet.specs.declared.sheet_fault.SheetFault.TheVariants.{Solver, Memory};

use fault::Fault;
use job::{Rejected, Unopened};
use std::alloc::{AllocError, AllocFailed};

#[derive(Clone, Copy, PartialEq, Eq, Debug)]
pub enum SheetFault {
    // a refusal of the solver, whole
    Solver(Fault),
    // a byte that is no command
    Command,
    // the sheet ends inside a command's operands
    Cut,
    // a command that is not allowed now
    Order,
    // a kind, a side, a row, a column or a diagonal's second part that is not allowed
    Operand,
    // an entry, a tolerance or a limit that was given before
    Twice,
    // want of memory, which is no refusal of the format and has no number
    Memory,
}

// A refusal with the place of its command's byte, counted from 0.
#[derive(Clone, Copy, PartialEq, Eq, Debug)]
pub struct Refusal {
    pub fault: SheetFault,
    pub place: usize,
}

impl From<Fault> for SheetFault {
    ghost from_gives = { λ x y. y ≡ Solver x };

    fn from(value: Fault) -> SheetFault {
        SheetFault::Solver(value)
    }
}

impl From<AllocError> for SheetFault {
    ghost from_gives = { λ _ y. y ≡ Memory };

    fn from(_: AllocError) -> SheetFault {
        SheetFault::Memory
    }
}

impl<T: Drop> From<AllocFailed<T>> for SheetFault {
    ghost from_gives = { λ _ y. y ≡ Memory };

    fn from(_: AllocFailed<T>) -> SheetFault {
        SheetFault::Memory
    }
}

impl From<Rejected> for SheetFault {
    ghost from_gives = { λ x y. why y ≡ rule (rejection x) };

    fn from(value: Rejected) -> SheetFault {
        match value {
            Rejected::Solver(fault) => fault.into(),
            Rejected::Operand => SheetFault::Operand,
            Rejected::Twice => SheetFault::Twice,
        }
    }
}

impl From<Unopened> for SheetFault {
    ghost from_gives = { λ x y. why y ≡ unopened x };

    fn from(value: Unopened) -> SheetFault {
        match value {
            Unopened::Operand => SheetFault::Operand,
            Unopened::Memory => SheetFault::Memory,
        }
    }
}

impl SheetFault {
    // The refusal of the command at `place`.
    pub fn at(self, place: usize) -> Refusal
        ensures refusal { result ≡ refusal_at self place }
    {
        Refusal { fault: self, place }
    }

    // The number that a listing tells it by; a variant that bears a value has no discriminant to cast.
    pub fn number(self) -> Option<u8>
        ensures number { result ≡ number_of self }
    {
        match self {
            SheetFault::Solver(fault) => Some(fault.number()),
            SheetFault::Command => Some(10),
            SheetFault::Cut => Some(11),
            SheetFault::Order => Some(12),
            SheetFault::Operand => Some(13),
            SheetFault::Twice => Some(14),
            SheetFault::Memory => None,
        }
    }
}
