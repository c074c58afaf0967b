// The solver's refusals.
#![tactic(auto)]

mod bounds;

ghost use Rattle.std.specs.Prelude.{◌≡◌, Some};
ghost use Rattle.fault.specs.Refusals.{refusal};
ghost use Rattle.fault.specs.Text.{refusal_text};

pub use bounds::{limit_fits, side_fits};
use std::fmt;

#[derive(Clone, Copy, PartialEq, Eq, Debug)]
pub enum Fault {
    // a side or a keeper's width is 0 or above 512, or a count of rows is above 512
    Side,
    // a buffer has another length than the one stated, two keepers have too many rows together, or a sheet has too many bytes
    Length,
    // the size of the entry at this row and column is not finite: the first such in column order
    Entry { row: usize, column: usize },
    // the tolerance is below zero or not finite
    Tolerance,
    // the limit is 0 or above 1,000,000
    Limit,
    // a keeper's width is not the side, or two keepers differ in width
    Width,
    // the count of passes reached the limit
    NotSettled { count: u32 },
    // the discriminant of a block of two is not at or above zero
    Pair { count: u32 },
    // a turn or a read outside the width or the rows
    Column,
}

impl Fault {
    // The number by which the refusal is known; a variant that bears values has no discriminant to cast.
    pub fn number(self) -> u8
        ensures number { result ≡ (refusal self).number }
    {
        match self {
            Fault::Side => 1,
            Fault::Length => 2,
            Fault::Entry { .. } => 3,
            Fault::Tolerance => 4,
            Fault::Limit => 5,
            Fault::Width => 6,
            Fault::NotSettled { .. } => 7,
            Fault::Pair { .. } => 8,
            Fault::Column => 9,
        }
    }
}

impl fmt::Display for Fault {
    ghost output = { λ fault. Some (refusal_text (refusal fault)) };

    fn fmt<W: fmt::Write>(&self, f: &mut fmt::Formatter<W>) -> fmt::Result {
        write!(f, "refused {}", self.number())
    }
}
