// The desk on which a sheet's tables are typed, one at a time.
ghost use Rattle.std.specs.Prelude.{◌≡◌};
ghost use Rattle.job.specs.Rejections.{reported};
ghost use Rattle.sheet.specs.Desk.{limits, state_of, tolerates, typing};

use crate::sheet_fault::SheetFault;
use job::{Job, Rejected};
use scalar::Complex;

// An open table: of real numbers, or of outline numbers.
#[derive(Drop)]
pub enum Table {
    Real(Job<f64>),
    Outline(Job<Complex<f64>>),
}

// The table that is open, if one is.
#[derive(Drop)]
pub struct Desk {
    pub table: Option<Table>,
}

// What the command that closed a table asks for.
#[derive(Clone, Copy, PartialEq, Eq, Debug)]
pub enum Asked {
    Values,
    Vectors,
}

// A closed table.
#[derive(Drop)]
pub struct Closed {
    pub asked: Asked,
    pub table: Table,
}

// What one command comes to: the desk after it, or the table that it closed and left no other open.
// Not a ControlFlow<Closed, Desk>: the cases say what became of the table, and Break and Continue what a loop does.
#[derive(Drop)]
pub enum Applied {
    Goes(Desk),
    Closes(Closed),
}

// Why a command is refused, and the desk, as it was.
#[derive(Drop)]
pub struct Stopped {
    pub fault: SheetFault,
    pub desk: Desk,
}

// A match in each: the jobs are of two types, and a closure that takes either would have to be generic.
impl Table {
    pub(crate) fn set_tolerance(&mut self, tolerance: f64) -> Result<(), Rejected>
        ensures outcome { typing (reported result) (state_of self.new) ≡ tolerates (state_of self.old) tolerance }
    {
        match self {
            Table::Real(job) => job.set_tolerance(tolerance),
            Table::Outline(job) => job.set_tolerance(tolerance),
        }
    }

    pub(crate) fn set_limit(&mut self, limit: u32) -> Result<(), Rejected>
        ensures outcome { typing (reported result) (state_of self.new) ≡ limits (state_of self.old) limit }
    {
        match self {
            Table::Real(job) => job.set_limit(limit),
            Table::Outline(job) => job.set_limit(limit),
        }
    }
}
