// What one command does at the desk. The checks of each go in the order of their numbers, but for the solver's, which come
// before `Twice`.
ghost use Rattle.std.specs.Prelude.{◌≡◌, Err, MatchResult};
ghost use Rattle.job.specs.Rejections.{reported};
ghost use Rattle.sheet.specs.Commands.{said};
ghost use Rattle.sheet.specs.Desk.{after_of, applying, begun, closing, desk_of, enters, enters_outline, limits, off_real};
ghost use Rattle.sheet.specs.Desk.{idle, open_of, out_of_order, roomy, starting_kind, starts, state_of, stops, tolerates, typing};
ghost use Rattle.sheet.specs.Faults.{why};
ghost use Rattle.sheet.specs.Laws.{Unchanged};

use crate::command::Command;
use crate::desk::{Applied, Asked, Closed, Desk, Stopped, Table};
use crate::kind::Kind;
use crate::sheet_fault::SheetFault;
use job::{Job, Rejected};
use scalar::{Arithmetic, Complex};
use std::alloc::Global;

// The desk stays as it was.
fn stopped(table: Option<Table>, fault: SheetFault) -> Stopped
    ensures outcome { after_of (Err result) ≡ stops (why fault) (open_of table) }
{
    let desk = Desk { table };
    Stopped { fault, desk }
}

// A table after something was typed into it. A match, since either way the table goes on.
fn typed(table: Table, answer: Result<(), Rejected>) -> Result<Applied, Stopped>
    ensures outcome { after_of result ≡ typing (reported answer) (state_of table) }
{
    match answer {
        Ok(()) => Ok(Applied::Goes(Desk { table: Some(table) })),
        Err(why) => Err(stopped(Some(table), why.into())),
    }
}

// A table of zeros, of the kind that a byte tells.
fn open_table(heap: Global, kind: u8, side: usize) -> Result<Table, SheetFault>
    ensures outcome { begun result ≡ starting_kind (roomy (begun result)) kind side }
{
    match Kind::try_from(kind)? {
        Kind::Real => Ok(Table::Real(Job::open(heap, side)?)),
        Kind::Outline => Ok(Table::Outline(Job::open(heap, side)?)),
    }
}

// Whether an outline number stands on the diagonal and is not real. Minus zero is zero, and a NaN is not.
fn is_off_real(row: usize, column: usize, along: f64) -> bool
    ensures value { result ≡ off_real row column along }
{
    row == column && !along.is_zero()
}

impl Desk {
    fn open(self, heap: Global, kind: u8, side: usize) -> Result<Applied, Stopped>
        ensures outcome { after_of result ≡ starts (roomy (after_of result)) (desk_of self) kind side }
    {
        if self.table.is_some() {
            return Err(stopped(self.table, SheetFault::Order));
        }
        let table = open_table(heap, kind, side).map_err(|fault| stopped(None, fault))?;
        Ok(Applied::Goes(Desk { table: Some(table) }))
    }

    // The table that is open, which the command needs.
    fn opened(self) -> Result<Table, Stopped>
        ensures opened { MatchResult result (λ table. state_of table ≡ desk_of self)
            (λ s. (desk_of self ≡ idle) × (after_of (Err s) ≡ out_of_order idle)) }
    {
        self.table.ok_or(stopped(None, SheetFault::Order))
    }

    // Row and column stand apart until the job has found them to be a place of its table.
    fn enter(self, row: usize, column: usize, x: f64) -> Result<Applied, Stopped>
        ensures outcome { after_of result ≡ enters (desk_of self) row column x }
    {
        match self.table {
            Some(Table::Real(mut job)) => {
                let answer = job.put(row, column, x);
                typed(Table::Real(job), answer)
            }
            table => Err(stopped(table, SheetFault::Order)),
        }
    }

    fn enter_outline(
        self,
        row: usize,
        column: usize,
        across: f64,
        along: f64,
    ) -> Result<Applied, Stopped>
        ensures outcome { after_of result ≡ enters_outline (desk_of self) row column across along }
    {
        match self.table {
            Some(Table::Outline(mut job)) => {
                if is_off_real(row, column, along) {
                    return Err(stopped(Some(Table::Outline(job)), SheetFault::Operand));
                }
                let x = Complex {
                    re: across,
                    im: along,
                };
                let answer = job.put(row, column, x);
                typed(Table::Outline(job), answer)
            }
            table => Err(stopped(table, SheetFault::Order)),
        }
    }

    // Two, here and below, of which the call is all that differs: a function that took it would ask for what the call promises.
    fn set_tolerance(self, tolerance: f64) -> Result<Applied, Stopped>
        ensures outcome { after_of result ≡ tolerates (desk_of self) tolerance }
    {
        let mut table = self.opened()?;
        let answer = table.set_tolerance(tolerance);
        typed(table, answer)
    }

    fn set_limit(self, limit: u32) -> Result<Applied, Stopped>
        ensures outcome { after_of result ≡ limits (desk_of self) limit }
    {
        let mut table = self.opened()?;
        let answer = table.set_limit(limit);
        typed(table, answer)
    }

    fn close(self, asked: Asked) -> Result<Applied, Stopped>
        ensures outcome { after_of result ≡ closing (desk_of self) asked }
    {
        let table = self.opened()?;
        Ok(Applied::Closes(Closed { asked, table }))
    }

    // Apart from `apply`, whose clause `unchanged` the prover leaves open in each arm.
    fn applied(self, heap: Global, command: Command<'_>) -> Result<Applied, Stopped>
        ensures outcome { after_of result ≡ applying (roomy (after_of result)) (desk_of self) (said command.entry) }
    {
        // operands by their offsets: kind 0, side 1; row 0, column 2, entry 4, an outline entry's second part 12
        match command {
            Command::Open(it) => self.open(heap, it.u8_at(0), usize::from(it.u16_at(1))),
            Command::Entry(it) => {
                self.enter(
                    usize::from(it.u16_at(0)),
                    usize::from(it.u16_at(2)),
                    it.f64_at(4),
                )
            }
            Command::OutlineEntry(it) => self.enter_outline(
                usize::from(it.u16_at(0)),
                usize::from(it.u16_at(2)),
                it.f64_at(4),
                it.f64_at(12),
            ),
            Command::Tolerance(it) => self.set_tolerance(it.f64_at(0)),
            Command::Limit(it) => self.set_limit(it.u32_at(0)),
            Command::Values(_) => self.close(Asked::Values),
            Command::Vectors(_) => self.close(Asked::Vectors),
        }
    }

    // What one command comes to.
    pub fn apply(self, heap: Global, command: Command<'_>) -> Result<Applied, Stopped>
        ensures outcome { after_of result ≡ applying (roomy (after_of result)) (desk_of self) (said command.entry) }
        // a refused command changes nothing
        ensures unchanged { Unchanged (desk_of self) (after_of result) }
    {
        self.applied(heap, command)
    }
}
