// Solving a closed table, and its lines.
ghost use Rattle.std.specs.Prelude.{◌≡◌, ◌<◌, IfOk};
ghost use Rattle.tridiagonal.specs.Householder.{kind};
ghost use Rattle.decomposition.specs.Solutions.{eigen_of, had_room as had_memory, given_room as given_memory, solution_of};
ghost use Rattle.job.specs.Shown.{typed};
ghost use Rattle.sheet.specs.Desk.{reals, real_rules, table_of};
ghost use Rattle.sheet.specs.Faults.{why};
ghost use Rattle.listing.specs.Listings.{entry_lines, failure_of, given_room, had_room, made_of, made_of_table, made_of_typed};
ghost use Rattle.listing.specs.Listings.{solution_of_typed, solved_lines, value_lines};

use crate::line::Line;
use crate::shown::Shown;
use decomposition::{Failure, Solved, symmetric_eigen, symmetric_eigenvalues};
use job::Job;
use sheet::{Asked, Closed, SheetFault, Table};
use std::alloc::{AllocError, Global};
use std::num::f64_to_bits_with_nan;

// A line for each value.
fn value_lines(heap: Global, values: &[f64]) -> Result<Vec<Line>, AllocError>
    ensures lines { IfOk result (λ v. v.items ≡ value_lines values.now) }
{
    values
        .iter()
        .copied()
        .enumerate()
        .map(|(index, value)| Line::Value {
            index,
            bits: f64_to_bits_with_nan(value),
        })
        .collect(heap)
}

// A line for each entry of a matrix of this many rows, column by column.
fn entry_lines<T: Shown>(heap: Global, rows: usize, cells: &[T]) -> Result<Vec<Line>, AllocError>
    requires { 0 < rows }
    ensures lines { IfOk result (λ v. v.items ≡ entry_lines T.shown rows cells.now) }
{
    cells
        .iter()
        .copied()
        .enumerate()
        .map(|(k, entry)| entry.line(k % rows, k / rows))
        .collect(heap)
}

// The lines of a solved table.
fn solved_lines<T: Shown>(
    heap: Global,
    side: usize,
    largest: f64,
    solved: &Solved<T>,
) -> Result<Vec<Line>, AllocError>
    requires { 0 < side }
    ensures lines { IfOk result (λ v. v.items ≡ solved_lines T.shown side largest (eigen_of solved.now)) }
{
    let heading = Line::Heading {
        kind: T::kind(),
        side,
        largest: f64_to_bits_with_nan(largest),
        passes: solved.passes,
    };
    let mut lines = vec![in heap; heading]?;
    lines.extend_from_slice(&value_lines(heap, &solved.values)?)?;
    lines.extend_from_slice(&entry_lines(heap, side, &solved.vectors)?)?;
    Ok(lines)
}

// A table as it was typed, solved for what was asked.
fn solve<T: Shown>(heap: Global, asked: Asked, job: &Job<T>) -> Result<Solved<T>, Failure>
    ensures solution { solution_of result ≡ given_memory (had_memory result)
        (solution_of_typed (kind T.ops reals real_rules) asked (typed job.now)) }
{
    let table = job.table(heap)?;
    let side = job.side();
    let tolerance = job.tolerance();
    let limit = job.limit();
    match asked {
        Asked::Values => symmetric_eigenvalues(heap, side, table, tolerance, limit),
        Asked::Vectors => symmetric_eigen(heap, side, table, tolerance, limit),
    }
}

// A solver's refusal is carried whole. No From: both types are of crates below.
fn fault_of(failure: Failure) -> SheetFault
    ensures fault { why result ≡ failure_of failure }
{
    match failure {
        Failure::Solver(fault) => fault.into(),
        Failure::Memory => SheetFault::Memory,
    }
}

fn typed_lines<T: Shown>(heap: Global, asked: Asked, job: &Job<T>) -> Result<Vec<Line>, SheetFault>
    ensures made { made_of result ≡ given_room (had_room (made_of result))
        (made_of_typed T.shown (kind T.ops reals real_rules) asked (typed job.now)) }
{
    let solved = solve(heap, asked, job).map_err(fault_of)?;
    Ok(solved_lines(heap, job.side(), job.largest(), &solved)?)
}

// The lines of a closed table, once it is solved.
pub(crate) fn table_lines(heap: Global, closed: &Closed) -> Result<Vec<Line>, SheetFault>
    ensures made { made_of result ≡ given_room (had_room (made_of result)) (made_of_table (table_of closed.now)) }
{
    match &closed.table {
        Table::Real(job) => typed_lines(heap, closed.asked, job),
        Table::Outline(job) => typed_lines(heap, closed.asked, job),
    }
}
