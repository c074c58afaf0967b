// Reducing a table and assembling its matrix Q.
ghost use Rattle.std.specs.Prelude.{◌≡◌, ◌*◌, length, map};
ghost use Rattle.tridiagonal.specs.Checks.{refusal_for};
ghost use Rattle.tridiagonal.specs.Householder.{kind};
ghost use Rattle.tridiagonal.specs.Outcome.{LeftOpen, refused_in, unless_refused};
ghost use Rattle.tridiagonal.specs.Reduce.{reduced_table, values_of, offs_of, signs_of};
ghost use Rattle.tridiagonal.specs.Runs.{buffers};
ghost use Rattle.symmetric_eigen_c.specs.Forms.{Crossed, Formed, crossing, crossing_refusal, form_refusal, q_of, unless_starved, with_q};
ghost use Rattle.symmetric_eigen_c.specs.Outcomes.{failed_in, had_memory, had_room, told_unless_none};

use crate::crossing::{Crossing, numbers, put_numbers};
use crate::outcome::Outcome;
use crate::told::{done, memory, told};
use decomposition::Failure;
use fault::{Fault, side_fits};
use scalar::{Arithmetic, RealScalar, Scalar};
use std::alloc::Global;
use tridiagonal::{assemble, reduce};

// With Q of the length that the side asks for.
fn formed<T: Scalar>(
    n: usize,
    table: &mut [T],
    values: &mut [T::Real],
    offs: &mut [T::Real],
    signs: &mut [T],
    scratch: &mut [T],
    q: &mut [T],
) -> Result<(), Fault>
    requires { length q.old ≡ n * n }
    ensures answer { refused_in result ≡ refusal_for (kind T.ops T.Real.ops T.Real.real) n
        table.old values.old offs.old signs.old scratch.old }
    ensures table { table.new ≡ unless_refused (refused_in result) table.old
        (reduced_table (kind T.ops T.Real.ops T.Real.real) n table.old) }
    ensures values { values.new ≡ unless_refused (refused_in result) values.old
        (values_of (kind T.ops T.Real.ops T.Real.real) n table.old) }
    ensures offs { offs.new ≡ unless_refused (refused_in result) offs.old
        (offs_of (kind T.ops T.Real.ops T.Real.real) n table.old) }
    ensures signs { signs.new ≡ unless_refused (refused_in result) signs.old
        (signs_of (kind T.ops T.Real.ops T.Real.real) n table.old) }
    ensures scratch { LeftOpen (refused_in result) scratch.old scratch.new }
    ensures q { q.new ≡ unless_refused (refused_in result) q.old
        (q_of (kind T.ops T.Real.ops T.Real.real) n table.old) }
{
    let reduction = reduce(n, table, values, offs, signs, scratch)?;
    assemble(&reduction, table, signs, q)
}

// Tests the length of Q first, so that a refusal changes nothing.
fn form<T: Scalar>(
    n: usize,
    table: &mut [T],
    values: &mut [T::Real],
    offs: &mut [T::Real],
    signs: &mut [T],
    scratch: &mut [T],
    q: &mut [T],
) -> Result<(), Fault>
    ensures answer { refused_in result ≡ form_refusal (kind T.ops T.Real.ops T.Real.real) n
        (with_q (buffers table.old values.old offs.old signs.old scratch.old) q.old) }
    ensures left { Formed (kind T.ops T.Real.ops T.Real.real) n
        (with_q (buffers table.old values.old offs.old signs.old scratch.old) q.old)
        (refused_in result)
        (with_q (buffers table.new values.new offs.new signs.new scratch.new) q.new) }
{
    if !side_fits(n) {
        return Err(Fault::Side);
    }
    if q.len() != n * n {
        return Err(Fault::Length);
    }
    formed(n, table, values, offs, signs, scratch, q)
}

// Where C's numbers are the kind's.
pub(crate) fn reduce_here<T: Scalar>(
    n: usize,
    table: &mut [T],
    values: &mut [T::Real],
    offs: &mut [T::Real],
    signs: &mut [T],
    scratch: &mut [T],
    q: &mut [T],
) -> Outcome
    ensures answer { result ≡ told_unless_none (form_refusal (kind T.ops T.Real.ops T.Real.real) n
        (with_q (buffers table.old values.old offs.old signs.old scratch.old) q.old)) }
    ensures left { Formed (kind T.ops T.Real.ops T.Real.real) n
        (with_q (buffers table.old values.old offs.old signs.old scratch.old) q.old)
        (form_refusal (kind T.ops T.Real.ops T.Real.real) n
        (with_q (buffers table.old values.old offs.old signs.old scratch.old) q.old))
        (with_q (buffers table.new values.new offs.new signs.new scratch.new) q.new) }
{
    match form(n, table, values, offs, signs, scratch, q) {
        Ok(()) => done(0),
        Err(fault) => told(fault),
    }
}

// In copies, with Q of the length that the side asks for.
fn copied<T: Scalar, C: Crossing<T>>(
    heap: Global,
    n: usize,
    table: &mut [C],
    values: &mut [T::Real],
    offs: &mut [T::Real],
    signs: &mut [C],
    q: &mut [C],
) -> Result<(), Failure>
    requires { length q.old ≡ n * n }
    ensures answer { failed_in result ≡ unless_starved (had_memory result) (refusal_for (kind T.ops T.Real.ops T.Real.real) n
        (map C.inward table.old) values.old offs.old (map C.inward signs.old) (map C.inward signs.old)) }
    ensures left { Crossed (kind T.ops T.Real.ops T.Real.real) C.inward C.outward n
        (crossing table.old values.old offs.old signs.old q.old)
        (failed_in result)
        (crossing table.new values.new offs.new signs.new q.new) }
{
    let mut cells: Vec<T> = numbers(heap, table)?;
    let mut norms: Vec<T> = numbers(heap, signs)?;
    let mut scratch: Vec<T> = numbers(heap, signs)?;
    let mut columns: Vec<T> = numbers(heap, q)?;
    formed(
        n,
        &mut cells,
        values,
        offs,
        &mut norms,
        &mut scratch,
        &mut columns,
    )?;
    put_numbers(&cells, table);
    put_numbers(&norms, signs);
    put_numbers(&columns, q);
    Ok(())
}

// Where C's numbers are not the kind's: tests side and lengths first, so that no memory is asked for what is refused by them.
#[tactic(auto, unfolding(tridiagonal::specs::Checks::reduce_refusal))]
fn crossed<T: Scalar, C: Crossing<T>>(
    heap: Global,
    n: usize,
    table: &mut [C],
    values: &mut [T::Real],
    offs: &mut [T::Real],
    signs: &mut [C],
    q: &mut [C],
) -> Result<(), Failure>
    ensures answer { failed_in result ≡ crossing_refusal (kind T.ops T.Real.ops T.Real.real) C.inward n
        (crossing table.old values.old offs.old signs.old q.old) (had_memory result) }
    ensures left { Crossed (kind T.ops T.Real.ops T.Real.real) C.inward C.outward n
        (crossing table.old values.old offs.old signs.old q.old)
        (failed_in result)
        (crossing table.new values.new offs.new signs.new q.new) }
{
    if !side_fits(n) {
        return Err(Fault::Side.into());
    }
    let lengths = [table.len(), values.len(), offs.len(), signs.len(), q.len()];
    if lengths != [n * n, n, n - 1, n - 1, n * n] {
        return Err(Fault::Length.into());
    }
    copied::<T, C>(heap, n, table, values, offs, signs, q)
}

pub(crate) fn reduce_across<T: Scalar, C: Crossing<T>>(
    heap: Global,
    n: usize,
    table: &mut [C],
    values: &mut [T::Real],
    offs: &mut [T::Real],
    signs: &mut [C],
    q: &mut [C],
) -> Outcome
    ensures answer { result ≡ told_unless_none (crossing_refusal (kind T.ops T.Real.ops T.Real.real) C.inward n
        (crossing table.old values.old offs.old signs.old q.old) (had_room result)) }
    ensures left { Crossed (kind T.ops T.Real.ops T.Real.real) C.inward C.outward n
        (crossing table.old values.old offs.old signs.old q.old)
        (crossing_refusal (kind T.ops T.Real.ops T.Real.real) C.inward n
        (crossing table.old values.old offs.old signs.old q.old) (had_room result))
        (crossing table.new values.new offs.new signs.new q.new) }
{
    match crossed::<T, C>(heap, n, table, values, offs, signs, q) {
        Ok(()) => done(0),
        Err(Failure::Solver(fault)) => told(fault),
        Err(Failure::Memory) => memory(),
    }
}
