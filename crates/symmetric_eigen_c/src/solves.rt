// The exported decompositions: a table's values and vectors. A slice crosses as a pointer and a length; `heap` takes no bytes.
// One for each kind, written out: an export has no type parameters, and `rt ci` refuses items by a macro.
ghost use Rattle.std.specs.Prelude.{◌≡◌, length, map};
ghost use Rattle.decomposition.specs.Kinds.{c32, c64, r32, r64};
ghost use Rattle.symmetric_eigen_c.specs.Calls.{solution_into, outcome_of, values_or, vectors_or};
ghost use Rattle.symmetric_eigen_c.specs.Outcomes.{had_room};
ghost use Rattle.symmetric_eigen_c.specs.Points.{complex_of_32, complex_of_64, point_32, point_64};

use crate::outcome::Outcome;
use crate::points::{Complex32, Complex64};
use crate::solving::solve;
use scalar::Complex;
use std::alloc::Global;

// Tables of binary64.
#[unsafe(no_mangle)]
pub extern "C" fn symmetric_eigen_c_solve_r64(
    heap: Global,
    n: usize,
    table: &[f64],
    tolerance: f64,
    limit: u32,
    values: &mut [f64],
    vectors: &mut [f64],
) -> Outcome
    ensures answer { result ≡ outcome_of
        (solution_into r64 n table.now tolerance limit (length values.old) (length vectors.old) (had_room result)) }
    ensures values { values.new ≡ values_or
        (solution_into r64 n table.now tolerance limit (length values.old) (length vectors.old) (had_room result)) values.old }
    ensures vectors { vectors.new ≡ vectors_or (λ x. x)
        (solution_into r64 n table.now tolerance limit (length values.old) (length vectors.old) (had_room result)) vectors.old }
{
    solve::<f64, f64>(heap, n, table, tolerance, limit, values, vectors)
}

// Tables of binary32.
#[unsafe(no_mangle)]
pub extern "C" fn symmetric_eigen_c_solve_r32(
    heap: Global,
    n: usize,
    table: &[f32],
    tolerance: f32,
    limit: u32,
    values: &mut [f32],
    vectors: &mut [f32],
) -> Outcome
    ensures answer { result ≡ outcome_of
        (solution_into r32 n table.now tolerance limit (length values.old) (length vectors.old) (had_room result)) }
    ensures values { values.new ≡ values_or
        (solution_into r32 n table.now tolerance limit (length values.old) (length vectors.old) (had_room result)) values.old }
    ensures vectors { vectors.new ≡ vectors_or (λ x. x)
        (solution_into r32 n table.now tolerance limit (length values.old) (length vectors.old) (had_room result)) vectors.old }
{
    solve::<f32, f32>(heap, n, table, tolerance, limit, values, vectors)
}

// Tables of complex numbers over binary64.
#[unsafe(no_mangle)]
pub extern "C" fn symmetric_eigen_c_solve_c64(
    heap: Global,
    n: usize,
    table: &[Complex64],
    tolerance: f64,
    limit: u32,
    values: &mut [f64],
    vectors: &mut [Complex64],
) -> Outcome
    ensures answer { result ≡ outcome_of
        (solution_into c64 n (map complex_of_64 table.now) tolerance limit
        (length values.old) (length vectors.old) (had_room result)) }
    ensures values { values.new ≡ values_or
        (solution_into c64 n (map complex_of_64 table.now) tolerance limit
        (length values.old) (length vectors.old) (had_room result)) values.old }
    ensures vectors { vectors.new ≡ vectors_or point_64
        (solution_into c64 n (map complex_of_64 table.now) tolerance limit
        (length values.old) (length vectors.old) (had_room result)) vectors.old }
{
    solve::<Complex<f64>, Complex64>(heap, n, table, tolerance, limit, values, vectors)
}

// Tables of complex numbers over binary32.
#[unsafe(no_mangle)]
pub extern "C" fn symmetric_eigen_c_solve_c32(
    heap: Global,
    n: usize,
    table: &[Complex32],
    tolerance: f32,
    limit: u32,
    values: &mut [f32],
    vectors: &mut [Complex32],
) -> Outcome
    ensures answer { result ≡ outcome_of
        (solution_into c32 n (map complex_of_32 table.now) tolerance limit
        (length values.old) (length vectors.old) (had_room result)) }
    ensures values { values.new ≡ values_or
        (solution_into c32 n (map complex_of_32 table.now) tolerance limit
        (length values.old) (length vectors.old) (had_room result)) values.old }
    ensures vectors { vectors.new ≡ vectors_or point_32
        (solution_into c32 n (map complex_of_32 table.now) tolerance limit
        (length values.old) (length vectors.old) (had_room result)) vectors.old }
{
    solve::<Complex<f32>, Complex32>(heap, n, table, tolerance, limit, values, vectors)
}
