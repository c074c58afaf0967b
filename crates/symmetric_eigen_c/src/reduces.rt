// The exported reductions: a table reduced, with its matrix Q. One for each kind, and slices, as in `solves`.
ghost use Rattle.std.specs.Prelude.{◌≡◌};
ghost use Rattle.tridiagonal.specs.Runs.{buffers};
ghost use Rattle.decomposition.specs.Kinds.{c32, c64, r32, r64};
ghost use Rattle.symmetric_eigen_c.specs.Forms.{Crossed, Formed, crossing, crossing_refusal, form_refusal, with_q};
ghost use Rattle.symmetric_eigen_c.specs.Outcomes.{had_room, told_unless_none};
ghost use Rattle.symmetric_eigen_c.specs.Points.{complex_of_32, complex_of_64, point_32, point_64};

use crate::outcome::Outcome;
use crate::points::{Complex32, Complex64};
use crate::reducing::{reduce_across, reduce_here};
use scalar::Complex;
use std::alloc::Global;

// Tables of binary64. In place.
#[unsafe(no_mangle)]
pub extern "C" fn symmetric_eigen_c_reduce_r64(
    n: usize,
    table: &mut [f64],
    values: &mut [f64],
    offs: &mut [f64],
    signs: &mut [f64],
    scratch: &mut [f64],
    q: &mut [f64],
) -> Outcome
    ensures answer { result ≡ told_unless_none (form_refusal r64 n
        (with_q (buffers table.old values.old offs.old signs.old scratch.old) q.old)) }
    ensures left { Formed r64 n
        (with_q (buffers table.old values.old offs.old signs.old scratch.old) q.old)
        (form_refusal r64 n (with_q (buffers table.old values.old offs.old signs.old scratch.old) q.old))
        (with_q (buffers table.new values.new offs.new signs.new scratch.new) q.new) }
{
    reduce_here::<f64>(n, table, values, offs, signs, scratch, q)
}

// Tables of binary32. In place.
#[unsafe(no_mangle)]
pub extern "C" fn symmetric_eigen_c_reduce_r32(
    n: usize,
    table: &mut [f32],
    values: &mut [f32],
    offs: &mut [f32],
    signs: &mut [f32],
    scratch: &mut [f32],
    q: &mut [f32],
) -> Outcome
    ensures answer { result ≡ told_unless_none (form_refusal r32 n
        (with_q (buffers table.old values.old offs.old signs.old scratch.old) q.old)) }
    ensures left { Formed r32 n
        (with_q (buffers table.old values.old offs.old signs.old scratch.old) q.old)
        (form_refusal r32 n (with_q (buffers table.old values.old offs.old signs.old scratch.old) q.old))
        (with_q (buffers table.new values.new offs.new signs.new scratch.new) q.new) }
{
    reduce_here::<f32>(n, table, values, offs, signs, scratch, q)
}

// Tables of complex numbers over binary64, in copies, with a scratch of its own.
#[unsafe(no_mangle)]
pub extern "C" fn symmetric_eigen_c_reduce_c64(
    heap: Global,
    n: usize,
    table: &mut [Complex64],
    values: &mut [f64],
    offs: &mut [f64],
    signs: &mut [Complex64],
    q: &mut [Complex64],
) -> Outcome
    ensures answer { result ≡ told_unless_none (crossing_refusal c64 complex_of_64 n
        (crossing table.old values.old offs.old signs.old q.old) (had_room result)) }
    ensures left { Crossed c64 complex_of_64 point_64 n
        (crossing table.old values.old offs.old signs.old q.old)
        (crossing_refusal c64 complex_of_64 n (crossing table.old values.old offs.old signs.old q.old) (had_room result))
        (crossing table.new values.new offs.new signs.new q.new) }
{
    reduce_across::<Complex<f64>, Complex64>(heap, n, table, values, offs, signs, q)
}

// Tables of complex numbers over binary32, in copies, with a scratch of its own.
#[unsafe(no_mangle)]
pub extern "C" fn symmetric_eigen_c_reduce_c32(
    heap: Global,
    n: usize,
    table: &mut [Complex32],
    values: &mut [f32],
    offs: &mut [f32],
    signs: &mut [Complex32],
    q: &mut [Complex32],
) -> Outcome
    ensures answer { result ≡ told_unless_none (crossing_refusal c32 complex_of_32 n
        (crossing table.old values.old offs.old signs.old q.old) (had_room result)) }
    ensures left { Crossed c32 complex_of_32 point_32 n
        (crossing table.old values.old offs.old signs.old q.old)
        (crossing_refusal c32 complex_of_32 n (crossing table.old values.old offs.old signs.old q.old) (had_room result))
        (crossing table.new values.new offs.new signs.new q.new) }
{
    reduce_across::<Complex<f32>, Complex32>(heap, n, table, values, offs, signs, q)
}
