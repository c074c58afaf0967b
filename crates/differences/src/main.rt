// The inputs of docs/DIFFERENCES.md, entry by entry in the order of the page: each line has the entry's name, the input where there
// are several, and what comes of it here.
#![tactic(auto)]

mod reduced;
mod shown;
mod solved;

use anyhow::anyhow;
use listing::list_sheet;
use reduced::reduced;
use scalar::{Arithmetic, Complex, RealScalar, Scalar};
use shown::{Bits, Number, Shown};
use solved::Input;
use std::fmt;
use std::num::{f32_from_bits_with_nan, f64_from_bits_with_nan};

fn main(rt: HostRuntime) -> anyhow::Result<()> {
    number_kinds(&rt)?;
    refusals(&rt)?;
    comments(&rt)?;
    digits_lost(&rt)?;
    form(&rt)
}

fn tell<D: fmt::Display + Drop>(rt: &HostRuntime, entry: &str, told: D) -> anyhow::Result<()> {
    println!(rt; "{entry}: {told}")?;
    Ok(())
}

fn tell_values<T: Shown>(rt: &HostRuntime, entry: &str, input: Input<T>) -> anyhow::Result<()> {
    tell(rt, entry, input.values(rt.alloc())?)
}

fn tell_vectors<T: Shown>(rt: &HostRuntime, entry: &str, input: Input<T>) -> anyhow::Result<()> {
    tell(rt, entry, input.vectors(rt.alloc())?)
}

// What a sheet lists that is refused before a table is closed: one line.
fn tell_sheet(rt: &HostRuntime, entry: &str, sheet: &[u8]) -> anyhow::Result<()> {
    let listing = list_sheet(rt.alloc(), sheet).map_err(|_| anyhow!("no memory for a sheet"))?;
    let text = listing.text(rt.alloc())?;
    tell(rt, entry, text.trim_end())
}

fn tell_number<T: Shown>(rt: &HostRuntime, entry: &str, x: T) -> anyhow::Result<()> {
    tell(rt, entry, Number(x))
}

fn tell_split<T: Shown>(rt: &HostRuntime, entry: &str, x: T) -> anyhow::Result<()> {
    let (modulus, sign) = x.split_sign();
    println!(rt;
        "{entry}: modulus {} sign {}",
        Number(modulus),
        Number(sign)
    )?;
    Ok(())
}

// The tridiagonal form of a table.
fn tell_form(rt: &HostRuntime, entry: &str, side: usize, cells: &[f64]) -> anyhow::Result<()> {
    let form = reduced(rt.alloc(), side, cells)?;
    println!(rt;
        "{entry}: diagonal{} offs{}",
        Bits(&form.values),
        Bits(&form.offs)
    )?;
    Ok(())
}

// The first column below the diagonal, which is its axis, with the sign and Q.
fn tell_axis(rt: &HostRuntime, entry: &str, cells: &[f64]) -> anyhow::Result<()> {
    let form = reduced(rt.alloc(), 3, cells)?;
    let axis = form.table.get(1..3).unwrap_or(&[]);
    println!(rt;
        "{entry}: axis{} norms{} Q{}",
        Bits(axis),
        Bits(&form.signs),
        Bits(&form.q)
    )?;
    Ok(())
}

fn tell_offs(rt: &HostRuntime, entry: &str, cells: &[f64]) -> anyhow::Result<()> {
    let form = reduced(rt.alloc(), 3, cells)?;
    println!(rt; "{entry}: offs{}", Bits(&form.offs_after(1)?))?;
    Ok(())
}

// 2^-k, for a k below 1023
fn small(k: u64) -> f64 {
    f64_from_bits_with_nan((1023 - k % 1023) << 52)
}

// (0 x)(x 0)
fn swap(x: f64) -> [f64; 4] {
    [0.0, x, x, 0.0]
}

// The same of an outline: the entry across the diagonal is the conjugate.
fn outline(x: Complex<f64>) -> [Complex<f64>; 4] {
    [Complex::zero(), x, x.conjugate(), Complex::zero()]
}

// (a x 0)(x b y)(0 y c)
fn banded([a, b, c]: [f64; 3], [x, y]: [f64; 2]) -> [f64; 9] {
    [a, x, 0.0, x, b, y, 0.0, y, c]
}

fn number_kinds(rt: &HostRuntime) -> anyhow::Result<()> {
    let point = |re, im| Complex::<f64> { re, im };
    tell_vectors(
        rt,
        "Modulus of complex numbers, a table",
        Input::new(2, &outline(point(2.0, 3.0))),
    )?;
    tell_split(
        rt,
        "Modulus of complex numbers, (2^-600, 0)",
        point(small(600), 0.0),
    )?;
    tell_split(
        rt,
        "Modulus of complex numbers, (2^600, 0)",
        point(1.0 / small(600), 0.0),
    )?;
    let (x, zero, one) = (
        point(1.5 * small(538), 0.0),
        Complex::zero(),
        Complex::one(),
    );
    tell_split(rt, "The modulus where squares are subnormal, a number", x)?;
    tell_vectors(
        rt,
        "The modulus where squares are subnormal, a table",
        Input::new(3, &[zero, x, one, x, zero, zero, one, zero, zero]),
    )?;
    let nan = f64::NAN;
    tell_number(rt, "Larger-of and NaN, (1, NaN)", 1.0.larger(nan))?;
    tell_number(rt, "Larger-of and NaN, (NaN, 1)", nan.larger(1.0))?;
    tell_number(rt, "The root drawn by digits", RealScalar::sqrt(2.0f64))?;
    tell_split(rt, "Sign split at a NaN", nan)?;
    tell_split(rt, "Sign split and sign at -0, the split", -0.0)?;
    tell_number(
        rt,
        "Sign split and sign at -0, the sign",
        Arithmetic::signum(-0.0f64),
    )?;
    let full = [0.0, 1.0, 1.0, 1.0, 0.0, 1.0, 1.0, 1.0, 0.0];
    tell_values(rt, "The bits of a NaN", Input::new(3, &full).tolerance(0.0))
}

fn refusals(rt: &HostRuntime) -> anyhow::Result<()> {
    let (table, infinity) = (swap(1.0), f64::INFINITY);
    tell_values(rt, "Sides, 0", Input::<f64>::new(0, &[]))?;
    tell_values(rt, "Sides, 513", Input::<f64>::new(513, &[]))?;
    tell_values(
        rt,
        "Entries that are not finite, infinity",
        Input::new(2, &swap(infinity)),
    )?;
    tell_values(
        rt,
        "Entries that are not finite, NaN",
        Input::new(2, &swap(f64::NAN)),
    )?;
    let far = Complex {
        re: 1e308,
        im: 1e308,
    };
    tell_values(
        rt,
        "Entries that are not finite, a sum of parts",
        Input::new(2, &outline(far)),
    )?;
    tell_values(rt, "Tolerances, -1", Input::new(2, &table).tolerance(-1.0))?;
    tell_values(
        rt,
        "Tolerances, infinity",
        Input::new(2, &table).tolerance(infinity),
    )?;
    tell_values(
        rt,
        "Tolerances, NaN",
        Input::new(2, &table).tolerance(f64::NAN),
    )?;
    tell_values(rt, "Limits, 0", Input::new(2, &table).limit(0))?;
    tell_values(
        rt,
        "Limits, 1,000,001",
        Input::new(2, &table).limit(1_000_001),
    )?;
    tell_sheet(rt, "Limits, a sheet", &[1, 0, 1, 0, 5, 0, 0, 0, 0, 6])?;
    let bent = Complex { re: 1.0, im: 1.0 };
    tell_values(
        rt,
        "A diagonal that is not real, a table",
        Input::new(1, &[bent]),
    )?;
    let sheet = [
        1, 1, 1, 0, 3, 0, 0, 0, 0, 0, 0, 0, 0, 0, 0, 240, 63, 0, 0, 0, 0, 0, 0, 240, 63, 6,
    ];
    tell_sheet(rt, "A diagonal that is not real, a sheet", &sheet)
}

fn comments(rt: &HostRuntime) -> anyhow::Result<()> {
    let upper = [0.0, small(600), 1.0 / small(600), 0.0];
    tell_vectors(
        rt,
        "Only the lower triangle is read, it says",
        Input::new(2, &upper),
    )?;
    let table = swap(1.0);
    tell_values(
        rt,
        "The limit is reached, not exceeded, limit 1",
        Input::new(2, &table).limit(1),
    )?;
    tell_values(
        rt,
        "The limit is reached, not exceeded, limit 2",
        Input::new(2, &table).limit(2),
    )?;
    let table = banded([0.0, 1.0, 1.0], [1.0, 1.0]);
    tell_offs(rt, "The norm that cancel_y reports may be negative", &table)?;
    let table = [0.0, 0.0, 2.0, 0.0, 1.0, 1.0, 2.0, 1.0, 1.0];
    tell_vectors(rt, "The cosine that try_new takes", Input::new(3, &table))?;
    let (x, y) = (-small(540), small(541));
    let table = [1.0, x, y, x, 0.0, 0.0, y, 0.0, 0.0];
    tell_axis(
        rt,
        "The axis is not of unit length where no reflection is reported",
        &table,
    )?;
    let table = banded([0.0, 0.0, 0.0], [1.0, 0.0]);
    tell_axis(rt, "A reflection is reported where none is needed", &table)
}

fn digits_lost(rt: &HostRuntime) -> anyhow::Result<()> {
    let table = banded([0.0, 0.0, 1.0], [small(537), 1.0]);
    tell_vectors(
        rt,
        "Rotations without scaling, 2^-537",
        Input::new(3, &table),
    )?;
    // 1.5*2^-75
    let g = f32_from_bits_with_nan(0x1A40_0000);
    let table = [0.0, g, 0.0, g, 0.0, 1.0, 0.0, 1.0, 1.0];
    tell_vectors(
        rt,
        "Rotations without scaling, 1.5*2^-75 in binary32",
        Input::new(3, &table),
    )?;
    let table = banded([1.0, 0.0, 0.0], [small(27), small(530)]);
    tell_vectors(
        rt,
        "Rotations without scaling, 2^-530",
        Input::new(3, &table),
    )?;
    let table = banded([1.0, 0.0, 0.0], [small(27), 1.5 * small(511)]);
    tell_vectors(
        rt,
        "Rotations without scaling, 1.5*2^-511",
        Input::new(3, &table),
    )?;
    let table = banded([1.0, 0.0, 0.0], [0.0, small(600)]);
    tell_values(rt, "A norm whose square vanishes", Input::new(3, &table))?;
    let table = banded([1.0, 0.0, 0.0], [0.0, small(60)]);
    tell_vectors(
        rt,
        "A two-block's values without its turn, 2^-60",
        Input::new(3, &table),
    )?;
    let table = swap(1.0);
    let input = Input::new(2, &table).tolerance(1.5);
    tell_vectors(
        rt,
        "A two-block's values without its turn, tolerance 1.5",
        input,
    )?;
    let table = [0.0, 1.0, 1.0, 1.0, 0.0, 1.0, 1.0, 1.0, 0.0];
    tell_vectors(rt, "Tolerance 0, NaN", Input::new(3, &table).tolerance(0.0))?;
    let table = [0.0, 0.0, 1.0, 0.0, 0.0, 3.0, 1.0, 3.0, 0.0];
    tell_values(
        rt,
        "Tolerance 0, not settled",
        Input::new(3, &table).tolerance(0.0).limit(1_000_000),
    )?;
    let table = banded([1.0, 0.0, 0.0], [0.0, small(537)]);
    tell_values(rt, "PAIR", Input::new(3, &table))
}

fn form(rt: &HostRuntime) -> anyhow::Result<()> {
    tell_values(
        rt,
        "A table divided by its largest size",
        Input::new(2, &[49.0, 0.0, 0.0, 1.0]),
    )?;
    let mut table = [0.0; 81];
    table[1] = 1.0;
    table[2..9].fill(1.25 * small(27));
    tell_form(rt, "Dot products in eight sums", 9, &table)?;
    let table = [1.0, 1.0, 1.0, 1.0, 2.0, 1.0, 1.0, 1.0, 4.0];
    tell_form(rt, "An axis of unit length", 3, &table)?;
    tell_form(rt, "Three rank-one updates", 3, &table)?;
    tell_values(
        rt,
        "A block of two in closed form",
        Input::new(2, &[2.0, 1.0, 1.0, 3.0]),
    )?;
    tell_values(
        rt,
        "Values as they come",
        Input::new(3, &banded([1.0, 3.0, 2.0], [0.0, 0.0])),
    )
}
