// Runs the library on seeded tables and prints a hash of each list that comes out, for comparison with nalgebra's
// answers, which are the expected output of this program.
#![tactic(auto)]

mod answers;
mod random;
mod sample;
mod table;

use answers::Buffers;
use sample::Sample;
use scalar::Complex;
use table::{Case, Shape};

fn run<T: Sample>(rt: &HostRuntime, name: &str, case: Case) -> anyhow::Result<()> {
    let Case {
        side,
        seed,
        shape: _,
    } = case;
    let buffers = Buffers::<T>::new(rt.alloc(), case)?;
    match buffers.answers() {
        Ok(answers) => println!(rt; "{name} side {side} seed {seed} {answers}")?,
        Err(fault) => println!(rt; "{name} side {side} seed {seed} {fault}")?,
    }
    Ok(())
}

// The tables of one side: one of each shape, but a graded one only where the side is small.
fn runs<T: Sample>(rt: &HostRuntime, name: &str, side: u16) -> anyhow::Result<()> {
    let shapes = [
        (Shape::Dense, 1),
        (Shape::OwnUpper, 2),
        (Shape::Banded, 3),
        (Shape::Graded, 4),
    ];
    for (shape, n) in shapes {
        let seed = u64::from(side).wrapping_mul(1000).wrapping_add(n);
        let side = usize::from(side);
        if side <= 33 || shape != Shape::Graded {
            run::<T>(rt, name, Case { side, seed, shape })?;
        }
    }
    Ok(())
}

fn kind<T: Sample>(rt: &HostRuntime, name: &str) -> anyhow::Result<()> {
    for side in [1, 2, 3, 8, 9, 17, 33, 100] {
        runs::<T>(rt, name, side)?;
    }
    Ok(())
}

fn main(rt: HostRuntime) -> anyhow::Result<()> {
    kind::<f64>(&rt, "r64")?;
    kind::<f32>(&rt, "r32")?;
    kind::<Complex<f64>>(&rt, "o64")?;
    kind::<Complex<f32>>(&rt, "o32")
}
