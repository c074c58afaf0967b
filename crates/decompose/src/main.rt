// Reduces, assembles and settles one real table: with all rows of Q, and then with both of two keepers, the rows of Q
// and those of the identity.
#![tactic(auto)]

use eigen::settle;
use fault::Fault;
use rows::{AllRows, Both, Keeper};
use std::num::f64_to_bits_with_nan;
use tridiagonal::{Reduction, assemble, reduce};

// What a reduction leaves.
#[derive(Drop)]
struct Form {
    reduction: Reduction<f64>,
    values: [f64; 3],
    offs: [f64; 2],
}

// The table (2 1 1)(1 3 1)(1 1 4), reduced and assembled.
fn reduced(q: &mut [f64]) -> Result<Form, Fault> {
    let mut table = [2.0, 1.0, 1.0, 1.0, 3.0, 1.0, 1.0, 1.0, 4.0];
    let mut values = [0.0; 3];
    let mut offs = [0.0; 2];
    let mut signs = [0.0; 2];
    let mut scratch = [0.0; 2];
    let reduction = reduce(
        3,
        &mut table,
        &mut values,
        &mut offs,
        &mut signs,
        &mut scratch,
    )?;
    assemble(&reduction, &table, &signs, q)?;
    Ok(Form {
        reduction,
        values,
        offs,
    })
}

// By index: a keeper is read by row and column, and lends no rows to loop over.
fn print_rows<K: Keeper<f64>>(rt: &HostRuntime, keeper: &K) -> anyhow::Result<()> {
    for row in 0..keeper.rows() {
        print!(rt; "row {row}:")?;
        for column in 0..keeper.width() {
            if let Ok(x) = keeper.read(row, column) {
                print!(rt; " {:016X}", f64_to_bits_with_nan(x))?;
            }
        }
        println!(rt; "")?;
    }
    Ok(())
}

fn settled<K: Keeper<f64>>(rt: &HostRuntime, form: Form, keeper: &mut K) -> anyhow::Result<()> {
    let Form {
        reduction,
        mut values,
        mut offs,
    } = form;
    match settle::<f64, K>(
        reduction,
        &mut values,
        &mut offs,
        keeper,
        f64::EPSILON,
        1000,
    ) {
        Ok(passes) => println!(rt; "passes {passes}")?,
        Err(why) => println!(rt; "{}", Fault::from(why))?,
    }
    for x in values {
        println!(rt; "value {:016X}", f64_to_bits_with_nan(x))?;
    }
    print_rows(rt, keeper)
}

fn with_all_rows(rt: &HostRuntime, form: Form, q: &mut [f64]) -> anyhow::Result<()> {
    settled(rt, form, &mut AllRows::new(3, 3, q))
}

fn with_both(rt: &HostRuntime, form: Form, q: &mut [f64]) -> anyhow::Result<()> {
    let mut unit = [1.0, 0.0, 0.0, 0.0, 1.0, 0.0, 0.0, 0.0, 1.0];
    let first = AllRows::new(3, 3, q);
    let second = AllRows::new(3, 3, &mut unit);
    settled(rt, form, &mut Both::new::<f64>(first, second))
}

// Reduces the table, and goes on with what is left and Q.
fn run<F: FnOnce(&HostRuntime, Form, &mut [f64]) -> anyhow::Result<()>>(
    rt: &HostRuntime,
    go_on: F,
) -> anyhow::Result<()>
    requires { F.IsAlwaysCallable go_on }
{
    let mut q = [0.0; 9];
    match reduced(&mut q) {
        Ok(form) => go_on(rt, form, &mut q)?,
        Err(fault) => println!(rt; "{fault}")?,
    }
    Ok(())
}

fn main(rt: HostRuntime) -> anyhow::Result<()> {
    run(&rt, with_all_rows)?;
    run(&rt, with_both)
}
