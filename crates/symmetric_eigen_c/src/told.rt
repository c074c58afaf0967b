// What is told of a refusal.
ghost use Rattle.std.specs.Prelude.{◌≡◌};
ghost use Rattle.fault.specs.Refusals.{refusal};
ghost use Rattle.symmetric_eigen_c.specs.Outcomes.{told, done_in, memory_wanting};

use crate::outcome::Outcome;
use fault::Fault;

// What bears no row and column.
fn bearing(number: u32, count: u32) -> Outcome
    ensures { result ≡ record { number = number; count = count; row = 0; column = 0 } }
{
    Outcome {
        number,
        count,
        row: 0,
        column: 0,
    }
}

pub(crate) fn done(passes: u32) -> Outcome
    ensures { result ≡ done_in passes }
{
    bearing(0, passes)
}

pub(crate) fn memory() -> Outcome
    ensures { result ≡ memory_wanting }
{
    bearing(255, 0)
}

pub(crate) fn told(fault: Fault) -> Outcome
    ensures { result ≡ told (refusal fault) }
{
    let number = u32::from(fault.number());
    match fault {
        Fault::Entry { row, column } => Outcome {
            number,
            count: 0,
            row,
            column,
        },
        Fault::NotSettled { count } | Fault::Pair { count } => bearing(number, count),
        _ => bearing(number, 0),
    }
}
