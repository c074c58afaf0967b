// What a reduction is refused for.
ghost use Rattle.std.specs.Prelude.{◌≡◌, not, position};
ghost use Rattle.tridiagonal.specs.Checks.{entry_refusal, refusal_for};
ghost use Rattle.tridiagonal.specs.Householder.{kind};
ghost use Rattle.tridiagonal.specs.Outcome.{refused_in};

use crate::table::Table;
use fault::{Fault, side_fits};
use scalar::{Arithmetic, RealScalar, Scalar};

// The place of the first entry whose size is not finite: apart from its refusal, so that the search is proved alone.
fn first_not_finite<T: Scalar>(table: &[T]) -> Option<usize>
    ensures { result ≡ position (λ x. not (T.Real.real.is_finite (T.ops.size x))) table.now }
{
    table.iter().position(|x| !x.size().is_finite())
}

impl<T: Scalar> Table<'_, T> {
    // The first entry whose size is not finite, by its row and column.
    #[tactic(auto, using(crate::proofs::Entries::entry_checked))]
    fn check_entries(&self) -> Result<(), Fault>
        ensures { refused_in result ≡ entry_refusal (kind T.ops T.Real.ops T.Real.real) self.now.n 0 self.now.entries.now }
    {
        let Some(k) = first_not_finite(self.entries) else {
            return Ok(());
        };
        Err(Fault::Entry {
            row: k % self.n,
            column: k / self.n,
        })
    }
}

// The refusals of a reduction, in their order: the side, the lengths, the entries.
#[tactic(auto, unfolding(crate::specs::Checks::reduce_refusal))]
pub(crate) fn check<T: Scalar>(
    n: usize,
    table: &[T],
    values: &[T::Real],
    offs: &[T::Real],
    signs: &[T],
    scratch: &[T],
) -> Result<(), Fault>
    ensures { refused_in result ≡ refusal_for (kind T.ops T.Real.ops T.Real.real) n
        table.now values.now offs.now signs.now scratch.now }
{
    if !side_fits(n) {
        return Err(Fault::Side);
    }
    let lengths = [
        table.len(),
        values.len(),
        offs.len(),
        signs.len(),
        scratch.len(),
    ];
    if lengths != [n * n, n, n - 1, n - 1, n - 1] {
        return Err(Fault::Length);
    }
    Table { entries: table, n }.check_entries()
}
