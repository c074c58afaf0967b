// The table itself. Its invariant is that of a lawful table: no other job can be built.
ghost use Rattle.std.specs.Prelude.{◌≡◌, ◌*◌, ◌≤◌, IsTrue, vec_len};
ghost use Rattle.std.specs.Option.{ForSome};
ghost use Rattle.fault.specs.Bounds.{limit_fits};
ghost use Rattle.job.specs.Gathered.{Gathered};
ghost use Rattle.job.specs.Once.{gathered_once};
ghost use Rattle.job.specs.Typed.{is_tolerance, typed_from};

use scalar::{Arithmetic, RealScalar, Scalar};

// `cells` holds the table column by column, None where nothing was typed; `largest` is the largest size so far.
// The tolerance and the limit are None until they are given.
#[derive(Drop)]
pub struct Job<T: Scalar> {
    pub(crate) side: usize,
    pub(crate) cells: Vec<Option<T>>,
    pub(crate) tolerance: Option<f64>,
    pub(crate) limit: Option<u32>,
    pub(crate) largest: T::Real,
    ghost some: { 1 ≤ side },
    ghost few: { side ≤ 32 },
    ghost whole: { vec_len cells ≡ side * side },
    ghost tolerable: { ForSome tolerance (λ t. IsTrue (is_tolerance t)) },
    ghost limited: { ForSome limit (λ n. IsTrue (limit_fits n)) },
    pub ghost gathered: { Gathered T.ops T.Real.real
        (typed_from side cells.items tolerance limit largest) } by { gathered_once T.code T.Real.code },
}
