// What a table can be.
ghost use Rattle.std.specs.Prelude.{◌≡◌};
ghost use Rattle.job.specs.Typed.{is_side, is_tolerance};

// The side of a sheet's table: smaller than the solver's bound.
pub(crate) fn is_side(side: usize) -> bool
    ensures value { result ≡ is_side side }
{
    (1..=32).contains(&side)
}

// The solver asks the same of a tolerance of any real kind; here it is a fact of a job's type, of an f64.
pub(crate) fn is_tolerance(tolerance: f64) -> bool
    ensures value { result ≡ is_tolerance tolerance }
{
    tolerance.is_finite() && 0.0 <= tolerance
}
