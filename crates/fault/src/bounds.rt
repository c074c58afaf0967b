// The bounds that more than one crate checks.
ghost use Rattle.std.specs.Prelude.{◌≡◌};
ghost use Rattle.fault.specs.Bounds.{limit_fits, side_fits};

// Whether a table or a keeper may have this side: from 1 to 512.
pub fn side_fits(side: usize) -> bool
    ensures value { result ≡ side_fits side }
{
    (1..=512).contains(&side)
}

// Whether a run may have this limit: from 1 to 1,000,000.
pub fn limit_fits(limit: u32) -> bool
    ensures value { result ≡ limit_fits limit }
{
    (1..=1_000_000).contains(&limit)
}
